//! A view in front of the L0 of a prefix, whether or not the prefix nests with another.
ghost use Rattle.std.specs.Prelude.{◌≡◌, ◌≤◌, insert, length, IfOk, IfErr, OnOk, None, true, is_some};
ghost use Rattle.slate_ids.specs.Answers.{is_memory};
ghost use Rattle.slate_ids.specs.Keys.{key_lt};
ghost use Rattle.slate_model.specs.Cores.{empty_tree};
ghost use Rattle.slate_model.specs.Insertion.{insertion_refusal, or_empty, placed as placed_in, tree_for, with_tree};
ghost use Rattle.slate_model.specs.Segments.{segment_at, place_of as place_in};
ghost use Rattle.slate_state_updates.specs.Flushes.{with_newest};

use bytes::Bytes;
use slate_ids::{OutOfMemory, SlateDBError, copies};
use slate_model::{LsmTreeState, ManifestCore, Plain, Segment, SsTableView};
use std::alloc::Global;

// Whether a prefix nests with one that stands beside it.
fn nests(alloc: Global, core: &ManifestCore, prefix: &[u8]) -> Result<bool, OutOfMemory>
    ensures { IfOk result (λ b. b ≡ is_some (insertion_refusal prefix.now core.now)) }
{
    if prefix.is_empty() {
        return Ok(false);
    }
    match core.check_segment_prefix_antichain(alloc, prefix) {
        Ok(()) => Ok(false),
        Err(e) => {
            let memory = e.is_memory();
            drop(e);
            if memory { Err(OutOfMemory) } else { Ok(true) }
        }
    }
}

// Puts a view in front of the L0 of a prefix that nests with none.
fn push_apart(
    alloc: Global,
    core: &mut ManifestCore,
    prefix: &Bytes,
    view: SsTableView,
) -> Result<(), SlateDBError>
    requires apart { insertion_refusal prefix.now core.old ≡ None }
    ensures ok { OnOk result
        (core.new ≡ with_tree prefix.now core.old (with_newest view (or_empty (tree_for prefix.now core.old)))) }
    ensures memory { IfErr result (λ e. is_memory e ≡ true) }
{
    match core.maybe_insert_tree(alloc, prefix) {
        Ok(tree) => Ok(tree.l0.push_front(view)?),
        Err(e) => {
            drop(view);
            Err(e)
        }
    }
}

// Whether a segment stands before this prefix.
fn is_before(segment: &Segment, prefix: &[u8]) -> bool
    ensures { result ≡ key_lt segment.now.prefix prefix.now }
{
    segment.prefix().as_slice().cmp(prefix).is_lt()
}

// How many segments stand before this prefix.
fn place_of(segments: &[Segment], prefix: &[u8]) -> usize
    ensures place { result ≡ place_in prefix.now segments.now }
    ensures within { result ≤ length segments.now }
{
    let mut place = 0;
    for segment in segments {
        if !is_before(segment, prefix) {
            return place;
        }
        place += 1;
    }
    place
}

// The segment of an equal prefix, with this tree.
fn segment_of(alloc: Global, prefix: &Bytes, tree: LsmTreeState) -> Result<Segment, OutOfMemory>
    ensures { IfOk result (λ segment. segment ≡ record { prefix = prefix.now; tree = tree }) }
{
    match Plain::clone(prefix, alloc) {
        Ok(copied) => Ok(Segment::new(copied, tree)),
        Err(e) => {
            drop(tree);
            Err(e)
        }
    }
}

// Equal segments, with one more at this place.
fn with_segment(
    alloc: Global,
    segments: &[Segment],
    place: usize,
    segment: Segment,
) -> Result<Vec<Segment>, OutOfMemory>
    requires within { place ≤ length segments.now }
    ensures { IfOk result (λ all. all.items ≡ insert segments.now place segment) }
{
    match copies(alloc, segments.iter()) {
        Ok(copied) => {
            let mut all = copied;
            match all.insert(place, segment) {
                Ok(()) => Ok(all),
                Err(e) => {
                    drop(e);
                    drop(all);
                    Err(OutOfMemory)
                }
            }
        }
        Err(e) => {
            drop(segment);
            Err(e)
        }
    }
}

// Equal segments, with this tree in a new one at the place of its prefix.
#[tactic(auto, using(crate::proofs::Placings::inserted))]
fn placed(
    alloc: Global,
    segments: &[Segment],
    prefix: &Bytes,
    tree: LsmTreeState,
) -> Result<Vec<Segment>, OutOfMemory>
    requires absent { segment_at prefix.now segments.now ≡ None }
    ensures { IfOk result (λ all. all.items ≡ placed_in prefix.now tree segments.now) }
{
    let segment = segment_of(alloc, prefix, tree)?;
    let place = place_of(segments, prefix.as_slice());
    with_segment(alloc, segments, place, segment)
}

// The tree of this view alone.
fn tree_of(alloc: Global, view: SsTableView) -> Result<LsmTreeState, OutOfMemory>
    ensures { IfOk result (λ tree. tree ≡ with_newest view empty_tree) }
{
    let mut tree = LsmTreeState::new(alloc);
    match tree.l0.push_front(view) {
        Ok(()) => Ok(tree),
        Err(e) => {
            drop(tree);
            Err(e)
        }
    }
}

// Puts a view in front of the L0 of a prefix that nests with another, and so has no segment yet.
fn push_nested(
    alloc: Global,
    core: &mut ManifestCore,
    prefix: &Bytes,
    view: SsTableView,
) -> Result<(), OutOfMemory>
    requires nested { is_some (insertion_refusal prefix.now core.old) ≡ true }
    ensures { OnOk result
        (core.new ≡ with_tree prefix.now core.old (with_newest view (or_empty (tree_for prefix.now core.old)))) }
{
    let tree = tree_of(alloc, view)?;
    let segments = placed(alloc, core.segments(), prefix, tree)?;
    core.set_segments(segments);
    Ok(())
}

/// Puts a view in front of the L0 of a prefix, in a new segment where it has none; also where the prefix nests with another, which the
/// rules refuse.
pub(crate) fn push_newest(
    alloc: Global,
    core: &mut ManifestCore,
    prefix: &Bytes,
    view: SsTableView,
) -> Result<(), SlateDBError>
    ensures ok { OnOk result
        (core.new ≡ with_tree prefix.now core.old (with_newest view (or_empty (tree_for prefix.now core.old)))) }
    ensures memory { IfErr result (λ e. is_memory e ≡ true) }
{
    match nests(alloc, core, prefix.as_slice()) {
        Ok(true) => Ok(push_nested(alloc, core, prefix, view)?),
        Ok(false) => push_apart(alloc, core, prefix, view),
        Err(_) => {
            drop(view);
            Err(SlateDBError::OutOfMemory)
        }
    }
}
