//! The segments of a writer and of a compactor, merged by prefix.
ghost use Rattle.std.specs.Prelude.{◌≡◌, ◌⊎◌, ◌++◌, IfOk, IfErr, OnOk, Ok, Err, true, option_to_list};
ghost use Rattle.slate_ids.specs.Answers.{Gives, is_memory};
ghost use Rattle.slate_model.specs.Segments.{IsAscending};
ghost use Rattle.slate_state_merges.specs.SegmentMerging as merging;
ghost use Rattle.slate_state_merges.specs.SideBySide.{followed, kept};
ghost use Rattle.slate_state_merges.specs.SegmentMerging.{Ascends, from_writer, from_compactor, IsMergeByPrefix};

use crate::side_by_side::{SideBySide, Turn};
use slate_ids::{OutOfMemory, SlateDBError};
use slate_model::{LsmTreeState, Plain, Segment};
use std::alloc::Global;

// Whether a tree holds tables.
fn holds_tables(tree: &LsmTreeState) -> bool
    ensures { result ≡ merging.holds_tables tree.now }
{
    !(tree.l0.as_deque().is_empty() && tree.compacted.as_slice().is_empty())
}

// Adds a segment at the end, where there is one.
fn push_some(segments: &mut Vec<Segment>, segment: Option<Segment>) -> Result<(), OutOfMemory>
    ensures { OnOk result (segments.new.items ≡ segments.old.items ++ option_to_list segment) }
{
    match segment {
        None => Ok(()),
        Some(segment) => Ok(segments.push(segment)?),
    }
}

// Adds a segment at the end, where its tree holds tables.
fn push_kept(segments: &mut Vec<Segment>, segment: Segment) -> Result<(), OutOfMemory>
    ensures { OnOk result (segments.new.items ≡ segments.old.items ++ kept segment) }
{
    if holds_tables(segment.tree()) {
        Ok(segments.push(segment)?)
    } else {
        drop(segment);
        Ok(())
    }
}

// What a compactor makes of a turn: the merge, or nothing where the writer has no segment. Refused where that one holds tables.
fn follow_writer(alloc: Global, turn: &Turn<'_>) -> Result<Option<Segment>, SlateDBError>
    ensures { Gives result (followed turn.now) }
{
    match turn {
        Turn::Compactor(s) if holds_tables(s.tree()) => Err(SlateDBError::SegmentWithoutWriter(
            Plain::clone(s.prefix(), alloc)?,
        )),
        Turn::Compactor(_) => Ok(None),
        _ => Ok(Some(turn.merge(alloc)?)),
    }
}

/// A compactor's segments (`local`) merged with those of a writer: each of the writer's, ascending, whose tree is merged with the
/// compactor's of its prefix, or with none. A segment that the compactor alone has goes. Refused with `SegmentWithoutWriter` where such a
/// one holds tables in L0 or in runs, with the first of these prefixes. Both lists ascend strictly by prefix (`prefixes_ascend`).
pub fn merge_segments_from_writer(
    alloc: Global,
    local: &[Segment],
    writer: &[Segment],
) -> Result<Vec<Segment>, SlateDBError>
    requires local { Ascends local.now }
    requires writer { Ascends writer.now }
    ensures ok { IfOk result (λ segments. from_writer local.now writer.now ≡ Ok segments.items) }
    ensures err { IfErr result
        (λ e. (from_writer local.now writer.now ≡ Err e) ⊎ (is_memory e ≡ true)) }
    ensures ascends { IfOk result (λ segments. Ascends segments.items) }
    ensures named { IfOk result (λ segments. IsAscending writer.now → IsAscending segments.items) }
{
    let mut merged = Vec::new(alloc);
    let mut left = SideBySide {
        writer,
        compactor: local,
    };
    'turns: loop {
        match left.next() {
            None => return Ok(merged),
            Some(turn) => match follow_writer(alloc, &turn) {
                Err(e) => return Err(e),
                Ok(segment) => push_some(&mut merged, segment)?,
            },
        }
    }
}

/// A writer's segments (`local`) merged with those of a compactor: one for each prefix of either, ascending, whose tree is the merge of
/// both sides' trees. A segment whose merge holds no tables goes, also where it has a marker. It is never refused but for want of
/// memory. Both lists ascend strictly by prefix (`prefixes_ascend`).
pub fn merge_segments_from_compactor(
    alloc: Global,
    local: &[Segment],
    compactor: &[Segment],
) -> Result<Vec<Segment>, SlateDBError>
    requires local { Ascends local.now }
    requires compactor { Ascends compactor.now }
    ensures ok { IfOk result (λ segments. segments.items ≡ from_compactor local.now compactor.now) }
    ensures memory { IfErr result (λ e. is_memory e ≡ true) }
    ensures by_prefix { IfOk result (λ segments. IsMergeByPrefix local.now compactor.now segments.items) }
    ensures ascends { IfOk result (λ segments. Ascends segments.items) }
    ensures named { IfOk result (λ segments. IsAscending local.now → IsAscending compactor.now
        → IsAscending segments.items) }
{
    let mut merged = Vec::new(alloc);
    let mut left = SideBySide {
        writer: local,
        compactor,
    };
    'turns: loop {
        match left.next() {
            None => return Ok(merged),
            Some(turn) => push_kept(&mut merged, turn.merge(alloc)?)?,
        }
    }
}
