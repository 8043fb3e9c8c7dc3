//! A walk along the segments of a writer and of a compactor, in the order of their prefixes.
ghost use Rattle.std.specs.Prelude.{◌≡◌, ◌<◌, ◌+◌, [], length, IfNone, IfSome, IfOk};
ghost use Rattle.slate_state_merges.specs.Merging.{merged};
ghost use Rattle.slate_state_merges.specs.SideBySide.{Takes, turn_merged};

use crate::tree_merge::merge_writer_and_compactor;
use bytes::Bytes;
use slate_ids::OutOfMemory;
use slate_model::{LsmTreeState, Plain, Segment};
use std::alloc::Global;
use std::cmp::Ordering;

/// The next segments of a walk: of one side alone, or of both where their prefixes are one.
#[derive(Clone, Copy)]
pub(crate) enum Turn<'a> {
    Writer(&'a Segment),
    Compactor(&'a Segment),
    Both(&'a Segment, &'a Segment),
}

/// The segments that are left of either side.
#[derive(Clone, Copy)]
pub(crate) struct SideBySide<'a> {
    pub(crate) writer: &'a [Segment],
    pub(crate) compactor: &'a [Segment],
}

impl<'a> SideBySide<'a> {
    /// The next turn: the segments whose prefix is the least of those that are left; none where no segments are.
    #[tactic(auto, using(crate::proofs::Ascents::greater, crate::proofs::Ascents::equal))]
    pub(crate) fn next(&mut self) -> Option<Turn<'a>>
        ensures writer { IfNone result (self.old.writer.now ≡ []) }
        ensures compactor { IfNone result (self.old.compactor.now ≡ []) }
        ensures takes { IfSome result (λ turn. Takes turn self.old.writer.now self.old.compactor.now
            self.new.writer.now self.new.compactor.now) }
        ensures falls { IfSome result (λ turn. length self.new.writer.now + length self.new.compactor.now
            < length self.old.writer.now + length self.old.compactor.now) }
    {
        match self.writer.split_first() {
            None => match self.compactor.split_first() {
                None => None,
                Some((theirs, left)) => {
                    self.compactor = left;
                    Some(Turn::Compactor(theirs))
                }
            },
            Some((ours, left)) => match self.compactor.split_first() {
                None => {
                    self.writer = left;
                    Some(Turn::Writer(ours))
                }
                Some((theirs, theirs_left)) => {
                    match ours.prefix().as_slice().cmp(theirs.prefix().as_slice()) {
                        Ordering::Less => {
                            self.writer = left;
                            Some(Turn::Writer(ours))
                        }
                        Ordering::Greater => {
                            self.compactor = theirs_left;
                            Some(Turn::Compactor(theirs))
                        }
                        Ordering::Equal => {
                            self.writer = left;
                            self.compactor = theirs_left;
                            Some(Turn::Both(ours, theirs))
                        }
                    }
                }
            },
        }
    }
}

// A segment of this prefix with the merge of a writer's and a compactor's tree.
fn merge_at(
    alloc: Global,
    prefix: &Bytes,
    writer: &LsmTreeState,
    compactor: &LsmTreeState,
) -> Result<Segment, OutOfMemory>
    ensures { IfOk result (λ s. s ≡ record { prefix = prefix.now; tree = merged writer.now compactor.now }) }
{
    let tree = merge_writer_and_compactor(alloc, writer, compactor)?;
    match Plain::clone(prefix, alloc) {
        Ok(prefix) => Ok(Segment::new(prefix, tree)),
        Err(e) => {
            drop(tree);
            Err(e)
        }
    }
}

impl<'a> Turn<'a> {
    /// The segment of the turn's prefix with the merge of its trees. A side that has none counts as one without tables.
    pub(crate) fn merge(&self, alloc: Global) -> Result<Segment, OutOfMemory>
        ensures { IfOk result (λ s. s ≡ turn_merged self.now) }
    {
        let empty = LsmTreeState::new(alloc);
        let merged = match self {
            Turn::Writer(s) => merge_at(alloc, s.prefix(), s.tree(), &empty),
            Turn::Compactor(s) => merge_at(alloc, s.prefix(), &empty, s.tree()),
            Turn::Both(s, t) => merge_at(alloc, s.prefix(), s.tree(), t.tree()),
        };
        drop(empty);
        merged
    }
}
