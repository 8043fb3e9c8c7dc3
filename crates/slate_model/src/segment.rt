//! A segment of a database.
ghost use Rattle.std.specs.Prelude.{◌≡◌, IfOk};
ghost use Rattle.std.specs.Borrow.{sem};
ghost use Rattle.slate_model.specs.Segments as ascending;
ghost use Rattle.slate_model.specs.Lending.{LendsTree};

use crate::lsm_tree_state::LsmTreeState;
use bytes::Bytes;
use slate_ids::{OutOfMemory, Ulid, clone_both};
use slate_model_tables::{Plain, SortedRun, SsTableView};
use std::alloc::Global;
use std::collections::VecDeque;
use std::marker::Model;

/// A segment: the keys that begin with a prefix have a tree of their own.
#[derive(Debug, Drop)]
pub struct Segment {
    prefix: Bytes,
    tree: LsmTreeState,
}

impl Model for Segment {
    ghost use Rattle.slate_model.specs.Segments.{Prefixed};

    ghost Value = { Prefixed };

    ghost view = { λ a. record { prefix = a.prefix; tree = a.tree } };

    ghost inverse = { λ d. record { prefix = d.prefix; tree = d.tree } };
}

impl Segment {
    /// The segment of this prefix, with this tree. Takes no memory.
    pub fn new(prefix: Bytes, tree: LsmTreeState) -> Segment
        ensures { result ≡ record { prefix = prefix; tree = tree } }
    {
        Segment { prefix, tree }
    }

    /// What its keys begin with.
    pub fn prefix(&self) -> &Bytes
        ensures { result.now ≡ self.now.prefix }
    {
        &self.prefix
    }

    /// The tree of its keys.
    pub fn tree(&self) -> &LsmTreeState
        ensures { result.now ≡ self.now.tree }
    {
        &self.tree
    }

    /// The tree of its keys, to be changed.
    pub(crate) fn tree_mut(&mut self) -> &mut LsmTreeState
        ensures* lends { sem 𝓛 (LendsTree self.entry result) }
        ensures tree { result.now ≡ self.old.tree }
    {
        &mut self.tree
    }

    /// The views of the tables that flushes wrote and no compaction took, the newest first.
    pub fn l0(&self) -> &VecDeque<SsTableView>
        ensures { result.now.items ≡ self.now.tree.l0 }
    {
        self.tree.l0.as_deque()
    }

    /// The sorted runs, the newest first.
    pub fn compacted(&self) -> &Vec<SortedRun>
        ensures { result.now.items ≡ self.now.tree.compacted }
    {
        self.tree.compacted.as_vec()
    }

    /// The view that was compacted last of those that flushes wrote.
    pub fn last_compacted_l0_sst_view_id(&self) -> Option<Ulid>
        ensures { result ≡ self.now.tree.last_compacted_l0_sst_view_id }
    {
        self.tree.last_compacted_l0_sst_view_id
    }

    /// The table that was compacted last of those that flushes wrote.
    pub fn last_compacted_l0_sst_id(&self) -> Option<Ulid>
        ensures { result ≡ self.now.tree.last_compacted_l0_sst_id }
    {
        self.tree.last_compacted_l0_sst_id
    }
}

impl Segment {
    /// Whether no prefix is empty and the prefixes ascend strictly, as those of a manifest do. Takes no memory.
    pub fn are_ascending(segments: &[Segment]) -> bool
        ensures { result ≡ ascending.are_ascending segments.now }
    {
        let mut last: &[u8] = &[];
        for segment in segments {
            let prefix = segment.prefix().as_slice();
            if !last.cmp(prefix).is_lt() {
                return false;
            }
            last = prefix;
        }
        true
    }

    /// An equal value. It shares the keys.
    pub fn clone(&self, alloc: Global) -> Result<Segment, OutOfMemory>
        ensures { IfOk result (λ copied. copied ≡ self.now) }
    {
        let (prefix, tree) = clone_both(alloc, &self.prefix, &self.tree)?;
        Ok(Segment { prefix, tree })
    }
}

impl Plain for Segment {
    fn clone(&self, alloc: Global) -> Result<Segment, OutOfMemory> {
        Segment::clone(self, alloc)
    }

    fn is(&self, other: &Segment) -> bool {
        self.prefix.is(&other.prefix) && self.tree.is(&other.tree)
    }
}
