//! A tree: what the tables of its keys are.
ghost use Rattle.std.specs.Prelude.{◌≡◌, IfOk};
ghost use Rattle.slate_model.specs.Cores.{empty_tree};

use slate_ids::{Listed, OutOfMemory, Ulid, clone_both};
use slate_model_tables::{Plain, Queue, SortedRun, SsTableView};
use std::alloc::Global;

/// A tree: the tables that flushes wrote, and the sorted runs that compactions made of them.
#[derive(Debug, Drop)]
pub struct LsmTreeState {
    /// The view that was compacted last of those that flushes wrote.
    pub last_compacted_l0_sst_view_id: Option<Ulid>,
    /// The table that was compacted last of those that flushes wrote.
    pub last_compacted_l0_sst_id: Option<Ulid>,
    /// The views of the tables that flushes wrote and no compaction took, the newest first.
    pub l0: Queue<SsTableView>,
    /// The sorted runs, the newest first.
    pub compacted: Listed<SortedRun>,
}

impl LsmTreeState {
    /// A tree without tables. Takes no memory.
    pub fn new(alloc: Global) -> LsmTreeState
        ensures { result ≡ empty_tree }
    {
        LsmTreeState {
            last_compacted_l0_sst_view_id: None,
            last_compacted_l0_sst_id: None,
            l0: Queue::new(alloc),
            compacted: Listed::new(alloc),
        }
    }

    /// An equal value. It shares the keys.
    pub fn clone(&self, alloc: Global) -> Result<LsmTreeState, OutOfMemory>
        ensures { IfOk result (λ copied. copied ≡ self.now) }
    {
        let (l0, compacted) = clone_both(alloc, &self.l0, &self.compacted)?;
        Ok(LsmTreeState {
            last_compacted_l0_sst_view_id: self.last_compacted_l0_sst_view_id,
            last_compacted_l0_sst_id: self.last_compacted_l0_sst_id,
            l0,
            compacted,
        })
    }
}

impl Plain for LsmTreeState {
    fn clone(&self, alloc: Global) -> Result<LsmTreeState, OutOfMemory> {
        LsmTreeState::clone(self, alloc)
    }

    fn is(&self, other: &LsmTreeState) -> bool {
        self.last_compacted_l0_sst_view_id == other.last_compacted_l0_sst_view_id
            && self.last_compacted_l0_sst_id == other.last_compacted_l0_sst_id
            && self.l0.is(&other.l0)
            && self.compacted.is(&other.compacted)
    }
}
