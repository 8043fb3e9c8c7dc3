//! What a compaction reads.

use slate_ids::{OutOfMemory, Ulid};
use slate_model_tables::Plain;
use std::alloc::Global;

/// One source of a compaction.
#[derive(Clone, Copy, Debug, PartialEq, Eq)]
pub enum SourceId {
    /// A view of a flushed table, by the view's id.
    SstView(Ulid),
    /// A sorted run, by its number.
    SortedRun(u32),
}

impl Plain for SourceId {
    fn clone(&self, _alloc: Global) -> Result<SourceId, OutOfMemory> {
        Ok(*self)
    }

    fn is(&self, other: &SourceId) -> bool {
        self == other
    }
}
