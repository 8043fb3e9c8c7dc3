//! How far a compaction is.
ghost use Rattle.std.specs.Prelude.{◌≡◌};
ghost use Rattle.slate_model_records.specs.Compactions as compactions;

use slate_ids::OutOfMemory;
use slate_model_tables::Plain;
use std::alloc::Global;

/// How far a compaction is.
#[derive(Clone, Copy, Debug, Drop, PartialEq, Eq)]
pub enum CompactionStatus {
    /// It was asked for.
    Submitted,
    /// It is to run, and no worker has it yet.
    Scheduled,
    /// A worker has it.
    Running,
    /// Its outputs are written, and no manifest uses them yet.
    Compacted,
    /// A manifest uses its outputs.
    Completed,
    /// It will never be done.
    Failed,
}

impl CompactionStatus {
    /// Whether the compaction is over: it is completed or has failed.
    pub fn is_terminal(&self) -> bool
        ensures { result ≡ compactions.is_terminal self.now }
    {
        matches!(self, CompactionStatus::Completed | CompactionStatus::Failed)
    }
}

impl Plain for CompactionStatus {
    fn clone(&self, _alloc: Global) -> Result<CompactionStatus, OutOfMemory> {
        Ok(*self)
    }

    fn is(&self, other: &CompactionStatus) -> bool {
        self == other
    }
}
