//! What a worker needs to run a compaction, or to go on with it.

use crate::subcompaction::Subcompaction;
use slate_ids::{Listed, OutOfMemory};
use slate_model_tables::Plain;
use std::alloc::Global;

/// What a worker needs to run a compaction, or to go on with it.
#[derive(Debug, Drop)]
pub struct CompactionContext {
    /// The parts that it is split into, in order.
    pub subcompactions: Listed<Subcompaction>,
    /// The least sequence number that must be kept, where it is known.
    pub retention_min_seq: Option<u64>,
}

impl Plain for CompactionContext {
    fn clone(&self, alloc: Global) -> Result<CompactionContext, OutOfMemory> {
        Ok(CompactionContext {
            subcompactions: self.subcompactions.clone(alloc)?,
            retention_min_seq: self.retention_min_seq,
        })
    }

    fn is(&self, other: &CompactionContext) -> bool {
        self.subcompactions.is(&other.subcompactions)
            && self.retention_min_seq == other.retention_min_seq
    }
}
