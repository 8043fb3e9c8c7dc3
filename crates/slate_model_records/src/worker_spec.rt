//! Who runs a compaction.

use slate_ids::{OutOfMemory, Text};
use slate_model_tables::Plain;
use std::alloc::Global;

/// The worker that runs a compaction.
#[derive(Debug, Drop)]
pub struct WorkerSpec {
    /// Which worker.
    pub worker_id: Text,
    /// When it was last heard of, in milliseconds since the Unix epoch.
    pub last_heartbeat_ms: u64,
}

impl Plain for WorkerSpec {
    fn clone(&self, alloc: Global) -> Result<WorkerSpec, OutOfMemory> {
        Ok(WorkerSpec {
            worker_id: self.worker_id.copy(alloc)?,
            last_heartbeat_ms: self.last_heartbeat_ms,
        })
    }

    fn is(&self, other: &WorkerSpec) -> bool {
        self.worker_id.is(&other.worker_id) && self.last_heartbeat_ms == other.last_heartbeat_ms
    }
}
