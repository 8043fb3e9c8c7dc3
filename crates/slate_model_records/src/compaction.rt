//! A compaction.

use crate::compaction_context::CompactionContext;
use crate::compaction_spec::CompactionSpec;
use crate::compaction_status::CompactionStatus;
use crate::worker_spec::WorkerSpec;
use slate_ids::{Listed, OutOfMemory, Ulid, clone_both};
use slate_model_tables::{Plain, SsTableHandle};
use std::alloc::Global;

/// A compaction, as a record has it.
#[derive(Debug, Drop)]
pub struct Compaction {
    /// Which compaction.
    pub id: Ulid,
    /// What it is to do.
    pub spec: CompactionSpec,
    /// How far it is.
    pub status: CompactionStatus,
    /// Who runs it, where a worker has it.
    pub worker: Option<WorkerSpec>,
    /// The tables that it has written, in order.
    pub output_ssts: Listed<SsTableHandle>,
    /// What a worker needs to go on with it, where that is known.
    pub ctx: Option<CompactionContext>,
}

impl Plain for Compaction {
    fn clone(&self, alloc: Global) -> Result<Compaction, OutOfMemory> {
        let (spec, worker) = clone_both(alloc, &self.spec, &self.worker)?;
        match clone_both(alloc, &self.output_ssts, &self.ctx) {
            Ok((output_ssts, ctx)) => Ok(Compaction {
                id: self.id,
                spec,
                status: self.status,
                worker,
                output_ssts,
                ctx,
            }),
            Err(e) => {
                drop(spec);
                drop(worker);
                Err(e)
            }
        }
    }

    fn is(&self, other: &Compaction) -> bool {
        self.id == other.id
            && self.spec.is(&other.spec)
            && self.status == other.status
            && self.worker.is(&other.worker)
            && self.output_ssts.is(&other.output_ssts)
            && self.ctx.is(&other.ctx)
    }
}
