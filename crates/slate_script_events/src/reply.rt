//! Replies of calls.
ghost use Rattle.std.specs.Prelude.{◌≡◌, IfOk};

use slate_ids::{CheckpointId, OutOfMemory, SlateDBError};
use std::alloc::Global;

/// What a call of a party ends with.
#[derive(Debug, Drop)]
pub enum Reply {
    /// The call was done, and there is nothing to tell.
    Done,
    /// The epoch that an open committed.
    Epoch(u64),
    /// A checkpoint, and the number of the version that it names.
    Checkpoint(CheckpointId, u64),
    /// The end of a pass: how many objects it picked, how many of those it deleted, and how many deletes failed.
    Pass {
        picked: u64,
        deleted: u64,
        failed: u64,
    },
    /// The call was refused.
    Refused(SlateDBError),
}

impl Reply {
    /// An equal reply.
    pub fn copy(&self, alloc: Global) -> Result<Reply, OutOfMemory>
        ensures { IfOk result (λ copied. copied ≡ self.now) }
    {
        Ok(match self {
            Reply::Done => Reply::Done,
            Reply::Epoch(n) => Reply::Epoch(*n),
            Reply::Checkpoint(id, version) => Reply::Checkpoint(*id, *version),
            Reply::Pass {
                picked,
                deleted,
                failed,
            } => Reply::Pass {
                picked: *picked,
                deleted: *deleted,
                failed: *failed,
            },
            Reply::Refused(refusal) => Reply::Refused(refusal.copy(alloc)?),
        })
    }
}
