//! Changes of a record of compactions: what a commit puts.
ghost use Rattle.std.specs.Prelude.{◌≡◌, IfOk};
ghost use Rattle.slate_state_record_updates.specs.RecordChanges as changes;
ghost use Rattle.slate_state_record_updates.specs.RecordEpochs.{with_record_epoch};

use crate::entry_steps::{claim, report, schedule, submit};
use crate::whole_records::{put_statuses, reset};
use slate_ids::{Listed, Millis, OutOfMemory, SlateDBError, Ulid};
use slate_model::{CompactionSpec, Compactions, Plain, SsTableHandle};
use slate_txn_changes::{Change, holder_fence};
use slate_txn_log::{Right, fence};
use std::alloc::Global;

/// What a commit puts, of the version of a record that was read. A change of one compaction that is there is refused with
/// `InvalidDBState`: `NoSuchCompaction` where the record lacks it, `CompactionState` where it has another status or worker than the
/// change needs.
#[derive(Debug, Drop)]
pub enum RecordChange {
    /// The epoch that the compactor got in the manifest. Refused with `Fenced` where the record read has a greater one.
    GiveEpoch {
        epoch: u64,
    },
    /// Each compaction that was to run is Submitted, without a worker; then a trim with nothing pending. Fenced by this epoch, as
    /// `GiveEpoch`.
    Reset {
        epoch: u64,
    },
    /// From Submitted to Scheduled, by the compactor of this epoch. Refused with `Fenced` where the record read has a greater one, and
    /// with `InvalidDBState` of `NotOpen` where the compactor hasn't opened the database.
    Schedule {
        compactor: Option<u64>,
        id: Ulid,
    },
    /// From Scheduled to Running, by the worker of this party number.
    Claim {
        id: Ulid,
        worker: u32,
    },
    /// From Running under the worker of this party number to Compacted, with these outputs.
    Report {
        id: Ulid,
        worker: u32,
        outputs: Listed<SsTableHandle>,
    },
    /// The statuses of the compactions of the local record that are over, then a trim but for `pending`. Fenced as `Schedule`.
    PutStatuses {
        compactor: Option<u64>,
        local: Compactions,
        pending: Listed<Ulid>,
    },
    /// One compaction more, Submitted. Nothing, where the id is there.
    Submit {
        id: Ulid,
        spec: CompactionSpec,
    },
}

// An equal record with another epoch.
fn with_epoch(
    alloc: Global,
    epoch: u64,
    compactions: &Compactions,
) -> Result<Compactions, OutOfMemory>
    ensures { IfOk result (λ r. r ≡ with_record_epoch compactions.now epoch) }
{
    let mut new = compactions.clone(alloc)?;
    new.compactor_epoch = epoch;
    Ok(new)
}

impl Change<Compactions> for RecordChange {
    ghost made = { λ change now n compactions. changes.made change now n compactions };

    ghost right_of = { λ change. changes.right_of change };

    ghost fence_of = { λ change compactions. changes.fence_of change compactions };

    fn right(&self, alloc: Global) -> Result<Right, OutOfMemory> {
        match self {
            RecordChange::GiveEpoch { .. } => Ok(Right::RecordHolder {
                pending: Listed::new(alloc),
            }),
            RecordChange::Reset { .. } => Ok(Right::RecordHolder {
                pending: Listed::new(alloc),
            }),
            RecordChange::PutStatuses { pending, .. } => Ok(Right::RecordHolder {
                pending: pending.copy(alloc)?,
            }),
            _ => Ok(Right::Plain),
        }
    }

    fn refusal_at(&self, value: &Compactions) -> Option<SlateDBError> {
        let read = value.compactor_epoch;
        match self {
            RecordChange::GiveEpoch { epoch } => fence(*epoch, read),
            RecordChange::Reset { epoch } => fence(*epoch, read),
            RecordChange::Schedule { compactor, .. } => holder_fence(*compactor, read),
            RecordChange::PutStatuses { compactor, .. } => holder_fence(*compactor, read),
            _ => None,
        }
    }

    fn make(
        &self,
        alloc: Global,
        now: Millis,
        n: u64,
        value: &Compactions,
    ) -> Result<Option<Compactions>, SlateDBError> {
        match self {
            RecordChange::GiveEpoch { epoch } => Ok(Some(with_epoch(alloc, *epoch, value)?)),
            RecordChange::Reset { .. } => Ok(Some(reset(alloc, value)?)),
            RecordChange::Schedule { id, .. } => schedule(alloc, *id, value),
            RecordChange::Claim { id, worker } => claim(alloc, *id, *worker, now, value),
            RecordChange::Report {
                id,
                worker,
                outputs,
            } => report(alloc, *id, *worker, Plain::clone(outputs, alloc)?, value),
            RecordChange::PutStatuses { local, pending, .. } => {
                Ok(Some(put_statuses(alloc, local, pending.as_slice(), value)?))
            }
            RecordChange::Submit { id, spec } => {
                submit(alloc, *id, Plain::clone(spec, alloc)?, value)
            }
        }
    }
}
