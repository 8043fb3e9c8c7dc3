//! A record of compactions in each state, and changes of it.

use crate::test_records::{Id, Made, drain, id, ids, tables, worker};
use slate_ids::Listed;
use slate_model::{Compaction, CompactionStatus, Compactions, WorkerSpec};
use slate_state_record_updates::RecordChange;
use std::alloc::Global;
use std::process::Abort;

/// A compaction of millisecond 100: its tail, its status and its worker.
pub(crate) type Held = (u8, CompactionStatus, Option<&'static str>);

/// The compactions of a record in each state.
pub(crate) const HELD: &[Held] = &[
    (1, CompactionStatus::Submitted, None),
    (2, CompactionStatus::Scheduled, Some("9")),
    (3, CompactionStatus::Running, Some("7")),
    (4, CompactionStatus::Compacted, Some("7")),
    (5, CompactionStatus::Completed, None),
    (6, CompactionStatus::Failed, None),
    (7, CompactionStatus::Scheduled, None),
    (9, CompactionStatus::Running, None),
];

/// Those of a compactor's local record.
const LOCAL: &[Held] = &[
    (1, CompactionStatus::Running, None),
    (3, CompactionStatus::Failed, None),
    (4, CompactionStatus::Completed, None),
    (6, CompactionStatus::Completed, None),
    (8, CompactionStatus::Completed, None),
];

/// A change of the record.
#[derive(Clone, Copy)]
pub(crate) enum Put {
    Epoch(u64),
    Reset(u64),
    /// By the compactor of this epoch.
    Schedule(Option<u64>, u8),
    /// By the worker of this number.
    Claim(u8, u32),
    /// By the worker of this number, with these outputs.
    Report(u8, u32, &'static [Made]),
    /// The local statuses, by the compactor of this epoch, with these pending.
    Statuses(Option<u64>, &'static [Id]),
    Submit(Id),
}

fn held(rt: &impl Abort, alloc: Global, one: Held) -> Compaction {
    Compaction {
        id: id((100, one.0)),
        spec: drain(alloc),
        status: one.1,
        worker: worker_if(rt, alloc, one.2),
        output_ssts: Listed::new(alloc),
        ctx: None,
    }
}

fn worker_if(rt: &impl Abort, alloc: Global, name: Option<&str>) -> Option<WorkerSpec> {
    match name {
        None => None,
        Some(name) => Some(worker(rt, alloc, name)),
    }
}

/// The record of this epoch with these compactions.
pub(crate) fn record_of(rt: &impl Abort, alloc: Global, epoch: u64, all: &[Held]) -> Compactions {
    let mut made = Compactions::new(alloc, epoch);
    for one in all {
        made.insert(held(rt, alloc, *one)).expect(rt, "memory");
    }
    made
}

pub(crate) fn change(rt: &impl Abort, alloc: Global, put: Put) -> RecordChange {
    match put {
        Put::Epoch(epoch) => RecordChange::GiveEpoch { epoch },
        Put::Reset(epoch) => RecordChange::Reset { epoch },
        Put::Schedule(compactor, tail) => RecordChange::Schedule {
            compactor,
            id: id((100, tail)),
        },
        Put::Claim(tail, worker) => RecordChange::Claim {
            id: id((100, tail)),
            worker,
        },
        Put::Report(tail, worker, outputs) => RecordChange::Report {
            id: id((100, tail)),
            worker,
            outputs: tables(rt, alloc, outputs),
        },
        Put::Statuses(compactor, pending) => {
            let pending = ids(rt, alloc, pending);
            RecordChange::PutStatuses {
                compactor,
                local: record_of(rt, alloc, 1, LOCAL),
                pending,
            }
        }
        Put::Submit(parts) => RecordChange::Submit {
            id: id(parts),
            spec: drain(alloc),
        },
    }
}
