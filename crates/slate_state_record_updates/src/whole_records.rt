//! What an opening compactor, and one that keeps its statuses, makes of a whole record.
ghost use Rattle.std.specs.Prelude.{◌≡◌, IfOk, map, true, option_copied};
ghost use Rattle.slate_model_records.specs.Records.{are_ascending};
ghost use Rattle.slate_state_record_updates.specs.EntrySteps as steps;
ghost use Rattle.slate_state_record_updates.specs.EntrySteps.{unscheduled, with_local_status};

use slate_ids::{OutOfMemory, Ulid};
use slate_model::{Compaction, CompactionStatus, Compactions, CompactionsIter, Plain};
use std::alloc::Global;
use std::mem;

// An equal compaction; where it is to run, it is submitted again, without a worker.
fn unscheduled(alloc: Global, compaction: &Compaction) -> Result<Compaction, OutOfMemory>
    ensures { IfOk result (λ made. made ≡ unscheduled compaction.now) }
{
    let mut made = compaction.clone(alloc)?;
    if matches!(made.status, CompactionStatus::Scheduled) {
        made.status = CompactionStatus::Submitted;
        drop(mem::replace(&mut made.worker, None));
    }
    Ok(made)
}

// The record of an epoch and of these compactions, which ascend, of which none is to run.
fn all_unscheduled(
    alloc: Global,
    epoch: u64,
    entries: CompactionsIter<'_>,
) -> Result<Compactions, OutOfMemory>
    requires ascending { are_ascending entries ≡ true }
    ensures { IfOk result (λ made.
        made ≡ record { compactor_epoch = epoch; entries = map unscheduled entries.entry }) }
{
    let mut made = Compactions::new(alloc, epoch);
    for compaction in entries {
        made.insert(unscheduled(alloc, compaction)?)?;
    }
    Ok(made)
}

/// What an opening compactor makes of a record: each compaction that was to run is Submitted again, without a worker; then those that
/// are over go, but for the one of the greatest id.
pub fn reset(alloc: Global, compactions: &Compactions) -> Result<Compactions, OutOfMemory>
    ensures { IfOk result (λ made. made ≡ steps.reset compactions.now) }
{
    let mut made = all_unscheduled(alloc, compactions.compactor_epoch, compactions.iter())?;
    made.retain_active_and_last_finished(&[]);
    Ok(made)
}

// The status that a found compaction gives one of this status: its own, where it is over.
fn terminal_or(status: CompactionStatus, found: Option<&Compaction>) -> CompactionStatus
    ensures { result ≡ steps.terminal_or status (option_copied found.entry) }
{
    match found {
        None => status,
        Some(found) => {
            if found.status.is_terminal() {
                found.status
            } else {
                status
            }
        }
    }
}

// An equal compaction with the status that the local one of its id has, where that is over.
fn with_local_status(
    alloc: Global,
    local: &Compactions,
    compaction: &Compaction,
) -> Result<Compaction, OutOfMemory>
    ensures { IfOk result (λ made. made ≡ with_local_status local.now.entries compaction.now) }
{
    let mut made = compaction.clone(alloc)?;
    made.status = terminal_or(compaction.status, local.get(compaction.id));
    Ok(made)
}

// The record of an epoch and of these compactions, which ascend, with the local statuses of those that are over.
fn all_with_local_status(
    alloc: Global,
    epoch: u64,
    local: &Compactions,
    entries: CompactionsIter<'_>,
) -> Result<Compactions, OutOfMemory>
    requires ascending { are_ascending entries ≡ true }
    ensures { IfOk result (λ made. made
        ≡ record { compactor_epoch = epoch; entries = map (with_local_status local.now.entries) entries.entry }) }
{
    let mut made = Compactions::new(alloc, epoch);
    for compaction in entries {
        made.insert(with_local_status(alloc, local, compaction)?)?;
    }
    Ok(made)
}

/// The record that a compactor reads, as it holds it: each compaction of it whose local one is over has that status. No compaction is
/// added, and none goes.
pub fn put_local_statuses(
    alloc: Global,
    local: &Compactions,
    compactions: &Compactions,
) -> Result<Compactions, OutOfMemory>
    ensures { IfOk result (λ made. made ≡ steps.with_local_statuses local.now compactions.now) }
{
    let epoch = compactions.compactor_epoch;
    all_with_local_status(alloc, epoch, local, compactions.iter())
}

/// What a compactor makes of a record that it reads: each compaction of it whose local one is over gets that status; then those that are
/// over go, but for the one of the greatest id and those in `pending`, which is to be short. No compaction is added.
pub fn put_statuses(
    alloc: Global,
    local: &Compactions,
    pending: &[Ulid],
    compactions: &Compactions,
) -> Result<Compactions, OutOfMemory>
    ensures { IfOk result (λ made. made ≡ steps.with_statuses local.now pending.now compactions.now) }
{
    let epoch = compactions.compactor_epoch;
    let mut made = all_with_local_status(alloc, epoch, local, compactions.iter())?;
    made.retain_active_and_last_finished(pending);
    Ok(made)
}
