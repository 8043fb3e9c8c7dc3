//! What the commits of a compactor put.
ghost use Rattle.std.specs.Prelude.{◌≡◌, true, IfOk};
ghost use Rattle.slate_txn_changes.specs.LogWorks.{work_due, work_rank};
ghost use Rattle.slate_state_calls.specs.Commits as commits;
ghost use Rattle.slate_ids.specs.Answers.{Gives};

use crate::changes::begun;
use slate_ids::{ByteList, Millis, ObjectCodec, OutOfMemory, SlateDBError};
use slate_layout::CompactionsCodec;
use slate_model::{Compactions, Plain};
use slate_state_compactor::LocalState;
use slate_state_record_updates::{CompactionsRules, RecordChange, first_record};
use slate_state_updates::ManifestChange;
use slate_txn_changes::{Changing, LogWork};
use slate_txn_log::CommitPhase;
use std::alloc::Global;

/// A change of the record, made at once of its version `n`.
pub(crate) fn record_put(
    alloc: Global,
    change: RecordChange,
    now: Millis,
    n: u64,
    compactions: &Compactions,
) -> Result<Changing<Option<RecordChange>, Compactions>, SlateDBError>
    ensures begun { Gives result (commits.put_of change now (n, compactions.now)) }
    ensures due { IfOk result (λ p. work_due p.work ≡ true) }
    ensures rank { IfOk result (λ p. work_rank p.work ≡ 2) }
{
    begun(
        alloc,
        change,
        &CompactionsCodec,
        &CompactionsRules,
        now,
        n,
        compactions,
    )
}

/// The commit of the first record of a log without one, made at once: epoch 0 and no compactions.
pub(crate) fn first_put(
    alloc: Global,
    now: Millis,
) -> Result<Changing<Option<RecordChange>, Compactions>, SlateDBError>
    ensures begun { Gives result (commits.first_of now commits.first_put) }
    ensures due { IfOk result (λ p. work_due p.work ≡ true) }
    ensures rank { IfOk result (λ p. work_rank p.work ≡ 2) }
{
    let first = first_record(alloc);
    match CompactionsCodec.encode(alloc, &first) {
        Ok(bytes) => Ok(Changing {
            change: None,
            work: LogWork::Committing(now, CommitPhase::Putting(1, ByteList::new(bytes), first)),
        }),
        Err(e) => {
            drop(first);
            Err(e)
        }
    }
}

/// The change of the manifest by the local trees, with the outputs that are pending.
pub(crate) fn merge_of(
    alloc: Global,
    epoch: u64,
    local: &LocalState,
) -> Result<ManifestChange, OutOfMemory>
    ensures { IfOk result (λ change. change ≡ commits.merge_of epoch local.now) }
{
    let trees = Plain::clone(&local.trees, alloc)?;
    match local.pending_outputs(alloc) {
        Ok(outputs) => Ok(ManifestChange::MergeTrees {
            compactor: Some(epoch),
            trees,
            outputs,
        }),
        Err(e) => {
            drop(trees);
            Err(e)
        }
    }
}

/// The change of the record by the local statuses, trimmed but for what is pending.
pub(crate) fn statuses_of(
    alloc: Global,
    epoch: u64,
    local: &LocalState,
) -> Result<RecordChange, OutOfMemory>
    ensures { IfOk result (λ change. change ≡ commits.statuses_of epoch local.now) }
{
    let copied = Plain::clone(&local.compactions, alloc)?;
    match local.pending.copy(alloc) {
        Ok(pending) => Ok(RecordChange::PutStatuses {
            compactor: Some(epoch),
            local: copied,
            pending,
        }),
        Err(e) => {
            drop(copied);
            Err(e)
        }
    }
}
