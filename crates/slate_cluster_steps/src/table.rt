//! The table of calls in code: which kind of party has a call, the ids that it carries, what it needs at its start, which change it puts, what
//! it does first, its reply, and what it tells of its party. All else goes by this table.
ghost use Rattle.std.specs.Prelude.{◌≡◌, true, IfOk};
ghost use Rattle.std.specs.List.{find};
ghost use Rattle.slate_ids.specs.Ulids.{is_id as is_id_of};
ghost use Rattle.slate_cluster_protocol.specs.Calls as calls;
ghost use Rattle.slate_cluster_protocol.specs.Ids as ids;
ghost use Rattle.slate_state_calls.specs.StateSteps.{starting};
ghost use Rattle.slate_state_calls.specs.declared.state_start.StateStart.TheVariants as starts;
ghost use Rattle.slate_cluster_protocol.specs.declared.work.Work.TheVariants as works;
ghost use Rattle.slate_cluster_steps.specs.Onward.{is_other_call};
ghost use Rattle.slate_state_updates.specs.Checkpoints.{checkpoint_at};
ghost use Rattle.slate_state_updates.specs.declared.manifest_change.ManifestChange.TheVariants as puts;

use crate::id_lists::{listed, tables_of, views_of, with_others};
use crate::uploaded::{flushed_tables, refusal_of_missing, refusal_of_unknown, uploaded_tables};
use slate_cluster_protocol::{CallIds, Facts, Work};
use slate_gc_passes::{GarbageCollectorDirectoryOptions, GcPhase, PassSettings};
use slate_ids::{
    CheckpointId, GcMessage, Listed, Millis, OutOfMemory, SlateDBError, StateCause, Text, Ulid,
};
use slate_model::{CheckpointOptions, Compactions, Manifest, Plain};
use slate_script_events::{Call, FlushTable, PartyKind, Reply};
use slate_state_calls::{Compactor, OpenPhase, StatePhase, StateStart, TreesWrite};
use slate_state_record_updates::RecordChange;
use slate_state_updates::{FlushBatch, ManifestChange, find_checkpoint};
use slate_txn_changes::{Changing, LogEnd};
use std::alloc::Global;

// ---- whose call it is

// Whether the two numbers of an id are in their ranges, as those of each id are.
fn is_id(id: Ulid) -> bool
    ensures { result ≡ is_id_of id }
{
    id.timestamp_ms() < 1 << 48 && id.tail() < 1 << 80
}

// Whether a call is a writer's.
fn writer_has(call: &Call) -> bool
    ensures { result ≡ calls.writer_has call.now }
{
    match call {
        Call::OpenWriter => true,
        Call::Upload { table, .. } => is_id(*table),
        Call::Flush { .. } => true,
        _ => false,
    }
}

// Whether a call is a compactor's.
fn compactor_has(call: &Call) -> bool
    ensures { result ≡ calls.compactor_has call.now }
{
    match call {
        Call::OpenCompactor => true,
        Call::Refresh => true,
        Call::Schedule { .. } => true,
        Call::Finish { .. } => true,
        Call::Fail { .. } => true,
        Call::WriteManifest { .. } => true,
        Call::WriteRecord => true,
        Call::WriteState { .. } => true,
        _ => false,
    }
}

// Whether a call is a worker's.
fn worker_has(call: &Call) -> bool
    ensures { result ≡ calls.worker_has call.now }
{
    match call {
        Call::Upload { table, .. } => is_id(*table),
        Call::Claim { .. } => true,
        Call::Report { .. } => true,
        _ => false,
    }
}

// Whether a call is a holder's: it refreshes a checkpoint to a lifetime.
fn holder_has(call: &Call) -> bool
    ensures { result ≡ calls.holder_has call.now }
{
    match call {
        Call::WriteCheckpoint { .. } => true,
        Call::ReplaceCheckpoint { .. } => true,
        Call::RefreshCheckpoint { lifetime, .. } => lifetime.is_some(),
        Call::DeleteCheckpoint { .. } => true,
        _ => false,
    }
}

// Whether a call is a collector's: so far, a pass over manifests, over records or over tables.
fn collector_has(call: &Call) -> bool
    ensures { result ≡ calls.collector_has call.now }
{
    match call {
        Call::Pass {
            pass: GcMessage::Manifest,
            ..
        } => true,
        Call::Pass {
            pass: GcMessage::Compactions,
            ..
        } => true,
        Call::Pass {
            pass: GcMessage::Compacted,
            ..
        } => true,
        _ => false,
    }
}

/// Whether a kind of party has a call.
pub fn has_call(kind: PartyKind, call: &Call) -> bool
    ensures { result ≡ calls.has_call kind call.now }
{
    match kind {
        PartyKind::Writer => writer_has(call),
        PartyKind::Compactor => compactor_has(call),
        PartyKind::Worker => worker_has(call),
        PartyKind::Holder => holder_has(call),
        PartyKind::Collector => collector_has(call),
    }
}

// ---- the ids that it carries

// The ids of checkpoints that a call brings anew.
fn fresh_checkpoints(alloc: Global, call: &Call) -> Result<Listed<CheckpointId>, OutOfMemory>
    ensures { IfOk result (λ all. all ≡ calls.fresh_checkpoints call.now) }
{
    match call {
        Call::WriteManifest { checkpoint } => listed(alloc, &[Some(*checkpoint)]),
        Call::WriteState { checkpoint } => listed(alloc, &[Some(*checkpoint)]),
        Call::WriteCheckpoint { id, .. } => listed(alloc, &[Some(*id)]),
        Call::ReplaceCheckpoint { id, .. } => listed(alloc, &[Some(*id)]),
        _ => listed(alloc, &[]),
    }
}

// The other ids of checkpoints that a call names.
fn named_checkpoints(alloc: Global, call: &Call) -> Result<Listed<CheckpointId>, OutOfMemory>
    ensures { IfOk result (λ all. all ≡ calls.named_checkpoints call.now) }
{
    match call {
        Call::WriteCheckpoint { source, .. } => listed(alloc, &[*source]),
        Call::ReplaceCheckpoint { old, source, .. } => listed(alloc, &[Some(*old), *source]),
        Call::RefreshCheckpoint { id, .. } => listed(alloc, &[Some(*id)]),
        Call::DeleteCheckpoint { id } => listed(alloc, &[Some(*id)]),
        _ => listed(alloc, &[]),
    }
}

// The ids of tables, views and compactions that a call brings anew.
fn fresh_ulids(alloc: Global, call: &Call) -> Result<Listed<Ulid>, OutOfMemory>
    ensures { IfOk result (λ all. all ≡ calls.fresh_ulids call.now) }
{
    match call {
        Call::Upload { table, .. } => listed(alloc, &[Some(*table)]),
        Call::Flush { tables, .. } => views_of(alloc, tables.as_slice()),
        _ => listed(alloc, &[]),
    }
}

// The other ids of tables, views and compactions that a call names.
fn named_ulids(alloc: Global, call: &Call) -> Result<Listed<Ulid>, OutOfMemory>
    ensures { IfOk result (λ all. all ≡ calls.named_ulids call.now) }
{
    match call {
        Call::Flush { tables, .. } => tables_of(alloc, tables.as_slice()),
        Call::Schedule { id } => listed(alloc, &[Some(*id)]),
        Call::Finish { id } => listed(alloc, &[Some(*id)]),
        Call::Fail { id } => listed(alloc, &[Some(*id)]),
        Call::Claim { id } => listed(alloc, &[Some(*id)]),
        Call::Report { id, tables } => with_others(alloc, *id, tables.as_slice()),
        _ => listed(alloc, &[]),
    }
}

/// The ids that a call carries. A call without ids takes no memory.
pub fn call_ids(alloc: Global, call: &Call) -> Result<CallIds, OutOfMemory>
    ensures { IfOk result (λ carried. carried ≡ ids.call_ids call.now) }
{
    Ok(CallIds {
        fresh_checkpoints: fresh_checkpoints(alloc, call)?,
        named_checkpoints: named_checkpoints(alloc, call)?,
        fresh_ulids: fresh_ulids(alloc, call)?,
        named_ulids: named_ulids(alloc, call)?,
    })
}

// ---- what it needs at its start

// The refusal of a party whose open has not succeeded yet, by what that leaves.
fn unless_open<T>(opened: &Option<T>) -> Option<SlateDBError>
    ensures { result ≡ calls.unless_open opened.now }
{
    match opened {
        None => Some(SlateDBError::InvalidDBState(StateCause::NotOpen)),
        Some(_) => None,
    }
}

// Why a flush is refused at its start: it needs an open, and that its tables were uploaded.
fn refusal_of_flush(facts: &Facts, tables: &[FlushTable]) -> Option<SlateDBError>
    ensures { result ≡ calls.or_missing (calls.unless_open facts.now.epoch)
        (calls.refusal_of_missing (find (calls.is_missing facts.now.uploads) tables.now)) }
{
    match unless_open(&facts.epoch) {
        Some(refusal) => Some(refusal),
        None => refusal_of_missing(&facts.uploads, tables),
    }
}

/// Why a call is refused at its start, other than an upload and the end of a compaction.
pub(crate) fn refusal_at_start(facts: &Facts, call: &Call) -> Option<SlateDBError>
    requires { is_other_call call.now ≡ true }
    ensures { result ≡ calls.refusal_at_start facts.now call.now }
{
    match call {
        Call::Upload { .. } | Call::Finish { .. } | Call::Fail { .. } => unreachable!(),
        Call::Flush { tables, .. } => refusal_of_flush(facts, tables.as_slice()),
        Call::Report { tables, .. } => refusal_of_unknown(&facts.uploads, tables.as_slice()),
        Call::Refresh
        | Call::Schedule { .. }
        | Call::WriteManifest { .. }
        | Call::WriteRecord
        | Call::WriteState { .. } => unless_open(&facts.compactor),
        _ => None,
    }
}

// ---- which change it puts

// The options of a new checkpoint, as a call names them.
fn checkpoint_options(
    alloc: Global,
    lifetime: Option<u64>,
    source: Option<CheckpointId>,
    name: &Option<Text>,
) -> Result<CheckpointOptions, OutOfMemory>
    ensures { IfOk result (λ o. o ≡ record { lifetime = lifetime; source = source; name = name.now }) }
{
    Ok(CheckpointOptions {
        lifetime,
        source,
        name: Plain::clone(name, alloc)?,
    })
}

// What a flush puts.
fn flush(
    alloc: Global,
    facts: &Facts,
    tables: &[FlushTable],
    replay_after: u64,
    next_wal: u64,
    seq: u64,
    tick: Millis,
) -> Result<ManifestChange, OutOfMemory>
    ensures { IfOk result (λ change. change ≡ puts.Flush facts.now.epoch
        (calls.batch_of facts.now.uploads tables.now replay_after next_wal seq tick)) }
{
    Ok(ManifestChange::Flush {
        writer: facts.epoch,
        batch: FlushBatch {
            tables: flushed_tables(alloc, &facts.uploads, tables)?,
            replay_after,
            next_wal,
            seq,
            tick,
        },
    })
}

// The change of the latest manifest that a call puts, where it puts one.
fn change_of(
    alloc: Global,
    facts: &Facts,
    call: &Call,
) -> Result<Option<ManifestChange>, OutOfMemory>
    ensures { IfOk result (λ change. change ≡ calls.change_of facts.now call.now) }
{
    let change = match call {
        Call::OpenWriter => ManifestChange::RaiseWriter,
        Call::Flush {
            tables,
            replay_after,
            next_wal,
            seq,
            tick,
        } => flush(
            alloc,
            facts,
            tables.as_slice(),
            *replay_after,
            *next_wal,
            *seq,
            *tick,
        )?,
        Call::WriteCheckpoint {
            id,
            lifetime,
            source,
            name,
        } => ManifestChange::WriteCheckpoint {
            id: *id,
            options: checkpoint_options(alloc, *lifetime, *source, name)?,
        },
        Call::ReplaceCheckpoint {
            old,
            id,
            lifetime,
            source,
            name,
        } => ManifestChange::ReplaceCheckpoint {
            old: *old,
            id: *id,
            options: checkpoint_options(alloc, *lifetime, *source, name)?,
        },
        Call::RefreshCheckpoint { id, lifetime } => ManifestChange::RefreshCheckpoint {
            id: *id,
            lifetime: *lifetime,
        },
        Call::DeleteCheckpoint { id } => ManifestChange::DeleteCheckpoint { id: *id },
        _ => return Ok(None),
    };
    Ok(Some(change))
}

// The change of the latest record that a call puts, where it puts one.
fn record_change_of(
    alloc: Global,
    facts: &Facts,
    call: &Call,
) -> Result<Option<RecordChange>, OutOfMemory>
    ensures { IfOk result (λ change. change ≡ calls.record_change_of facts.now call.now) }
{
    match call {
        Call::Claim { id } => Ok(Some(RecordChange::Claim {
            id: *id,
            worker: facts.number,
        })),
        Call::Report { id, tables } => Ok(Some(RecordChange::Report {
            id: *id,
            worker: facts.number,
            outputs: uploaded_tables(alloc, &facts.uploads, tables.as_slice())?,
        })),
        _ => Ok(None),
    }
}

// ---- what it does first

// The settings of a pass.
fn pass_settings(pass: GcMessage, min_age: u64, dry_run: bool) -> PassSettings
    ensures { result ≡ calls.pass_settings pass min_age dry_run }
{
    PassSettings {
        pass,
        options: GarbageCollectorDirectoryOptions {
            min_age,
            interval: None,
            dry_run,
        },
        boundary_files_enabled: true,
    }
}

// Where a call of a compactor on its state begins, by what the party holds.
fn state_phase(start: StateStart, held: &Option<Compactor>) -> StatePhase
    ensures { result ≡ calls.state_phase start held.now }
{
    match held {
        None => StatePhase::Over,
        Some(compactor) => start.phase(compactor),
    }
}

// The work of a call of a compactor on its state.
fn compacting(facts: &Facts, start: StateStart) -> Work
    ensures { result ≡ works.Compacting facts.now.db (calls.state_phase start facts.now.compactor) }
{
    Work::Compacting(facts.db, state_phase(start, &facts.compactor))
}

// A write of a compactor's trees.
fn trees_write(checkpoint: CheckpointId, whole: bool) -> StateStart
    ensures { result ≡ starts.WriteTrees (record { checkpoint = checkpoint; whole = whole }) }
{
    StateStart::WriteTrees(TreesWrite { checkpoint, whole })
}

// The work of a change of the latest record.
fn on_record(alloc: Global, facts: &Facts, call: &Call) -> Result<Work, OutOfMemory>
    ensures { IfOk result (λ work. work ≡ works.Records facts.now.db (starting (calls.record_change_of facts.now call.now))) }
{
    let change = record_change_of(alloc, facts, call)?;
    Ok(Work::Records(facts.db, Changing::start(change)))
}

// The work of a change of the latest manifest.
fn on_manifest(alloc: Global, facts: &Facts, call: &Call) -> Result<Work, OutOfMemory>
    ensures { IfOk result (λ work. work ≡ works.Manifests facts.now.db (starting (calls.change_of facts.now call.now))) }
{
    let change = change_of(alloc, facts, call)?;
    Ok(Work::Manifests(facts.db, Changing::start(change)))
}

/// The first work of a call other than an upload and the end of a compaction.
pub(crate) fn first_work(alloc: Global, facts: &Facts, call: &Call) -> Result<Work, OutOfMemory>
    requires { is_other_call call.now ≡ true }
    ensures { IfOk result (λ work. work ≡ calls.first_work facts.now call.now) }
{
    match call {
        Call::Upload { .. } | Call::Finish { .. } | Call::Fail { .. } => unreachable!(),
        Call::Pass {
            pass,
            min_age,
            dry_run,
            filter,
        } => {
            let settings = pass_settings(*pass, *min_age, *dry_run);
            Ok(Work::Pass(facts.db, settings, filter.copy(alloc)?, GcPhase::start()))
        }
        Call::OpenCompactor => Ok(Work::Opening(facts.db, OpenPhase::start())),
        Call::Refresh => Ok(compacting(facts, StateStart::Refresh)),
        Call::Schedule { id } => Ok(compacting(facts, StateStart::Schedule(*id))),
        Call::WriteManifest { checkpoint } => {
            Ok(compacting(facts, trees_write(*checkpoint, false)))
        }
        Call::WriteRecord => Ok(compacting(facts, StateStart::WriteRecord)),
        Call::WriteState { checkpoint } => Ok(compacting(facts, trees_write(*checkpoint, true))),
        Call::Claim { .. } => on_record(alloc, facts, call),
        Call::Report { .. } => on_record(alloc, facts, call),
        _ => on_manifest(alloc, facts, call),
    }
}

// ---- its reply

// The checkpoint of an id in a manifest, as a reply.
fn checkpoint_reply(id: CheckpointId, manifest: &Manifest) -> Reply
    ensures { result ≡ calls.checkpoint_reply id (checkpoint_at id manifest.now.core.checkpoints) }
{
    match find_checkpoint(manifest.core.checkpoints.as_slice(), &id) {
        Some(checkpoint) => Reply::Checkpoint(checkpoint.id, checkpoint.manifest_id),
        None => Reply::Refused(SlateDBError::CheckpointMissing(id)),
    }
}

// The reply of a call that changes the manifest, by the one that it put, or that it read where it changed nothing.
fn reply_with(call: &Call, manifest: &Manifest) -> Reply
    ensures { result ≡ calls.reply_with call.now manifest.now }
{
    match call {
        Call::OpenWriter => Reply::Epoch(manifest.writer_epoch),
        Call::WriteCheckpoint { id, .. } => checkpoint_reply(*id, manifest),
        Call::ReplaceCheckpoint { id, .. } => checkpoint_reply(*id, manifest),
        Call::RefreshCheckpoint { id, .. } => checkpoint_reply(*id, manifest),
        _ => Reply::Done,
    }
}

/// The reply of a call that changes the manifest.
pub(crate) fn manifest_reply(call: &Call, end: &LogEnd<Manifest>) -> Reply
    ensures { result ≡ calls.manifest_reply call.now end.now }
{
    match end {
        LogEnd::Absent => Reply::Refused(SlateDBError::LatestTransactionalObjectVersionMissing),
        LogEnd::Unchanged(_, manifest) => reply_with(call, manifest),
        LogEnd::Committed(_, manifest) => reply_with(call, manifest),
    }
}

/// The reply of a call that changes the record.
pub(crate) fn record_reply(end: &LogEnd<Compactions>) -> Reply
    ensures { result ≡ calls.record_reply end.now }
{
    match end {
        LogEnd::Absent => Reply::Refused(SlateDBError::LatestTransactionalObjectVersionMissing),
        LogEnd::Unchanged(_, _) | LogEnd::Committed(_, _) => Reply::Done,
    }
}

// ---- what it tells of its party

/// Takes what the end of a change of the manifest tells of its party.
pub(crate) fn learn(facts: &mut Facts, call: &Call, end: &LogEnd<Manifest>)
    ensures { facts.new ≡ calls.facts_after call.now end.now facts.old }
{
    match end {
        LogEnd::Committed(_, manifest) => {
            if let Call::OpenWriter = call {
                facts.epoch = Some(manifest.writer_epoch);
            }
        }
        LogEnd::Absent | LogEnd::Unchanged(_, _) => {}
    }
}
