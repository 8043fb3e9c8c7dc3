//! What follows a phrase of a call on the state that ended well, and what the compactor holds then.
ghost use Rattle.std.specs.Prelude.{◌≡◌, true, false, None, IfOk, IfSome};
ghost use Rattle.slate_txn_changes.specs.LogWorks.{work_due, work_rank};
ghost use Rattle.slate_state_compactor.specs.Local.{record_committed, scheduled};
ghost use Rattle.slate_state_calls.specs.Commits as commits;
ghost use Rattle.slate_state_calls.specs.Compactors.{with_local, with_record};
ghost use Rattle.slate_state_calls.specs.StateSteps as steps;
ghost use Rattle.slate_state_calls.specs.StateSteps.{after_manifest, after_record, Leads};
ghost use Rattle.slate_ids.specs.Answers.{Gives, is_memory};
ghost use Rattle.slate_txn_log.specs.Fence.{fence};

use crate::changes::begun;
use crate::commits::{merge_of, record_put, statuses_of};
use crate::compactor::Compactor;
use crate::state_phase::{ManifestStep, RecordStep, StatePhase};
use crate::state_start::TreesWrite;
use crate::versions::{manifest_in, record_in};
use slate_ids::{Millis, SlateDBError};
use slate_layout::{ManifestCodec, normal_form_manifest};
use slate_model::{Compactions, Manifest, Plain};
use slate_state_compactor::LocalState;
use slate_state_record_updates::RecordChange;
use slate_state_updates::{ManifestChange, ManifestRules};
use slate_txn_changes::{Changing, LogEnd};
use slate_txn_log::fence;
use std::alloc::Global;

// ---- after a phrase of the record

// Why a version with this epoch isn't followed by a compactor with that one.
#[tactic(auto, using(crate::proofs::Fences::fence_plain))]
fn fenced(own: u64, read: u64) -> Option<SlateDBError>
    ensures fence { result ≡ fence own read }
    ensures memory { IfSome result (λ e. is_memory e ≡ false) }
{
    fence(own, read)
}

// The record that is followed is held, and the manifest is next.
fn follow(
    compactor: &mut Compactor,
    n: u64,
    compactions: Compactions,
) -> Result<Option<StatePhase>, SlateDBError>
    ensures leads { Leads (steps.follows compactor.old (n, compactions) (fence compactor.old.epoch compactions.compactor_epoch))
        compactor.old compactor.new 6 result }
    ensures epoch { compactor.new.epoch ≡ compactor.old.epoch }
{
    match fenced(compactor.epoch, compactions.compactor_epoch) {
        Some(refusal) => {
            drop(compactions);
            Err(refusal)
        }
        None => {
            compactor.hold_record(n, compactions);
            let read = Changing::start(None);
            Ok(Some(StatePhase::OnManifest(ManifestStep::Follow, read)))
        }
    }
}

// The record with the schedule is held, and the local one follows it.
fn take_schedule(
    alloc: Global,
    compactor: &mut Compactor,
    n: u64,
    compactions: Compactions,
) -> Result<Option<StatePhase>, SlateDBError>
    ensures leads { Leads (steps.onward (with_local (scheduled compactions compactor.old.local) (with_record (n, compactions) compactor.old)) None)
        compactor.old compactor.new 0 result }
    ensures epoch { compactor.new.epoch ≡ compactor.old.epoch }
{
    match compactor.local.take_scheduled(alloc, &compactions) {
        Ok(()) => {
            compactor.hold_record(n, compactions);
            Ok(None)
        }
        Err(_) => {
            drop(compactions);
            Err(SlateDBError::OutOfMemory)
        }
    }
}

// The record with the local statuses is held, and the local one is the same.
fn take_record(
    alloc: Global,
    compactor: &mut Compactor,
    n: u64,
    compactions: Compactions,
) -> Result<Option<StatePhase>, SlateDBError>
    ensures leads { Leads (steps.onward (with_local (record_committed compactions compactor.old.local) (with_record (n, compactions) compactor.old)) None)
        compactor.old compactor.new 0 result }
    ensures epoch { compactor.new.epoch ≡ compactor.old.epoch }
{
    match Plain::clone(&compactions, alloc) {
        Ok(copied) => {
            compactor.local.take_record(copied);
            compactor.hold_record(n, compactions);
            Ok(None)
        }
        Err(_) => {
            drop(compactions);
            Err(SlateDBError::OutOfMemory)
        }
    }
}

// The change of a version of the record by the local statuses, made at once.
fn statuses_put(
    alloc: Global,
    compactor: &Compactor,
    now: Millis,
    n: u64,
    compactions: &Compactions,
) -> Result<Changing<Option<RecordChange>, Compactions>, SlateDBError>
    ensures begun { Gives result (commits.put_of (commits.statuses_of compactor.now.epoch compactor.now.local) now (n, compactions.now)) }
    ensures due { IfOk result (λ p. work_due p.work ≡ true) }
    ensures rank { IfOk result (λ p. work_rank p.work ≡ 2) }
{
    let change = statuses_of(alloc, compactor.epoch, &compactor.local)?;
    record_put(alloc, change, now, n, compactions)
}

// The local statuses are put into this version of the record.
fn put_statuses(
    alloc: Global,
    compactor: &Compactor,
    write: Option<TreesWrite>,
    now: Millis,
    n: u64,
    compactions: Compactions,
) -> Result<Option<StatePhase>, SlateDBError>
    ensures leads { Leads (steps.records write compactor.now
        (commits.put_of (commits.statuses_of compactor.now.epoch compactor.now.local) now (n, compactions)))
        compactor.now compactor.now 3 result }
{
    let put = statuses_put(alloc, compactor, now, n, &compactions);
    drop(compactions);
    match put {
        Ok(put) => Ok(Some(StatePhase::OnRecord(RecordStep::Record(write), put))),
        Err(e) => Err(e),
    }
}

// What follows this version of the record.
fn with_version(
    alloc: Global,
    compactor: &mut Compactor,
    step: &RecordStep,
    now: Millis,
    n: u64,
    compactions: Compactions,
) -> Result<Option<StatePhase>, SlateDBError>
    ensures leads { Leads (steps.record_next step.now now compactor.old (n, compactions)) compactor.old compactor.new (after_record step.now) result }
    ensures epoch { compactor.new.epoch ≡ compactor.old.epoch }
{
    match step {
        RecordStep::Follow => follow(compactor, n, compactions),
        RecordStep::Schedule => take_schedule(alloc, compactor, n, compactions),
        RecordStep::Fetch(write) => put_statuses(alloc, compactor, *write, now, n, compactions),
        RecordStep::Record(_) => take_record(alloc, compactor, n, compactions),
    }
}

/// What follows a phrase of the record.
pub(crate) fn record_next(
    alloc: Global,
    compactor: &mut Compactor,
    step: &RecordStep,
    now: Millis,
    end: &LogEnd<Compactions>,
) -> Result<Option<StatePhase>, SlateDBError>
    ensures leads { Leads (steps.or_missing compactor.old (steps.record_next step.now now compactor.old) (commits.record_in end.now))
        compactor.old compactor.new (after_record step.now) result }
    ensures epoch { compactor.new.epoch ≡ compactor.old.epoch }
{
    match record_in(alloc, end)? {
        None => Err(SlateDBError::LatestTransactionalObjectVersionMissing),
        Some((n, compactions)) => with_version(alloc, compactor, step, now, n, compactions),
    }
}

// ---- after a phrase of the manifest

// What is local after a refresh by a version of the manifest.
fn refresh_of(
    alloc: Global,
    compactor: &Compactor,
    manifest: &Manifest,
) -> Result<LocalState, SlateDBError>
    ensures { Gives result (steps.refresh_of compactor.now manifest.now) }
{
    match fence(compactor.epoch, manifest.compactor_epoch) {
        Some(refusal) => Err(refusal),
        None => compactor
            .local
            .refreshed(alloc, &compactor.compactions, &manifest.core),
    }
}

// The manifest that is followed is held, and what is local follows it.
fn refresh(
    alloc: Global,
    compactor: &mut Compactor,
    n: u64,
    manifest: Manifest,
) -> Result<Option<StatePhase>, SlateDBError>
    ensures leads { Leads (steps.refreshes compactor.old (n, manifest) (steps.refresh_of compactor.old manifest)) compactor.old compactor.new 0 result }
    ensures epoch { compactor.new.epoch ≡ compactor.old.epoch }
{
    match refresh_of(alloc, compactor, &manifest) {
        Ok(local) => {
            compactor.hold_manifest(n, manifest);
            compactor.hold_local(local);
            Ok(None)
        }
        Err(e) => {
            drop(manifest);
            Err(e)
        }
    }
}

// The change of a version of the manifest by the local trees, made at once.
fn merge_put(
    alloc: Global,
    compactor: &Compactor,
    now: Millis,
    n: u64,
    manifest: &Manifest,
) -> Result<Changing<Option<ManifestChange>, Manifest>, SlateDBError>
    ensures begun { Gives result (commits.manifest_put_of (commits.merge_of compactor.now.epoch compactor.now.local) now (n, manifest.now)) }
    ensures due { IfOk result (λ p. work_due p.work ≡ true) }
    ensures rank { IfOk result (λ p. work_rank p.work ≡ 2) }
{
    let change = merge_of(alloc, compactor.epoch, &compactor.local)?;
    begun(
        alloc,
        change,
        &ManifestCodec,
        &ManifestRules,
        now,
        n,
        manifest,
    )
}

// The local trees are merged into this version of the manifest, which is held also where that is refused.
fn merge(
    alloc: Global,
    compactor: &mut Compactor,
    write: TreesWrite,
    now: Millis,
    n: u64,
    manifest: Manifest,
) -> Result<Option<StatePhase>, SlateDBError>
    ensures leads { Leads (steps.merge_by write now compactor.old (n, manifest)) compactor.old compactor.new 12 result }
    ensures epoch { compactor.new.epoch ≡ compactor.old.epoch }
{
    match merge_put(alloc, compactor, now, n, &manifest) {
        Ok(put) => {
            compactor.hold_manifest(n, manifest);
            Ok(Some(StatePhase::OnManifest(ManifestStep::Merge(write), put)))
        }
        Err(e) => {
            if e.is_memory() {
                drop(manifest);
                Err(e)
            } else {
                compactor.hold_manifest(n, manifest);
                Err(e)
            }
        }
    }
}

// Where the whole state is written, the record is next.
fn next_after(write: TreesWrite) -> Option<StatePhase>
    ensures next { result ≡ steps.next_after write.whole write }
    ensures due { IfSome result (λ next. steps.state_due next ≡ true) }
    ensures rank { IfSome result (λ next. steps.state_rank next ≡ 8) }
{
    if write.whole {
        let read = Changing::start(None);
        Some(StatePhase::OnRecord(RecordStep::Fetch(Some(write)), read))
    } else {
        None
    }
}

// The manifest that was put is held, its trees are the local ones, and nothing is pending.
fn take_merge(
    alloc: Global,
    compactor: &mut Compactor,
    write: TreesWrite,
    end: &LogEnd<Manifest>,
) -> Result<Option<StatePhase>, SlateDBError>
    ensures leads { Leads (steps.merged write compactor.old end.now) compactor.old compactor.new 9 result }
    ensures epoch { compactor.new.epoch ≡ compactor.old.epoch }
{
    match end {
        LogEnd::Committed(n, manifest) => {
            let normal = normal_form_manifest(alloc, manifest)?;
            match compactor.local.take_manifest(alloc, &normal.core) {
                Ok(()) => {
                    compactor.hold_manifest(*n, normal);
                    Ok(next_after(write))
                }
                Err(_) => {
                    drop(normal);
                    Err(SlateDBError::OutOfMemory)
                }
            }
        }
        _ => Err(SlateDBError::LatestTransactionalObjectVersionMissing),
    }
}

/// What follows a phrase of the manifest.
pub(crate) fn manifest_next(
    alloc: Global,
    compactor: &mut Compactor,
    step: &ManifestStep,
    now: Millis,
    end: &LogEnd<Manifest>,
) -> Result<Option<StatePhase>, SlateDBError>
    ensures leads { Leads (steps.manifest_next step.now now compactor.old end.now) compactor.old compactor.new (after_manifest step.now) result }
    ensures epoch { compactor.new.epoch ≡ compactor.old.epoch }
{
    match step {
        ManifestStep::Merge(write) => take_merge(alloc, compactor, *write, end),
        ManifestStep::Follow => match manifest_in(alloc, end)? {
            None => Err(SlateDBError::LatestTransactionalObjectVersionMissing),
            Some((n, manifest)) => refresh(alloc, compactor, n, manifest),
        },
        ManifestStep::Keep(write) => match manifest_in(alloc, end)? {
            None => Err(SlateDBError::LatestTransactionalObjectVersionMissing),
            Some((n, manifest)) => merge(alloc, compactor, *write, now, n, manifest),
        },
    }
}
