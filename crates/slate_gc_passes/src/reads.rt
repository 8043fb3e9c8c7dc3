//! What a pass reads before its list: what follows the answer to each call.
ghost use Rattle.std.specs.Prelude.{◌≡◌, ◌<◌, true};
ghost use Rattle.slate_txn_log.specs.Due.{NeverOut, StillDue, WhereOut};
ghost use Rattle.slate_txn_log.specs.ReadPhase.{read_goes};
ghost use Rattle.slate_txn_log.specs.declared.log_kind.LogKind.TheVariants as kinds;
ghost use Rattle.slate_txn_log.specs.declared.read_phase.ReadPhase.TheVariants as reading;
ghost use Rattle.slate_gc_passes.specs.Pass as pass;
ghost use Rattle.slate_gc_passes.specs.Stages.{PassFalls, stages_within};
ghost use Rattle.slate_gc_passes.specs.declared.pass_phase.PassPhase.TheVariants as phases;
ghost use Rattle.slate_state_referenced.specs.Referenced.{ReferencedGoes, referenced_due, referenced_goes};
ghost use Rattle.slate_store.specs.Machines.{GoesOn, GoesOnAlways, IsAgain};

use crate::collecting::{Onward, refused};
use crate::heads::Heads;
use crate::logs::Logs;
use crate::pass_phase::PassPhase;
use slate_gc_picks::least_ms;
use slate_ids::{ObjectCodec, SlateDBError};
use slate_model::{Compactions, Manifest};
use slate_state_referenced::{ManifestMap, ReferencedPhase};
use slate_store::{Step, StoreAnswer};
use slate_txn_log::ReadPhase;
use std::alloc::Global;

/// After a call of the read of the record. Running out of memory leaves the phase as it was.
pub(crate) fn after_record_read<C, R: ObjectCodec<Compactions>>(
    alloc: Global,
    logs: &Logs<C, R>,
    phase: ReadPhase<Compactions>,
    answer: &StoreAnswer,
) -> Onward
    ensures goes { GoesOn (pass.record_goes (read_goes kinds.Compactions (R.decoded logs.now.records) phase answer.now))
        (phases.ReadingRecord phase) result.0 result.1 }
    ensures due { StillDue result.1 (pass.pass_due result.0) }
    ensures falls { IsAgain result.1 → PassFalls (phases.ReadingRecord phase) result.0 }
    ensures memory { WhereOut result.1 (result.0 ≡ phases.ReadingRecord phase) }
{
    let records = logs.record_log();
    let mut phase = phase;
    match phase.goes_on(alloc, &records, answer) {
        Step::Again => (PassPhase::ReadingRecord(phase), Step::Again),
        Step::Done(Ok(None)) => {
            drop(phase);
            let next = PassPhase::ReadingManifest(0, ReadPhase::Listing);
            (next, Step::Again)
        }
        Step::Done(Ok(Some((_, record)))) => {
            drop(phase);
            let least = least_ms(&record);
            drop(record);
            let next = PassPhase::ReadingManifest(least, ReadPhase::Listing);
            (next, Step::Again)
        }
        Step::Done(Err(e)) => {
            if e.is_memory() {
                (PassPhase::ReadingRecord(phase), Step::Done(Err(e)))
            } else {
                drop(phase);
                refused(e)
            }
        }
    }
}

// After a step of the reading of the versions that the latest manifest's checkpoints name.
fn after_fetched(heads: Heads, phase: ReferencedPhase, step: Step<ManifestMap>) -> Onward
    requires { NeverOut step }
    ensures goes { (goes : ReferencedGoes) → GoesOnAlways goes phase step
        → GoesOnAlways (pass.fetched_goes heads goes) result.0 result.1 }
    ensures due { (IsAgain step → referenced_due phase ≡ true) → StillDue result.1 (pass.pass_due result.0) }
    ensures stages { IsAgain result.1 → stages_within result.0 < 7 }
    ensures memory { NeverOut result.1 }
{
    match step {
        Step::Again => (PassPhase::Fetching(heads, phase), Step::Again),
        Step::Done(Ok(versions)) => {
            drop(phase);
            (PassPhase::Listing(heads, versions), Step::Again)
        }
        Step::Done(Err(e)) => {
            drop(phase);
            refused(e)
        }
    }
}

// The latest manifest was read, at its last call: the versions that its checkpoints name are next. Running out of memory puts the read
// back to that call.
fn after_manifest(alloc: Global, least: u64, n: u64, value: Manifest) -> Onward
    ensures goes { GoesOn (pass.manifest_next least n value)
        (phases.ReadingManifest least (reading.Bounding n value)) result.0 result.1 }
    ensures due { StillDue result.1 (pass.pass_due result.0) }
    ensures stages { IsAgain result.1 → stages_within result.0 < 7 }
    ensures memory { WhereOut result.1 (result.0 ≡ phases.ReadingManifest least (reading.Bounding n value)) }
{
    match ReferencedPhase::begin(alloc, n, &value) {
        Ok((phase, step)) => {
            let heads = Heads::at(least, n, &value);
            drop(value);
            after_fetched(heads, phase, step)
        }
        Err(_) => (
            PassPhase::ReadingManifest(least, ReadPhase::Bounding(n, value)),
            Step::Done(Err(SlateDBError::OutOfMemory)),
        ),
    }
}

/// After a call of the read of the manifest. Running out of memory leaves the phase as it was.
#[tactic(auto, using(crate::proofs::Falling::fewer_stages))]
pub(crate) fn after_manifest_read<C: ObjectCodec<Manifest>, R>(
    alloc: Global,
    logs: &Logs<C, R>,
    least: u64,
    phase: ReadPhase<Manifest>,
    answer: &StoreAnswer,
) -> Onward
    ensures goes { GoesOn (pass.manifest_goes least (read_goes kinds.Manifest (C.decoded logs.now.manifests) phase answer.now))
        (phases.ReadingManifest least phase) result.0 result.1 }
    ensures due { StillDue result.1 (pass.pass_due result.0) }
    ensures falls { IsAgain result.1 → PassFalls (phases.ReadingManifest least phase) result.0 }
    ensures memory { WhereOut result.1 (result.0 ≡ phases.ReadingManifest least phase) }
{
    let manifests = logs.manifest_log();
    let mut phase = phase;
    match phase.goes_on(alloc, &manifests, answer) {
        Step::Again => (PassPhase::ReadingManifest(least, phase), Step::Again),
        Step::Done(Ok(None)) => {
            drop(phase);
            refused(SlateDBError::LatestTransactionalObjectVersionMissing)
        }
        Step::Done(Ok(Some((n, value)))) => {
            drop(phase);
            after_manifest(alloc, least, n, value)
        }
        Step::Done(Err(e)) => {
            if e.is_memory() {
                (PassPhase::ReadingManifest(least, phase), Step::Done(Err(e)))
            } else {
                drop(phase);
                refused(e)
            }
        }
    }
}

/// After the get of a version that the latest manifest's checkpoints name. Running out of memory leaves the phase as it was.
pub(crate) fn after_fetch<C: ObjectCodec<Manifest>, R>(
    alloc: Global,
    logs: &Logs<C, R>,
    heads: Heads,
    phase: ReferencedPhase,
    answer: &StoreAnswer,
) -> Onward
    ensures goes { GoesOn (pass.fetched_goes heads (referenced_goes (C.decoded logs.now.manifests) phase answer.now))
        (phases.Fetching heads phase) result.0 result.1 }
    ensures due { StillDue result.1 (pass.pass_due result.0) }
    ensures falls { IsAgain result.1 → PassFalls (phases.Fetching heads phase) result.0 }
    ensures memory { WhereOut result.1 (result.0 ≡ phases.Fetching heads phase) }
{
    if !phase.due() {
        drop(phase);
        return refused(SlateDBError::StoreFault);
    }
    let manifests = logs.manifest_log();
    let mut phase = phase;
    match phase.goes_on(alloc, &manifests, answer) {
        Step::Again => (PassPhase::Fetching(heads, phase), Step::Again),
        Step::Done(Ok(versions)) => {
            drop(phase);
            (PassPhase::Listing(heads, versions), Step::Again)
        }
        Step::Done(Err(e)) => {
            if e.is_memory() {
                (PassPhase::Fetching(heads, phase), Step::Done(Err(e)))
            } else {
                drop(phase);
                refused(e)
            }
        }
    }
}
