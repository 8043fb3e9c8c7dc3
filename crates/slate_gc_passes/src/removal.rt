//! The removal of expired checkpoints: a change of the latest manifest, after which a pass collects.
ghost use Rattle.std.specs.Prelude.{◌≡◌, None, true};
ghost use Rattle.slate_txn_changes.specs.LogWorks.{reads_still, work_goes};
ghost use Rattle.slate_txn_log.specs.Due.{StillDue, WhereOut};
ghost use Rattle.slate_txn_log.specs.declared.log_kind.LogKind.TheVariants as kinds;
ghost use Rattle.slate_gc_passes.specs.GcPhase as whole;
ghost use Rattle.slate_gc_passes.specs.Pass.{first_phase};
ghost use Rattle.slate_gc_passes.specs.Stages.{GcFalls};
ghost use Rattle.slate_gc_passes.specs.declared.gc_phase.GcPhase.TheVariants as passes;
ghost use Rattle.slate_store.specs.Machines.{GoesOn, IsAgain};
ghost use Rattle.slate_state_updates.specs.ManifestChanges.{commit_of};
ghost use Rattle.slate_state_updates.specs.declared.manifest_change.ManifestChange.TheVariants as changes;

use crate::gc_phase::GcPhase;
use crate::logs::Logs;
use crate::pass_counts::PassCounts;
use crate::pass_phase::PassPhase;
use slate_ids::{GcMessage, Millis, ObjectCodec, SlateDBError};
use slate_model::Manifest;
use slate_state_updates::{ManifestChange, ManifestRules};
use slate_store::{Step, StoreAnswer};
use slate_txn_changes::{LogEnd, LogWork};
use std::alloc::Global;

/// Where the pass stands next, and the step.
type Onward = (GcPhase, Step<PassCounts>);

// The pass is to collect, and has made no call for it.
fn collecting(alloc: Global, pass: GcMessage) -> GcPhase
    ensures { result ≡ passes.Collecting None (first_phase pass) }
{
    GcPhase::Collecting(None, PassPhase::first(alloc, pass))
}

/// After a call of the removal, at its moment. Running out of memory comes only while the manifest is read, and leaves the phase as it was.
pub(crate) fn after_removal<C: ObjectCodec<Manifest>, R>(
    alloc: Global,
    logs: &Logs<C, R>,
    pass: GcMessage,
    now: Millis,
    work: LogWork<Manifest>,
    answer: &StoreAnswer,
) -> Onward
    ensures goes { GoesOn (whole.removed_goes pass (work_goes kinds.Manifest (C.decoded logs.now.manifests)
        (commit_of (C.encoded logs.now.manifests) changes.DropExpired) now work answer.now))
        (passes.Removing work) result.0 result.1 }
    ensures due { StillDue result.1 (whole.gc_due result.0) }
    ensures falls { IsAgain result.1 → GcFalls (passes.Removing work) result.0 }
    ensures memory { WhereOut result.1 (result.0 ≡ passes.Removing work) }
    ensures writes { WhereOut result.1 (reads_still work ≡ true) }
{
    let manifests = logs.manifest_log();
    let mut work = work;
    let change = ManifestChange::DropExpired;
    let step = work.goes_on(alloc, &change, &manifests, &ManifestRules, now, answer);
    drop(change);
    match step {
        Step::Again => (GcPhase::Removing(work), Step::Again),
        Step::Done(Ok(LogEnd::Absent)) => {
            let missing = SlateDBError::LatestTransactionalObjectVersionMissing;
            (GcPhase::Removing(work), Step::Done(Err(missing)))
        }
        Step::Done(Ok(LogEnd::Unchanged(_, manifest))) => {
            drop(manifest);
            drop(work);
            (collecting(alloc, pass), Step::Again)
        }
        Step::Done(Ok(LogEnd::Committed(_, manifest))) => {
            drop(manifest);
            drop(work);
            (collecting(alloc, pass), Step::Again)
        }
        Step::Done(Err(e)) => (GcPhase::Removing(work), Step::Done(Err(e))),
    }
}
