//! The advance of a pass and its deletes: what follows the answer to each call.
ghost use Rattle.std.specs.Prelude.{◌≡◌, ◌<◌, option_copied, Err, IfOk};
ghost use Rattle.slate_txn_log.specs.AdvancePhase.{advance_goes};
ghost use Rattle.slate_txn_log.specs.Due.{StillDue, NeverOut};
ghost use Rattle.slate_gc_passes.specs.Pass as pass;
ghost use Rattle.slate_gc_passes.specs.Stages.{PassFalls, stages_within};
ghost use Rattle.slate_gc_passes.specs.declared.pass_phase.PassPhase.TheVariants as phases;
ghost use Rattle.slate_gc_picks.specs.Filter.{allowed};
ghost use Rattle.slate_store.specs.Machines.{GoesOnAlways, IsAgain};
ghost use Rattle.slate_store.specs.declared.step.Step.TheVariants.{Done};

use crate::pass_counts::PassCounts;
use crate::pass_phase::PassPhase;
use crate::pass_settings::PassSettings;
use crate::rows::{target, versions_of};
use slate_gc_picks::{GcFilter, Objects, picks};
use slate_ids::{OutOfMemory, SlateDBError};
use slate_store::{ObjectMetadata, Step, StoreAnswer};
use slate_txn_log::AdvancePhase;
use std::alloc::Global;

/// The next phase, and the step.
pub(crate) type Onward = (PassPhase, Step<PassCounts>);

/// The pass ends with a refusal.
pub(crate) fn refused(e: SlateDBError) -> Onward
    ensures phase { result.0 ≡ phases.Over }
    ensures step { result.1 ≡ Done (Err e) }
{
    (PassPhase::Over, Step::Done(Err(e)))
}

// The first of these objects is to be deleted; after the last the pass ends.
fn deletes_next(left: Objects, counts: PassCounts) -> Onward
    ensures goes { GoesOnAlways (pass.deletes_next left counts) result.0 result.1 }
    ensures due { StillDue result.1 (pass.pass_due result.0) }
    ensures next { IsAgain result.1 → result.0 ≡ phases.Deleting left counts }
    ensures stages { IsAgain result.1 → stages_within result.0 < 2 }
    ensures memory { NeverOut result.1 }
{
    if left.is_empty() {
        (PassPhase::Over, Step::Done(Ok(counts)))
    } else {
        (PassPhase::Deleting(left, counts), Step::Again)
    }
}

// The boundary is moved up, where it is to be; then the picks are deleted.
fn advance_to(to: Option<u64>, picked: Objects, counts: PassCounts) -> Onward
    ensures goes { GoesOnAlways (pass.advance_to to picked counts) result.0 result.1 }
    ensures due { StillDue result.1 (pass.pass_due result.0) }
    ensures stages { IsAgain result.1 → stages_within result.0 < 3 }
    ensures memory { NeverOut result.1 }
{
    match to {
        Some(k) => (
            PassPhase::Advancing(AdvancePhase::Bounding(k), picked, counts),
            Step::Again,
        ),
        None => deletes_next(picked, counts),
    }
}

/// The candidates are known, of so many listed objects.
pub(crate) fn chosen<F: GcFilter>(
    alloc: Global,
    filter: Option<&F>,
    settings: &PassSettings,
    listed: u64,
    candidates: &[ObjectMetadata],
) -> Result<Onward, OutOfMemory>
    ensures goes { IfOk result (λ onward. GoesOnAlways
        (pass.chosen_goes (allowed F.returns (option_copied filter.entry)) settings.now listed candidates.now)
        onward.0 onward.1) }
    ensures due { IfOk result (λ onward. StillDue onward.1 (pass.pass_due onward.0)) }
    ensures stages { IfOk result (λ onward. IsAgain onward.1 → stages_within onward.0 < 3) }
    ensures memory { IfOk result (λ onward. NeverOut onward.1) }
{
    let picked = picks(alloc, filter, settings.options.dry_run, candidates)?;
    let counts = PassCounts::of(picked.len(), versions_of(settings.pass, listed));
    Ok(advance_to(target(settings, candidates), picked, counts))
}

/// After a step of the advance. Takes no memory.
#[tactic(auto, using(crate::proofs::Falling::fewer_stages))]
pub(crate) fn after_advance(
    phase: AdvancePhase,
    picked: Objects,
    counts: PassCounts,
    answer: &StoreAnswer,
) -> Onward
    ensures goes { GoesOnAlways (pass.advanced_goes picked counts (advance_goes phase answer.now))
        result.0 result.1 }
    ensures due { StillDue result.1 (pass.pass_due result.0) }
    ensures falls { IsAgain result.1 → PassFalls (phases.Advancing phase picked counts) result.0 }
    ensures memory { NeverOut result.1 }
{
    let mut phase = phase;
    match phase.goes_on(answer) {
        Step::Again => (PassPhase::Advancing(phase, picked, counts), Step::Again),
        Step::Done(Ok(())) => deletes_next(picked, counts),
        Step::Done(Err(e)) => {
            drop(picked);
            refused(e)
        }
    }
}

/// After the delete of the first of the objects left. A fault is counted. Takes no memory.
#[tactic(auto, using(crate::proofs::Falling::fewer_left))]
pub(crate) fn after_delete(left: Objects, counts: PassCounts, answer: &StoreAnswer) -> Onward
    ensures goes { GoesOnAlways (pass.delete_goes left counts answer.now) result.0 result.1 }
    ensures due { StillDue result.1 (pass.pass_due result.0) }
    ensures falls { IsAgain result.1 → PassFalls (phases.Deleting left counts) result.0 }
    ensures memory { NeverOut result.1 }
{
    if left.is_empty() {
        drop(left);
        return refused(SlateDBError::StoreFault);
    }
    let mut rest = left;
    rest.drop_first();
    match answer {
        StoreAnswer::Deleted => deletes_next(rest, counts.one_deleted()),
        StoreAnswer::Fault => deletes_next(rest, counts.one_failed()),
        _ => {
            drop(rest);
            refused(SlateDBError::StoreFault)
        }
    }
}
