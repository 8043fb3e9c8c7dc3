//! A whole pass.
ghost use Rattle.std.specs.Prelude.{◌≡◌, option_copied, true, IfOk};
ghost use Rattle.slate_txn_log.specs.Due.{StillDue, FaultRose, NoFault, WhereOut};
ghost use Rattle.slate_gc_passes.specs.GcPhase.{gc_asks, gc_due, gc_start, gc_goes, may_run_out, moment_of_pass, GcSteps, WroteNothing};
ghost use Rattle.slate_gc_passes.specs.Stages.{GcFalls};
ghost use Rattle.slate_gc_passes.specs.Ways.{ways, ways_over};
ghost use Rattle.slate_gc_picks.specs.Filter.{allowed};
ghost use Rattle.slate_gc_picks.specs.WalPicks.{wal_candidates};
ghost use Rattle.slate_store.specs.Machines.{GoesOn, IsAgain};

use crate::logs::Logs;
use crate::pass_counts::PassCounts;
use crate::pass_phase::PassPhase;
use crate::pass_settings::PassSettings;
use crate::removal::after_removal;
use slate_gc_picks::{GcFilter, WalGc};
use slate_ids::{DbPath, GcMessage, Millis, ObjectCodec, OutOfMemory, SlateDBError};
use slate_model::{Compactions, Manifest};
use slate_store::{ObjectStore, Step, StoreAnswer, StoreCall, perform};
use slate_txn_changes::LogWork;
use slate_txn_log::{LogKind, Sequenced};
use std::alloc::Global;
use std::mem;

/// Where a whole pass stands.
#[derive(Debug, Drop)]
pub enum GcPhase {
    /// The checkpoints that are expired at the moment of the read's end are removed from the latest manifest.
    Removing(LogWork<Manifest>),
    /// It collects. The moment of its first call, once that was made: ages are counted at it.
    Collecting(Option<Millis>, PassPhase),
}

// The moment of a pass: that of its first call.
fn moment_of(at: Option<Millis>, moment: Millis) -> Millis
    ensures { result ≡ moment_of_pass at moment }
{
    match at {
        Some(now) => now,
        None => moment,
    }
}

// The moment that a pass has after a step.
fn moment_after(at: Option<Millis>, now: Millis, step: &Step<PassCounts>) -> Option<Millis>
    ensures { result ≡ Rattle.slate_gc_passes.specs.GcPhase.moment_after at now step.now }
{
    match step {
        Step::Again => Some(now),
        Step::Done(_) => at,
    }
}

impl GcPhase {
    /// A pass at its start.
    pub fn start() -> GcPhase
        ensures { result ≡ gc_start }
    {
        GcPhase::Removing(LogWork::start())
    }

    /// The call that is due.
    pub fn asks(&self, alloc: Global, db: DbPath, pass: GcMessage) -> Result<StoreCall, OutOfMemory>
        ensures { IfOk result (λ call. call ≡ gc_asks db pass self.now) }
    {
        let manifests: Sequenced<Manifest, ()> = Sequenced::new(db, LogKind::Manifest, ());
        match self {
            GcPhase::Removing(work) => work.asks(alloc, &manifests),
            GcPhase::Collecting(_, phase) => phase.asks(alloc, db, pass),
        }
    }

    /// Whether a call is due. None is after an end, unless memory ran out.
    pub fn due(&self) -> bool
        ensures { result ≡ gc_due self.now }
    {
        match self {
            GcPhase::Removing(work) => work.due(),
            GcPhase::Collecting(_, phase) => phase.due(),
        }
    }

    // The phase after the answer to the call of this one, and the step.
    fn after<C: ObjectCodec<Manifest>, R: ObjectCodec<Compactions>, F: GcFilter, W: WalGc>(
        self,
        alloc: Global,
        logs: &Logs<C, R>,
        filter: Option<&F>,
        wal: Option<&W>,
        settings: &PassSettings,
        moment: Millis,
        answer: &StoreAnswer,
    ) -> (GcPhase, Step<PassCounts>)
        ensures goes { GoesOn (gc_goes (ways (C.decoded logs.now.manifests) (C.encoded logs.now.manifests)
            (R.decoded logs.now.records) (allowed F.returns (option_copied filter.entry))
            (wal_candidates W.picked (option_copied wal.entry))) settings.now moment self answer.now)
            self result.0 result.1 }
        ensures due { StillDue result.1 (gc_due result.0) }
        ensures falls { IsAgain result.1 → GcFalls self result.0 }
        ensures memory { WhereOut result.1 (result.0 ≡ self) }
        ensures writes { WhereOut result.1 (may_run_out self ≡ true) }
    {
        match self {
            GcPhase::Removing(work) => {
                after_removal(alloc, logs, settings.pass, moment, work, answer)
            }
            GcPhase::Collecting(at, phase) => {
                let now = moment_of(at, moment);
                let mut phase = phase;
                let step = phase.goes_on(alloc, logs, filter, wal, settings, now, answer);
                (
                    GcPhase::Collecting(moment_after(at, now, &step), phase),
                    step,
                )
            }
        }
    }

    /// Goes on from the answer to that call, at the moment of the call. Running out of memory comes only after a list or a get, while
    /// the pass reads, and leaves the phase as it was.
    pub fn goes_on<C: ObjectCodec<Manifest>, R: ObjectCodec<Compactions>, F: GcFilter, W: WalGc>(
        &mut self,
        alloc: Global,
        logs: &Logs<C, R>,
        filter: Option<&F>,
        wal: Option<&W>,
        settings: &PassSettings,
        moment: Millis,
        answer: &StoreAnswer,
    ) -> Step<PassCounts>
        ensures goes { GoesOn (gc_goes (ways (C.decoded logs.now.manifests) (C.encoded logs.now.manifests)
            (R.decoded logs.now.records) (allowed F.returns (option_copied filter.entry))
            (wal_candidates W.picked (option_copied wal.entry))) settings.now moment self.old answer.now)
            self.old self.new result }
        ensures due { StillDue result (gc_due self.new) }
        ensures falls { IsAgain result → GcFalls self.old self.new }
        ensures memory { WhereOut result (self.new ≡ self.old) }
        ensures writes { WhereOut result (may_run_out self.old ≡ true) }
    {
        let (phase, step) = mem::replace(self, GcPhase::Collecting(None, PassPhase::Over)).after(
            alloc, logs, filter, wal, settings, moment, answer,
        );
        *self = phase;
        step
    }

    /// Makes the one call that is due. Want of memory never follows a write: where memory runs out no call was made, or one that only
    /// reads, and the pass stands as before. Any other end leaves no call due. A delete that faults is counted, and doesn't end
    /// the pass.
    pub fn next<
        C: ObjectCodec<Manifest>,
        R: ObjectCodec<Compactions>,
        F: GcFilter,
        W: WalGc,
        S: ObjectStore,
    >(
        &mut self,
        alloc: Global,
        logs: &Logs<C, R>,
        filter: Option<&F>,
        wal: Option<&W>,
        settings: &PassSettings,
        store: &mut S,
        moment: Millis,
    ) -> Step<PassCounts>
        requires due { gc_due self.now ≡ true }
        ensures steps { GcSteps logs.now.db (ways_over C.decoded C.encoded R.decoded logs.now
            (allowed F.returns (option_copied filter.entry))
            (wal_candidates W.picked (option_copied wal.entry))) settings.now moment
            (S.told store.old) (S.told store.new) self.old self.new result }
        ensures due { StillDue result (gc_due self.new) }
        ensures falls { IsAgain result → GcFalls self.old self.new }
        ensures memory { WhereOut result (WroteNothing (S.told store.old) (S.told store.new)
            (gc_asks logs.now.db settings.now.pass self.old)) }
        ensures fault { NoFault (C.decoded logs.now.manifests) → NoFault (C.encoded logs.now.manifests)
            → NoFault (R.decoded logs.now.records)
            → FaultRose (S.told store.old) (S.told store.new) result }
    {
        match self.asks(alloc, logs.db, settings.pass) {
            Ok(call) => {
                let performed = perform(alloc, store, &call, moment);
                drop(call);
                match performed {
                    Ok(answer) => {
                        let step = self.goes_on(
                            alloc, logs, filter, wal, settings, moment, &answer,
                        );
                        drop(answer);
                        step
                    }
                    Err(_) => Step::Done(Err(SlateDBError::OutOfMemory)),
                }
            }
            Err(_) => Step::Done(Err(SlateDBError::OutOfMemory)),
        }
    }
}
