//! A pass that is driven to its end.
ghost use Rattle.std.specs.Prelude.{◌≡◌, option_copied, true, false};
ghost use Rattle.slate_gc.specs.GcPass.{layout_ways};
ghost use Rattle.slate_gc.specs.PassTurns as turns;
ghost use Rattle.slate_gc.specs.PassTurns.{stages_left, TurnSteps};
ghost use Rattle.slate_gc.specs.PlainStages.{Leaves, PassAlong, TurnFalls};
ghost use Rattle.slate_txn_log.specs.Due.{StillDue};
ghost use Rattle.slate_gc_passes.specs.GcPhase.{gc_due, gc_start};
ghost use Rattle.slate_gc_passes.specs.Stages.{stages_within};
ghost use Rattle.slate_gc_picks.specs.Filter.{allowed};
ghost use Rattle.slate_gc_picks.specs.WalPicks.{wal_candidates};
ghost use Rattle.slate_store.specs.Machines.{IsAgain};

use crate::gc_pass::GcPass;
use slate_gc_passes::{GcPhase, PassCounts, PassPhase, PassSettings};
use slate_gc_picks::{GcFilter, WalGc};
use slate_ids::{DbPath, Millis};
use slate_store::{ObjectStore, Step};
use std::alloc::Global;
use std::mem;

/// A pass, and whether its last step used a turn.
#[derive(Debug, Drop)]
pub(crate) struct PassTurns {
    pub pass: GcPass,
    pub is_turned: bool,
}

// How many of its stages a pass has left, once the expired checkpoints are removed.
fn stages_within(phase: &PassPhase) -> u8
    ensures { result ≡ stages_within phase.now }
{
    match phase {
        PassPhase::ReadingRecord(_) => 8,
        PassPhase::ReadingManifest(_, _) => 7,
        PassPhase::Fetching(_, _) => 6,
        PassPhase::Listing(_, _) => 5,
        PassPhase::Getting(_, _, _) => 4,
        PassPhase::Bounding(_, _, _) => 3,
        PassPhase::Advancing(_, _, _) => 2,
        PassPhase::Deleting(_, _) => 1,
        PassPhase::Over => 0,
    }
}

// How many of its stages a pass has left, this one included.
fn stages_of(phase: &GcPhase) -> u8
    ensures { result ≡ stages_left phase.now }
{
    match phase {
        GcPhase::Removing(_) => 9,
        GcPhase::Collecting(_, phase) => stages_within(phase),
    }
}

// Whether a stage that may start again is at its start, once the expired checkpoints are removed.
fn begins_within(phase: &PassPhase) -> bool
    ensures { result ≡ turns.begins_within phase.now }
{
    match phase {
        PassPhase::ReadingRecord(read) => read.is_listing(),
        PassPhase::ReadingManifest(_, read) => read.is_listing(),
        PassPhase::Advancing(advance, _, _) => advance.is_bounding(),
        _ => false,
    }
}

// Whether a stage that may start again is at its start.
fn begins_stage(phase: &GcPhase) -> bool
    ensures { result ≡ turns.begins_stage phase.now }
{
    match phase {
        GcPhase::Removing(work) => work.is_start(),
        GcPhase::Collecting(_, phase) => begins_within(phase),
    }
}

// How many of its picks a pass has deleted, while it deletes.
fn deleted_within(phase: &PassPhase) -> u64
    ensures { result ≡ turns.deleted_within phase.now }
{
    match phase {
        PassPhase::Deleting(_, counts) => counts.deleted,
        _ => 0,
    }
}

// How many of its picks a pass has deleted.
fn deleted_at(phase: &GcPhase) -> u64
    ensures { result ≡ turns.deleted_at phase.now }
{
    match phase {
        GcPhase::Collecting(_, phase) => deleted_within(phase),
        _ => 0,
    }
}

impl PassTurns {
    /// A pass at its start.
    pub(crate) fn new(db: DbPath, settings: PassSettings) -> PassTurns
        ensures db { result.pass.db ≡ db }
        ensures settings { result.pass.settings ≡ settings }
        ensures phase { result.pass.phase ≡ gc_start }
        ensures turned { result.is_turned ≡ false }
    {
        PassTurns {
            pass: GcPass {
                db,
                settings,
                phase: GcPhase::start(),
            },
            is_turned: false,
        }
    }

    // How many of its stages it has left, this one included.
    fn stages_left(&self) -> u8
        ensures { result ≡ stages_left self.now.pass.phase }
    {
        stages_of(&self.pass.phase)
    }

    /// How many of its picks it has deleted, while it deletes; else 0.
    pub(crate) fn deleted(&self) -> u64
        ensures { result ≡ turns.deleted_at self.now.pass.phase }
    {
        deleted_at(&self.pass.phase)
    }

    // Begins again after a conflict.
    fn begin_again(&mut self)
        ensures phase { self.new.pass.phase ≡ gc_start }
        ensures turned { self.new.is_turned ≡ true }
        ensures db { self.new.pass.db ≡ self.old.pass.db }
        ensures settings { self.new.pass.settings ≡ self.old.pass.settings }
    {
        drop(mem::replace(&mut self.pass.phase, GcPhase::start()));
        self.is_turned = true;
    }

    // Notes whether a step from a stage used a turn.
    fn note(&mut self, stages: u8)
        ensures turned { self.new.is_turned ≡ turns.turned_from stages self.old.pass.phase }
        ensures pass { self.new.pass ≡ self.old.pass }
    {
        self.is_turned = stages == self.stages_left() && begins_stage(&self.pass.phase);
    }

    // Whether a turn was used, or fewer stages are left than these.
    fn is_through(&self, stages: u8) -> bool
        ensures { result ≡ turns.is_through stages (self.now.pass.phase, self.now.is_turned) }
    {
        self.is_turned || self.stages_left() < stages
    }

    // Makes the one call that is due; after a conflict the pass begins again.
    fn next_try<S: ObjectStore, F: GcFilter, W: WalGc>(
        &mut self,
        alloc: Global,
        store: &mut S,
        filter: Option<&F>,
        wal: Option<&W>,
        moment: Millis,
    ) -> Step<PassCounts>
        requires due { gc_due self.now.pass.phase ≡ true }
        ensures steps { TurnSteps (layout_ways (allowed F.returns (option_copied filter.entry))
            (wal_candidates W.picked (option_copied wal.entry))) moment
            (S.told store.old) (S.told store.new) self.old self.new result }
        ensures falls { IsAgain result → TurnFalls self.old.pass.phase self.new.pass.phase self.new.is_turned }
        ensures db { self.new.pass.db ≡ self.old.pass.db }
        ensures settings { self.new.pass.settings ≡ self.old.pass.settings }
        ensures due { StillDue result (gc_due self.new.pass.phase) }
    {
        let stages = self.stages_left();
        match self.pass.next(alloc, store, filter, wal, moment) {
            Step::Again => {
                self.note(stages);
                Step::Again
            }
            Step::Done(Ok(counts)) => Step::Done(Ok(counts)),
            Step::Done(Err(e)) => {
                if e.is_conflict() {
                    drop(e);
                    self.begin_again();
                    Step::Again
                } else {
                    Step::Done(Err(e))
                }
            }
        }
    }

    /// Drives the pass to the end of its stage, unless it ends or a turn is used before.
    pub(crate) fn through_stage<S: ObjectStore, F: GcFilter, W: WalGc>(
        &mut self,
        alloc: Global,
        store: &mut S,
        filter: Option<&F>,
        wal: Option<&W>,
        moment: Millis,
    ) -> Step<PassCounts>
        requires due { gc_due self.now.pass.phase ≡ true }
        ensures along { PassAlong (layout_ways (allowed F.returns (option_copied filter.entry))
            (wal_candidates W.picked (option_copied wal.entry))) moment
            (S.told store.old) (S.told store.new) self.old self.new result }
        ensures leaves { IsAgain result → Leaves (self.old.pass.phase, self.old.is_turned)
            (self.new.pass.phase, self.new.is_turned) }
        ensures db { self.new.pass.db ≡ self.old.pass.db }
        ensures settings { self.new.pass.settings ≡ self.old.pass.settings }
        ensures due { StillDue result (gc_due self.new.pass.phase) }
    {
        let stages = self.stages_left();
        'steps: loop {
            match self.next_try(alloc, store, filter, wal, moment) {
                Step::Done(reply) => return Step::Done(reply),
                Step::Again => {}
            }
            if self.is_through(stages) {
                return Step::Again;
            }
        }
    }
}
