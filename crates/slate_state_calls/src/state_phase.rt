//! The calls of a compactor on its state, step by step.
ghost use Rattle.std.specs.Prelude.{◌≡◌, true, IfOk};
ghost use Rattle.slate_txn_changes.specs.LogWorks.{work_asks, work_goes};
ghost use Rattle.slate_state_calls.specs.Commits.{manifest_put, record_put};
ghost use Rattle.slate_state_calls.specs.StateSteps as steps;
ghost use Rattle.slate_state_calls.specs.StateSteps.{at_manifests, state_asks, state_due, state_goes, state_lists, StateFalls};
ghost use Rattle.slate_state_calls.specs.declared.state_phase.StatePhase.TheVariants.{OnManifest, OnRecord};
ghost use Rattle.slate_txn_log.specs.Due.{StillDue, WhereOut};
ghost use Rattle.slate_txn_log.specs.declared.log_kind.LogKind.TheVariants as kinds;
ghost use Rattle.slate_layout_manifests.specs.Decoding.{decoded_manifest};
ghost use Rattle.slate_layout_records.specs.RecordBytes.{decoded_record};
ghost use Rattle.slate_store.specs.StoreCalls.{is_reading};
ghost use Rattle.slate_store.specs.Machines.{GoesOn, IsAgain};

use crate::changes::put_back;
use crate::compactor::Compactor;
use crate::logs::{manifests, records};
use crate::state_ends::{manifest_next, record_next};
use crate::state_start::TreesWrite;
use slate_ids::{DbPath, Millis, OutOfMemory, SlateDBError};
use slate_model::{Compactions, Manifest};
use slate_state_record_updates::{CompactionsRules, RecordChange};
use slate_state_updates::{ManifestChange, ManifestRules};
use slate_store::{Step, StoreAnswer, StoreCall};
use slate_txn_changes::Changing;
use slate_txn_log::ReadPhase;
use std::alloc::Global;
use std::mem;

/// What a call is about with the record.
#[derive(Clone, Copy, Debug)]
pub enum RecordStep {
    /// It is read, to be followed.
    Follow,
    /// A compaction is scheduled in it.
    Schedule,
    /// It is read, to get the local statuses: alone, or after these trees.
    Fetch(Option<TreesWrite>),
    /// The local statuses are committed: alone, or after these trees.
    Record(Option<TreesWrite>),
}

/// What a call is about with the manifest.
#[derive(Clone, Copy, Debug)]
pub enum ManifestStep {
    /// It is read, to be followed as the record was.
    Follow,
    /// It gets the checkpoint that comes before the local trees.
    Keep(TreesWrite),
    /// The local trees are committed.
    Merge(TreesWrite),
}

/// Where a call on the state of a compactor stands.
#[derive(Drop)]
pub enum StatePhase {
    /// The record is read or changed.
    OnRecord(RecordStep, Changing<Option<RecordChange>, Compactions>),
    /// The manifest is.
    OnManifest(ManifestStep, Changing<Option<ManifestChange>, Manifest>),
    /// It ended.
    Over,
}

impl StatePhase {
    // Stands at another phase.
    fn stand(&mut self, phase: StatePhase)
        ensures { self.new ≡ phase }
    {
        drop(mem::replace(self, phase));
    }

    /// The call that is due.
    pub fn asks(&self, alloc: Global, db: DbPath) -> Result<StoreCall, OutOfMemory>
        ensures { IfOk result (λ call. call ≡ state_asks db self.now) }
    {
        match self {
            StatePhase::OnRecord(_, changing) => changing.asks(alloc, &records(db)),
            StatePhase::OnManifest(_, changing) => changing.asks(alloc, &manifests(db)),
            StatePhase::Over => Ok(ReadPhase::Listing.asks(&records(db))),
        }
    }

    /// Whether a call is due. None is after an end, unless memory ran out.
    pub fn due(&self) -> bool
        ensures { result ≡ state_due self.now }
    {
        match self {
            StatePhase::OnRecord(_, changing) => changing.due(),
            StatePhase::OnManifest(_, changing) => changing.due(),
            StatePhase::Over => false,
        }
    }

    /// Whether its calls are on the log of manifests.
    pub fn at_manifests(&self) -> bool
        ensures { result ≡ at_manifests self.now }
    {
        matches!(self, StatePhase::OnManifest(_, _))
    }

    /// Whether the versions of that log (true), or those of the record, are to be listed, also again.
    pub fn lists(&self, manifests: bool) -> bool
        ensures { result ≡ state_lists manifests self.now }
    {
        match self {
            StatePhase::OnRecord(_, changing) => !manifests && changing.is_start(),
            StatePhase::OnManifest(_, changing) => manifests && changing.is_start(),
            StatePhase::Over => false,
        }
    }

    // Goes on from an answer while the record is read or changed.
    #[tactic(auto, using(crate::proofs::Backs::ended_due))]
    fn record_on(
        &mut self,
        alloc: Global,
        db: DbPath,
        compactor: &mut Compactor,
        step: RecordStep,
        changing: Changing<Option<RecordChange>, Compactions>,
        now: Millis,
        answer: &StoreAnswer,
    ) -> Step<()>
        ensures goes { GoesOn (steps.on_record step now compactor.old changing
            (work_goes kinds.Compactions decoded_record (record_put changing.change) now changing.work answer.now))
            (OnRecord step changing, compactor.old) (self.new, compactor.new) result }
        ensures falls { IsAgain result → StateFalls (OnRecord step changing) self.new }
        ensures due { StillDue result (state_due self.new) }
        ensures memory { WhereOut result ((self.new ≡ OnRecord step changing) × (compactor.new ≡ compactor.old)) }
        ensures reads { WhereOut result (is_reading (work_asks db kinds.Compactions changing.work) ≡ true) }
        ensures epoch { compactor.new.epoch ≡ compactor.old.epoch }
    {
        let mut changing = changing;
        match changing.goes_on(alloc, &records(db), &CompactionsRules, now, answer) {
            Step::Again => {
                self.stand(StatePhase::OnRecord(step, changing));
                Step::Again
            }
            Step::Done(Err(e)) => {
                if e.is_memory() {
                    self.stand(StatePhase::OnRecord(step, changing));
                    Step::Done(Err(e))
                } else {
                    drop(changing);
                    self.stand(StatePhase::Over);
                    Step::Done(Err(e))
                }
            }
            Step::Done(Ok(end)) => match record_next(alloc, compactor, &step, now, &end) {
                Err(e) => {
                    if e.is_memory() {
                        put_back(&mut changing, end);
                        self.stand(StatePhase::OnRecord(step, changing));
                        Step::Done(Err(e))
                    } else {
                        drop(end);
                        drop(changing);
                        self.stand(StatePhase::Over);
                        Step::Done(Err(e))
                    }
                }
                Ok(None) => {
                    drop(end);
                    drop(changing);
                    self.stand(StatePhase::Over);
                    Step::Done(Ok(()))
                }
                Ok(Some(next)) => {
                    drop(end);
                    drop(changing);
                    self.stand(next);
                    Step::Again
                }
            },
        }
    }

    // Goes on from an answer while the manifest is read or changed.
    #[tactic(auto, using(crate::proofs::Backs::ended_due))]
    fn manifest_on(
        &mut self,
        alloc: Global,
        db: DbPath,
        compactor: &mut Compactor,
        step: ManifestStep,
        changing: Changing<Option<ManifestChange>, Manifest>,
        now: Millis,
        answer: &StoreAnswer,
    ) -> Step<()>
        ensures goes { GoesOn (steps.on_manifest step now compactor.old changing
            (work_goes kinds.Manifest decoded_manifest (manifest_put changing.change) now changing.work answer.now))
            (OnManifest step changing, compactor.old) (self.new, compactor.new) result }
        ensures falls { IsAgain result → StateFalls (OnManifest step changing) self.new }
        ensures due { StillDue result (state_due self.new) }
        ensures memory { WhereOut result ((self.new ≡ OnManifest step changing) × (compactor.new ≡ compactor.old)) }
        ensures reads { WhereOut result (is_reading (work_asks db kinds.Manifest changing.work) ≡ true) }
        ensures epoch { compactor.new.epoch ≡ compactor.old.epoch }
    {
        let mut changing = changing;
        match changing.goes_on(alloc, &manifests(db), &ManifestRules, now, answer) {
            Step::Again => {
                self.stand(StatePhase::OnManifest(step, changing));
                Step::Again
            }
            Step::Done(Err(e)) => {
                if e.is_memory() {
                    self.stand(StatePhase::OnManifest(step, changing));
                    Step::Done(Err(e))
                } else {
                    drop(changing);
                    self.stand(StatePhase::Over);
                    Step::Done(Err(e))
                }
            }
            Step::Done(Ok(end)) => match manifest_next(alloc, compactor, &step, now, &end) {
                Err(e) => {
                    if e.is_memory() {
                        put_back(&mut changing, end);
                        self.stand(StatePhase::OnManifest(step, changing));
                        Step::Done(Err(e))
                    } else {
                        drop(end);
                        drop(changing);
                        self.stand(StatePhase::Over);
                        Step::Done(Err(e))
                    }
                }
                Ok(None) => {
                    drop(end);
                    drop(changing);
                    self.stand(StatePhase::Over);
                    Step::Done(Ok(()))
                }
                Ok(Some(next)) => {
                    drop(end);
                    drop(changing);
                    self.stand(next);
                    Step::Again
                }
            },
        }
    }

    /// Goes on from the answer to that call, at the moment of the call. A conflict ends it. What the compactor holds changes where a phrase
    /// ended well. Running out of memory, which only follows a call that reads, leaves both as they were.
    pub fn goes_on(
        &mut self,
        alloc: Global,
        db: DbPath,
        compactor: &mut Compactor,
        now: Millis,
        answer: &StoreAnswer,
    ) -> Step<()>
        ensures goes { GoesOn (state_goes now (self.old, compactor.old) answer.now)
            (self.old, compactor.old) (self.new, compactor.new) result }
        ensures falls { IsAgain result → StateFalls self.old self.new }
        ensures due { StillDue result (state_due self.new) }
        ensures memory { WhereOut result ((self.new ≡ self.old) × (compactor.new ≡ compactor.old)) }
        ensures reads { WhereOut result (is_reading (state_asks db self.old) ≡ true) }
        ensures epoch { compactor.new.epoch ≡ compactor.old.epoch }
    {
        match mem::replace(self, StatePhase::Over) {
            StatePhase::OnRecord(step, changing) => {
                self.record_on(alloc, db, compactor, step, changing, now, answer)
            }
            StatePhase::OnManifest(step, changing) => {
                self.manifest_on(alloc, db, compactor, step, changing, now, answer)
            }
            StatePhase::Over => Step::Done(Err(SlateDBError::StoreFault)),
        }
    }
}
