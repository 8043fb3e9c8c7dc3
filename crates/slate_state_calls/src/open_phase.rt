//! The open of a database by a compactor, step by step.
ghost use Rattle.std.specs.Prelude.{◌≡◌, ◌<◌, ◌+◌, ℕ, true, IfOk};
ghost use Rattle.slate_txn_changes.specs.LogWorks.{work_asks, work_goes};
ghost use Rattle.slate_state_calls.specs.Commits.{manifest_put, put_of, record_in, record_put};
ghost use Rattle.slate_state_calls.specs.Opening as opening;
ghost use Rattle.slate_state_calls.specs.Opening.{left_after, open_asks, open_due, open_goes, open_lists, open_start, raises, OpenFalls, OpenLeads};
ghost use Rattle.slate_state_calls.specs.declared.open_phase.OpenPhase.TheVariants.{OnRecord, Raising};
ghost use Rattle.slate_txn_log.specs.Due.{StillDue, WhereOut};
ghost use Rattle.slate_txn_log.specs.declared.log_kind.LogKind.TheVariants as kinds;
ghost use Rattle.slate_layout_manifests.specs.Decoding.{decoded_manifest};
ghost use Rattle.slate_model.specs.declared.manifest.Manifest.{Manifest as Held};
ghost use Rattle.slate_layout_records.specs.RecordBytes.{decoded_record};
ghost use Rattle.slate_store.specs.StoreCalls.{is_reading};
ghost use Rattle.slate_store.specs.Machines.{GoesOn, IsAgain};

use crate::changes::put_back;
use crate::commits::{first_put, record_put};
use crate::compactor::{Compactor, local_at_open};
use crate::logs::{manifests, records};
use crate::versions::{manifest_in, record_in};
use slate_ids::{DbPath, Millis, OutOfMemory, SlateDBError};
use slate_model::{Compactions, Manifest};
use slate_state_compactor::LocalState;
use slate_state_record_updates::{CompactionsRules, RecordChange};
use slate_state_updates::{ManifestChange, ManifestRules};
use slate_store::{Step, StoreAnswer, StoreCall};
use slate_txn_changes::{Changing, LogEnd};
use slate_txn_log::ReadPhase;
use std::alloc::Global;
use std::mem;

/// What an open is about with the record.
#[derive(Clone, Copy, Debug)]
pub enum OpenStep {
    /// The latest one gets the epoch that was raised.
    Give,
    /// The first one of a log without one is committed.
    Begin,
    /// That gets the epoch.
    GiveFirst,
    /// The one with the epoch is reset.
    Reset,
}

/// Where an open stands. From the raise on it has the manifest with the epoch that it got, and its number.
#[derive(Drop)]
pub enum OpenPhase {
    /// The compactor epoch of the latest manifest is raised.
    Raising(Changing<Option<ManifestChange>, Manifest>),
    /// The record is changed.
    OnRecord(OpenStep, (u64, Manifest), Changing<Option<RecordChange>, Compactions>),
    /// It ended.
    Over,
}

// What follows a phrase of the record: another one, or all is held with this version.
#[derive(Drop)]
enum OpenNext {
    On(OpenStep, Changing<Option<RecordChange>, Compactions>),
    Opened(u64, Compactions, LocalState),
}

// After a step without a version of the record.
fn without_version(alloc: Global, step: OpenStep, now: Millis) -> Result<OpenNext, SlateDBError>
    ensures { (m : ℕ × Held) → OpenLeads (opening.without_version step m now) m (left_after step) result }
{
    match step {
        OpenStep::Give => Ok(OpenNext::On(OpenStep::Begin, first_put(alloc, now)?)),
        _ => Err(SlateDBError::LatestTransactionalObjectVersionMissing),
    }
}

// The record is changed next.
fn put_next(
    alloc: Global,
    step: OpenStep,
    change: RecordChange,
    now: Millis,
    n: u64,
    compactions: Compactions,
) -> Result<OpenNext, SlateDBError>
    ensures { (m : ℕ × Held) (left : ℕ) → left_after step + 2 < left
        → OpenLeads (opening.puts step m (put_of change now (n, compactions))) m left result }
{
    let begun = record_put(alloc, change, now, n, &compactions);
    drop(compactions);
    Ok(OpenNext::On(step, begun?))
}

// After a step with this version of the record.
fn with_version(
    alloc: Global,
    step: OpenStep,
    raised: &(u64, Manifest),
    now: Millis,
    n: u64,
    compactions: Compactions,
) -> Result<OpenNext, SlateDBError>
    ensures { OpenLeads (opening.with_version step raised.now now (n, compactions)) raised.now (left_after step) result }
{
    let epoch = raised.1.compactor_epoch;
    match step {
        OpenStep::Give => {
            let reset = RecordChange::Reset { epoch };
            put_next(alloc, OpenStep::Reset, reset, now, n, compactions)
        }
        OpenStep::GiveFirst => {
            let reset = RecordChange::Reset { epoch };
            put_next(alloc, OpenStep::Reset, reset, now, n, compactions)
        }
        OpenStep::Begin => {
            let give = RecordChange::GiveEpoch { epoch };
            put_next(alloc, OpenStep::GiveFirst, give, now, n, compactions)
        }
        OpenStep::Reset => match local_at_open(alloc, &raised.1, &compactions) {
            Ok(local) => Ok(OpenNext::Opened(n, compactions, local)),
            Err(_) => {
                drop(compactions);
                Err(SlateDBError::OutOfMemory)
            }
        },
    }
}

// After a step that ended so.
fn after_record(
    alloc: Global,
    step: OpenStep,
    raised: &(u64, Manifest),
    now: Millis,
    end: &LogEnd<Compactions>,
) -> Result<OpenNext, SlateDBError>
    ensures { OpenLeads (opening.after_record step raised.now now (record_in end.now)) raised.now (left_after step) result }
{
    match record_in(alloc, end)? {
        None => without_version(alloc, step, now),
        Some((n, compactions)) => with_version(alloc, step, raised, now, n, compactions),
    }
}

// What is held at the end.
fn opened_with(
    raised: (u64, Manifest),
    record_id: u64,
    compactions: Compactions,
    local: LocalState,
) -> Compactor
    ensures { result ≡ record {
      epoch = raised.1.compactor_epoch;
      record_id = record_id;
      compactions = compactions;
      manifest_id = raised.0;
      manifest = raised.1;
      local = local;
    } }
{
    let (manifest_id, manifest) = raised;
    Compactor {
        epoch: manifest.compactor_epoch,
        record_id,
        compactions,
        manifest_id,
        manifest,
        local,
    }
}

impl OpenPhase {
    /// An open at its start.
    pub fn start() -> OpenPhase
        ensures { result ≡ open_start }
    {
        OpenPhase::Raising(Changing::start(Some(ManifestChange::RaiseCompactor)))
    }

    // Stands at another phase.
    fn stand(&mut self, phase: OpenPhase)
        ensures { self.new ≡ phase }
    {
        drop(mem::replace(self, phase));
    }

    /// The call that is due.
    pub fn asks(&self, alloc: Global, db: DbPath) -> Result<StoreCall, OutOfMemory>
        ensures { IfOk result (λ call. call ≡ open_asks db self.now) }
    {
        match self {
            OpenPhase::Raising(changing) => changing.asks(alloc, &manifests(db)),
            OpenPhase::OnRecord(_, _, changing) => changing.asks(alloc, &records(db)),
            OpenPhase::Over => Ok(ReadPhase::Listing.asks(&manifests(db))),
        }
    }

    /// Whether a call is due. None is after an end, unless memory ran out.
    pub fn due(&self) -> bool
        ensures { result ≡ open_due self.now }
    {
        match self {
            OpenPhase::Raising(changing) => changing.due(),
            OpenPhase::OnRecord(_, _, changing) => changing.due(),
            OpenPhase::Over => false,
        }
    }

    /// Whether its calls are on the log of manifests.
    pub fn raises(&self) -> bool
        ensures { result ≡ raises self.now }
    {
        matches!(self, OpenPhase::Raising(_))
    }

    /// Whether the versions of that log (true), or those of the record, are to be listed, also again.
    pub fn lists(&self, manifests: bool) -> bool
        ensures { result ≡ open_lists manifests self.now }
    {
        match self {
            OpenPhase::Raising(changing) => manifests && changing.is_start(),
            OpenPhase::OnRecord(_, _, changing) => !manifests && changing.is_start(),
            OpenPhase::Over => false,
        }
    }

    // Goes on from an answer while the epoch is raised.
    #[tactic(auto, using(crate::proofs::Backs::ended_due))]
    fn raising_on(
        &mut self,
        alloc: Global,
        db: DbPath,
        changing: Changing<Option<ManifestChange>, Manifest>,
        now: Millis,
        answer: &StoreAnswer,
    ) -> Step<Compactor>
        ensures goes { GoesOn (opening.raising changing
            (work_goes kinds.Manifest decoded_manifest (manifest_put changing.change) now changing.work answer.now))
            (Raising changing) self.new result }
        ensures falls { IsAgain result → OpenFalls (Raising changing) self.new }
        ensures due { StillDue result (open_due self.new) }
        ensures memory { WhereOut result (self.new ≡ Raising changing) }
        ensures reads { WhereOut result (is_reading (work_asks db kinds.Manifest changing.work) ≡ true) }
    {
        let mut changing = changing;
        match changing.goes_on(alloc, &manifests(db), &ManifestRules, now, answer) {
            Step::Again => {
                self.stand(OpenPhase::Raising(changing));
                Step::Again
            }
            Step::Done(Err(e)) => {
                if e.is_memory() {
                    self.stand(OpenPhase::Raising(changing));
                    Step::Done(Err(e))
                } else {
                    drop(changing);
                    self.stand(OpenPhase::Over);
                    Step::Done(Err(e))
                }
            }
            Step::Done(Ok(end)) => match manifest_in(alloc, &end) {
                Err(_) => {
                    put_back(&mut changing, end);
                    self.stand(OpenPhase::Raising(changing));
                    Step::Done(Err(SlateDBError::OutOfMemory))
                }
                Ok(None) => {
                    drop(end);
                    drop(changing);
                    self.stand(OpenPhase::Over);
                    Step::Done(Err(SlateDBError::LatestTransactionalObjectVersionMissing))
                }
                Ok(Some(raised)) => {
                    drop(end);
                    drop(changing);
                    let epoch = raised.1.compactor_epoch;
                    let give = Changing::start(Some(RecordChange::GiveEpoch { epoch }));
                    self.stand(OpenPhase::OnRecord(OpenStep::Give, raised, give));
                    Step::Again
                }
            },
        }
    }

    // Goes on from an answer while the record is changed.
    #[tactic(auto, using(crate::proofs::Backs::ended_due))]
    fn record_on(
        &mut self,
        alloc: Global,
        db: DbPath,
        step: OpenStep,
        raised: (u64, Manifest),
        changing: Changing<Option<RecordChange>, Compactions>,
        now: Millis,
        answer: &StoreAnswer,
    ) -> Step<Compactor>
        ensures goes { GoesOn (opening.on_record step raised now changing
            (work_goes kinds.Compactions decoded_record (record_put changing.change) now changing.work answer.now))
            (OnRecord step raised changing) self.new result }
        ensures falls { IsAgain result → OpenFalls (OnRecord step raised changing) self.new }
        ensures due { StillDue result (open_due self.new) }
        ensures memory { WhereOut result (self.new ≡ OnRecord step raised changing) }
        ensures reads { WhereOut result (is_reading (work_asks db kinds.Compactions changing.work) ≡ true) }
    {
        let mut changing = changing;
        match changing.goes_on(alloc, &records(db), &CompactionsRules, now, answer) {
            Step::Again => {
                self.stand(OpenPhase::OnRecord(step, raised, changing));
                Step::Again
            }
            Step::Done(Err(e)) => {
                if e.is_memory() {
                    self.stand(OpenPhase::OnRecord(step, raised, changing));
                    Step::Done(Err(e))
                } else {
                    drop(raised);
                    drop(changing);
                    self.stand(OpenPhase::Over);
                    Step::Done(Err(e))
                }
            }
            Step::Done(Ok(end)) => match after_record(alloc, step, &raised, now, &end) {
                Err(e) => {
                    if e.is_memory() {
                        put_back(&mut changing, end);
                        self.stand(OpenPhase::OnRecord(step, raised, changing));
                        Step::Done(Err(e))
                    } else {
                        drop(raised);
                        drop(end);
                        drop(changing);
                        self.stand(OpenPhase::Over);
                        Step::Done(Err(e))
                    }
                }
                Ok(OpenNext::On(next, put)) => {
                    drop(end);
                    drop(changing);
                    self.stand(OpenPhase::OnRecord(next, raised, put));
                    Step::Again
                }
                Ok(OpenNext::Opened(n, compactions, local)) => {
                    drop(end);
                    drop(changing);
                    self.stand(OpenPhase::Over);
                    Step::Done(Ok(opened_with(raised, n, compactions, local)))
                }
            },
        }
    }

    /// Goes on from the answer to that call, at the moment of the call. A conflict ends it. Running out of memory, which only follows a call
    /// that reads, leaves the phase as it was.
    pub fn goes_on(
        &mut self,
        alloc: Global,
        db: DbPath,
        now: Millis,
        answer: &StoreAnswer,
    ) -> Step<Compactor>
        ensures goes { GoesOn (open_goes now self.old answer.now) self.old self.new result }
        ensures falls { IsAgain result → OpenFalls self.old self.new }
        ensures due { StillDue result (open_due self.new) }
        ensures memory { WhereOut result (self.new ≡ self.old) }
        ensures reads { WhereOut result (is_reading (open_asks db self.old) ≡ true) }
    {
        match mem::replace(self, OpenPhase::Over) {
            OpenPhase::Raising(changing) => self.raising_on(alloc, db, changing, now, answer),
            OpenPhase::OnRecord(step, raised, changing) => {
                self.record_on(alloc, db, step, raised, changing, now, answer)
            }
            OpenPhase::Over => Step::Done(Err(SlateDBError::StoreFault)),
        }
    }
}
