//! A change under way, step by step.
ghost use Rattle.std.specs.Prelude.{◌≡◌, IfOk, true};
ghost use Rattle.slate_txn_changes.specs.Changes.{change_commit};
ghost use Rattle.slate_txn_changes.specs.LogWorks.{CanBack, WorkFalls, change_goes, commit_on, put_back, read_on, reads_still, work_asks, work_due, work_goes, work_start, work_starts};
ghost use Rattle.slate_txn_changes.specs.declared.log_work.LogWork.TheVariants.{Reading, Committing};
ghost use Rattle.slate_txn_log.specs.CommitPhase.{commit_goes};
ghost use Rattle.slate_txn_log.specs.Due.{NeverOut, StillDue, WhereOut};
ghost use Rattle.slate_txn_log.specs.ReadPhase.{read_goes};
ghost use Rattle.slate_txn_log.specs.declared.read_phase.ReadPhase.TheVariants.{Bounding};
ghost use Rattle.slate_store.specs.StoreCalls.{is_reading};
ghost use Rattle.slate_store.specs.Machines.{GoesOn, GoesOnAlways, IsAgain};

use crate::change::Change;
use crate::commits::commit_change;
use slate_ids::{Millis, ObjectCodec, OutOfMemory, SlateDBError};
use slate_store::{Step, StoreAnswer, StoreCall};
use slate_txn_log::{CommitPhase, ReadPhase, Rules, Sequenced};
use std::alloc::Global;
use std::mem;

/// Where a change under way stands. The change itself lies beside it.
#[derive(Debug, Drop)]
pub enum LogWork<V> {
    /// The latest version is read.
    Reading(ReadPhase<V>),
    /// What the change made of it is committed. It was made at this moment, the one at which the read ended.
    Committing(Millis, CommitPhase<V>),
}

/// How a change under way ends, where it isn't refused.
#[derive(Debug, Drop)]
pub enum LogEnd<V> {
    /// The log has no version.
    Absent,
    /// The number and the value of the latest version, of which the change made nothing.
    Unchanged(u64, V),
    /// The number and the value that were put.
    Committed(u64, V),
}

impl<V: Drop> LogWork<V> {
    /// At its start: the latest version is to be read.
    pub fn start() -> LogWork<V>
        ensures { result ≡ work_start }
    {
        LogWork::Reading(ReadPhase::Listing)
    }

    // Stands there.
    pub(crate) fn stand(&mut self, work: LogWork<V>)
        ensures { self.new ≡ work }
    {
        drop(mem::replace(self, work));
    }

    /// The call that is due.
    pub fn asks<C>(&self, alloc: Global, log: &Sequenced<V, C>) -> Result<StoreCall, OutOfMemory>
        ensures { IfOk result (λ call. call ≡ work_asks log.now.db log.now.log self.now) }
    {
        match self {
            LogWork::Reading(phase) => Ok(phase.asks(log)),
            LogWork::Committing(_, phase) => phase.asks(alloc, log),
        }
    }

    /// Whether a call is due. None is after an end, unless memory ran out.
    pub fn due(&self) -> bool
        ensures { result ≡ work_due self.now }
    {
        match self {
            LogWork::Reading(phase) => phase.due(),
            LogWork::Committing(_, phase) => phase.due(),
        }
    }

    /// Whether it uses a turn to be here: the versions are to be listed, also again.
    pub fn is_start(&self) -> bool
        ensures { result ≡ work_starts self.now }
    {
        match self {
            LogWork::Reading(phase) => phase.is_listing(),
            LogWork::Committing(_, _) => false,
        }
    }

    // Version `n` was read: what the change makes of it is committed, where it makes something. Where memory runs out it is read still.
    #[tactic(auto, using(crate::proofs::Ranks::putting_rank, crate::proofs::Ranks::putting_due))]
    fn version_read<H: Change<V>, C: ObjectCodec<V>, R: Rules<V>>(
        &mut self,
        alloc: Global,
        change: &H,
        codec: &C,
        rules: &R,
        now: Millis,
        n: u64,
        value: V,
    ) -> Step<LogEnd<V>>
        ensures goes { GoesOn (change_goes now n value (change_commit (H.made change.now) (H.right_of change.now) (H.fence_of change.now)
            (R.refusal rules.now) (C.encoded codec.now) now n value)) (Reading (Bounding n value)) self.new result }
        ensures falls { IsAgain result → WorkFalls (Reading (Bounding n value)) self.new }
        ensures due { StillDue result (work_due self.new) }
        ensures back { CanBack (Reading (Bounding n value)) self.new result }
        ensures memory { WhereOut result (self.new ≡ Reading (Bounding n value)) }
    {
        match commit_change(alloc, change, codec, rules, now, n, &value) {
            Ok(Some(commit)) => {
                drop(value);
                self.stand(LogWork::Committing(now, commit));
                Step::Again
            }
            Ok(None) => {
                self.stand(LogWork::Reading(ReadPhase::Over));
                Step::Done(Ok(LogEnd::Unchanged(n, value)))
            }
            Err(e) => {
                if e.is_memory() {
                    self.stand(LogWork::Reading(ReadPhase::Bounding(n, value)));
                } else {
                    drop(value);
                    self.stand(LogWork::Reading(ReadPhase::Over));
                }
                Step::Done(Err(e))
            }
        }
    }

    // Goes on from an answer while the latest version is read.
    #[tactic(auto, using(crate::proofs::ReadEnds::ends_listing))]
    fn read_on<H: Change<V>, C: ObjectCodec<V>, R: Rules<V>>(
        &mut self,
        alloc: Global,
        change: &H,
        log: &Sequenced<V, C>,
        rules: &R,
        now: Millis,
        phase: ReadPhase<V>,
        answer: &StoreAnswer,
    ) -> Step<LogEnd<V>>
        ensures goes { GoesOn (read_on (change_commit (H.made change.now) (H.right_of change.now) (H.fence_of change.now)
            (R.refusal rules.now) (C.encoded log.now.codec)) now
            (read_goes log.now.log (C.decoded log.now.codec) phase answer.now)) (Reading phase) self.new result }
        ensures falls { IsAgain result → WorkFalls (Reading phase) self.new }
        ensures due { StillDue result (work_due self.new) }
        ensures back { CanBack (Reading phase) self.new result }
        ensures memory { WhereOut result (self.new ≡ Reading phase) }
    {
        let mut phase = phase;
        match phase.goes_on(alloc, log, answer) {
            Step::Again => {
                self.stand(LogWork::Reading(phase));
                Step::Again
            }
            Step::Done(Ok(None)) => {
                self.stand(LogWork::Reading(phase));
                Step::Done(Ok(LogEnd::Absent))
            }
            Step::Done(Ok(Some((n, value)))) => {
                drop(phase);
                self.version_read(alloc, change, &log.codec, rules, now, n, value)
            }
            Step::Done(Err(e)) => {
                self.stand(LogWork::Reading(phase));
                Step::Done(Err(e))
            }
        }
    }

    // Goes on from an answer while what the change made is committed. Takes no memory.
    #[tactic(auto, using(crate::proofs::CommitEnds::ends_bounding))]
    fn commit_on(
        &mut self,
        made: Millis,
        phase: CommitPhase<V>,
        answer: &StoreAnswer,
    ) -> Step<LogEnd<V>>
        ensures goes { GoesOnAlways (commit_on made (commit_goes phase answer.now)) self.new result }
        ensures falls { IsAgain result → WorkFalls (Committing made phase) self.new }
        ensures due { StillDue result (work_due self.new) }
        ensures back { CanBack (Committing made phase) self.new result }
        ensures memory { NeverOut result }
    {
        let mut phase = phase;
        match phase.goes_on(answer) {
            Step::Again => {
                self.stand(LogWork::Committing(made, phase));
                Step::Again
            }
            Step::Done(Ok((n, value))) => {
                self.stand(LogWork::Committing(made, phase));
                Step::Done(Ok(LogEnd::Committed(n, value)))
            }
            Step::Done(Err(e)) => {
                self.stand(LogWork::Committing(made, phase));
                Step::Done(Err(e))
            }
        }
    }

    /// Goes on from the answer to that call, at the moment of the call: the change is made of the latest version once that is read. A
    /// conflict ends it. Running out of memory, which only follows a call that reads, while the version is read, leaves it as it was.
    pub fn goes_on<H: Change<V>, C: ObjectCodec<V>, R: Rules<V>>(
        &mut self,
        alloc: Global,
        change: &H,
        log: &Sequenced<V, C>,
        rules: &R,
        now: Millis,
        answer: &StoreAnswer,
    ) -> Step<LogEnd<V>>
        ensures goes { GoesOn (work_goes log.now.log (C.decoded log.now.codec)
            (change_commit (H.made change.now) (H.right_of change.now) (H.fence_of change.now)
            (R.refusal rules.now) (C.encoded log.now.codec)) now self.old answer.now) self.old self.new result }
        ensures falls { IsAgain result → WorkFalls self.old self.new }
        ensures due { StillDue result (work_due self.new) }
        ensures back { CanBack self.old self.new result }
        ensures memory { WhereOut result (self.new ≡ self.old) }
        ensures reads { WhereOut result (is_reading (work_asks log.now.db log.now.log self.old) ≡ true) }
        ensures still { WhereOut result (reads_still self.old ≡ true) }
    {
        match mem::replace(self, LogWork::Reading(ReadPhase::Over)) {
            LogWork::Reading(phase) => {
                self.read_on(alloc, change, log, rules, now, phase, answer)
            }
            LogWork::Committing(made, phase) => self.commit_on(made, phase, answer),
        }
    }

    /// Puts work that has just ended so back to its last call. Takes no memory.
    pub fn back(&mut self, end: LogEnd<V>)
        ensures { self.new ≡ put_back end self.old }
    {
        match end {
            LogEnd::Absent => self.stand(LogWork::Reading(ReadPhase::Listing)),
            LogEnd::Unchanged(n, value) => {
                self.stand(LogWork::Reading(ReadPhase::Bounding(n, value)))
            }
            LogEnd::Committed(n, value) => {
                if let LogWork::Committing(_, phase) = self {
                    drop(mem::replace(phase, CommitPhase::Bounding(n, value)));
                } else {
                    drop(value);
                }
            }
        }
    }
}
