//! A change with where it stands.
ghost use Rattle.std.specs.Prelude.{◌≡◌, IfOk, true};
ghost use Rattle.slate_txn_changes.specs.Changes.{change_commit};
ghost use Rattle.slate_txn_changes.specs.LogWorks.{CanBack, WorkFalls, put_back, reads_still, work_asks, work_due, work_goes, work_start, work_starts};
ghost use Rattle.slate_txn_log.specs.Due.{StillDue, WhereOut};
ghost use Rattle.slate_store.specs.StoreCalls.{is_reading};
ghost use Rattle.slate_store.specs.Machines.{GoesOn, IsAgain};

use crate::change::Change;
use crate::log_work::{LogEnd, LogWork};
use slate_ids::{Millis, ObjectCodec, OutOfMemory};
use slate_store::{Step, StoreAnswer, StoreCall};
use slate_txn_log::{Rules, Sequenced};
use std::alloc::Global;

/// A change of a log's latest version, and where it stands.
#[derive(Debug, Drop)]
pub struct Changing<H, V> {
    pub change: H,
    pub work: LogWork<V>,
}

impl<V: Drop, H: Change<V>> Changing<H, V> {
    /// A change at its start.
    pub fn start(change: H) -> Changing<H, V>
        ensures change { result.change ≡ change }
        ensures work { result.work ≡ work_start }
    {
        Changing {
            change,
            work: LogWork::start(),
        }
    }

    /// The call that is due.
    pub fn asks<C>(&self, alloc: Global, log: &Sequenced<V, C>) -> Result<StoreCall, OutOfMemory>
        ensures { IfOk result (λ call. call ≡ work_asks log.now.db log.now.log self.now.work) }
    {
        self.work.asks(alloc, log)
    }

    /// Whether a call is due. None is after an end, unless memory ran out.
    pub fn due(&self) -> bool
        ensures { result ≡ work_due self.now.work }
    {
        self.work.due()
    }

    /// Whether it uses a turn to be here: the versions are to be listed, also again.
    pub fn is_start(&self) -> bool
        ensures { result ≡ work_starts self.now.work }
    {
        self.work.is_start()
    }

    /// Goes on from the answer to that call, at the moment of the call, as `LogWork` does with this change.
    pub fn goes_on<C: ObjectCodec<V>, R: Rules<V>>(
        &mut self,
        alloc: Global,
        log: &Sequenced<V, C>,
        rules: &R,
        now: Millis,
        answer: &StoreAnswer,
    ) -> Step<LogEnd<V>>
        ensures goes { GoesOn (work_goes log.now.log (C.decoded log.now.codec)
            (change_commit (H.made self.old.change) (H.right_of self.old.change) (H.fence_of self.old.change)
            (R.refusal rules.now) (C.encoded log.now.codec)) now self.old.work answer.now) self.old.work self.new.work result }
        ensures change { self.new.change ≡ self.old.change }
        ensures falls { IsAgain result → WorkFalls self.old.work self.new.work }
        ensures due { StillDue result (work_due self.new.work) }
        ensures back { CanBack self.old.work self.new.work result }
        ensures memory { WhereOut result (self.new ≡ self.old) }
        ensures reads { WhereOut result (is_reading (work_asks log.now.db log.now.log self.old.work) ≡ true) }
        ensures still { WhereOut result (reads_still self.old.work ≡ true) }
    {
        self.work
            .goes_on(alloc, &self.change, log, rules, now, answer)
    }

    /// Puts a change that has just ended so back to its last call. Takes no memory.
    pub fn back(&mut self, end: LogEnd<V>)
        ensures { self.new ≡ record self.old { work = put_back end self.old.work } }
    {
        self.work.back(end)
    }
}
