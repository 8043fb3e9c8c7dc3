//! The plain call that changes the latest version.
ghost use Rattle.std.specs.Prelude.{◌<◌, ◌≡◌, true};
ghost use Rattle.slate_txn_changes.specs.Changes.{change_commit};
ghost use Rattle.slate_txn_changes.specs.Latest.{Changes, LatestSteps, TurnFalls};
ghost use Rattle.slate_txn_changes.specs.LogWorks.{WorkFalls, WorkSteps, work_due};
ghost use Rattle.slate_txn_log.specs.Due.{StillDue};
ghost use Rattle.slate_store.specs.Machines.{IsAgain};

use crate::change::Change;
use crate::log_work::{LogEnd, LogWork};
use slate_ids::{Millis, ObjectCodec, SlateDBError};
use slate_store::{ObjectStore, Step, perform};
use slate_txn_log::{Rules, Sequenced};
use std::alloc::Global;

impl<V: Drop> LogWork<V> {
    // Makes the one call that is due, and goes on from its answer.
    fn next<H: Change<V>, C: ObjectCodec<V>, R: Rules<V>, S: ObjectStore>(
        &mut self,
        alloc: Global,
        change: &H,
        log: &Sequenced<V, C>,
        rules: &R,
        store: &mut S,
        moment: Millis,
    ) -> Step<LogEnd<V>>
        requires due { work_due self.now ≡ true }
        ensures steps { WorkSteps log.now.db log.now.log (C.decoded log.now.codec)
            (change_commit (H.made change.now) (H.right_of change.now) (H.fence_of change.now)
            (R.refusal rules.now) (C.encoded log.now.codec)) moment
            (S.told store.old) (S.told store.new) self.old self.new result }
        ensures falls { IsAgain result → WorkFalls self.old self.new }
        ensures due { StillDue result (work_due self.new) }
    {
        match self.asks(alloc, log) {
            Ok(call) => {
                let performed = perform(alloc, store, &call, moment);
                drop(call);
                match performed {
                    Ok(answer) => {
                        let step = self.goes_on(alloc, change, log, rules, moment, &answer);
                        drop(answer);
                        step
                    }
                    Err(_) => Step::Done(Err(SlateDBError::OutOfMemory)),
                }
            }
            Err(_) => Step::Done(Err(SlateDBError::OutOfMemory)),
        }
    }
}

// A change under way as its plain call drives it.
#[derive(Drop)]
struct Turns<V> {
    work: LogWork<V>,
    // Whether the last step used a turn.
    is_turned: bool,
}

impl<V: Drop> Turns<V> {
    // Makes the one call that is due. After a conflict the latest version is to be read again.
    fn next<H: Change<V>, C: ObjectCodec<V>, R: Rules<V>, S: ObjectStore>(
        &mut self,
        alloc: Global,
        change: &H,
        log: &Sequenced<V, C>,
        rules: &R,
        store: &mut S,
        moment: Millis,
    ) -> Step<LogEnd<V>>
        requires due { work_due self.now.work ≡ true }
        ensures steps { LatestSteps log.now.db log.now.log (C.decoded log.now.codec)
            (change_commit (H.made change.now) (H.right_of change.now) (H.fence_of change.now)
            (R.refusal rules.now) (C.encoded log.now.codec)) moment
            (S.told store.old) (S.told store.new) self.old self.new result }
        ensures falls { IsAgain result → TurnFalls self.old.work self.new.work self.new.is_turned }
        ensures due { StillDue result (work_due self.new.work) }
    {
        match self.work.next(alloc, change, log, rules, store, moment) {
            Step::Again => {
                self.is_turned = self.work.is_start();
                Step::Again
            }
            Step::Done(Ok(end)) => Step::Done(Ok(end)),
            Step::Done(Err(e)) => {
                if e.is_conflict() {
                    drop(e);
                    self.work.stand(LogWork::start());
                    self.is_turned = true;
                    Step::Again
                } else {
                    Step::Done(Err(e))
                }
            }
        }
    }
}

/// Commits what a change makes at a moment of the log's latest version, and answers what was put; where the change makes nothing of it, the
/// version read, and where the log has no version, that.
///
/// Refused, in this order, by the fence of the change, by what the change refuses, with `Exhausted` at the last number, by the rules, and
/// where the value has no bytes. After a conflict the latest version is read again: each conflict uses a turn, and so does each version
/// that is gone when it is got, or is at or below the boundary; where all `tries` are used the answer is `Contended`. A refusal leaves no
/// commit, unless the one that it made lost its answer or the boundary after it couldn't be read. `moment` is in milliseconds since the
/// Unix epoch.
pub fn change_latest<V: Drop, H: Change<V>, C: ObjectCodec<V>, R: Rules<V>, S: ObjectStore>(
    alloc: Global,
    store: &mut S,
    log: &Sequenced<V, C>,
    rules: &R,
    change: &H,
    moment: Millis,
    tries: u32,
) -> Result<LogEnd<V>, SlateDBError>
    requires { 0 < tries }
    ensures changes { Changes log.now.db log.now.log (C.decoded log.now.codec)
        (change_commit (H.made change.now) (H.right_of change.now) (H.fence_of change.now)
        (R.refusal rules.now) (C.encoded log.now.codec)) moment tries (S.told store.old) (S.told store.new) result }
{
    let mut turns: Turns<V> = Turns {
        work: LogWork::start(),
        is_turned: false,
    };
    let mut left = tries;
    loop {
        match turns.next(alloc, change, log, rules, store, moment) {
            Step::Done(result) => {
                drop(turns);
                return result;
            }
            Step::Again => {}
        }
        if turns.is_turned {
            if left == 1 {
                drop(turns);
                return Err(SlateDBError::Contended);
            }
            left -= 1;
        }
    }
}
