//! A commit that runs to its end.
ghost use Rattle.std.specs.Prelude.{◌≡◌, IfOk, Some, true};
ghost use Rattle.slate_ids.specs.Answers.{OrMemory};
ghost use Rattle.slate_txn_log.specs.CommitPhase.{commit_due, commit_version};
ghost use Rattle.slate_txn_log.specs.Commit.{Committed, CommitBegan};
ghost use Rattle.slate_txn_log.specs.Due.{FaultOf};

use crate::commit_phase::CommitPhase;
use crate::sequenced::Sequenced;
use slate_ids::{Millis, SlateDBError};
use slate_store::{ObjectStore, Step};
use std::alloc::Global;

impl<T: Drop> CommitPhase<T> {
    /// Makes the calls that are left, and answers what was put.
    pub fn run<C, S: ObjectStore>(
        self,
        alloc: Global,
        sequenced: &Sequenced<T, C>,
        store: &mut S,
        moment: Millis,
    ) -> Result<(u64, T), SlateDBError>
        requires due { commit_due self ≡ true }
        ensures run { OrMemory result
            (CommitBegan sequenced.now.db sequenced.now.log moment (S.told store.old) (S.told store.new) self)
            (Committed sequenced.now.db sequenced.now.log moment
            (S.told store.old) (S.told store.new) self result) }
        ensures version { IfOk result (λ version. commit_version self ≡ Some version) }
        ensures fault { FaultOf (S.told store.old) (S.told store.new) result }
    {
        let mut phase = self;
        loop {
            match phase.next(alloc, sequenced, store, moment) {
                Step::Done(result) => {
                    drop(phase);
                    return result;
                }
                Step::Again => {}
            }
        }
    }
}
