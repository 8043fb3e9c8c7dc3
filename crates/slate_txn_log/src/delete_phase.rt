//! Deleting a version of a log.
ghost use Rattle.std.specs.Prelude.{◌≡◌, ◌<◌, true};
ghost use Rattle.slate_store.specs.Machines.{Steps, Held, GoesOnAlways, IsAgain};
ghost use Rattle.slate_txn_log.specs.DeletePhase.{delete_asks, delete_goes, delete_due, delete_rank};
ghost use Rattle.slate_txn_log.specs.Due.{StillDue, FaultRose, WhereOut, OutBefore, NeverOut};

use crate::boundary::boundary_in;
use crate::sequenced::Sequenced;
use slate_ids::{FormatName, Millis, SlateDBError};
use slate_store::{ObjectStore, Step, StoreAnswer, StoreCall, perform};
use std::alloc::Global;
use std::mem;

/// Where a deletion stands.
#[derive(Clone, Copy, Debug)]
pub enum DeletePhase {
    /// The boundary is to be got: this number is deleted where it isn't above it.
    Bounding(u64),
    /// The version of this number is to be deleted.
    Deleting(u64),
    /// It ended.
    Over,
}

impl DeletePhase {
    /// The call that is due. Takes no memory.
    pub fn asks<T, C>(&self, sequenced: &Sequenced<T, C>) -> StoreCall
        ensures { result ≡ delete_asks sequenced.now.db sequenced.now.log self.now }
    {
        match self {
            DeletePhase::Bounding(_) => StoreCall::Get(sequenced.log.boundary_path(sequenced.db)),
            DeletePhase::Deleting(n) => {
                StoreCall::Delete(sequenced.log.version_path(sequenced.db, *n))
            }
            DeletePhase::Over => StoreCall::Get(sequenced.log.boundary_path(sequenced.db)),
        }
    }

    /// Whether a call is due. None is after an end, unless memory ran out.
    pub fn due(&self) -> bool
        ensures { result ≡ delete_due self.now }
    {
        match self {
            DeletePhase::Over => false,
            _ => true,
        }
    }

    /// Goes on from the answer to that call. Takes no memory.
    pub fn goes_on(&mut self, answer: &StoreAnswer) -> Step<()>
        ensures goes { GoesOnAlways (delete_goes self.old answer.now) self.new result }
        ensures falls { IsAgain result → delete_rank self.new < delete_rank self.old }
        ensures due { StillDue result (delete_due self.new) }
        ensures memory { NeverOut result }
    {
        match (mem::replace(self, DeletePhase::Over), answer) {
            (DeletePhase::Bounding(n), StoreAnswer::Got(object)) => match boundary_in(object) {
                None => Step::Done(Err(SlateDBError::Corrupt(FormatName::Boundary))),
                Some(boundary) => {
                    if n <= boundary {
                        *self = DeletePhase::Deleting(n);
                        Step::Again
                    } else {
                        Step::Done(Err(SlateDBError::InvalidDeletion(n)))
                    }
                }
            },
            (DeletePhase::Deleting(_), StoreAnswer::Deleted) => Step::Done(Ok(())),
            _ => Step::Done(Err(SlateDBError::StoreFault)),
        }
    }

    /// Makes the one call that is due. Running out of memory leaves the phase as it was, and any other end leaves none due.
    pub fn next<T, C, S: ObjectStore>(
        &mut self,
        alloc: Global,
        sequenced: &Sequenced<T, C>,
        store: &mut S,
        moment: Millis,
    ) -> Step<()>
        requires due { delete_due self.now ≡ true }
        ensures steps { Steps (S.told store.old) (S.told store.new)
            (delete_asks sequenced.now.db sequenced.now.log self.old) moment
            (delete_goes self.old) self.old self.new result }
        ensures falls { IsAgain result → delete_rank self.new < delete_rank self.old }
        ensures due { StillDue result (delete_due self.new) }
        ensures memory { WhereOut result (Held (S.told store.old) (S.told store.new)
            (delete_asks sequenced.now.db sequenced.now.log self.old) moment self.old self.new) }
        ensures before { OutBefore (S.told store.old) (S.told store.new) result }
        ensures fault { FaultRose (S.told store.old) (S.told store.new) result }
    {
        let call = self.asks(sequenced);
        let performed = perform(alloc, store, &call, moment);
        drop(call);
        match performed {
            Ok(answer) => {
                let step = self.goes_on(&answer);
                drop(answer);
                step
            }
            Err(_) => Step::Done(Err(SlateDBError::OutOfMemory)),
        }
    }
}
