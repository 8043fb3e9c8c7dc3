//! The plain calls that delete a version.
ghost use Rattle.std.specs.Prelude.{◌≡◌, pos, OnOk};
ghost use Rattle.slate_ids.specs.Answers.{OrMemory};
ghost use Rattle.slate_store.specs.declared.store_call.StoreCall.TheVariants as calls;
ghost use Rattle.slate_txn_log.specs.Advance.{BoundaryReached};
ghost use Rattle.slate_txn_log.specs.Delete.{DeleteRan, DeleteBegan, deleted_reply};
ghost use Rattle.slate_txn_log.specs.Due.{FaultOf};
ghost use Rattle.slate_txn_log.specs.LogPaths.{version_path};
ghost use Rattle.slate_txn_log.specs.Once.{Once};
ghost use Rattle.slate_txn_log.specs.declared.delete_phase.DeletePhase.TheVariants.{Bounding, Deleting};

use crate::delete_phase::DeletePhase;
use crate::sequenced::Sequenced;
use slate_ids::SlateDBError;
use slate_store::{ObjectStore, Step, StoreAnswer, StoreCall, perform};
use std::alloc::Global;

// The reply to the answer to a delete.
fn deleted_reply(answer: &StoreAnswer) -> Result<(), SlateDBError>
    ensures { result ≡ deleted_reply answer.now }
{
    match answer {
        StoreAnswer::Deleted => Ok(()),
        _ => Err(SlateDBError::StoreFault),
    }
}

impl<T, C> Sequenced<T, C> {
    /// The machine that deletes the version of this number where the boundary is at or above it.
    pub fn start_delete(&self, n: u64) -> DeletePhase
        ensures { result ≡ Bounding n }
    {
        DeletePhase::Bounding(n)
    }

    /// The machine that deletes the version of this number as it is.
    pub fn start_delete_unchecked(&self, n: u64) -> DeletePhase
        ensures { result ≡ Deleting n }
    {
        DeletePhase::Deleting(n)
    }

    /// Deletes the version of this number where the boundary is at or above it, and else is `InvalidDeletion` and deletes
    /// nothing. An absent boundary counts as 0, and one that can't be read is `Corrupt`. A version that isn't there is no
    /// refusal. After `StoreFault` the version is as it was, or is gone.
    pub fn delete<S: ObjectStore>(
        &self,
        alloc: Global,
        store: &mut S,
        n: u64,
    ) -> Result<(), SlateDBError>
        ensures delete { OrMemory result
            (DeleteBegan self.now n (S.told store.old) (S.told store.new))
            (DeleteRan self.now n (S.told store.old) (S.told store.new) result) }
        ensures allowed { OnOk result (BoundaryReached self.now.db self.now.log n (S.told store.old)) }
        ensures fault { FaultOf (S.told store.old) (S.told store.new) result }
    {
        let mut deletion = DeletePhase::Bounding(n);
        loop {
            match deletion.next(alloc, self, store, 0) {
                Step::Done(result) => return result,
                Step::Again => {}
            }
        }
    }

    /// Deletes the version of this number by one call, whatever the boundary. A version that isn't there is no refusal.
    /// After `StoreFault` the version is as it was, or is gone.
    pub fn delete_unchecked<S: ObjectStore>(
        &self,
        alloc: Global,
        store: &mut S,
        n: u64,
    ) -> Result<(), SlateDBError>
        ensures delete { Once (S.told store.old) (S.told store.new)
            (calls.Delete (version_path self.now.log self.now.db n)) (pos 0) deleted_reply result }
        ensures fault { FaultOf (S.told store.old) (S.told store.new) result }
    {
        let call = StoreCall::Delete(self.log.version_path(self.db, n));
        let performed = perform(alloc, store, &call, 0);
        drop(call);
        let answer = performed?;
        let reply = deleted_reply(&answer);
        drop(answer);
        reply
    }
}
