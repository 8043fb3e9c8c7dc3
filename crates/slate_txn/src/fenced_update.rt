//! An update of the version that a fenced holder holds.
ghost use Rattle.std.specs.Prelude.{◌≡◌, ◌≢◌, ◌+◌, ◌⊎◌, IfOk, IfErr, OnOk, OnErr, Err, true, false};
ghost use Rattle.slate_ids.specs.declared.error.SlateDBError.TheVariants.{StoreFault};
ghost use Rattle.slate_txn_log.specs.Due.{FaultOf, FaultRose, StillDue};
ghost use Rattle.slate_txn.specs.FencedHolder.{fenced_version};
ghost use Rattle.slate_txn.specs.FencedUpdating.{FencedUpdateSteps};
ghost use Rattle.slate_txn_log.specs.Fence.{unless};
ghost use Rattle.slate_txn.specs.Fencing.{held_fence, UnlessFenced, FencedOnly, NotFenced, NotFencedStep};
ghost use Rattle.slate_txn.specs.Standing.{SameContents, UpdateStands, may_stand};
ghost use Rattle.slate_txn.specs.Updating.{started, Updates, update_of, update_due, update_open};

use crate::fenced::Fenced;
use crate::stored::DirtyObject;
use crate::update::UpdateMachine;
use slate_ids::{Epochs, Millis, ObjectCodec, OutOfMemory, SlateDBError};
use slate_store::{ObjectStore, Step};
use slate_txn_log::{Right, Rules};
use std::alloc::Global;
use std::marker::Model;

/// The machine of an update of a fenced holder. It doesn't keep its holder: each step is given it.
#[derive(Debug, Drop)]
pub struct FencedUpdateMachine<T> {
    update: UpdateMachine<T>,
}

impl<T> Model for FencedUpdateMachine<T> {
    ghost use Rattle.slate_txn.specs.declared.update.UpdateMachine.{UpdateMachine};

    ghost Value = { UpdateMachine T };

    ghost view = { λ a. a.update };
}

impl<T: Drop, C: ObjectCodec<T> + Drop, R: Rules<T> + Drop, E: Epochs<T> + Drop> Fenced<
    T,
    C,
    R,
    E,
> {
    /// Commits a dirty value, in one try, as the update of a holder without a fence does. Refused with `Fenced` before any
    /// call where the epoch of the version held is above the own one. After Ok the holder holds what was put, and after a
    /// refusal it is unchanged. So are the store's contents, except that the put may stand where its answer was lost, where
    /// the boundary read after it was at or above its number (`TransactionalObjectVersionExists` with a boundary), or where
    /// the boundary couldn't be read. The own epoch stays.
    pub fn update<S: ObjectStore>(
        &mut self,
        alloc: Global,
        store: &mut S,
        dirty: DirtyObject<T>,
        right: &Right,
        moment: Millis,
    ) -> Result<(), SlateDBError>
        ensures update { UnlessFenced (held_fence E.epoch self.old)
            (S.told store.old) (S.told store.new) result
            (Updates R.refusal C.encoded moment (S.told store.old) (S.told store.new)
            self.old.holder dirty right.now result) }
        ensures held { OnOk result (self.new ≡ fenced_version self.old (self.old.holder.id + 1) dirty.value) }
        ensures kept { OnErr result (self.new ≡ self.old) }
        ensures before { IfErr (unless (held_fence E.epoch self.old)
            (started R.refusal C.encoded self.old.holder dirty right.now))
            (λ e. S.told store.new ≡ S.told store.old) }
        ensures put { OnOk result (UpdateStands self.old.holder moment (S.told store.old) (S.told store.new)
            (started R.refusal C.encoded self.old.holder dirty right.now)) }
        ensures left { IfErr result (λ e. may_stand e ≡ false
            → SameContents (S.told store.old) (S.told store.new)) }
        ensures stands { OnErr result (SameContents (S.told store.old) (S.told store.new)
            ⊎ UpdateStands self.old.holder moment (S.told store.old) (S.told store.new)
            (started R.refusal C.encoded self.old.holder dirty right.now)) }
        ensures epoch { self.new.epoch ≡ self.old.epoch }
        ensures fault { started R.refusal C.encoded self.old.holder dirty right.now ≢ Err StoreFault
            → FaultOf (S.told store.old) (S.told store.new) result }
        ensures fenced { NotFenced (started R.refusal C.encoded self.old.holder dirty right.now)
            → FencedOnly (held_fence E.epoch self.old) result }
    {
        match self.fence_held() {
            Some(e) => Err(e),
            None => self.stored.update(alloc, store, dirty, right, moment),
        }
    }

    /// The machine of an update. Where the update is refused before its first call, no call is due in it.
    pub fn start_update(
        &self,
        alloc: Global,
        dirty: DirtyObject<T>,
        right: &Right,
    ) -> Result<FencedUpdateMachine<T>, OutOfMemory>
        ensures open { IfOk result (λ machine. update_open machine ≡ true) }
        ensures machine { IfOk result (λ machine. machine ≡ update_of (unless (held_fence E.epoch self.now)
            (started R.refusal C.encoded self.now.holder dirty right.now))) }
    {
        let update = match self.fence_held() {
            Some(e) => UpdateMachine::Refused(e),
            None => self.stored.start_update(alloc, dirty, right)?,
        };
        Ok(FencedUpdateMachine { update })
    }
}

impl<T> FencedUpdateMachine<T> {
    // The machine around this update.
    pub(crate) fn new(update: UpdateMachine<T>) -> FencedUpdateMachine<T>
        ensures { result ≡ update }
    {
        FencedUpdateMachine { update }
    }
}

impl<T: Drop> FencedUpdateMachine<T> {
    /// Whether a call is due. None is after an end, unless memory ran out, nor where nothing is committed.
    pub fn due(&self) -> bool
        ensures due { result ≡ update_due self.now }
        ensures open { result ≡ true → update_open self.now ≡ true }
    {
        self.update.due()
    }

    /// Makes the one call that is due. A refused update makes none and answers its refusal, and where there is nothing to
    /// commit it makes none and answers Ok. A conflict ends it. After a commit the holder holds what was put, and else it is
    /// unchanged. Running out of memory leaves the machine as it was, and any other end leaves none due.
    pub fn next<C: Drop, R: Drop, E: Drop, S: ObjectStore>(
        &mut self,
        alloc: Global,
        holder: &mut Fenced<T, C, R, E>,
        store: &mut S,
        moment: Millis,
    ) -> Step<()>
        requires open { update_open self.now ≡ true }
        ensures steps { FencedUpdateSteps (S.told store.old) (S.told store.new) moment
            (self.old, holder.old) (self.new, holder.new) result }
        ensures open { update_due self.old ≡ true → StillDue result (update_open self.new) }
        ensures epoch { holder.new.epoch ≡ holder.old.epoch }
        ensures fault { update_due self.old ≡ true → FaultRose (S.told store.old) (S.told store.new) result }
        ensures fenced { update_due self.old ≡ true → NotFencedStep result }
    {
        self.update.next(alloc, &mut holder.stored, store, moment)
    }
}
