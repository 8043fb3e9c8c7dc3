//! A fenced holder.
ghost use Rattle.std.specs.Prelude.{◌≡◌, ◌<◌, ◌⊎◌, IfOk, IfErr, IfSome, Some, Err, true};
ghost use Rattle.slate_ids.specs.Answers.{is_memory};
ghost use Rattle.slate_txn.specs.Apply.{FaultFree, ways_of};
ghost use Rattle.slate_txn_log.specs.Due.{FaultOf};
ghost use Rattle.slate_txn_log.specs.declared.right.Right.TheVariants.{Plain};
ghost use Rattle.slate_txn.specs.Fence.{FencedBelow, FencedBy, fenced_of, raising, setting};
ghost use Rattle.slate_txn.specs.FencedApplying.{FenceFree};
ghost use Rattle.slate_txn.specs.Fencing.{held_fence};
ghost use Rattle.slate_txn.specs.Raise.{this_epoch};

use crate::raise::{raise_copy, set_copy};
use crate::stored::{DirtyObject, Stored};
use slate_ids::{Epochs, Millis, ObjectCodec, SlateDBError};
use slate_store::ObjectStore;
use slate_txn_log::{Right, Rules, fence};
use std::alloc::Global;
use std::marker::Model;

/// A holder that committed an epoch of its own, which fences older holders.
#[derive(Drop)]
pub struct Fenced<T, C, R, E> {
    pub(crate) stored: Stored<T, C, R>,
    pub(crate) epochs: E,
    pub(crate) epoch: u64,
}

impl<T, C, R, E> Model for Fenced<T, C, R, E> {
    ghost use Rattle.slate_txn.specs.FencedHolder.{FencedHolder};

    ghost Value = { FencedHolder T C R E };

    ghost view = { λ a. record { holder = a.stored; epochs = a.epochs; epoch = a.epoch } };
}

// After Ok the fenced holder of the version held.
fn fenced_after<T: Drop, C: Drop, R: Drop, E: Epochs<T> + Drop>(
    stored: Stored<T, C, R>,
    epochs: E,
    reply: Result<(), SlateDBError>,
) -> Result<Fenced<T, C, R, E>, SlateDBError>
    ensures { result ≡ fenced_of E.epoch epochs stored reply }
{
    match reply {
        Err(e) => {
            drop(stored);
            drop(epochs);
            Err(e)
        }
        Ok(()) => {
            let epoch = epochs.get(&stored.object);
            Ok(Fenced {
                stored,
                epochs,
                epoch,
            })
        }
    }
}

impl<T: Drop, C: ObjectCodec<T> + Drop, R: Rules<T> + Drop, E: Epochs<T> + Drop> Fenced<
    T,
    C,
    R,
    E,
> {
    /// Commits the value held with its epoch plus one. After a conflict it reads the latest version and raises that: so
    /// often as there are tries, then `Contended`. Each conflict and each restarted read uses one. A refusal drops the
    /// holder.
    pub fn init<S: ObjectStore>(
        alloc: Global,
        stored: Stored<T, C, R>,
        epochs: E,
        store: &mut S,
        moment: Millis,
        tries: u32,
    ) -> Result<Fenced<T, C, R, E>, SlateDBError>
        requires { 0 < tries }
        ensures fenced { FencedBy E.epoch (raising C.decoded C.encoded R.refusal E.epoch E.with_epoch epochs)
            moment tries (S.told store.old) (S.told store.new) stored epochs result }
        ensures fault { FaultFree (raising C.decoded C.encoded R.refusal E.epoch E.with_epoch epochs)
            → FaultOf (S.told store.old) (S.told store.new) result }
    {
        let mut stored = stored;
        let raise = |codec: &C, id: u64, value: &T| raise_copy(alloc, codec, &epochs, id, value);
        let reply = stored.apply(alloc, &raise, &Right::Plain, store, moment, tries);
        fenced_after(stored, epochs, reply)
    }

    /// Commits the value held with this epoch. Where the epoch of the version held, or of one that is read after a conflict,
    /// is greater, the answer is `Fenced` with both, and nothing is committed. After a conflict it reads the latest version and
    /// gives that this epoch: so often as there are tries, then `Contended`. Each conflict and each restarted read uses one. A
    /// refusal drops the holder.
    pub fn init_with_epoch<S: ObjectStore>(
        alloc: Global,
        stored: Stored<T, C, R>,
        epochs: E,
        epoch: u64,
        store: &mut S,
        moment: Millis,
        tries: u32,
    ) -> Result<Fenced<T, C, R, E>, SlateDBError>
        requires { 0 < tries }
        ensures set { FencedBy E.epoch (setting C.decoded C.encoded R.refusal E.epoch E.with_epoch epochs
            epoch Plain) moment tries (S.told store.old) (S.told store.new) stored epochs result }
        ensures own { IfOk result (λ fenced. fenced.epoch ≡ epoch) }
        ensures fenced { FenceFree (ways_of C.decoded C.encoded R.refusal
            (this_epoch (E.with_epoch epochs) epoch) Plain) → FencedBelow epoch result }
        ensures fault { FaultFree (setting C.decoded C.encoded R.refusal E.epoch E.with_epoch epochs
            epoch Plain) → FaultOf (S.told store.old) (S.told store.new) result }
    {
        let mut stored = stored;
        let set = |codec: &C, id: u64, value: &T| set_copy(alloc, codec, &epochs, epoch, id, value);
        let reply = stored.apply(alloc, &set, &Right::Plain, store, moment, tries);
        fenced_after(stored, epochs, reply)
    }

    /// The epoch that it committed.
    pub fn local_epoch(&self) -> u64
        ensures { result ≡ self.now.epoch }
    {
        self.epoch
    }

    /// The number of the version held.
    pub fn id(&self) -> u64
        ensures { result ≡ self.now.holder.id }
    {
        self.stored.id()
    }

    /// The value of the version held.
    pub fn object(&self) -> &T
        ensures { result.now ≡ self.now.holder.object }
    {
        self.stored.object()
    }

    // Why the version held refuses this holder, or none.
    pub(crate) fn fence_held(&self) -> Option<SlateDBError>
        ensures { result ≡ held_fence E.epoch self.now }
    {
        fence(self.epoch, self.epochs.get(self.stored.object()))
    }

    /// The number held and a copy of the value held, to be changed and put by an update. Refused with `Fenced` where the
    /// epoch of the version held is above the own one.
    pub fn prepare_dirty(&self, alloc: Global) -> Result<DirtyObject<T>, SlateDBError>
        ensures fenced { IfSome (held_fence E.epoch self.now) (λ e. result ≡ Err e) }
        ensures id { IfOk result (λ dirty. dirty.id ≡ self.now.holder.id) }
        ensures value { IfOk result (λ dirty. dirty.value ≡ self.now.holder.object) }
        ensures refused { IfErr result (λ e. (held_fence E.epoch self.now ≡ Some e) ⊎ (is_memory e ≡ true)) }
    {
        match self.fence_held() {
            Some(e) => Err(e),
            None => self.stored.prepare_dirty(alloc),
        }
    }
}
