//! A fenced holder of a version of a log of a database.
ghost use Rattle.std.specs.Prelude.{◌≡◌, ◌<◌, ◌+◌, ◌⊎◌, Some, None, Err, true, false, IfOk, IfErr, IfSome, OnOk, OnErr};
ghost use Rattle.slate_ids.specs.Answers.{is_memory};
ghost use Rattle.slate_txn_log.specs.Due.{FaultOf};
ghost use Rattle.slate_txn_log.specs.Fence.{unless};
ghost use Rattle.slate_txn_log.specs.declared.right.Right.TheVariants.{Plain};
ghost use Rattle.slate_txn_laws.specs.Plain.{MayNotFault, MayNotFence, NeverFaults};
ghost use Rattle.slate_txn.specs.Apply.{ways_of};
ghost use Rattle.slate_txn.specs.ApplyMoves.{AppliesBy, ways_by};
ghost use Rattle.slate_txn.specs.Changing.{Computes, Making, May};
ghost use Rattle.slate_txn.specs.Fence.{raising, setting, FencedBelow, FencedBy};
ghost use Rattle.slate_txn.specs.FencedApplying.{FencedApplies, FencedMay};
ghost use Rattle.slate_txn.specs.FencedHolder.{fenced_version};
ghost use Rattle.slate_txn.specs.FencedRefreshing.{FencedRefreshed};
ghost use Rattle.slate_txn.specs.Fencing.{held_fence, FencedOnly, UnlessFenced};
ghost use Rattle.slate_txn.specs.Standing.{may_stand, SameContents, UpdateStands};
ghost use Rattle.slate_txn.specs.Updating.{started, Updates};

use crate::db_stored::DbStored;
use slate_ids::{Millis, SlateDBError};
use slate_state_logs::DbLog;
use slate_store::ObjectStore;
use slate_txn::{DirtyObject, Fenced};
use slate_txn_log::Right;
use std::alloc::Global;
use std::marker::Model;

/// A holder of a version of a database's log that committed an epoch, which fences older holders.
#[derive(Drop)]
pub struct DbFenced<L: DbLog> {
    pub(crate) fenced: Fenced<L::Value, L::Codec, L::Rules, L::Epochs>,
}

impl<L: DbLog> Model for DbFenced<L> {
    ghost use Rattle.slate_txn.specs.FencedHolder.{FencedHolder};

    ghost Value = { FencedHolder L.Value L.Codec L.Rules L.Epochs };

    ghost view = { λ a. a.fenced };
}

// The holder around another.
pub(crate) fn hold<L: DbLog>(
    reply: Result<Fenced<L::Value, L::Codec, L::Rules, L::Epochs>, SlateDBError>,
) -> Result<DbFenced<L>, SlateDBError>
    ensures { result ≡ reply }
{
    match reply {
        Ok(fenced) => Ok(DbFenced { fenced }),
        Err(e) => Err(e),
    }
}

impl<L: DbLog> DbFenced<L> {
    // Commits the value held with its epoch of a kind plus one.
    pub(crate) fn fence<S: ObjectStore>(
        alloc: Global,
        stored: DbStored<L>,
        epochs: L::Epochs,
        store: &mut S,
        moment: Millis,
        tries: u32,
    ) -> Result<DbFenced<L>, SlateDBError>
        requires { 0 < tries }
        ensures fenced { FencedBy L.Epochs.epoch (raising L.Codec.decoded L.Codec.encoded L.Rules.refusal
            L.Epochs.epoch L.Epochs.with_epoch epochs) moment tries
            (S.told store.old) (S.told store.new) stored epochs result }
        ensures fault { FaultOf (S.told store.old) (S.told store.new) result }
    {
        hold(Fenced::init(alloc, stored.stored, epochs, store, moment, tries))
    }

    // Commits the value held with this epoch of a kind, unless a version that it reads has a greater one.
    pub(crate) fn fence_at<S: ObjectStore>(
        alloc: Global,
        stored: DbStored<L>,
        epochs: L::Epochs,
        epoch: u64,
        store: &mut S,
        moment: Millis,
        tries: u32,
    ) -> Result<DbFenced<L>, SlateDBError>
        requires { 0 < tries }
        ensures set { FencedBy L.Epochs.epoch (setting L.Codec.decoded L.Codec.encoded L.Rules.refusal
            L.Epochs.epoch L.Epochs.with_epoch epochs epoch Plain) moment tries
            (S.told store.old) (S.told store.new) stored epochs result }
        ensures own { IfOk result (λ fenced. fenced.epoch ≡ epoch) }
        ensures fenced { FencedBelow epoch result }
        ensures fault { FaultOf (S.told store.old) (S.told store.new) result }
    {
        hold(Fenced::init_with_epoch(alloc, stored.stored, epochs, epoch, store, moment, tries))
    }

    /// The epoch that it committed.
    pub fn local_epoch(&self) -> u64
        ensures { result ≡ self.now.epoch }
    {
        self.fenced.local_epoch()
    }

    // The number of the version held.
    pub(crate) fn number(&self) -> u64
        ensures { result ≡ self.now.holder.id }
    {
        self.fenced.id()
    }

    // The value held.
    pub(crate) fn held(&self) -> &L::Value
        ensures { result.now ≡ self.now.holder.object }
    {
        self.fenced.object()
    }

    /// The number held and a copy of the value held, to be changed and put by an update. Refused with `Fenced` where the epoch of
    /// the version held is above the own one.
    pub fn prepare_dirty(&self, alloc: Global) -> Result<DirtyObject<L::Value>, SlateDBError>
        ensures fenced { IfSome (held_fence L.Epochs.epoch self.now) (λ e. result ≡ Err e) }
        ensures id { IfOk result (λ dirty. dirty.id ≡ self.now.holder.id) }
        ensures value { IfOk result (λ dirty. dirty.value ≡ self.now.holder.object) }
        ensures refused { IfErr result (λ e. (held_fence L.Epochs.epoch self.now ≡ Some e) ⊎ (is_memory e ≡ true)) }
    {
        self.fenced.prepare_dirty(alloc)
    }

    /// Reads the latest version, as a load does, and holds it. Where its epoch is above the own one it is held too, and the answer is
    /// `Fenced`. Where no version was read the holder is unchanged. The own epoch stays.
    pub fn refresh<S: ObjectStore>(
        &mut self,
        alloc: Global,
        store: &mut S,
        tries: u32,
    ) -> Result<(), SlateDBError>
        requires { 0 < tries }
        ensures refresh { FencedRefreshed L.Codec.decoded L.Epochs.epoch tries (S.told store.old) (S.told store.new)
            self.old self.new result }
        ensures ok { OnOk result (held_fence L.Epochs.epoch self.new ≡ None) }
        ensures epoch { self.new.epoch ≡ self.old.epoch }
        ensures fault { FaultOf (S.told store.old) (S.told store.new) result }
        ensures fenced { FencedOnly (held_fence L.Epochs.epoch self.new) result }
    {
        self.fenced.refresh(alloc, store, tries)
    }

    /// Commits a dirty value, in one try, as the update of a holder without a fence does. Refused with `Fenced` before any call
    /// where the epoch of the version held is above the own one. After Ok the holder holds what was put, and after a refusal it is
    /// unchanged. So are the store's contents, except that the put may stand where its answer was lost, where the boundary read
    /// after it was at or above its number, or where the boundary couldn't be read. The own epoch stays.
    pub fn update<S: ObjectStore>(
        &mut self,
        alloc: Global,
        store: &mut S,
        dirty: DirtyObject<L::Value>,
        right: &Right,
        moment: Millis,
    ) -> Result<(), SlateDBError>
        ensures update { UnlessFenced (held_fence L.Epochs.epoch self.old)
            (S.told store.old) (S.told store.new) result
            (Updates L.Rules.refusal L.Codec.encoded moment (S.told store.old) (S.told store.new)
            self.old.holder dirty right.now result) }
        ensures held { OnOk result (self.new ≡ fenced_version self.old (self.old.holder.id + 1) dirty.value) }
        ensures kept { OnErr result (self.new ≡ self.old) }
        ensures before { IfErr (unless (held_fence L.Epochs.epoch self.old)
            (started L.Rules.refusal L.Codec.encoded self.old.holder dirty right.now))
            (λ e. S.told store.new ≡ S.told store.old) }
        ensures put { OnOk result (UpdateStands self.old.holder moment (S.told store.old) (S.told store.new)
            (started L.Rules.refusal L.Codec.encoded self.old.holder dirty right.now)) }
        ensures left { IfErr result (λ e. may_stand e ≡ false
            → SameContents (S.told store.old) (S.told store.new)) }
        ensures stands { OnErr result (SameContents (S.told store.old) (S.told store.new)
            ⊎ UpdateStands self.old.holder moment (S.told store.old) (S.told store.new)
            (started L.Rules.refusal L.Codec.encoded self.old.holder dirty right.now)) }
        ensures epoch { self.new.epoch ≡ self.old.epoch }
        ensures fault { FaultOf (S.told store.old) (S.told store.new) result }
        ensures fenced { FencedOnly (held_fence L.Epochs.epoch self.old) result }
    {
        self.fenced.update(alloc, store, dirty, right, moment)
    }

    /// Commits what `f` makes of the number and the value held, as a holder without a fence does. Where the epoch of the version
    /// held, or of one that is read after a conflict, is above the own one, the answer is `Fenced` and nothing is committed. The own
    /// epoch stays.
    pub fn maybe_apply_update<
        F: Fn(u64, &L::Value) -> Result<Option<L::Value>, SlateDBError>,
        S: ObjectStore,
    >(
        &mut self,
        alloc: Global,
        store: &mut S,
        f: F,
        right: &Right,
        moment: Millis,
        tries: u32,
    ) -> Result<(), SlateDBError>
        requires callable { F.IsAlwaysCallable f }
        requires some { 0 < tries }
        ensures apply { (changed : Making L.Value) → Computes (F.post f) changed
            → FencedApplies L.Epochs.epoch (ways_of L.Codec.decoded L.Codec.encoded L.Rules.refusal
            changed right.now) moment tries (S.told store.old) (S.told store.new) self.old self.new result }
        ensures moves { AppliesBy (ways_by L.Codec.decoded L.Codec.encoded L.Rules.refusal
            (FencedMay L.Epochs.epoch self.old.epochs self.old.epoch (May (F.post f))) right.now)
            moment tries (S.told store.old) (S.told store.new) self.old.holder self.new.holder result }
        ensures own { self.new ≡ record self.old { holder = self.new.holder } }
        ensures never { MayNotFault (May (F.post f)) → FaultOf (S.told store.old) (S.told store.new) result }
        ensures fault { (changed : Making L.Value) → Computes (F.post f) changed → NeverFaults changed
            → FaultOf (S.told store.old) (S.told store.new) result }
        ensures fenced { MayNotFence (May (F.post f)) → FencedOnly (held_fence L.Epochs.epoch self.new) result }
    {
        self.fenced
            .maybe_apply(alloc, store, f, right, moment, tries)
    }
}
