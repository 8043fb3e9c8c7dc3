//! The machines of a fenced holder's calls.
ghost use Rattle.std.specs.Prelude.{◌≡◌, IfOk, true};
ghost use Rattle.slate_state_holders.specs.Holders.{raise_machine, set_machine};
ghost use Rattle.slate_txn_log.specs.Due.{FaultRose, StillDue};
ghost use Rattle.slate_txn_log.specs.Fence.{unless};
ghost use Rattle.slate_txn_log.specs.ReadPhase.{read_due};
ghost use Rattle.slate_txn_log.specs.declared.read_phase.ReadPhase.TheVariants.{Listing};
ghost use Rattle.slate_store.specs.Machines.{Steps};
ghost use Rattle.slate_txn.specs.Apply.{ways_of};
ghost use Rattle.slate_txn.specs.ApplyMoves.{MaybeBy};
ghost use Rattle.slate_txn.specs.Changing.{Computes, Making, May};
ghost use Rattle.slate_txn.specs.FencedApplying.{FencedMay};
ghost use Rattle.slate_txn.specs.FencedRefreshing.{fenced_refresh_goes};
ghost use Rattle.slate_txn.specs.FencedUpdating.{fenced_maybe, FencedUpdateSteps};
ghost use Rattle.slate_txn.specs.Fencing.{held_fence, FencedStep, NotFencedStep};
ghost use Rattle.slate_txn.specs.Initing.{init_due, init_open, InitKeeps, InitSteps};
ghost use Rattle.slate_txn.specs.Refreshing.{refresh_asks};
ghost use Rattle.slate_txn.specs.Updating.{started, update_due, update_of, update_open};

use crate::db_fenced::{DbFenced, hold};
use crate::db_stored::DbStored;
use slate_ids::{Millis, OutOfMemory, SlateDBError};
use slate_state_logs::DbLog;
use slate_store::{ObjectStore, Step};
use slate_txn::{DirtyObject, Fenced, FencedRefreshMachine, FencedUpdateMachine, InitMachine};
use slate_txn_log::Right;
use std::alloc::Global;

/// The machine of one try of a fence. It owns the holder until it ends.
#[derive(Drop)]
pub struct DbInitMachine<L: DbLog> {
    pub init: InitMachine<L::Value, L::Codec, L::Rules, L::Epochs>,
}

/// The machine of a refresh, in one try. It doesn't keep its holder: each step is given it.
#[derive(Drop)]
pub struct DbFencedRefreshMachine<L: DbLog> {
    pub refresh: FencedRefreshMachine<L::Value>,
}

/// The machine of a commit of another value, in one try. It doesn't keep its holder: each step is given it.
#[derive(Drop)]
pub struct DbFencedUpdateMachine<L: DbLog> {
    pub update: FencedUpdateMachine<L::Value>,
}

// The step around another.
fn hold_step<L: DbLog>(
    step: Step<Fenced<L::Value, L::Codec, L::Rules, L::Epochs>>,
) -> Step<DbFenced<L>>
    ensures { result ≡ step }
{
    match step {
        Step::Again => Step::Again,
        Step::Done(reply) => Step::Done(hold(reply)),
    }
}

impl<L: DbLog> DbFenced<L> {
    // The machine of one try of a fence that raises. Where the raise is refused before its first call, no call is due in it.
    pub(crate) fn start_fence(
        alloc: Global,
        stored: DbStored<L>,
        epochs: L::Epochs,
    ) -> Result<DbInitMachine<L>, OutOfMemory>
        ensures open { IfOk result (λ machine. init_open machine.init ≡ true) }
        ensures init { IfOk result (λ machine. machine.init ≡ raise_machine L.Rules.refusal L.Codec.encoded
            L.Epochs.epoch L.Epochs.with_epoch epochs stored) }
    {
        Ok(DbInitMachine {
            init: Fenced::start_init(alloc, stored.stored, epochs)?,
        })
    }

    // The same of a fence with this epoch.
    pub(crate) fn start_fence_at(
        alloc: Global,
        stored: DbStored<L>,
        epochs: L::Epochs,
        epoch: u64,
    ) -> Result<DbInitMachine<L>, OutOfMemory>
        ensures open { IfOk result (λ machine. init_open machine.init ≡ true) }
        ensures init { IfOk result (λ machine. machine.init ≡ set_machine L.Rules.refusal L.Codec.encoded
            L.Epochs.epoch L.Epochs.with_epoch epochs epoch stored) }
    {
        Ok(DbInitMachine {
            init: Fenced::start_init_with_epoch(alloc, stored.stored, epochs, epoch)?,
        })
    }

    /// The machine of one try of `refresh`.
    pub fn start_refresh(&self) -> DbFencedRefreshMachine<L>
        ensures { result.refresh ≡ Listing }
    {
        DbFencedRefreshMachine {
            refresh: self.fenced.start_refresh(),
        }
    }

    /// The machine of `update`. Where the update is refused before its first call, no call is due in it.
    pub fn start_update(
        &self,
        alloc: Global,
        dirty: DirtyObject<L::Value>,
        right: &Right,
    ) -> Result<DbFencedUpdateMachine<L>, OutOfMemory>
        ensures open { IfOk result (λ machine. update_open machine.update ≡ true) }
        ensures update { IfOk result (λ machine. machine.update ≡ update_of (unless (held_fence L.Epochs.epoch self.now)
            (started L.Rules.refusal L.Codec.encoded self.now.holder dirty right.now))) }
    {
        Ok(DbFencedUpdateMachine {
            update: self.fenced.start_update(alloc, dirty, right)?,
        })
    }

    /// The machine of one try of `maybe_apply_update`. Where the epoch of the version held is above the own one, `f` makes no value
    /// of it or refuses it, or the commit is refused before its first call, no call is due in it.
    pub fn start_maybe_apply_update<
        F: Fn(u64, &L::Value) -> Result<Option<L::Value>, SlateDBError>,
    >(&self, alloc: Global, f: F, right: &Right) -> Result<DbFencedUpdateMachine<L>, OutOfMemory>
        requires callable { F.IsAlwaysCallable f }
        ensures open { IfOk result (λ machine. update_open machine.update ≡ true) }
        ensures update { (changed : Making L.Value) → Computes (F.post f) changed
            → IfOk result (λ machine. machine.update ≡ fenced_maybe L.Epochs.epoch
            (ways_of L.Codec.decoded L.Codec.encoded L.Rules.refusal changed right.now) self.now) }
        ensures commits { IfOk result (λ machine. MaybeBy
            (FencedMay L.Epochs.epoch self.now.epochs self.now.epoch (May (F.post f)))
            (L.Rules.refusal self.now.holder.rules) (L.Codec.encoded self.now.holder.sequenced.codec) right.now
            self.now.holder.id self.now.holder.object machine.update) }
    {
        Ok(DbFencedUpdateMachine {
            update: self.fenced.start_maybe_apply(alloc, f, right)?,
        })
    }
}

impl<L: DbLog> DbInitMachine<L> {
    /// Whether a call is due. None is after an end, unless memory ran out, nor where it was refused.
    pub fn due(&self) -> bool
        ensures due { result ≡ init_due self.now.init }
        ensures open { result ≡ true → init_open self.now.init ≡ true }
    {
        self.init.due()
    }

    /// Makes the one call that is due. A refused raise makes none and answers its refusal. A conflict ends it. Running out of memory
    /// leaves the machine as it was, and any other end leaves none due and drops the holder, or hands it out.
    pub fn next<S: ObjectStore>(
        &mut self,
        alloc: Global,
        store: &mut S,
        moment: Millis,
    ) -> Step<DbFenced<L>>
        requires open { init_open self.now.init ≡ true }
        ensures steps { InitSteps L.Epochs.epoch (S.told store.old) (S.told store.new) moment
            self.old.init self.new.init result }
        ensures version { InitKeeps L.Epochs.epoch self.old.init self.new.init result }
        ensures open { init_due self.old.init ≡ true → StillDue result (init_open self.new.init) }
        ensures fault { init_due self.old.init ≡ true → FaultRose (S.told store.old) (S.told store.new) result }
    {
        hold_step(self.init.next(alloc, store, moment))
    }
}

impl<L: DbLog> DbFencedRefreshMachine<L> {
    /// Whether a call is due. None is after an end, unless memory ran out.
    pub fn due(&self) -> bool
        ensures { result ≡ read_due self.now.refresh }
    {
        self.refresh.due()
    }

    /// Makes the one call that is due. A version that was read is held, also where the answer is `Fenced`. A version that is gone
    /// or at or below the boundary starts the read again. Running out of memory leaves the machine as it was, and any other end
    /// leaves none due. The own epoch stays.
    pub fn next<S: ObjectStore>(
        &mut self,
        alloc: Global,
        holder: &mut DbFenced<L>,
        store: &mut S,
        moment: Millis,
    ) -> Step<()>
        requires due { read_due self.now.refresh ≡ true }
        ensures steps { Steps (S.told store.old) (S.told store.new)
            (refresh_asks (self.old.refresh, holder.old.holder)) moment
            (fenced_refresh_goes L.Codec.decoded L.Epochs.epoch (self.old.refresh, holder.old))
            (self.old.refresh, holder.old) (self.new.refresh, holder.new) result }
        ensures due { StillDue result (read_due self.new.refresh) }
        ensures epoch { holder.new.epoch ≡ holder.old.epoch }
        ensures fault { FaultRose (S.told store.old) (S.told store.new) result }
        ensures fenced { FencedStep (held_fence L.Epochs.epoch holder.new) result }
    {
        self.refresh.next(alloc, &mut holder.fenced, store, moment)
    }
}

impl<L: DbLog> DbFencedUpdateMachine<L> {
    /// Whether a call is due. None is after an end, unless memory ran out, nor where nothing is committed.
    pub fn due(&self) -> bool
        ensures due { result ≡ update_due self.now.update }
        ensures open { result ≡ true → update_open self.now.update ≡ true }
    {
        self.update.due()
    }

    /// Makes the one call that is due. Where none is due it makes none, and answers. A conflict ends it. After a commit the holder
    /// holds what was put, and else it is unchanged. Running out of memory leaves the machine as it was, and any other end
    /// leaves none due. The own epoch stays.
    pub fn next<S: ObjectStore>(
        &mut self,
        alloc: Global,
        holder: &mut DbFenced<L>,
        store: &mut S,
        moment: Millis,
    ) -> Step<()>
        requires open { update_open self.now.update ≡ true }
        ensures steps { FencedUpdateSteps (S.told store.old) (S.told store.new) moment
            (self.old.update, holder.old) (self.new.update, holder.new) result }
        ensures open { update_due self.old.update ≡ true → StillDue result (update_open self.new.update) }
        ensures epoch { holder.new.epoch ≡ holder.old.epoch }
        ensures fault { update_due self.old.update ≡ true → FaultRose (S.told store.old) (S.told store.new) result }
        ensures fenced { update_due self.old.update ≡ true → NotFencedStep result }
    {
        self.update.next(alloc, &mut holder.fenced, store, moment)
    }
}
