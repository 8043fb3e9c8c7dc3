//! The machines of a holder's calls.
ghost use Rattle.std.specs.Prelude.{◌≡◌, IfOk, IfSome, true};
ghost use Rattle.slate_state_holders.specs.Holders.{CreationOf, LoadOf};
ghost use Rattle.slate_txn_log.specs.Change.{renewed};
ghost use Rattle.slate_txn_log.specs.Due.{FaultRose, StillDue};
ghost use Rattle.slate_txn_log.specs.ReadPhase.{read_due};
ghost use Rattle.slate_txn_log.specs.declared.read_phase.ReadPhase.TheVariants.{Listing};
ghost use Rattle.slate_store.specs.Machines.{Steps};
ghost use Rattle.slate_txn.specs.ApplyMoves.{MaybeBy};
ghost use Rattle.slate_txn.specs.Changing.{Computes, Making, May};
ghost use Rattle.slate_txn.specs.Creating.{create_due, create_open, create_version, CreateKeeps, CreateSteps};
ghost use Rattle.slate_txn.specs.Loading.{load_due, LoadSteps, TryLoadSteps};
ghost use Rattle.slate_txn.specs.Refreshing.{refresh_asks, refresh_goes};
ghost use Rattle.slate_txn.specs.Updating.{maybe_of, started, update_due, update_of, update_open, UpdateSteps};

use crate::db_stored::{DbStored, hold, hold_some, log_of};
use slate_ids::{DbPath, Millis, OutOfMemory, SlateDBError};
use slate_state_logs::DbLog;
use slate_store::{ObjectStore, Step};
use slate_txn::{
    CreateMachine, DirtyObject, LoadMachine, RefreshMachine, Stored, TryLoadMachine, UpdateMachine,
};
use slate_txn_log::Right;
use std::alloc::Global;

/// The machine of a creation of a log.
#[derive(Drop)]
pub struct DbCreateMachine<L: DbLog> {
    pub create: CreateMachine<L::Value, L::Codec, L::Rules>,
}

/// The machine of a load of the latest version, which is to be there, in one try.
#[derive(Drop)]
pub struct DbLoadMachine<L: DbLog> {
    pub load: LoadMachine<L::Value, L::Codec, L::Rules>,
}

/// The machine of a load of the latest version, where there is one, in one try.
#[derive(Drop)]
pub struct DbTryLoadMachine<L: DbLog> {
    pub load: TryLoadMachine<L::Value, L::Codec, L::Rules>,
}

/// The machine of a refresh, in one try. It doesn't keep its holder: each step is given it.
#[derive(Drop)]
pub struct DbRefreshMachine<L: DbLog> {
    pub refresh: RefreshMachine<L::Value>,
}

/// The machine of a commit of another value, in one try. It doesn't keep its holder: each step is given it.
#[derive(Drop)]
pub struct DbUpdateMachine<L: DbLog> {
    pub update: UpdateMachine<L::Value>,
}

// The step around another.
fn hold_step<L: DbLog>(step: Step<Stored<L::Value, L::Codec, L::Rules>>) -> Step<DbStored<L>>
    ensures { result ≡ step }
{
    match step {
        Step::Again => Step::Again,
        Step::Done(reply) => Step::Done(hold(reply)),
    }
}

// The same, where there is one.
fn hold_some_step<L: DbLog>(
    step: Step<Option<Stored<L::Value, L::Codec, L::Rules>>>,
) -> Step<Option<DbStored<L>>>
    ensures { result ≡ step }
{
    match step {
        Step::Again => Step::Again,
        Step::Done(reply) => Step::Done(hold_some(reply)),
    }
}

impl<L: DbLog> DbStored<L> {
    // The machine of a creation with this first value. Where that has no bytes, no call is due in it.
    pub(crate) fn start_first(
        alloc: Global,
        db: DbPath,
        first: L::Value,
    ) -> Result<DbCreateMachine<L>, OutOfMemory>
        ensures open { IfOk result (λ machine. create_open machine.create ≡ true) }
        ensures create { IfOk result (λ machine. CreationOf L.Codec.encoded L.its_kind db first machine.create) }
        ensures version { IfOk result (λ machine. IfSome (create_version machine.create)
            (λ version. version ≡ (1, first))) }
    {
        let create = Stored::start_init(alloc, log_of::<L>(db), L::rules(), first)?;
        Ok(DbCreateMachine { create })
    }

    /// The machine of one try of `load`.
    pub fn start_load(db: DbPath) -> DbLoadMachine<L>
        ensures { LoadOf L.its_kind db result.load }
    {
        DbLoadMachine {
            load: Stored::start_load(log_of::<L>(db), L::rules()),
        }
    }

    /// The machine of one try of `try_load`.
    pub fn start_try_load(db: DbPath) -> DbTryLoadMachine<L>
        ensures { LoadOf L.its_kind db result.load }
    {
        DbTryLoadMachine {
            load: Stored::start_try_load(log_of::<L>(db), L::rules()),
        }
    }

    /// The machine of one try of `refresh`.
    pub fn start_refresh(&self) -> DbRefreshMachine<L>
        ensures { result.refresh ≡ Listing }
    {
        DbRefreshMachine {
            refresh: self.stored.start_refresh(),
        }
    }

    /// The machine of `update`. Where the update is refused before its first call, no call is due in it.
    pub fn start_update(
        &self,
        alloc: Global,
        dirty: DirtyObject<L::Value>,
        right: &Right,
    ) -> Result<DbUpdateMachine<L>, OutOfMemory>
        ensures open { IfOk result (λ machine. update_open machine.update ≡ true) }
        ensures update { IfOk result (λ machine. machine.update ≡ update_of
            (started L.Rules.refusal L.Codec.encoded self.now dirty right.now)) }
    {
        Ok(DbUpdateMachine {
            update: self.stored.start_update(alloc, dirty, right)?,
        })
    }

    /// The machine of one try of `maybe_apply_update`. Where `f` makes no value of the version held or refuses it, or the commit is
    /// refused before its first call, no call is due in it.
    pub fn start_maybe_apply_update<
        F: Fn(u64, &L::Value) -> Result<Option<L::Value>, SlateDBError>,
    >(&self, alloc: Global, f: F, right: &Right) -> Result<DbUpdateMachine<L>, OutOfMemory>
        requires callable { F.IsAlwaysCallable f }
        ensures open { IfOk result (λ machine. update_open machine.update ≡ true) }
        ensures update { (changed : Making L.Value) → Computes (F.post f) changed
            → IfOk result (λ machine. machine.update ≡ maybe_of
            (renewed changed (L.Rules.refusal self.now.rules) (L.Codec.encoded self.now.sequenced.codec) right.now
            self.now.id self.now.object)) }
        ensures commits { IfOk result (λ machine. MaybeBy (May (F.post f)) (L.Rules.refusal self.now.rules)
            (L.Codec.encoded self.now.sequenced.codec) right.now self.now.id self.now.object machine.update) }
    {
        Ok(DbUpdateMachine {
            update: self.stored.start_maybe_apply(alloc, f, right)?,
        })
    }
}

impl<L: DbLog> DbCreateMachine<L> {
    /// Whether a call is due. None is after an end, unless memory ran out, nor where the first value has no bytes.
    pub fn due(&self) -> bool
        ensures due { result ≡ create_due self.now.create }
        ensures open { result ≡ true → create_open self.now.create ≡ true }
    {
        self.create.due()
    }

    /// Makes the one call that is due. A refused creation makes none and answers its refusal. Running out of memory leaves the
    /// machine as it was, and any other end leaves none due.
    pub fn next<S: ObjectStore>(
        &mut self,
        alloc: Global,
        store: &mut S,
        moment: Millis,
    ) -> Step<DbStored<L>>
        requires open { create_open self.now.create ≡ true }
        ensures steps { CreateSteps (S.told store.old) (S.told store.new) moment
            self.old.create self.new.create result }
        ensures version { CreateKeeps self.old.create self.new.create result }
        ensures open { create_due self.old.create ≡ true → StillDue result (create_open self.new.create) }
        ensures fault { create_due self.old.create ≡ true → FaultRose (S.told store.old) (S.told store.new) result }
    {
        hold_step(self.create.next(alloc, store, moment))
    }
}

impl<L: DbLog> DbLoadMachine<L> {
    /// Whether a call is due. None is after an end, unless memory ran out.
    pub fn due(&self) -> bool
        ensures { result ≡ load_due self.now.load }
    {
        self.load.due()
    }

    /// Makes the one call that is due. Refused with `LatestTransactionalObjectVersionMissing` where the log has no version.
    /// Running out of memory leaves the machine as it was, and any other end leaves none due.
    pub fn next<S: ObjectStore>(
        &mut self,
        alloc: Global,
        store: &mut S,
        moment: Millis,
    ) -> Step<DbStored<L>>
        requires due { load_due self.now.load ≡ true }
        ensures steps { LoadSteps L.Codec.decoded (S.told store.old) (S.told store.new) moment
            self.old.load self.new.load result }
        ensures due { StillDue result (load_due self.new.load) }
        ensures fault { FaultRose (S.told store.old) (S.told store.new) result }
    {
        hold_step(self.load.next(alloc, store, moment))
    }
}

impl<L: DbLog> DbTryLoadMachine<L> {
    /// Whether a call is due. None is after an end, unless memory ran out.
    pub fn due(&self) -> bool
        ensures { result ≡ load_due self.now.load }
    {
        self.load.due()
    }

    /// Makes the one call that is due. Running out of memory leaves the machine as it was, and any other end leaves none due.
    pub fn next<S: ObjectStore>(
        &mut self,
        alloc: Global,
        store: &mut S,
        moment: Millis,
    ) -> Step<Option<DbStored<L>>>
        requires due { load_due self.now.load ≡ true }
        ensures steps { TryLoadSteps L.Codec.decoded (S.told store.old) (S.told store.new) moment
            self.old.load self.new.load result }
        ensures due { StillDue result (load_due self.new.load) }
        ensures fault { FaultRose (S.told store.old) (S.told store.new) result }
    {
        hold_some_step(self.load.next(alloc, store, moment))
    }
}

impl<L: DbLog> DbRefreshMachine<L> {
    /// Whether a call is due. None is after an end, unless memory ran out.
    pub fn due(&self) -> bool
        ensures { result ≡ read_due self.now.refresh }
    {
        self.refresh.due()
    }

    /// Makes the one call that is due. A version that was read is held. A version that is gone or at or below the boundary starts
    /// the read again. Running out of memory leaves the machine as it was, and any other end leaves none due.
    pub fn next<S: ObjectStore>(
        &mut self,
        alloc: Global,
        holder: &mut DbStored<L>,
        store: &mut S,
        moment: Millis,
    ) -> Step<()>
        requires due { read_due self.now.refresh ≡ true }
        ensures steps { Steps (S.told store.old) (S.told store.new)
            (refresh_asks (self.old.refresh, holder.old)) moment
            (refresh_goes L.Codec.decoded (self.old.refresh, holder.old))
            (self.old.refresh, holder.old) (self.new.refresh, holder.new) result }
        ensures due { StillDue result (read_due self.new.refresh) }
        ensures fault { FaultRose (S.told store.old) (S.told store.new) result }
    {
        self.refresh.next(alloc, &mut holder.stored, store, moment)
    }
}

impl<L: DbLog> DbUpdateMachine<L> {
    /// Whether a call is due. None is after an end, unless memory ran out, nor where nothing is committed.
    pub fn due(&self) -> bool
        ensures due { result ≡ update_due self.now.update }
        ensures open { result ≡ true → update_open self.now.update ≡ true }
    {
        self.update.due()
    }

    /// Makes the one call that is due. Where none is due it makes none, and answers. A conflict ends it. After a commit the holder
    /// holds what was put, and else it is unchanged. Running out of memory leaves the machine as it was, and any other end
    /// leaves none due.
    pub fn next<S: ObjectStore>(
        &mut self,
        alloc: Global,
        holder: &mut DbStored<L>,
        store: &mut S,
        moment: Millis,
    ) -> Step<()>
        requires open { update_open self.now.update ≡ true }
        ensures steps { UpdateSteps (S.told store.old) (S.told store.new) moment
            (self.old.update, holder.old) (self.new.update, holder.new) result }
        ensures open { update_due self.old.update ≡ true → StillDue result (update_open self.new.update) }
        ensures fault { update_due self.old.update ≡ true → FaultRose (S.told store.old) (S.told store.new) result }
    {
        self.update.next(alloc, &mut holder.stored, store, moment)
    }
}
