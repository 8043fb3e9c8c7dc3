//! A holder of a version of a log of a database.
ghost use Rattle.std.specs.Prelude.{◌≡◌, ◌<◌, ◌+◌, ◌⊎◌, true, false, IfOk, IfErr, OnOk, OnErr};
ghost use Rattle.slate_state_holders.specs.Holders.{CreatesDb, FirstStands, HasNoBytes, LoadsDb, TryLoadsDb};
ghost use Rattle.slate_ids.specs.Answers.{is_memory};
ghost use Rattle.slate_txn_log.specs.Due.{FaultOf};
ghost use Rattle.slate_txn_laws.specs.Plain.{MayNotFault, NeverFaults};
ghost use Rattle.slate_txn.specs.Apply.{Applies, ways_of};
ghost use Rattle.slate_txn.specs.ApplyMoves.{AppliesBy, ways_by};
ghost use Rattle.slate_txn.specs.Changing.{Computes, Making, May};
ghost use Rattle.slate_txn.specs.Holder.{at_version};
ghost use Rattle.slate_txn.specs.Refreshing.{Refreshes};
ghost use Rattle.slate_txn.specs.Standing.{may_stand, SameContents, UpdateStands};
ghost use Rattle.slate_txn.specs.Updating.{started, Updates};

use slate_ids::{DbPath, Millis, SlateDBError};
use slate_state_logs::DbLog;
use slate_store::ObjectStore;
use slate_txn::{DirtyObject, Stored};
use slate_txn_log::{Right, Sequenced};
use std::alloc::Global;
use std::marker::Model;

/// The version of a database's log that was read or committed last, with the log and its rules.
#[derive(Drop)]
pub struct DbStored<L: DbLog> {
    pub(crate) stored: Stored<L::Value, L::Codec, L::Rules>,
}

impl<L: DbLog> Model for DbStored<L> {
    ghost use Rattle.slate_txn.specs.Holder.{Holder};

    ghost Value = { Holder L.Value L.Codec L.Rules };

    ghost view = { λ a. a.stored };
}

// The log of a database.
pub(crate) fn log_of<L: DbLog>(db: DbPath) -> Sequenced<L::Value, L::Codec>
    ensures db { result.db ≡ db }
    ensures log { result.log ≡ L.its_kind }
{
    Sequenced::new(db, L::kind(), L::codec())
}

// The holder around another.
pub(crate) fn hold<L: DbLog>(
    reply: Result<Stored<L::Value, L::Codec, L::Rules>, SlateDBError>,
) -> Result<DbStored<L>, SlateDBError>
    ensures { result ≡ reply }
{
    match reply {
        Ok(stored) => Ok(DbStored { stored }),
        Err(e) => Err(e),
    }
}

// The same, where there is one.
pub(crate) fn hold_some<L: DbLog>(
    reply: Result<Option<Stored<L::Value, L::Codec, L::Rules>>, SlateDBError>,
) -> Result<Option<DbStored<L>>, SlateDBError>
    ensures { result ≡ reply }
{
    match reply {
        Ok(Some(stored)) => Ok(Some(DbStored { stored })),
        Ok(None) => Ok(None),
        Err(e) => Err(e),
    }
}

impl<L: DbLog> DbStored<L> {
    // Commits this first value as version 1, in one try, and holds it. A value without bytes is refused before any call. A refusal leaves
    // the store's contents as before, except where the put may stand.
    pub(crate) fn create_first<S: ObjectStore>(
        alloc: Global,
        store: &mut S,
        db: DbPath,
        first: L::Value,
        moment: Millis,
    ) -> Result<DbStored<L>, SlateDBError>
        ensures create { CreatesDb L.Codec.encoded L.its_kind db first moment (S.told store.old) (S.told store.new) result }
        ensures before { HasNoBytes L.Codec.encoded first → S.told store.new ≡ S.told store.old }
        ensures put { OnOk result (FirstStands L.Codec.encoded L.its_kind db first moment (S.told store.old) (S.told store.new)) }
        ensures left { IfErr result (λ e. may_stand e ≡ false
            → SameContents (S.told store.old) (S.told store.new)) }
        ensures stands { OnErr result (SameContents (S.told store.old) (S.told store.new)
            ⊎ FirstStands L.Codec.encoded L.its_kind db first moment (S.told store.old) (S.told store.new)) }
        ensures fault { FaultOf (S.told store.old) (S.told store.new) result }
    {
        let log = log_of::<L>(db);
        hold(Stored::init(alloc, store, log, L::rules(), first, moment))
    }

    /// A holder of the latest version, above the log's boundary, or none where the log has no version. The read starts again where its
    /// version is gone when it is got, or is at or below the boundary: so often as there are tries, then `Contended`.
    pub fn try_load<S: ObjectStore>(
        alloc: Global,
        store: &mut S,
        db: DbPath,
        tries: u32,
    ) -> Result<Option<DbStored<L>>, SlateDBError>
        requires { 0 < tries }
        ensures load { TryLoadsDb L.Codec.decoded L.its_kind db tries (S.told store.old) (S.told store.new) result }
        ensures fault { FaultOf (S.told store.old) (S.told store.new) result }
    {
        let log = log_of::<L>(db);
        hold_some(Stored::try_load(alloc, store, log, L::rules(), tries))
    }

    /// The same, refused with `LatestTransactionalObjectVersionMissing` where the log has no version.
    pub fn load<S: ObjectStore>(
        alloc: Global,
        store: &mut S,
        db: DbPath,
        tries: u32,
    ) -> Result<DbStored<L>, SlateDBError>
        requires { 0 < tries }
        ensures load { LoadsDb L.Codec.decoded L.its_kind db tries (S.told store.old) (S.told store.new) result }
        ensures fault { FaultOf (S.told store.old) (S.told store.new) result }
    {
        let log = log_of::<L>(db);
        hold(Stored::load(alloc, store, log, L::rules(), tries))
    }

    /// The number of the version held.
    pub fn id(&self) -> u64
        ensures { result ≡ self.now.id }
    {
        self.stored.id()
    }

    // The value held.
    pub(crate) fn held(&self) -> &L::Value
        ensures { result.now ≡ self.now.object }
    {
        self.stored.object()
    }

    /// The number held and a copy of the value held, to be changed and put by an update.
    pub fn prepare_dirty(&self, alloc: Global) -> Result<DirtyObject<L::Value>, SlateDBError>
        ensures id { IfOk result (λ dirty. dirty.id ≡ self.now.id) }
        ensures value { IfOk result (λ dirty. dirty.value ≡ self.now.object) }
        ensures memory { IfErr result (λ e. is_memory e ≡ true) }
    {
        self.stored.prepare_dirty(alloc)
    }

    /// Reads the latest version, as `load` does, and holds it. After a refusal the holder is unchanged.
    pub fn refresh<S: ObjectStore>(
        &mut self,
        alloc: Global,
        store: &mut S,
        tries: u32,
    ) -> Result<(), SlateDBError>
        requires { 0 < tries }
        ensures refresh { Refreshes L.Codec.decoded tries (S.told store.old) (S.told store.new)
            self.old self.new result }
        ensures kept { OnErr result (self.new ≡ self.old) }
        ensures fault { FaultOf (S.told store.old) (S.told store.new) result }
    {
        self.stored.refresh(alloc, store, tries)
    }

    /// Commits a dirty value, in one try. Refused before any call are a dirty number other than the one held
    /// (`TransactionalObjectVersionExists` without a boundary), the last number, what the rules refuse, and a value without bytes.
    /// After Ok the holder holds what was put, and after a refusal it is unchanged. So are the store's contents, except that the put
    /// may stand where its answer was lost, where the boundary read after it was at or above its number, or where the boundary
    /// couldn't be read. `moment` is in milliseconds since the Unix epoch.
    pub fn update<S: ObjectStore>(
        &mut self,
        alloc: Global,
        store: &mut S,
        dirty: DirtyObject<L::Value>,
        right: &Right,
        moment: Millis,
    ) -> Result<(), SlateDBError>
        ensures update { Updates L.Rules.refusal L.Codec.encoded moment (S.told store.old) (S.told store.new)
            self.old dirty right.now result }
        ensures held { OnOk result (self.new ≡ at_version self.old (self.old.id + 1) dirty.value) }
        ensures kept { OnErr result (self.new ≡ self.old) }
        ensures before { IfErr (started L.Rules.refusal L.Codec.encoded self.old dirty right.now)
            (λ e. S.told store.new ≡ S.told store.old) }
        ensures put { OnOk result (UpdateStands self.old moment (S.told store.old) (S.told store.new)
            (started L.Rules.refusal L.Codec.encoded self.old dirty right.now)) }
        ensures left { IfErr result (λ e. may_stand e ≡ false
            → SameContents (S.told store.old) (S.told store.new)) }
        ensures stands { OnErr result (SameContents (S.told store.old) (S.told store.new)
            ⊎ UpdateStands self.old moment (S.told store.old) (S.told store.new)
            (started L.Rules.refusal L.Codec.encoded self.old dirty right.now)) }
        ensures fault { FaultOf (S.told store.old) (S.told store.new) result }
    {
        self.stored.update(alloc, store, dirty, right, moment)
    }

    /// Commits what `f` makes of the number and the value held. Where it makes none, nothing is committed, and its refusal is the
    /// answer. After a conflict the latest version is read and held, and what `f` makes of that is committed: so often as there are
    /// tries, then `Contended`. `f` is asked anew of each version that is read, and may answer differently each time. The holder
    /// holds what was put or read last. `moment` is in milliseconds since the Unix epoch.
    pub fn maybe_apply_update<
        F: Fn(u64, &L::Value) -> Result<Option<L::Value>, SlateDBError>,
        S: ObjectStore,
    >(
        &mut self,
        alloc: Global,
        store: &mut S,
        f: F,
        right: &Right,
        moment: Millis,
        tries: u32,
    ) -> Result<(), SlateDBError>
        requires callable { F.IsAlwaysCallable f }
        requires some { 0 < tries }
        ensures apply { (changed : Making L.Value) → Computes (F.post f) changed
            → Applies (ways_of L.Codec.decoded L.Codec.encoded L.Rules.refusal changed right.now) moment tries
            (S.told store.old) (S.told store.new) self.old self.new result }
        ensures moves { AppliesBy (ways_by L.Codec.decoded L.Codec.encoded L.Rules.refusal (May (F.post f)) right.now)
            moment tries (S.told store.old) (S.told store.new) self.old self.new result }
        ensures never { MayNotFault (May (F.post f)) → FaultOf (S.told store.old) (S.told store.new) result }
        ensures fault { (changed : Making L.Value) → Computes (F.post f) changed → NeverFaults changed
            → FaultOf (S.told store.old) (S.told store.new) result }
    {
        self.stored
            .maybe_apply(alloc, store, f, right, moment, tries)
    }
}
