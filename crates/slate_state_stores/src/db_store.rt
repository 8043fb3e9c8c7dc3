//! A log of a database, as a store of versions.
ghost use Rattle.std.specs.Prelude.{◌≡◌, ◌<◌, pos, OnOk, IfOk};
ghost use Rattle.slate_txn_delete.specs.CheckedDelete.{CheckedBegan, CheckedRan};
ghost use Rattle.slate_ids.specs.Answers.{OrMemory};
ghost use Rattle.slate_txn_log.specs.Advance.{Advanced, AdvanceBegan, BoundaryKept, BoundaryReached};
ghost use Rattle.slate_txn_log.specs.Delete.{deleted_reply};
ghost use Rattle.slate_txn_log.specs.Due.{FaultOf};
ghost use Rattle.slate_txn_log.specs.LogPaths.{version_path};
ghost use Rattle.slate_txn_log.specs.Once.{Once};
ghost use Rattle.slate_txn_log.specs.TryRead.{try_reply};
ghost use Rattle.slate_txn_log.specs.Versions.{list_asks, list_reply, versions_of, Ascending, Within};
ghost use Rattle.slate_txn_laws.specs.Replies.{latest, latest_or_none, present, ReadAs};
ghost use Rattle.slate_store.specs.declared.store_call.StoreCall.TheVariants as calls;

use slate_ids::{DbPath, Millis, NumberRange, SlateDBError};
use slate_state_logs::DbLog;
use slate_store::{ObjectMetadata, ObjectStore};
use slate_txn_delete::delete_checked;
use slate_txn_log::Sequenced;
use std::alloc::Global;
use std::marker::Model;

/// The versions of a log of a database. It holds nothing of the store: each call is given it.
#[derive(Drop)]
pub struct DbStore<L: DbLog> {
    pub(crate) sequenced: Sequenced<L::Value, L::Codec>,
}

impl<L: DbLog> Model for DbStore<L> {
    ghost use Rattle.slate_txn_log.specs.declared.sequenced.Sequenced.{Sequenced as Log};

    ghost Value = { Log L.Value L.Codec };

    ghost view = { λ a. a.sequenced };
}

// The latest version, where the log has one.
pub(crate) fn latest_or_none_of<L: DbLog>(
    reply: Result<Option<(u64, L::Value)>, SlateDBError>,
) -> Result<Option<L::Version>, SlateDBError>
    ensures { result ≡ latest_or_none L.version_of reply }
{
    match reply {
        Ok(Some((id, value))) => Ok(Some(L::version(id, value))),
        Ok(None) => Ok(None),
        Err(e) => Err(e),
    }
}

// The latest version, which has to be there.
pub(crate) fn latest_of<L: DbLog>(
    reply: Result<Option<(u64, L::Value)>, SlateDBError>,
) -> Result<L::Version, SlateDBError>
    ensures { result ≡ latest L.version_of reply }
{
    match reply {
        Ok(Some((id, value))) => Ok(L::version(id, value)),
        Ok(None) => Err(SlateDBError::LatestTransactionalObjectVersionMissing),
        Err(e) => Err(e),
    }
}

// The value of this number, which has to be there.
pub(crate) fn present_of<L: DbLog>(
    n: u64,
    reply: Result<Option<L::Value>, SlateDBError>,
) -> Result<L::Value, SlateDBError>
    ensures { result ≡ present L.missing_at n reply }
{
    match reply {
        Ok(Some(value)) => Ok(value),
        Ok(None) => Err(L::missing(n)),
        Err(e) => Err(e),
    }
}

impl<L: DbLog> DbStore<L> {
    // The versions.
    pub(crate) fn log(&self) -> &Sequenced<L::Value, L::Codec>
        ensures { result.now ≡ self.now }
    {
        &self.sequenced
    }

    /// The log of this database. Takes no memory.
    pub fn new(db: DbPath) -> DbStore<L>
        ensures db { result.db ≡ db }
        ensures log { result.log ≡ L.its_kind }
    {
        DbStore {
            sequenced: Sequenced::new(db, L::kind(), L::codec()),
        }
    }

    // The latest version, where the log has one.
    pub(crate) fn try_read_latest<S: ObjectStore>(
        &self,
        alloc: Global,
        store: &mut S,
        tries: u32,
    ) -> Result<Option<L::Version>, SlateDBError>
        requires { 0 < tries }
        ensures read { ReadAs L.Codec.decoded (latest_or_none L.version_of) self.now tries
            (S.told store.old) (S.told store.new) result }
        ensures fault { FaultOf (S.told store.old) (S.told store.new) result }
    {
        latest_or_none_of::<L>(self.sequenced.read_latest(alloc, store, tries))
    }

    // The latest version, which has to be there.
    pub(crate) fn read_latest<S: ObjectStore>(
        &self,
        alloc: Global,
        store: &mut S,
        tries: u32,
    ) -> Result<L::Version, SlateDBError>
        requires { 0 < tries }
        ensures read { ReadAs L.Codec.decoded (latest L.version_of) self.now tries
            (S.told store.old) (S.told store.new) result }
        ensures fault { FaultOf (S.told store.old) (S.told store.new) result }
    {
        latest_of::<L>(self.sequenced.read_latest(alloc, store, tries))
    }

    // The value of this number, where it is there.
    pub(crate) fn try_read<S: ObjectStore>(
        &self,
        alloc: Global,
        store: &mut S,
        n: u64,
    ) -> Result<Option<L::Value>, SlateDBError>
        ensures read { Once (S.told store.old) (S.told store.new)
            (calls.Get (version_path self.now.log self.now.db n)) (pos 0)
            (try_reply (L.Codec.decoded self.now.codec)) result }
        ensures fault { FaultOf (S.told store.old) (S.told store.new) result }
    {
        self.sequenced.try_read(alloc, store, n)
    }

    // The value of this number, which has to be there.
    pub(crate) fn read<S: ObjectStore>(
        &self,
        alloc: Global,
        store: &mut S,
        n: u64,
    ) -> Result<L::Value, SlateDBError>
        ensures read { Once (S.told store.old) (S.told store.new)
            (calls.Get (version_path self.now.log self.now.db n)) (pos 0)
            (λ answer. present L.missing_at n (try_reply (L.Codec.decoded self.now.codec) answer)) result }
        ensures fault { FaultOf (S.told store.old) (S.told store.new) result }
    {
        present_of::<L>(n, self.sequenced.try_read(alloc, store, n))
    }

    // The versions with numbers in the range.
    pub(crate) fn list<S: ObjectStore>(
        &self,
        alloc: Global,
        store: &mut S,
        range: NumberRange,
    ) -> Result<Vec<(u64, ObjectMetadata)>, SlateDBError>
        ensures read { Once (S.told store.old) (S.told store.new)
            (list_asks self.now.db self.now.log) (pos 0)
            (list_reply self.now.log range) (versions_of result) }
        ensures ascending { IfOk result (λ versions. Ascending versions.items) }
        ensures within { IfOk result (λ versions. Within range versions.items) }
        ensures fault { FaultOf (S.told store.old) (S.told store.new) result }
    {
        self.sequenced.list(alloc, store, range)
    }

    /// Moves the boundary up to at least this number, and never down: a boundary at or above it stays. An absent boundary
    /// counts as 0. It starts again where another write came between its read and its write: so often as there are tries,
    /// then `Contended`. A boundary that can't be read is `Corrupt`, and stays. After `StoreFault` the boundary is as it was,
    /// or is at this number. `moment` is in milliseconds since the Unix epoch.
    pub fn advance_boundary<S: ObjectStore>(
        &self,
        alloc: Global,
        store: &mut S,
        n: u64,
        moment: Millis,
        tries: u32,
    ) -> Result<(), SlateDBError>
        requires { 0 < tries }
        ensures advance { OrMemory result
            (AdvanceBegan self.now n moment tries (S.told store.old) (S.told store.new))
            (Advanced self.now n moment tries (S.told store.old) (S.told store.new) result) }
        ensures reached { OnOk result (BoundaryReached self.now.db self.now.log n (S.told store.new)) }
        ensures never_lower { BoundaryKept self.now.db self.now.log (S.told store.old) (S.told store.new) }
        ensures fault { FaultOf (S.told store.old) (S.told store.new) result }
    {
        self.sequenced.advance(alloc, store, n, moment, tries)
    }

    // Deletes the version of this number as it is.
    pub(crate) fn delete_unchecked<S: ObjectStore>(
        &self,
        alloc: Global,
        store: &mut S,
        n: u64,
    ) -> Result<(), SlateDBError>
        ensures delete { Once (S.told store.old) (S.told store.new)
            (calls.Delete (version_path self.now.log self.now.db n)) (pos 0) deleted_reply result }
        ensures fault { FaultOf (S.told store.old) (S.told store.new) result }
    {
        self.sequenced.delete_unchecked(alloc, store, n)
    }

    // Deletes the version of this number where the latest version and the boundary allow it.
    pub(crate) fn delete<S: ObjectStore>(
        &self,
        alloc: Global,
        store: &mut S,
        n: u64,
        tries: u32,
    ) -> Result<(), SlateDBError>
        requires { 0 < tries }
        ensures delete { OrMemory result
            (CheckedBegan L.Codec.decoded (L.Names.named L.its_names) self.now n tries
            (S.told store.old) (S.told store.new))
            (CheckedRan L.Codec.decoded (L.Names.named L.its_names) self.now n tries
            (S.told store.old) (S.told store.new) result) }
        ensures fault { FaultOf (S.told store.old) (S.told store.new) result }
    {
        delete_checked(alloc, &self.sequenced, &L::names(), store, n, tries)
    }
}
