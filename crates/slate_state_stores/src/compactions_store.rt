//! The log of a database's records of compactions.
ghost use Rattle.std.specs.Prelude.{◌≡◌, ◌<◌, pos, IfOk};
ghost use Rattle.slate_txn_delete.specs.CheckedDelete.{CheckedBegan, CheckedRan};
ghost use Rattle.slate_txn_delete.specs.declared.checked_delete_phase.CheckedDeletePhase.TheVariants as checks;
ghost use Rattle.slate_state_logs.specs.RecordLog.{record_of_bytes, names_none, record_missing, version_of};
ghost use Rattle.slate_ids.specs.Answers.{OrMemory};
ghost use Rattle.slate_txn_log.specs.Delete.{deleted_reply};
ghost use Rattle.slate_txn_log.specs.Due.{FaultOf};
ghost use Rattle.slate_txn_log.specs.LogPaths.{version_path};
ghost use Rattle.slate_txn_log.specs.Once.{Once};
ghost use Rattle.slate_txn_log.specs.TryRead.{try_reply};
ghost use Rattle.slate_txn_log.specs.Versions.{list_asks, list_reply, versions_of, Ascending, Within};
ghost use Rattle.slate_txn_log.specs.declared.delete_phase.DeletePhase.TheVariants as deletes;
ghost use Rattle.slate_txn_log.specs.declared.list_phase.ListPhase.TheVariants as lists;
ghost use Rattle.slate_txn_log.specs.declared.read_phase.ReadPhase.TheVariants as reads;
ghost use Rattle.slate_txn_log.specs.declared.try_read_phase.TryReadPhase.TheVariants as tries;
ghost use Rattle.slate_txn_laws.specs.Replies.{latest, latest_or_none, present, ReadAs};
ghost use Rattle.slate_store.specs.declared.store_call.StoreCall.TheVariants as calls;

use crate::db_store::DbStore;
use crate::db_store_machines::{
    DbAdvanceMachine, DbDeleteMachine, DbDeleteUncheckedMachine, DbLatestMachine, DbListMachine,
    DbReadMachine, DbTryLatestMachine, DbTryReadMachine,
};
use slate_ids::{NumberRange, SlateDBError};
use slate_model::{Compactions, VersionedCompactions};
use slate_state_logs::Records;
use slate_store::{ObjectMetadata, ObjectStore};
use slate_txn_delete::CheckedDeletePhase;
use slate_txn_log::ReadPhase;
use std::alloc::Global;

/// The versions of a database's record of compactions.
pub type CompactionsStore = DbStore<Records>;

/// The latest version is read, in one try.
pub type LatestCompactionsMachine = DbLatestMachine<Records>;

/// The latest version is read, where there is one, in one try.
pub type TryLatestCompactionsMachine = DbTryLatestMachine<Records>;

/// A record is read, where it is there, in one try.
pub type TryReadCompactionsMachine = DbTryReadMachine<Records>;

/// A record is read, in one try.
pub type ReadCompactionsMachine = DbReadMachine<Records>;

/// The versions of a range are listed, in one try.
pub type ListCompactionsMachine = DbListMachine<Records>;

/// The boundary is moved up, in one try.
pub type AdvanceCompactionsBoundaryMachine = DbAdvanceMachine<Records>;

/// A version is deleted as it is, in one try.
pub type DeleteCompactionsUncheckedMachine = DbDeleteUncheckedMachine<Records>;

/// A version is deleted where the latest version and the boundary allow it, in one try.
pub type DeleteCompactionsMachine = DbDeleteMachine<Records>;

impl CompactionsStore {
    /// The latest version above the boundary, or none where the log has no version. A read starts again where the version
    /// is gone when it is got, or is at or below the boundary: so often as there are tries, then `Contended`.
    pub fn try_read_latest_compactions<S: ObjectStore>(
        &self,
        alloc: Global,
        store: &mut S,
        tries: u32,
    ) -> Result<Option<VersionedCompactions>, SlateDBError>
        requires { 0 < tries }
        ensures read { ReadAs record_of_bytes (latest_or_none version_of) self.now tries (S.told store.old) (S.told store.new) result }
        ensures fault { FaultOf (S.told store.old) (S.told store.new) result }
    {
        self.try_read_latest(alloc, store, tries)
    }

    /// The same, refused with `LatestTransactionalObjectVersionMissing` where the log has no version.
    pub fn read_latest_compactions<S: ObjectStore>(
        &self,
        alloc: Global,
        store: &mut S,
        tries: u32,
    ) -> Result<VersionedCompactions, SlateDBError>
        requires { 0 < tries }
        ensures read { ReadAs record_of_bytes (latest version_of) self.now tries (S.told store.old) (S.told store.new) result }
        ensures fault { FaultOf (S.told store.old) (S.told store.new) result }
    {
        self.read_latest(alloc, store, tries)
    }

    /// The record of this number, or none where it isn't there. Reads no boundary.
    pub fn try_read_compactions<S: ObjectStore>(
        &self,
        alloc: Global,
        store: &mut S,
        record_id: u64,
    ) -> Result<Option<Compactions>, SlateDBError>
        ensures read { Once (S.told store.old) (S.told store.new)
            (calls.Get (version_path self.now.log self.now.db record_id)) (pos 0) (try_reply (record_of_bytes self.now.codec)) result }
        ensures fault { FaultOf (S.told store.old) (S.told store.new) result }
    {
        self.try_read(alloc, store, record_id)
    }

    /// The record of this number. Refused with `LatestTransactionalObjectVersionMissing` where it isn't there. Reads no boundary.
    pub fn read_compactions<S: ObjectStore>(
        &self,
        alloc: Global,
        store: &mut S,
        record_id: u64,
    ) -> Result<Compactions, SlateDBError>
        ensures read { Once (S.told store.old) (S.told store.new)
            (calls.Get (version_path self.now.log self.now.db record_id)) (pos 0)
            (λ answer. present record_missing record_id (try_reply (record_of_bytes self.now.codec) answer)) result }
        ensures fault { FaultOf (S.told store.old) (S.told store.new) result }
    {
        self.read(alloc, store, record_id)
    }

    /// The versions with numbers in the range, ascending by number, with what the store tells of each. Reads no boundary.
    pub fn list_compactions<S: ObjectStore>(
        &self,
        alloc: Global,
        store: &mut S,
        record_ids: NumberRange,
    ) -> Result<Vec<(u64, ObjectMetadata)>, SlateDBError>
        ensures read { Once (S.told store.old) (S.told store.new)
            (list_asks self.now.db self.now.log) (pos 0)
            (list_reply self.now.log record_ids) (versions_of result) }
        ensures ascending { IfOk result (λ versions. Ascending versions.items) }
        ensures within { IfOk result (λ versions. Within record_ids versions.items) }
        ensures fault { FaultOf (S.told store.old) (S.told store.new) result }
    {
        self.list(alloc, store, record_ids)
    }

    /// Deletes the version of this number by one call, whatever the latest version and the boundary. A version that isn't there
    /// is no refusal. After `StoreFault` the version is as it was, or is gone.
    pub fn delete_compactions_unchecked<S: ObjectStore>(
        &self,
        alloc: Global,
        store: &mut S,
        record_id: u64,
    ) -> Result<(), SlateDBError>
        ensures delete { Once (S.told store.old) (S.told store.new)
            (calls.Delete (version_path self.now.log self.now.db record_id)) (pos 0) deleted_reply result }
        ensures fault { FaultOf (S.told store.old) (S.told store.new) result }
    {
        self.delete_unchecked(alloc, store, record_id)
    }

    /// Deletes the version of this number: where no read starts again, by one list, two gets and a delete. `InvalidDeletion` of
    /// this number where it is the latest version, or where it is above the boundary that was read with the latest, of which an
    /// absent one counts as 0; `LatestTransactionalObjectVersionMissing` where the log has no version. Then nothing is deleted.
    /// The read starts again where the version is gone when it is got, or is at or below the boundary: so often as there are
    /// tries, then `Contended`. A version that isn't there is no refusal. After `StoreFault` the version is as it was, or is gone.
    pub fn delete_compactions<S: ObjectStore>(
        &self,
        alloc: Global,
        store: &mut S,
        record_id: u64,
        tries: u32,
    ) -> Result<(), SlateDBError>
        requires { 0 < tries }
        ensures delete { OrMemory result
            (CheckedBegan record_of_bytes names_none self.now record_id tries (S.told store.old) (S.told store.new))
            (CheckedRan record_of_bytes names_none self.now record_id tries (S.told store.old) (S.told store.new) result) }
        ensures fault { FaultOf (S.told store.old) (S.told store.new) result }
    {
        self.delete(alloc, store, record_id, tries)
    }

    /// The machine of `read_latest_compactions`, which makes one try.
    pub fn start_read_latest_compactions(&self) -> LatestCompactionsMachine
        ensures { result.phase ≡ reads.Listing }
    {
        DbLatestMachine {
            phase: ReadPhase::Listing,
        }
    }

    /// The machine of `try_read_latest_compactions`, which makes one try.
    pub fn start_try_read_latest_compactions(&self) -> TryLatestCompactionsMachine
        ensures { result.phase ≡ reads.Listing }
    {
        DbTryLatestMachine {
            phase: ReadPhase::Listing,
        }
    }

    /// The machine of `try_read_compactions`, which makes one try.
    pub fn start_try_read_compactions(&self, record_id: u64) -> TryReadCompactionsMachine
        ensures { result.phase ≡ tries.Getting record_id }
    {
        self.reading(record_id)
    }

    /// The machine of `read_compactions`, which makes one try.
    pub fn start_read_compactions(&self, record_id: u64) -> ReadCompactionsMachine
        ensures { result.phase ≡ tries.Getting record_id }
    {
        self.needing(record_id)
    }

    /// The machine of `list_compactions`, which makes one try.
    pub fn start_list_compactions(&self, record_ids: NumberRange) -> ListCompactionsMachine
        ensures { result.phase ≡ lists.Listing record_ids }
    {
        self.listing(record_ids)
    }

    /// The machine of `delete_compactions_unchecked`, which makes one try.
    pub fn start_delete_compactions_unchecked(
        &self,
        record_id: u64,
    ) -> DeleteCompactionsUncheckedMachine
        ensures { result.phase ≡ deletes.Deleting record_id }
    {
        self.deleting(record_id)
    }

    /// The machine of `delete_compactions`, which makes one try.
    pub fn start_delete_compactions(&self, record_id: u64) -> DeleteCompactionsMachine
        ensures { result.phase ≡ checks.Reading record_id reads.Listing }
    {
        DbDeleteMachine {
            phase: CheckedDeletePhase::Reading(record_id, ReadPhase::Listing),
        }
    }
}
