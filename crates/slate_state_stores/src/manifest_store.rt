//! The log of a database's manifests.
ghost use Rattle.std.specs.Prelude.{◌≡◌, ◌<◌, pos, true, IfOk};
ghost use Rattle.slate_txn_delete.specs.CheckedDelete.{CheckedBegan, CheckedRan};
ghost use Rattle.slate_txn_delete.specs.declared.checked_delete_phase.CheckedDeletePhase.TheVariants as checks;
ghost use Rattle.slate_state_logs.specs.ManifestLog.{manifest_decoded, manifest_names, version_of};
ghost use Rattle.slate_ids.specs.Answers.{OrMemory};
ghost use Rattle.slate_ids.specs.declared.error.SlateDBError.TheVariants.{ManifestMissing};
ghost use Rattle.slate_txn_log.specs.Delete.{deleted_reply};
ghost use Rattle.slate_txn_log.specs.Due.{FaultOf, FaultRose, StillDue};
ghost use Rattle.slate_txn_log.specs.LogPaths.{version_path};
ghost use Rattle.slate_txn_log.specs.Once.{Once};
ghost use Rattle.slate_txn_log.specs.TryRead.{try_reply};
ghost use Rattle.slate_txn_log.specs.Versions.{list_asks, list_reply, versions_of, Ascending, Within};
ghost use Rattle.slate_txn_log.specs.declared.delete_phase.DeletePhase.TheVariants as deletes;
ghost use Rattle.slate_txn_log.specs.declared.list_phase.ListPhase.TheVariants as lists;
ghost use Rattle.slate_txn_log.specs.declared.read_phase.ReadPhase.TheVariants as reads;
ghost use Rattle.slate_txn_log.specs.declared.try_read_phase.TryReadPhase.TheVariants as tries;
ghost use Rattle.slate_state_referenced.specs.Referenced.{entries_of, referenced_due, referenced_open, referenced_start, Referenced, ReferencedSteps};
ghost use Rattle.slate_txn_laws.specs.Replies.{latest, latest_or_none, present, ReadAs};
ghost use Rattle.slate_store.specs.declared.store_call.StoreCall.TheVariants as calls;

use crate::db_store::DbStore;
use crate::db_store_machines::{
    DbAdvanceMachine, DbDeleteMachine, DbDeleteUncheckedMachine, DbLatestMachine, DbListMachine,
    DbReadMachine, DbTryLatestMachine, DbTryReadMachine,
};
use slate_ids::{Millis, NumberRange, OutOfMemory, SlateDBError};
use slate_model::{Manifest, VersionedManifest};
use slate_state_logs::Manifests;
use slate_state_referenced::{ManifestMap, ReferencedPhase, into_map, read_named};
use slate_store::{ObjectMetadata, ObjectStore, Step};
use slate_txn_delete::CheckedDeletePhase;
use slate_txn_log::ReadPhase;
use std::alloc::Global;
use std::collections::BTreeMap;

/// The versions of a database's manifest.
pub type ManifestStore = DbStore<Manifests>;

/// The latest version is read, in one try.
pub type LatestManifestMachine = DbLatestMachine<Manifests>;

/// The latest version is read, where there is one, in one try.
pub type TryLatestManifestMachine = DbTryLatestMachine<Manifests>;

/// A manifest is read, where it is there, in one try.
pub type TryReadManifestMachine = DbTryReadMachine<Manifests>;

/// A manifest is read, in one try.
pub type ReadManifestMachine = DbReadMachine<Manifests>;

/// The versions of a range are listed, in one try.
pub type ListManifestsMachine = DbListMachine<Manifests>;

/// The boundary is moved up, in one try.
pub type AdvanceBoundaryMachine = DbAdvanceMachine<Manifests>;

/// A version is deleted as it is, in one try.
pub type DeleteUncheckedMachine = DbDeleteUncheckedMachine<Manifests>;

/// A version is deleted where the latest version and the boundary allow it, in one try.
pub type DeleteManifestMachine = DbDeleteMachine<Manifests>;

/// The versions that a manifest's checkpoints name are read.
#[derive(Drop)]
pub struct ReferencedManifestsMachine {
    pub phase: ReferencedPhase,
}

impl ReferencedManifestsMachine {
    /// Whether a call is due. None is after an end, unless memory ran out, nor where nothing is to be got.
    pub fn due(&self) -> bool
        ensures due { result ≡ referenced_due self.now.phase }
        ensures open { result ≡ true → referenced_open self.now.phase ≡ true }
    {
        self.phase.due()
    }

    /// Makes the one call that is due. Where nothing is to be got it makes none and answers the manifests. Running out of memory
    /// leaves the machine as it was, and any other end leaves none due.
    pub fn next<S: ObjectStore>(
        &mut self,
        alloc: Global,
        manifests: &ManifestStore,
        store: &mut S,
        moment: Millis,
    ) -> Step<ManifestMap>
        requires open { referenced_open self.now.phase ≡ true }
        ensures steps { ReferencedSteps manifests.now.db (manifest_decoded manifests.now.codec)
            (S.told store.old) (S.told store.new) moment self.old.phase self.new.phase result }
        ensures due { StillDue result (referenced_open self.new.phase) }
        ensures fault { referenced_due self.old.phase ≡ true
            → FaultRose (S.told store.old) (S.told store.new) result }
    {
        self.phase.next(alloc, manifests.log(), store, moment)
    }
}

impl ManifestStore {
    /// The latest version above the boundary, or none where the log has no version. A read starts again where the version
    /// is gone when it is got, or is at or below the boundary: so often as there are tries, then `Contended`.
    pub fn try_read_latest_manifest<S: ObjectStore>(
        &self,
        alloc: Global,
        store: &mut S,
        tries: u32,
    ) -> Result<Option<VersionedManifest>, SlateDBError>
        requires { 0 < tries }
        ensures read { ReadAs manifest_decoded (latest_or_none version_of) self.now tries (S.told store.old) (S.told store.new) result }
        ensures fault { FaultOf (S.told store.old) (S.told store.new) result }
    {
        self.try_read_latest(alloc, store, tries)
    }

    /// The same, refused with `LatestTransactionalObjectVersionMissing` where the log has no version.
    pub fn read_latest_manifest<S: ObjectStore>(
        &self,
        alloc: Global,
        store: &mut S,
        tries: u32,
    ) -> Result<VersionedManifest, SlateDBError>
        requires { 0 < tries }
        ensures read { ReadAs manifest_decoded (latest version_of) self.now tries (S.told store.old) (S.told store.new) result }
        ensures fault { FaultOf (S.told store.old) (S.told store.new) result }
    {
        self.read_latest(alloc, store, tries)
    }

    /// The manifest of this number, or none where it isn't there. Reads no boundary.
    pub fn try_read_manifest<S: ObjectStore>(
        &self,
        alloc: Global,
        store: &mut S,
        manifest_id: u64,
    ) -> Result<Option<Manifest>, SlateDBError>
        ensures read { Once (S.told store.old) (S.told store.new)
            (calls.Get (version_path self.now.log self.now.db manifest_id)) (pos 0) (try_reply (manifest_decoded self.now.codec)) result }
        ensures fault { FaultOf (S.told store.old) (S.told store.new) result }
    {
        self.try_read(alloc, store, manifest_id)
    }

    /// The manifest of this number. Refused with `ManifestMissing` of this number where it isn't there. Reads no boundary.
    pub fn read_manifest<S: ObjectStore>(
        &self,
        alloc: Global,
        store: &mut S,
        manifest_id: u64,
    ) -> Result<Manifest, SlateDBError>
        ensures read { Once (S.told store.old) (S.told store.new)
            (calls.Get (version_path self.now.log self.now.db manifest_id)) (pos 0)
            (λ answer. present ManifestMissing manifest_id (try_reply (manifest_decoded self.now.codec) answer)) result }
        ensures fault { FaultOf (S.told store.old) (S.told store.new) result }
    {
        self.read(alloc, store, manifest_id)
    }

    /// The versions with numbers in the range, ascending by number, with what the store tells of each. Reads no boundary.
    pub fn list_manifests<S: ObjectStore>(
        &self,
        alloc: Global,
        store: &mut S,
        manifest_ids: NumberRange,
    ) -> Result<Vec<(u64, ObjectMetadata)>, SlateDBError>
        ensures read { Once (S.told store.old) (S.told store.new)
            (list_asks self.now.db self.now.log) (pos 0)
            (list_reply self.now.log manifest_ids) (versions_of result) }
        ensures ascending { IfOk result (λ versions. Ascending versions.items) }
        ensures within { IfOk result (λ versions. Within manifest_ids versions.items) }
        ensures fault { FaultOf (S.told store.old) (S.told store.new) result }
    {
        self.list(alloc, store, manifest_ids)
    }

    /// Deletes the version of this number by one call, whatever the latest version and the boundary. A version that isn't there
    /// is no refusal. After `StoreFault` the version is as it was, or is gone.
    pub fn delete_manifest_unchecked<S: ObjectStore>(
        &self,
        alloc: Global,
        store: &mut S,
        manifest_id: u64,
    ) -> Result<(), SlateDBError>
        ensures delete { Once (S.told store.old) (S.told store.new)
            (calls.Delete (version_path self.now.log self.now.db manifest_id)) (pos 0) deleted_reply result }
        ensures fault { FaultOf (S.told store.old) (S.told store.new) result }
    {
        self.delete_unchecked(alloc, store, manifest_id)
    }

    /// Deletes the version of this number: where no read starts again, by one list, two gets and a delete. `InvalidDeletion` of
    /// this number where it is the latest version, where a checkpoint of the latest names it, or where it is above the boundary
    /// that was read with the latest, of which an absent one counts as 0; `LatestTransactionalObjectVersionMissing` where the log
    /// has no version. Then nothing is deleted. The read starts again where the version is gone when it is got, or is at or below the boundary:
    /// so often as there are tries, then `Contended`. A version that isn't there is no refusal. After `StoreFault` the version
    /// is as it was, or is gone.
    pub fn delete_manifest<S: ObjectStore>(
        &self,
        alloc: Global,
        store: &mut S,
        manifest_id: u64,
        tries: u32,
    ) -> Result<(), SlateDBError>
        requires { 0 < tries }
        ensures delete { OrMemory result
            (CheckedBegan manifest_decoded manifest_names self.now manifest_id tries (S.told store.old) (S.told store.new))
            (CheckedRan manifest_decoded manifest_names self.now manifest_id tries (S.told store.old) (S.told store.new) result) }
        ensures fault { FaultOf (S.told store.old) (S.told store.new) result }
    {
        self.delete(alloc, store, manifest_id, tries)
    }

    /// The version of number `manifest_id` itself, whose manifest this is, and each version that its checkpoints name, by their numbers.
    /// Each other one is got once, in the checkpoints' order, the own number never. Refused with `ManifestMissing` of the first
    /// number that isn't there. Reads no boundary.
    pub fn read_referenced_manifests<S: ObjectStore>(
        &self,
        alloc: Global,
        store: &mut S,
        manifest_id: u64,
        manifest: &Manifest,
    ) -> Result<BTreeMap<u64, Manifest>, SlateDBError>
        ensures read { Referenced self.now.db (manifest_decoded self.now.codec) manifest_id manifest.now
            (S.told store.old) (S.told store.new) (entries_of result) }
        ensures fault { FaultOf (S.told store.old) (S.told store.new) result }
    {
        into_map(read_named(alloc, &self.sequenced, store, manifest_id, manifest))
    }

    /// The machine of `read_latest_manifest`, which makes one try.
    pub fn start_read_latest_manifest(&self) -> LatestManifestMachine
        ensures { result.phase ≡ reads.Listing }
    {
        DbLatestMachine {
            phase: ReadPhase::Listing,
        }
    }

    /// The machine of `try_read_latest_manifest`, which makes one try.
    pub fn start_try_read_latest_manifest(&self) -> TryLatestManifestMachine
        ensures { result.phase ≡ reads.Listing }
    {
        DbTryLatestMachine {
            phase: ReadPhase::Listing,
        }
    }

    /// The machine of `try_read_manifest`, which makes one try.
    pub fn start_try_read_manifest(&self, manifest_id: u64) -> TryReadManifestMachine
        ensures { result.phase ≡ tries.Getting manifest_id }
    {
        self.reading(manifest_id)
    }

    /// The machine of `read_manifest`, which makes one try.
    pub fn start_read_manifest(&self, manifest_id: u64) -> ReadManifestMachine
        ensures { result.phase ≡ tries.Getting manifest_id }
    {
        self.needing(manifest_id)
    }

    /// The machine of `list_manifests`, which makes one try.
    pub fn start_list_manifests(&self, manifest_ids: NumberRange) -> ListManifestsMachine
        ensures { result.phase ≡ lists.Listing manifest_ids }
    {
        self.listing(manifest_ids)
    }

    /// The machine of `delete_manifest_unchecked`, which makes one try.
    pub fn start_delete_manifest_unchecked(&self, manifest_id: u64) -> DeleteUncheckedMachine
        ensures { result.phase ≡ deletes.Deleting manifest_id }
    {
        self.deleting(manifest_id)
    }

    /// The machine of `delete_manifest`, which makes one try.
    pub fn start_delete_manifest(&self, manifest_id: u64) -> DeleteManifestMachine
        ensures { result.phase ≡ checks.Reading manifest_id reads.Listing }
    {
        DbDeleteMachine {
            phase: CheckedDeletePhase::Reading(manifest_id, ReadPhase::Listing),
        }
    }

    /// The machine of `read_referenced_manifests`. It starts with a copy of the manifest.
    pub fn start_read_referenced_manifests(
        &self,
        alloc: Global,
        manifest_id: u64,
        manifest: &Manifest,
    ) -> Result<ReferencedManifestsMachine, OutOfMemory>
        ensures { IfOk result (λ machine. machine.phase ≡ referenced_start manifest_id manifest.now) }
    {
        Ok(ReferencedManifestsMachine {
            phase: ReferencedPhase::start(alloc, manifest_id, manifest)?,
        })
    }
}
