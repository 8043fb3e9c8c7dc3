//! A holder of a manifest.
ghost use Rattle.std.specs.Prelude.{◌≡◌, ◌<◌, ◌⊎◌, IfErr, IfOk, IfSome, OnErr, OnOk, false, true};
ghost use Rattle.slate_state_holders.specs.Holders.{CreatesDb, CreationOf, FirstStands, HasNoBytes};
ghost use Rattle.slate_state_holders.specs.ManifestHolders.{Changed};
ghost use Rattle.slate_state_logs.specs.ManifestLog.{manifest_encoded};
ghost use Rattle.slate_txn_log.specs.Due.{FaultOf};
ghost use Rattle.slate_txn_log.specs.declared.log_kind.LogKind.TheVariants as logs;
ghost use Rattle.slate_model.specs.Manifests.{initial_manifest};
ghost use Rattle.slate_txn.specs.Creating.{create_open, create_version};
ghost use Rattle.slate_txn.specs.Standing.{may_stand, SameContents};

use crate::changes::make;
use crate::db_stored::DbStored;
use crate::db_stored_machines::{
    DbCreateMachine, DbLoadMachine, DbRefreshMachine, DbTryLoadMachine, DbUpdateMachine,
};
use slate_ids::{DbPath, Millis, OutOfMemory, SlateDBError};
use slate_model::{Manifest, ManifestCore};
use slate_state_logs::Manifests;
use slate_state_updates::ManifestChange;
use slate_store::ObjectStore;
use slate_txn_log::Right;
use std::alloc::Global;

/// The version of a database's manifest that was read or committed last, with its log and its rules.
pub type StoredManifest = DbStored<Manifests>;

/// The machine of the creation of a database.
pub type CreateDbMachine = DbCreateMachine<Manifests>;

/// The machine of a load of the latest manifest, which is to be there, in one try.
pub type LoadManifestMachine = DbLoadMachine<Manifests>;

/// The machine of a load of the latest manifest, where there is one, in one try.
pub type TryLoadManifestMachine = DbTryLoadMachine<Manifests>;

/// The machine of a refresh, in one try.
pub type RefreshManifestMachine = DbRefreshMachine<Manifests>;

/// The machine of a commit of another manifest, in one try.
pub type UpdateManifestMachine = DbUpdateMachine<Manifests>;

impl StoredManifest {
    /// Creates a database: commits its first manifest, of this core, as version 1, in one try, and holds it. A manifest without
    /// bytes is refused before any call. Where the log has a version 1, or its boundary is at or above 1, the answer is
    /// `TransactionalObjectVersionExists`, in the second case with the boundary. A refusal leaves the store's contents as before,
    /// except that the put may stand where its answer was lost, where the boundary read after it was at or above 1, or where the
    /// boundary couldn't be read. `moment` is in milliseconds since the Unix epoch.
    pub fn create_new_db<S: ObjectStore>(
        alloc: Global,
        store: &mut S,
        db: DbPath,
        core: ManifestCore,
        moment: Millis,
    ) -> Result<StoredManifest, SlateDBError>
        ensures create { CreatesDb manifest_encoded logs.Manifest db (initial_manifest core) moment
            (S.told store.old) (S.told store.new) result }
        ensures before { HasNoBytes manifest_encoded (initial_manifest core) → S.told store.new ≡ S.told store.old }
        ensures put { OnOk result (FirstStands manifest_encoded logs.Manifest db (initial_manifest core) moment
            (S.told store.old) (S.told store.new)) }
        ensures left { IfErr result (λ e. may_stand e ≡ false
            → SameContents (S.told store.old) (S.told store.new)) }
        ensures stands { OnErr result (SameContents (S.told store.old) (S.told store.new)
            ⊎ FirstStands manifest_encoded logs.Manifest db (initial_manifest core) moment (S.told store.old) (S.told store.new)) }
        ensures fault { FaultOf (S.told store.old) (S.told store.new) result }
    {
        let first = Manifest::initial(alloc, core);
        DbStored::create_first(alloc, store, db, first, moment)
    }

    /// The machine of `create_new_db`. Where the first manifest has no bytes, no call is due in it.
    pub fn start_create_new_db(
        alloc: Global,
        db: DbPath,
        core: ManifestCore,
    ) -> Result<CreateDbMachine, OutOfMemory>
        ensures open { IfOk result (λ machine. create_open machine.create ≡ true) }
        ensures create { IfOk result (λ machine. CreationOf manifest_encoded logs.Manifest db (initial_manifest core)
            machine.create) }
        ensures version { IfOk result (λ machine. IfSome (create_version machine.create)
            (λ version. version ≡ (1, initial_manifest core))) }
    {
        let first = Manifest::initial(alloc, core);
        DbStored::start_first(alloc, db, first)
    }

    /// The manifest held.
    pub fn manifest(&self) -> &Manifest
        ensures { result.now ≡ self.now.object }
    {
        self.held()
    }

    /// What the manifest held says of the database itself.
    pub fn db_state(&self) -> &ManifestCore
        ensures { result.now ≡ self.now.object.core }
    {
        &self.stored.object().core
    }

    // Commits a change at a moment.
    pub(crate) fn commit_change<S: ObjectStore>(
        &mut self,
        alloc: Global,
        store: &mut S,
        change: &ManifestChange,
        moment: Millis,
        tries: u32,
    ) -> Result<(), SlateDBError>
        requires { 0 < tries }
        ensures change { Changed change.now moment tries (S.told store.old) (S.told store.new)
            self.old self.new result }
        ensures fault { FaultOf (S.told store.old) (S.told store.new) result }
    {
        let f = |n: u64, manifest: &Manifest| make(alloc, change, moment, n, manifest);
        self.maybe_apply_update(alloc, store, f, &Right::Plain, moment, tries)
    }
}
