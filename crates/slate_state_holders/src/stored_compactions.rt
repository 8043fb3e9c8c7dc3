//! A holder of a record of compactions.
ghost use Rattle.std.specs.Prelude.{◌≡◌, ◌⊎◌, IfErr, IfOk, IfSome, OnErr, OnOk, false, true};
ghost use Rattle.slate_state_holders.specs.Holders.{CreatesDb, CreationOf, FirstStands, HasNoBytes};
ghost use Rattle.slate_state_holders.specs.RecordHolders.{empty_record};
ghost use Rattle.slate_state_logs.specs.RecordLog.{bytes_of_record};
ghost use Rattle.slate_txn_log.specs.Due.{FaultOf};
ghost use Rattle.slate_txn_log.specs.declared.log_kind.LogKind.TheVariants as logs;
ghost use Rattle.slate_txn.specs.Creating.{create_open, create_version};
ghost use Rattle.slate_txn.specs.Standing.{may_stand, SameContents};

use crate::db_stored::DbStored;
use crate::db_stored_machines::{
    DbCreateMachine, DbLoadMachine, DbRefreshMachine, DbTryLoadMachine, DbUpdateMachine,
};
use slate_ids::{DbPath, Millis, OutOfMemory, SlateDBError};
use slate_model::Compactions;
use slate_state_logs::Records;
use slate_store::ObjectStore;
use std::alloc::Global;

/// The version of a database's record of compactions that was read or committed last, with its log and its rules.
pub type StoredCompactions = DbStored<Records>;

/// The machine of the creation of a database's log of records.
pub type CreateCompactionsMachine = DbCreateMachine<Records>;

/// The machine of a load of the latest record, which is to be there, in one try.
pub type LoadCompactionsMachine = DbLoadMachine<Records>;

/// The machine of a load of the latest record, where there is one, in one try.
pub type TryLoadCompactionsMachine = DbTryLoadMachine<Records>;

/// The machine of a refresh, in one try.
pub type RefreshCompactionsMachine = DbRefreshMachine<Records>;

/// The machine of a commit of another record, in one try.
pub type UpdateCompactionsMachine = DbUpdateMachine<Records>;

impl StoredCompactions {
    /// Begins the log of a database's records: commits the record of this epoch without compactions as version 1, in one try, and
    /// holds it. Where the log has a version 1, or its boundary is at or above 1, the answer is
    /// `TransactionalObjectVersionExists`, in the second case with the boundary. A refusal leaves the store's contents as before,
    /// except that the put may stand where its answer was lost, where the boundary read after it was at or above 1, or where the
    /// boundary couldn't be read. `moment` is in milliseconds since the Unix epoch.
    pub fn create<S: ObjectStore>(
        alloc: Global,
        store: &mut S,
        db: DbPath,
        compactor_epoch: u64,
        moment: Millis,
    ) -> Result<StoredCompactions, SlateDBError>
        ensures create { CreatesDb bytes_of_record logs.Compactions db (empty_record compactor_epoch) moment
            (S.told store.old) (S.told store.new) result }
        ensures before { HasNoBytes bytes_of_record (empty_record compactor_epoch) → S.told store.new ≡ S.told store.old }
        ensures put { OnOk result (FirstStands bytes_of_record logs.Compactions db (empty_record compactor_epoch) moment
            (S.told store.old) (S.told store.new)) }
        ensures left { IfErr result (λ e. may_stand e ≡ false
            → SameContents (S.told store.old) (S.told store.new)) }
        ensures stands { OnErr result (SameContents (S.told store.old) (S.told store.new)
            ⊎ FirstStands bytes_of_record logs.Compactions db (empty_record compactor_epoch) moment (S.told store.old) (S.told store.new)) }
        ensures fault { FaultOf (S.told store.old) (S.told store.new) result }
    {
        let first = Compactions::new(alloc, compactor_epoch);
        DbStored::create_first(alloc, store, db, first, moment)
    }

    /// The machine of `create`. Where the first record has no bytes, no call is due in it.
    pub fn start_create(
        alloc: Global,
        db: DbPath,
        compactor_epoch: u64,
    ) -> Result<CreateCompactionsMachine, OutOfMemory>
        ensures open { IfOk result (λ machine. create_open machine.create ≡ true) }
        ensures create { IfOk result (λ machine. CreationOf bytes_of_record logs.Compactions db
            (empty_record compactor_epoch) machine.create) }
        ensures version { IfOk result (λ machine. IfSome (create_version machine.create)
            (λ version. version ≡ (1, empty_record compactor_epoch))) }
    {
        let first = Compactions::new(alloc, compactor_epoch);
        DbStored::start_first(alloc, db, first)
    }

    /// The record held.
    pub fn compactions(&self) -> &Compactions
        ensures { result.now ≡ self.now.object }
    {
        self.held()
    }
}
