//! A fenced holder of a record of compactions.
ghost use Rattle.std.specs.Prelude.{◌≡◌, ◌<◌, IfOk, true};
ghost use Rattle.slate_state_holders.specs.RecordHolders.{FencesLog, FencesLogAt, RaiseOf, SetOf};
ghost use Rattle.slate_txn_log.specs.Due.{FaultOf};
ghost use Rattle.slate_txn.specs.Fence.{FencedBelow};
ghost use Rattle.slate_txn.specs.Initing.{init_open};

use crate::db_fenced::DbFenced;
use crate::db_fenced_machines::{DbFencedRefreshMachine, DbFencedUpdateMachine, DbInitMachine};
use crate::stored_compactions::StoredCompactions;
use slate_ids::{Millis, OutOfMemory, SlateDBError};
use slate_model::Compactions;
use slate_state_logs::Records;
use slate_state_record_updates::RecordEpochs;
use slate_store::ObjectStore;
use std::alloc::Global;

/// A holder of a database's record of compactions that committed an epoch, which fences older holders.
pub type FenceableCompactions = DbFenced<Records>;

/// The machine of one try of a fence. It owns the holder until it ends.
pub type InitCompactionsMachine = DbInitMachine<Records>;

/// The machine of a refresh, in one try.
pub type FencedRefreshCompactionsMachine = DbFencedRefreshMachine<Records>;

/// The machine of a commit of another record, in one try.
pub type FencedUpdateCompactionsMachine = DbFencedUpdateMachine<Records>;

impl FenceableCompactions {
    /// Commits the record held with its epoch plus one, which fences older holders. After a conflict it reads the latest version and
    /// raises that: so often as there are tries, then `Contended`. `Exhausted` at the last epoch. A refusal drops the holder. `moment`
    /// is in milliseconds since the Unix epoch.
    pub fn init<S: ObjectStore>(
        alloc: Global,
        stored: StoredCompactions,
        store: &mut S,
        moment: Millis,
        tries: u32,
    ) -> Result<FenceableCompactions, SlateDBError>
        requires { 0 < tries }
        ensures fenced { FencesLog moment tries (S.told store.old) (S.told store.new) stored result }
        ensures fault { FaultOf (S.told store.old) (S.told store.new) result }
    {
        DbFenced::fence(alloc, stored, RecordEpochs, store, moment, tries)
    }

    /// Commits the record held with this epoch, which fences holders of lesser ones. Refused with `Fenced` where the record held, or one
    /// that is read after a conflict, has a greater epoch; then nothing is committed. After a conflict it reads the latest version and
    /// gives that this epoch: so often as there are tries, then `Contended`. A refusal drops the holder. `moment` is in milliseconds
    /// since the Unix epoch.
    pub fn init_with_epoch<S: ObjectStore>(
        alloc: Global,
        stored: StoredCompactions,
        epoch: u64,
        store: &mut S,
        moment: Millis,
        tries: u32,
    ) -> Result<FenceableCompactions, SlateDBError>
        requires { 0 < tries }
        ensures set { FencesLogAt epoch moment tries (S.told store.old) (S.told store.new) stored result }
        ensures own { IfOk result (λ fenced. fenced.epoch ≡ epoch) }
        ensures fenced { FencedBelow epoch result }
        ensures fault { FaultOf (S.told store.old) (S.told store.new) result }
    {
        DbFenced::fence_at(alloc, stored, RecordEpochs, epoch, store, moment, tries)
    }

    /// The machine of one try of `init`. Where the raise is refused before its first call, no call is due in it.
    pub fn start_init(
        alloc: Global,
        stored: StoredCompactions,
    ) -> Result<InitCompactionsMachine, OutOfMemory>
        ensures open { IfOk result (λ machine. init_open machine.init ≡ true) }
        ensures init { IfOk result (λ machine. RaiseOf stored machine.init) }
    {
        Ok(DbFenced::start_fence(alloc, stored, RecordEpochs)?)
    }

    /// The machine of one try of `init_with_epoch`. Where the epoch of the record held is greater, or the commit is refused before its
    /// first call, no call is due in it.
    pub fn start_init_with_epoch(
        alloc: Global,
        stored: StoredCompactions,
        epoch: u64,
    ) -> Result<InitCompactionsMachine, OutOfMemory>
        ensures open { IfOk result (λ machine. init_open machine.init ≡ true) }
        ensures init { IfOk result (λ machine. SetOf epoch stored machine.init) }
    {
        Ok(DbFenced::start_fence_at(alloc, stored, RecordEpochs, epoch)?)
    }

    /// The number and the record held.
    pub fn compactions(&self) -> (u64, &Compactions)
        ensures number { result.0 ≡ self.now.holder.id }
        ensures value { result.1.now ≡ self.now.holder.object }
    {
        (self.number(), self.held())
    }
}
