//! The stores of the versions of both logs of a database, over any log.
#![tactic(auto)]

mod compactions_store;
mod db_store;
mod db_store_machines;
mod manifest_store;

pub use compactions_store::{
    AdvanceCompactionsBoundaryMachine, CompactionsStore, DeleteCompactionsMachine,
    DeleteCompactionsUncheckedMachine, LatestCompactionsMachine, ListCompactionsMachine,
    ReadCompactionsMachine, TryLatestCompactionsMachine, TryReadCompactionsMachine,
};
pub use db_store::DbStore;
pub use db_store_machines::{
    DbAdvanceMachine, DbDeleteMachine, DbDeleteUncheckedMachine, DbLatestMachine, DbListMachine,
    DbReadMachine, DbTryLatestMachine, DbTryReadMachine,
};
pub use manifest_store::{
    AdvanceBoundaryMachine, DeleteManifestMachine, DeleteUncheckedMachine, LatestManifestMachine,
    ListManifestsMachine, ManifestStore, ReadManifestMachine, ReferencedManifestsMachine,
    TryLatestManifestMachine, TryReadManifestMachine,
};
pub use slate_state_referenced::{ManifestMap, NumberQueue, ReferencedPhase};
