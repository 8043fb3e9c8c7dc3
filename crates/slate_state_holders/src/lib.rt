//! Holders of the versions of both logs of a database, over any log, with the checkpoint calls of those of manifests.
#![tactic(auto)]

mod changes;
mod db_fenced;
mod db_fenced_machines;
mod db_stored;
mod db_stored_machines;
mod fenceable_checkpoint_machines;
mod fenceable_checkpoints;
mod fenceable_compactions;
mod fenceable_manifest;
mod foreseen;
mod laws;
mod stored_checkpoint_machines;
mod stored_checkpoints;
mod stored_compactions;
mod stored_manifest;

pub use db_fenced::DbFenced;
pub use db_fenced_machines::{DbFencedRefreshMachine, DbFencedUpdateMachine, DbInitMachine};
pub use db_stored::DbStored;
pub use db_stored_machines::{
    DbCreateMachine, DbLoadMachine, DbRefreshMachine, DbTryLoadMachine, DbUpdateMachine,
};
pub use fenceable_checkpoint_machines::{FencedCheckpointMachine, FencedDeleteCheckpointMachine};
pub use fenceable_compactions::{
    FenceableCompactions, FencedRefreshCompactionsMachine, FencedUpdateCompactionsMachine,
    InitCompactionsMachine,
};
pub use fenceable_manifest::{
    FenceableManifest, FencedRefreshManifestMachine, FencedUpdateManifestMachine,
    InitManifestMachine,
};
pub use laws::{checkpoint_stands_in_new, checkpoint_stands_in_old};
pub use stored_checkpoint_machines::{CheckpointMachine, DeleteCheckpointMachine};
pub use stored_compactions::{
    CreateCompactionsMachine, LoadCompactionsMachine, RefreshCompactionsMachine, StoredCompactions,
    TryLoadCompactionsMachine, UpdateCompactionsMachine,
};
pub use stored_manifest::{
    CreateDbMachine, LoadManifestMachine, RefreshManifestMachine, StoredManifest,
    TryLoadManifestMachine, UpdateManifestMachine,
};
