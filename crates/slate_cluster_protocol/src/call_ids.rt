//! The ids that a call carries.

use slate_ids::{CheckpointId, Listed, Ulid};

/// The ids that a call carries, in two pools: those of checkpoints, and those of tables, views and compactions. Of each, those that it brings
/// anew, and the others that it names.
#[derive(Drop)]
pub struct CallIds {
    pub fresh_checkpoints: Listed<CheckpointId>,
    pub named_checkpoints: Listed<CheckpointId>,
    pub fresh_ulids: Listed<Ulid>,
    pub named_ulids: Listed<Ulid>,
}
