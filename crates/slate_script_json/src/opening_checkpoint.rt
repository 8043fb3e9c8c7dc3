//! Checkpoints that a database begins with.

use crate::fields::{only, optional, required};
use crate::json_error::JsonError;
use crate::values::FromJson;
use serde_json::Value;
use slate_model::Checkpoint;
use std::alloc::Global;

impl FromJson for Checkpoint {
    ghost use Rattle.slate_script_json.specs.ReadCheckpoints.{checkpoint_in};

    ghost reads = { checkpoint_in };

    #[tactic(auto, unfolding(crate::specs::ReadCheckpoints::checkpoint_in))]
    fn from_json(alloc: Global, d: &Value) -> Result<Checkpoint, JsonError> {
        only(d, &["id", "expire", "name"])?;
        let id = required(alloc, d, "id")?;
        let expire_time = optional(alloc, d, "expire")?;
        let name = optional(alloc, d, "name")?;
        Ok(Checkpoint {
            id,
            manifest_id: 1,
            expire_time,
            create_time: 0,
            name,
        })
    }
}
