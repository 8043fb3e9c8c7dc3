//! The call that a start of a compactor stands for.
ghost use Rattle.serde_json.specs.View.{view};
ghost use Rattle.slate_script_json.specs.Fields.{Gives};
ghost use Rattle.slate_script_calls.specs.ReadCalls.{schedule_in, finish_in, fail_in, checkpoint_in, write_manifest_in, write_state_in};

use crate::parts::read_compaction;
use serde_json::Value;
use slate_ids::CheckpointId;
use slate_script_events::Call;
use slate_script_json::{JsonError, only, required};
use std::alloc::Global;

/// A compaction that is Submitted becomes Scheduled.
#[tactic(auto, unfolding(crate::specs::ReadCalls::schedule_in))]
pub(crate) fn read_schedule(alloc: Global, d: &Value) -> Result<Call, JsonError>
    ensures { Gives result (schedule_in (view d.now)) }
{
    let id = read_compaction(alloc, d)?;
    Ok(Call::Schedule { id })
}

/// A compaction that is Compacted becomes Completed.
#[tactic(auto, unfolding(crate::specs::ReadCalls::finish_in))]
pub(crate) fn read_finish(alloc: Global, d: &Value) -> Result<Call, JsonError>
    ensures { Gives result (finish_in (view d.now)) }
{
    let id = read_compaction(alloc, d)?;
    Ok(Call::Finish { id })
}

/// A compaction becomes Failed.
#[tactic(auto, unfolding(crate::specs::ReadCalls::fail_in))]
pub(crate) fn read_fail(alloc: Global, d: &Value) -> Result<Call, JsonError>
    ensures { Gives result (fail_in (view d.now)) }
{
    let id = read_compaction(alloc, d)?;
    Ok(Call::Fail { id })
}

// The checkpoint of a call with no other field of its own.
#[tactic(auto, unfolding(crate::specs::ReadCalls::checkpoint_in))]
fn read_checkpoint(alloc: Global, d: &Value) -> Result<CheckpointId, JsonError>
    ensures { Gives result (checkpoint_in (view d.now)) }
{
    only(d, &["start", "call", "checkpoint"])?;
    required(alloc, d, "checkpoint")
}

/// The trees are written into the manifest, under a new checkpoint.
#[tactic(auto, unfolding(crate::specs::ReadCalls::write_manifest_in))]
pub(crate) fn read_write_manifest(alloc: Global, d: &Value) -> Result<Call, JsonError>
    ensures { Gives result (write_manifest_in (view d.now)) }
{
    let checkpoint = read_checkpoint(alloc, d)?;
    Ok(Call::WriteManifest { checkpoint })
}

/// The manifest and then the record are written.
#[tactic(auto, unfolding(crate::specs::ReadCalls::write_state_in))]
pub(crate) fn read_write_state(alloc: Global, d: &Value) -> Result<Call, JsonError>
    ensures { Gives result (write_state_in (view d.now)) }
{
    let checkpoint = read_checkpoint(alloc, d)?;
    Ok(Call::WriteState { checkpoint })
}
