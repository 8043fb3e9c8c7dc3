//! What calls of several kinds of parties have in common.
ghost use Rattle.serde_json.specs.View.{view};
ghost use Rattle.slate_script_json.specs.Fields.{Gives};
ghost use Rattle.slate_script_calls.specs.ReadCalls.{bare_in, compaction_in};

use serde_json::Value;
use slate_ids::Ulid;
use slate_script_events::Call;
use slate_script_json::{JsonError, only, required};
use std::alloc::Global;

/// A call with no field of its own.
#[tactic(auto, unfolding(crate::specs::ReadCalls::bare_in))]
pub(crate) fn read_bare(d: &Value, call: Call) -> Result<Call, JsonError>
    ensures { Gives result (bare_in call (view d.now)) }
{
    only(d, &["start", "call"])?;
    Ok(call)
}

/// The compaction of a call with no other field of its own.
#[tactic(auto, unfolding(crate::specs::ReadCalls::compaction_in))]
pub(crate) fn read_compaction(alloc: Global, d: &Value) -> Result<Ulid, JsonError>
    ensures { Gives result (compaction_in (view d.now)) }
{
    only(d, &["start", "call", "id"])?;
    required(alloc, d, "id")
}
