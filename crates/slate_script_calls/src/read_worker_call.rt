//! The call that a start of a worker stands for.
ghost use Rattle.serde_json.specs.View.{view};
ghost use Rattle.slate_script_json.specs.Fields.{Gives};
ghost use Rattle.slate_script_calls.specs.ReadCalls.{claim_in, report_in};

use crate::parts::read_compaction;
use serde_json::Value;
use slate_script_events::Call;
use slate_script_json::{JsonError, only, required};
use std::alloc::Global;

/// The claim of a compaction.
#[tactic(auto, unfolding(crate::specs::ReadCalls::claim_in))]
pub(crate) fn read_claim(alloc: Global, d: &Value) -> Result<Call, JsonError>
    ensures { Gives result (claim_in (view d.now)) }
{
    let id = read_compaction(alloc, d)?;
    Ok(Call::Claim { id })
}

/// The report of a compaction with its outputs.
#[tactic(auto, unfolding(crate::specs::ReadCalls::report_in))]
pub(crate) fn read_report(alloc: Global, d: &Value) -> Result<Call, JsonError>
    ensures { Gives result (report_in (view d.now)) }
{
    only(d, &["start", "call", "id", "tables"])?;
    let id = required(alloc, d, "id")?;
    let tables = required(alloc, d, "tables")?;
    Ok(Call::Report { id, tables })
}
