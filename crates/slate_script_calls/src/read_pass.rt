//! The pass that a start of a collector stands for.
ghost use Rattle.serde_json.specs.View.{view};
ghost use Rattle.slate_script_json.specs.Fields.{Gives};
ghost use Rattle.slate_script_calls.specs.ReadCalls.{collector_pass_in};

use serde_json::Value;
use slate_script_events::{Call, FilterWord};
use slate_script_json::{JsonError, defaulted, only, required};
use std::alloc::Global;

// Milliseconds: five minutes.
const DEFAULT_MIN_AGE: u64 = 300_000;

/// A pass with its fields.
#[tactic(auto, unfolding(crate::specs::ReadCalls::collector_pass_in))]
pub(crate) fn read_pass(alloc: Global, d: &Value) -> Result<Call, JsonError>
    ensures { Gives result (collector_pass_in (view d.now)) }
{
    only(
        d,
        &["start", "call", "pass", "min_age", "dry_run", "filter"],
    )?;
    let pass = required(alloc, d, "pass")?;
    let min_age = defaulted(alloc, d, "min_age", DEFAULT_MIN_AGE)?;
    let dry_run = defaulted(alloc, d, "dry_run", false)?;
    let filter = defaulted(alloc, d, "filter", FilterWord::All)?;
    Ok(Call::Pass {
        pass,
        min_age,
        dry_run,
        filter,
    })
}
