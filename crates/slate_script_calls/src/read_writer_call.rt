//! The call that a start of a writer stands for.
ghost use Rattle.serde_json.specs.View.{view};
ghost use Rattle.slate_script_json.specs.Fields.{Gives};
ghost use Rattle.slate_script_calls.specs.ReadCalls.{upload_in, flush_in};

use bytes::Bytes;
use serde_json::Value;
use slate_script_events::Call;
use slate_script_json::{JsonError, defaulted, only, required};
use std::alloc::Global;

/// An upload with its table and the table's keys.
#[tactic(auto, unfolding(crate::specs::ReadCalls::upload_in))]
pub(crate) fn read_upload(alloc: Global, d: &Value) -> Result<Call, JsonError>
    ensures { Gives result (upload_in (view d.now)) }
{
    only(d, &["start", "call", "table", "first", "last"])?;
    let table = required(alloc, d, "table")?;
    let first = defaulted(alloc, d, "first", Bytes::from_static(b"a"))?;
    let last = defaulted(alloc, d, "last", Bytes::from_static(b"z"))?;
    Ok(Call::Upload { table, first, last })
}

/// A flush with its tables and numbers.
#[tactic(auto, unfolding(crate::specs::ReadCalls::flush_in))]
pub(crate) fn read_flush(alloc: Global, d: &Value) -> Result<Call, JsonError>
    ensures { Gives result (flush_in (view d.now)) }
{
    only(
        d,
        &[
            "start",
            "call",
            "tables",
            "replay_after",
            "next_wal",
            "seq",
            "tick",
        ],
    )?;
    let tables = required(alloc, d, "tables")?;
    let replay_after = defaulted(alloc, d, "replay_after", 0)?;
    let next_wal = defaulted(alloc, d, "next_wal", 1)?;
    let seq = defaulted(alloc, d, "seq", 0)?;
    let tick = defaulted(alloc, d, "tick", 0)?;
    Ok(Call::Flush {
        tables,
        replay_after,
        next_wal,
        seq,
        tick,
    })
}
