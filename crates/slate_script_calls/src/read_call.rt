//! The call that an item with `start` stands for.
ghost use Rattle.std.specs.Prelude.{◌≡◌};
ghost use Rattle.serde_json.specs.View.{view};
ghost use Rattle.slate_script_json.specs.Fields.{Gives};
ghost use Rattle.slate_script_calls.specs.ReadCalls.{write_checkpoint_in, replace_checkpoint_in, refresh_checkpoint_in, delete_checkpoint_in, call_in, name_word};

use crate::parts::read_bare;
use crate::read_compactor_call::{
    read_fail, read_finish, read_schedule, read_write_manifest, read_write_state,
};
use crate::read_pass::read_pass;
use crate::read_worker_call::{read_claim, read_report};
use crate::read_writer_call::{read_flush, read_upload};
use serde_json::Value;
use slate_script_events::Call;
use slate_script_json::{FromJson, JsonError, only, optional, or_malformed, required};
use std::alloc::Global;

/// The name of a call, which decides its fields.
#[derive(Clone, Copy, Debug, Drop, PartialEq, Eq)]
enum CallName {
    OpenWriter,
    Upload,
    Flush,
    OpenCompactor,
    Refresh,
    Schedule,
    Finish,
    Fail,
    WriteManifest,
    WriteRecord,
    WriteState,
    Claim,
    Report,
    WriteCheckpoint,
    ReplaceCheckpoint,
    RefreshCheckpoint,
    DeleteCheckpoint,
    Pass,
}

#[tactic(auto, unfolding(crate::specs::ReadCalls::name_word))]
fn name_of(text: &str) -> Option<CallName>
    ensures { result ≡ name_word text.now }
{
    match text {
        "open_writer" => Some(CallName::OpenWriter),
        "upload" => Some(CallName::Upload),
        "flush" => Some(CallName::Flush),
        "open_compactor" => Some(CallName::OpenCompactor),
        "refresh" => Some(CallName::Refresh),
        "schedule" => Some(CallName::Schedule),
        "finish" => Some(CallName::Finish),
        "fail" => Some(CallName::Fail),
        "write_manifest" => Some(CallName::WriteManifest),
        "write_record" => Some(CallName::WriteRecord),
        "write_state" => Some(CallName::WriteState),
        "claim" => Some(CallName::Claim),
        "report" => Some(CallName::Report),
        "write_checkpoint" => Some(CallName::WriteCheckpoint),
        "replace_checkpoint" => Some(CallName::ReplaceCheckpoint),
        "refresh_checkpoint" => Some(CallName::RefreshCheckpoint),
        "delete_checkpoint" => Some(CallName::DeleteCheckpoint),
        "pass" => Some(CallName::Pass),
        _ => None,
    }
}

impl FromJson for CallName {
    ghost use Rattle.slate_script_calls.specs.ReadCalls.{name_in};

    ghost reads = { name_in };

    fn from_json(_alloc: Global, d: &Value) -> Result<CallName, JsonError> {
        match d.as_str() {
            Some(text) => or_malformed(name_of(text)),
            None => Err(JsonError::Malformed),
        }
    }
}

#[tactic(auto, unfolding(crate::specs::ReadCalls::write_checkpoint_in))]
fn write_checkpoint(alloc: Global, d: &Value) -> Result<Call, JsonError>
    ensures { Gives result (write_checkpoint_in (view d.now)) }
{
    only(d, &["start", "call", "id", "lifetime", "source", "name"])?;
    let id = required(alloc, d, "id")?;
    let lifetime = optional(alloc, d, "lifetime")?;
    let source = optional(alloc, d, "source")?;
    let name = optional(alloc, d, "name")?;
    Ok(Call::WriteCheckpoint {
        id,
        lifetime,
        source,
        name,
    })
}

#[tactic(auto, unfolding(crate::specs::ReadCalls::replace_checkpoint_in))]
fn replace_checkpoint(alloc: Global, d: &Value) -> Result<Call, JsonError>
    ensures { Gives result (replace_checkpoint_in (view d.now)) }
{
    only(
        d,
        &["start", "call", "old", "id", "lifetime", "source", "name"],
    )?;
    let old = required(alloc, d, "old")?;
    let id = required(alloc, d, "id")?;
    let lifetime = optional(alloc, d, "lifetime")?;
    let source = optional(alloc, d, "source")?;
    let name = optional(alloc, d, "name")?;
    Ok(Call::ReplaceCheckpoint {
        old,
        id,
        lifetime,
        source,
        name,
    })
}

#[tactic(auto, unfolding(crate::specs::ReadCalls::refresh_checkpoint_in))]
fn refresh_checkpoint(alloc: Global, d: &Value) -> Result<Call, JsonError>
    ensures { Gives result (refresh_checkpoint_in (view d.now)) }
{
    only(d, &["start", "call", "id", "lifetime"])?;
    let id = required(alloc, d, "id")?;
    let lifetime = optional(alloc, d, "lifetime")?;
    Ok(Call::RefreshCheckpoint { id, lifetime })
}

#[tactic(auto, unfolding(crate::specs::ReadCalls::delete_checkpoint_in))]
fn delete_checkpoint(alloc: Global, d: &Value) -> Result<Call, JsonError>
    ensures { Gives result (delete_checkpoint_in (view d.now)) }
{
    only(d, &["start", "call", "id"])?;
    let id = required(alloc, d, "id")?;
    Ok(Call::DeleteCheckpoint { id })
}

/// The call by its name and its fields.
#[tactic(auto, unfolding(crate::specs::ReadCalls::call_in))]
pub(crate) fn read_call(alloc: Global, d: &Value) -> Result<Call, JsonError>
    ensures { Gives result (call_in (view d.now)) }
{
    match required(alloc, d, "call")? {
        CallName::OpenWriter => read_bare(d, Call::OpenWriter),
        CallName::Upload => read_upload(alloc, d),
        CallName::Flush => read_flush(alloc, d),
        CallName::OpenCompactor => read_bare(d, Call::OpenCompactor),
        CallName::Refresh => read_bare(d, Call::Refresh),
        CallName::Schedule => read_schedule(alloc, d),
        CallName::Finish => read_finish(alloc, d),
        CallName::Fail => read_fail(alloc, d),
        CallName::WriteManifest => read_write_manifest(alloc, d),
        CallName::WriteRecord => read_bare(d, Call::WriteRecord),
        CallName::WriteState => read_write_state(alloc, d),
        CallName::Claim => read_claim(alloc, d),
        CallName::Report => read_report(alloc, d),
        CallName::WriteCheckpoint => write_checkpoint(alloc, d),
        CallName::ReplaceCheckpoint => replace_checkpoint(alloc, d),
        CallName::RefreshCheckpoint => refresh_checkpoint(alloc, d),
        CallName::DeleteCheckpoint => delete_checkpoint(alloc, d),
        CallName::Pass => read_pass(alloc, d),
    }
}
