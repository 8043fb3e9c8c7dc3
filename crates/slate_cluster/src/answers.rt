//! The text that is written for an input, and the status that goes with it.
ghost use Rattle.std.specs.Prelude.{◌≡◌, List, Ok, IfOk, string_bytes};
ghost use Rattle.slate_script_events.specs.declared.db_spec.DbSpec.{DbSpec as Database};
ghost use Rattle.slate_script.specs.Scripts.{script_of};
ghost use Rattle.slate_cluster_protocol.specs.Runs.{run};
ghost use Rattle.slate_cluster_protocol.specs.Reports.{report_text};
ghost use Rattle.slate_cluster.specs.Told.{from_state};
ghost use Rattle.slate_cluster_reports.specs.Endings.{text_for, run_status, status_for, IsLawfulRun};

use crate::telling::{ToldRun, begun, tell_run};
use slate_cluster_every_run::lawful;
use slate_cluster_opening::NewError;
use slate_cluster_parties::ClusterState;
use slate_cluster_reports::{Status, bad_cluster, bad_script};
use slate_ids::OutOfMemory;
use slate_script::read_script;
use slate_script_events::{Event, Script, ScriptError};
use std::alloc::Global;

/// The text that is written, and the status where no write fails.
#[derive(Drop)]
pub(crate) struct Output {
    pub text: String,
    pub status: Status,
}

fn status_of(bad: Option<u64>) -> Status
    ensures { result ≡ run_status bad }
{
    match bad {
        None => Status::Ok,
        Some(place) => Status::BadEvent(place),
    }
}

// What is written for the events, from this state on.
fn answer_run(alloc: Global, state: ClusterState, events: &[Event]) -> Result<Output, OutOfMemory>
    ensures text { (specs : List Database) → IfOk result (λ a. string_bytes a.text
        ≡ report_text (run events.now 0 (from_state specs state))) }
    ensures status { (specs : List Database) → IfOk result (λ a. a.status
        ≡ run_status (run events.now 0 (from_state specs state)).bad) }
{
    let ToldRun { text, bad } = tell_run(alloc, state, events)?;
    Ok(Output {
        text,
        status: status_of(bad),
    })
}

// What is written for a script. Its databases are let go before its first event.
fn answer_script(alloc: Global, script: Script) -> Result<Output, OutOfMemory>
    ensures text { IfOk result (λ a. string_bytes a.text ≡ text_for (Ok script)) }
    ensures status { IfOk result (λ a. a.status ≡ status_for (Ok script)) }
    ensures lawful { IfOk result (λ _. IsLawfulRun (Ok script)) }
{
    lawful();
    let Script { databases, events } = script;
    match begun(alloc, databases) {
        Ok(state) => {
            let output = answer_run(alloc, state, events.as_slice());
            drop(events);
            output
        }
        Err(NewError::BadCluster(cause)) => {
            drop(events);
            Ok(Output {
                text: bad_cluster(alloc, cause)?,
                status: Status::BadCluster(cause),
            })
        }
        Err(NewError::OutOfMemory) => {
            drop(events);
            Err(OutOfMemory)
        }
    }
}

/// What is written for an input. It is made whole in memory, and the run is done by then.
pub(crate) fn answer(alloc: Global, bytes: &[u8]) -> Result<Output, OutOfMemory>
    ensures text { IfOk result (λ a. string_bytes a.text ≡ text_for (script_of bytes.now)) }
    ensures status { IfOk result (λ a. a.status ≡ status_for (script_of bytes.now)) }
    ensures lawful { IfOk result (λ _. IsLawfulRun (script_of bytes.now)) }
{
    match read_script(alloc, bytes) {
        Ok(script) => answer_script(alloc, script),
        Err(ScriptError::BadScript(place)) => Ok(Output {
            text: bad_script(alloc, place)?,
            status: Status::BadScript(place),
        }),
        Err(ScriptError::OutOfMemory) => Err(OutOfMemory),
    }
}
