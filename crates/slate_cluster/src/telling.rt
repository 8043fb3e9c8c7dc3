//! A run that is told as it goes, and keeps no trail.
ghost use Rattle.std.specs.Prelude.{◌≡◌, ◌++◌, List, IfOk, OnOk, string_bytes};
ghost use Rattle.slate_script_events.specs.declared.db_spec.DbSpec.{DbSpec as Database};
ghost use Rattle.slate_script_lines.specs.Lines.{end_line, entry_text};
ghost use Rattle.slate_cluster_protocol.specs.Runs.{run};
ghost use Rattle.slate_cluster_protocol.specs.Reports.{report_text, state_text};
ghost use Rattle.slate_cluster.specs.Told.{from_state, BeginsState, Tells};

use slate_cluster_opening::{NewError, opened};
use slate_cluster_parties::ClusterState;
use slate_cluster_reports::push_rest;
use slate_ids::{Listed, OutOfMemory};
use slate_script_events::{DbSpec, Entry, Event};
use slate_script_lines::push_entry;
use std::alloc::Global;

/// The report of a run, and the place of its first bad event.
#[derive(Drop)]
pub(crate) struct ToldRun {
    pub text: String,
    pub bad: Option<u64>,
}

/// The state as a run of these databases begins, or the first cause that refuses them. The databases are let go.
pub(crate) fn begun(alloc: Global, databases: Listed<DbSpec>) -> Result<ClusterState, NewError>
    ensures { BeginsState databases result }
{
    let opening = opened(alloc, databases.as_slice());
    drop(databases);
    Ok(ClusterState::of(alloc, opening?))
}

// Adds the line of an entry, and lets the entry go.
fn push_line(text: &mut String, place: u64, entry: Entry) -> Result<(), OutOfMemory>
    ensures { OnOk result (string_bytes text.new ≡ string_bytes text.old ++ entry_text place entry) }
{
    let pushed = push_entry(text, place, &entry);
    drop(entry);
    pushed?;
    Ok(())
}

// Adds what stands below the lines of the events.
fn push_end_of(
    alloc: Global,
    text: &mut String,
    state: &ClusterState,
    bad: Option<u64>,
) -> Result<(), OutOfMemory>
    ensures { OnOk result (string_bytes text.new ≡ string_bytes text.old ++ state_text state.now ++ end_line bad) }
{
    push_rest(
        alloc,
        text,
        state.tallies(),
        state.deleted(),
        state.store(),
        bad,
    )
}

// Does the events in order, up to the first bad one, whose place it answers. Each entry becomes its line as soon as it stands, and is
// let go.
fn tell(
    alloc: Global,
    state: &mut ClusterState,
    events: &[Event],
    text: &mut String,
) -> Result<Option<u64>, OutOfMemory>
    ensures { (specs : List Database) → IfOk result (λ bad. Tells (run events.now 0 (from_state specs state.old))
        bad state.new (string_bytes text.old) (string_bytes text.new)) }
{
    for (i, event) in events.iter().enumerate() {
        let place = i as u64;
        match state.event(alloc, event)? {
            None => return Ok(Some(place)),
            Some(entry) => push_line(text, place, entry)?,
        }
    }
    Ok(None)
}

// The report of the events, which the state does.
fn tell_at(
    alloc: Global,
    state: &mut ClusterState,
    events: &[Event],
) -> Result<ToldRun, OutOfMemory>
    ensures text { (specs : List Database) → IfOk result (λ t. string_bytes t.text
        ≡ report_text (run events.now 0 (from_state specs state.old))) }
    ensures bad { (specs : List Database) → IfOk result (λ t. t.bad ≡ (run events.now 0 (from_state specs state.old)).bad) }
{
    let mut text = String::new(alloc);
    let bad = tell(alloc, state, events, &mut text)?;
    push_end_of(alloc, &mut text, state, bad)?;
    Ok(ToldRun { text, bad })
}

/// The report of the events, from this state on. The state is let go.
pub(crate) fn tell_run(
    alloc: Global,
    state: ClusterState,
    events: &[Event],
) -> Result<ToldRun, OutOfMemory>
    ensures text { (specs : List Database) → IfOk result (λ t. string_bytes t.text
        ≡ report_text (run events.now 0 (from_state specs state))) }
    ensures bad { (specs : List Database) → IfOk result (λ t. t.bad ≡ (run events.now 0 (from_state specs state)).bad) }
{
    let mut state = state;
    let told = tell_at(alloc, &mut state, events);
    drop(state);
    told
}
