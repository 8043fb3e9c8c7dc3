//! Scripts and reports: what bytes stand for, and the lines that are written of a run.
#![tactic(auto)]

mod reading;

pub use reading::read_script;
pub use slate_script_events::{
    Boxed, Call, ClusterCause, DbSpec, Entry, Event, FilterWord, FlushTable, PartyKind, Reply,
    Script, ScriptError, ScriptPlace,
};
pub use slate_script_lines::{
    entry_line, push_cause, push_entries, push_entry, push_left, push_path, push_place,
};
