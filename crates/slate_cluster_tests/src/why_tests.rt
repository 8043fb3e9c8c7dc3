//! The lines of all statuses, where a second look finds nothing.

use slate_cluster::Status;
use slate_run_hints::Why;
use slate_script::{ClusterCause, ScriptPlace};
use std::alloc::Global;
use std::process::Abort;

/// Statuses, and the lines that say so.
const LINES: &[(Status, &str)] = &[
    (
        Status::BadWords,
        "slate: no such command; slate --help lists them",
    ),
    (
        Status::ReadFault,
        "slate: a read of standard input failed; nothing was done",
    ),
    (
        Status::WriteFault,
        "slate: a write to standard output failed; the report there is not whole",
    ),
    (
        Status::TooLong,
        "slate: the input has more than 64 MiB; slate run --help says what a script has",
    ),
    (
        Status::BadEvent(12),
        "slate: the event at place 12 is bad, and those before it were done; see docs/FORMAT.md, \"Script\"",
    ),
    (
        Status::OutOfMemory,
        "slate: memory ran out; nothing was written",
    ),
    (
        Status::BadScript(ScriptPlace::Json),
        "slate: no script: the input is no JSON; slate run --help and docs/FORMAT.md say what one has",
    ),
    (
        Status::BadScript(ScriptPlace::Database(3)),
        "slate: no script: item 3 of databases, counted from 0, is no database; slate run --help and docs/FORMAT.md say what one has",
    ),
    (
        Status::BadScript(ScriptPlace::Event(7)),
        "slate: no script: the event at place 7, counted from 0 with times written out, is none; slate run --help and docs/FORMAT.md say what one has",
    ),
    (
        Status::BadScript(ScriptPlace::Event(1_000_000)),
        "slate: no script: there are more than 1000000 events, or the one at place 1000000 is none; slate run --help and docs/FORMAT.md say what one has",
    ),
    (
        Status::BadCluster(ClusterCause::Path),
        "slate: databases refused: two databases have one path; see docs/FORMAT.md, \"Report\"",
    ),
    (
        Status::BadCluster(ClusterCause::Epoch),
        "slate: databases refused: the epoch of a record is above the compactor epoch of its manifest; see docs/FORMAT.md, \"Report\"",
    ),
    (
        Status::BadCluster(ClusterCause::Outputs),
        "slate: databases refused: an output of a compaction is older than the compaction, or is not there; see docs/FORMAT.md, \"Report\"",
    ),
    (
        Status::BadCluster(ClusterCause::Checkpoints),
        "slate: databases refused: a checkpoint names another version than the first; see docs/FORMAT.md, \"Report\"",
    ),
];

// The table as a slice: a function that names a table has all of it written out.
fn lines() -> &'static [(Status, &'static str)] {
    LINES
}

// Whether this is the line of a status.
fn says(rt: &impl Abort, alloc: Global, status: Status, line: &str) -> bool {
    let why = Why {
        status,
        hint: None,
        spot: None,
    };
    let said = format!(in alloc; "{why}").expect(rt, "memory");
    drop(why);
    let same = said.as_str() == line;
    drop(said);
    same
}

#[test]
fn lines_of_statuses(rt: HostRuntime) {
    for (status, line) in lines() {
        assert!(rt; says(&rt, rt.alloc(), *status, line), "at {line}");
    }
}
