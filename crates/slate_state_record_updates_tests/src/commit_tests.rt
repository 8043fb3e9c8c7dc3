//! Commits of changes of a record: fence, change, rules and bytes, in this order.

use crate::test_changes::{HELD, Held, Put, change, record_of};
use crate::test_records::Made;
use slate_ids::SlateDBError;
use slate_layout::CompactionsCodec;
use slate_model::{CompactionStatus, Compactions};
use slate_state_record_updates::CompactionsRules;
use slate_txn_changes::commit_change;
use slate_txn_log::CommitPhase;
use std::alloc::Global;
use std::process::Abort;

/// Two compactions that are over and one that runs.
const OVER: &[Held] = &[
    (1, CompactionStatus::Completed, None),
    (4, CompactionStatus::Compacted, None),
    (6, CompactionStatus::Completed, None),
];

/// A change of the record of epoch 2, and its commit after version 7: 0 where version 8 is put, 98 where nothing is, and else the
/// number of the refusal.
const COMMITS: &[(&[Held], Put, u8)] = &[
    (HELD, Put::Epoch(2), 0),
    (HELD, Put::Epoch(3), 0),
    (HELD, Put::Epoch(1), 2),
    (HELD, Put::Reset(3), 0),
    (&[], Put::Reset(3), 0),
    (HELD, Put::Schedule(Some(2), 1), 0),
    (HELD, Put::Schedule(None, 8), 8),
    (HELD, Put::Schedule(Some(1), 8), 2),
    (HELD, Put::Schedule(Some(2), 8), 8),
    (HELD, Put::Claim(2, 7), 0),
    (HELD, Put::Report(3, 7, &[Made::Table((100, 1))]), 0),
    (HELD, Put::Report(3, 7, &[Made::Table((99, 1))]), 6),
    (
        HELD,
        Put::Report(3, 7, &[Made::File(1), Made::Table((99, 1))]),
        6,
    ),
    (HELD, Put::Report(3, 7, &[Made::File(1)]), 14),
    (HELD, Put::Submit((100, 0)), 0),
    (HELD, Put::Submit((99, 9)), 6),
    (HELD, Put::Submit((100, 1)), 98),
    (OVER, Put::Statuses(Some(2), &[]), 0),
    (OVER, Put::Statuses(Some(2), &[(100, 4)]), 0),
];

// The table as a slice: a function that names a table has all of it written out.
fn commits() -> &'static [(&'static [Held], Put, u8)] {
    COMMITS
}

/// Whether a commit puts version 8.
fn puts_eight(commit: &Option<CommitPhase<Compactions>>) -> u8 {
    match commit {
        None => 98,
        Some(CommitPhase::Putting(8, _, _)) => 0,
        Some(_) => 99,
    }
}

fn told(commit: &Result<Option<CommitPhase<Compactions>>, SlateDBError>) -> u8 {
    match commit {
        Ok(commit) => puts_eight(commit),
        Err(e) => e.code(),
    }
}

/// The commit of a change after version `n`.
fn committed(rt: &impl Abort, alloc: Global, all: &[Held], put: Put, n: u64) -> u8 {
    let compactions = record_of(rt, alloc, 2, all);
    let change = change(rt, alloc, put);
    let commit = commit_change(
        alloc,
        &change,
        &CompactionsCodec,
        &CompactionsRules,
        50,
        n,
        &compactions,
    );
    drop(change);
    drop(compactions);
    let code = told(&commit);
    drop(commit);
    code
}

#[test]
fn changes_are_committed(rt: HostRuntime) {
    for (row, (all, put, wanted)) in commits().iter().enumerate() {
        assert!(rt;
            committed(&rt, rt.alloc(), *all, *put, 7) == *wanted,
            "at row {row}"
        );
    }
}

#[test]
fn nothing_follows_the_last_version(rt: HostRuntime) {
    assert!(rt; committed(&rt, rt.alloc(), HELD, Put::Epoch(2), u64::MAX) == 22);
}
