//! What each change makes of a record, and where it is refused.

use crate::test_changes::{HELD, Put, change, record_of};
use crate::test_records::{Made, id};
use slate_ids::{SlateDBError, StateCause};
use slate_model::{Compaction, CompactionStatus, Compactions};
use slate_state_record_updates::{first_record, raise_record};
use slate_txn_changes::Change;
use slate_txn_log::Right;
use std::alloc::Global;
use std::process::Abort;

/// What a change answers.
#[derive(Clone, Copy, PartialEq, Eq)]
enum Answer {
    Made,
    Nothing,
    /// The compaction of this tail isn't there.
    NoSuch(u128),
    /// It has another state.
    State(u128),
    Other,
}

const TABLE: &[Made] = &[Made::Table((100, 7)), Made::Table((101, 1))];

/// Changes of the record that has a compaction in each state.
const TOLD: &[(Put, Answer)] = &[
    (Put::Epoch(9), Answer::Made),
    (Put::Reset(9), Answer::Made),
    (Put::Schedule(None, 1), Answer::Made),
    (Put::Schedule(None, 2), Answer::State(2)),
    (Put::Schedule(None, 3), Answer::State(3)),
    (Put::Schedule(None, 4), Answer::State(4)),
    (Put::Schedule(None, 5), Answer::State(5)),
    (Put::Schedule(None, 6), Answer::State(6)),
    (Put::Schedule(None, 8), Answer::NoSuch(8)),
    (Put::Claim(1, 7), Answer::State(1)),
    (Put::Claim(2, 7), Answer::Made),
    (Put::Claim(3, 7), Answer::State(3)),
    (Put::Claim(4, 7), Answer::State(4)),
    (Put::Claim(5, 7), Answer::State(5)),
    (Put::Claim(6, 7), Answer::State(6)),
    (Put::Claim(7, 7), Answer::Made),
    (Put::Claim(8, 7), Answer::NoSuch(8)),
    (Put::Report(1, 7, TABLE), Answer::State(1)),
    (Put::Report(2, 9, TABLE), Answer::State(2)),
    (Put::Report(3, 7, TABLE), Answer::Made),
    (Put::Report(3, 77, TABLE), Answer::State(3)),
    (Put::Report(4, 7, TABLE), Answer::State(4)),
    (Put::Report(5, 7, TABLE), Answer::State(5)),
    (Put::Report(8, 7, TABLE), Answer::NoSuch(8)),
    (Put::Report(9, 0, TABLE), Answer::State(9)),
    (Put::Statuses(None, &[]), Answer::Made),
    (Put::Submit((100, 1)), Answer::Nothing),
    (Put::Submit((100, 8)), Answer::Made),
];

// The table as a slice: a function that names a table has all of it written out.
fn told_rows() -> &'static [(Put, Answer)] {
    TOLD
}

/// A compaction: its status, its worker's number below ten and heartbeat, where it has a worker, and how many outputs it has.
type Shown = (CompactionStatus, Option<(char, u64)>, usize);

/// A change at a moment, and one compaction after it, where it is there.
const SEEN: &[(Put, i64, u8, Option<Shown>)] = &[
    (
        Put::Epoch(9),
        50,
        2,
        Some((CompactionStatus::Scheduled, Some(('9', 8)), 0)),
    ),
    (
        Put::Epoch(9),
        50,
        5,
        Some((CompactionStatus::Completed, None, 0)),
    ),
    (
        Put::Reset(9),
        50,
        1,
        Some((CompactionStatus::Submitted, None, 0)),
    ),
    (
        Put::Reset(9),
        50,
        2,
        Some((CompactionStatus::Submitted, None, 0)),
    ),
    (
        Put::Reset(9),
        50,
        3,
        Some((CompactionStatus::Running, Some(('7', 8)), 0)),
    ),
    (
        Put::Reset(9),
        50,
        4,
        Some((CompactionStatus::Compacted, Some(('7', 8)), 0)),
    ),
    (Put::Reset(9), 50, 5, None),
    (
        Put::Reset(9),
        50,
        6,
        Some((CompactionStatus::Failed, None, 0)),
    ),
    (
        Put::Reset(9),
        50,
        7,
        Some((CompactionStatus::Submitted, None, 0)),
    ),
    (
        Put::Schedule(None, 1),
        50,
        1,
        Some((CompactionStatus::Scheduled, None, 0)),
    ),
    (
        Put::Schedule(None, 1),
        50,
        5,
        Some((CompactionStatus::Completed, None, 0)),
    ),
    (
        Put::Claim(2, 7),
        50,
        2,
        Some((CompactionStatus::Running, Some(('7', 50)), 0)),
    ),
    (
        Put::Claim(7, 4),
        0,
        7,
        Some((CompactionStatus::Running, Some(('4', 0)), 0)),
    ),
    (
        Put::Claim(7, 4),
        -1,
        7,
        Some((CompactionStatus::Running, Some(('4', 0)), 0)),
    ),
    (
        Put::Claim(7, 4),
        50,
        2,
        Some((CompactionStatus::Scheduled, Some(('9', 8)), 0)),
    ),
    (
        Put::Report(3, 7, TABLE),
        50,
        3,
        Some((CompactionStatus::Compacted, Some(('7', 8)), 2)),
    ),
    (
        Put::Report(3, 7, TABLE),
        50,
        4,
        Some((CompactionStatus::Compacted, Some(('7', 8)), 0)),
    ),
    (
        Put::Statuses(None, &[]),
        50,
        1,
        Some((CompactionStatus::Submitted, None, 0)),
    ),
    (
        Put::Statuses(None, &[]),
        50,
        2,
        Some((CompactionStatus::Scheduled, Some(('9', 8)), 0)),
    ),
    (Put::Statuses(None, &[]), 50, 3, None),
    (Put::Statuses(None, &[]), 50, 4, None),
    (Put::Statuses(None, &[]), 50, 5, None),
    (
        Put::Statuses(None, &[]),
        50,
        6,
        Some((CompactionStatus::Completed, None, 0)),
    ),
    (Put::Statuses(None, &[]), 50, 8, None),
    (Put::Statuses(None, &[(100, 4)]), 50, 3, None),
    (
        Put::Statuses(None, &[(100, 4)]),
        50,
        4,
        Some((CompactionStatus::Completed, Some(('7', 8)), 0)),
    ),
    (
        Put::Statuses(None, &[(100, 5)]),
        50,
        5,
        Some((CompactionStatus::Completed, None, 0)),
    ),
    (
        Put::Submit((100, 8)),
        50,
        8,
        Some((CompactionStatus::Submitted, None, 0)),
    ),
    (
        Put::Submit((100, 8)),
        50,
        5,
        Some((CompactionStatus::Completed, None, 0)),
    ),
];

// The table as a slice: a function that names a table has all of it written out.
fn seen_rows() -> &'static [(Put, i64, u8, Option<Shown>)] {
    SEEN
}

/// The epoch after a change of the record of epoch 2.
const EPOCHS: [(Put, u64); 5] = [
    (Put::Epoch(9), 9),
    (Put::Reset(9), 2),
    (Put::Schedule(Some(9), 1), 2),
    (Put::Statuses(Some(9), &[]), 2),
    (Put::Submit((100, 8)), 2),
];

/// Why the record of epoch 2 refuses a change: 0 for nothing, 1 where the compactor isn't open, 2 where it is fenced by 2.
const FENCED: &[(Put, u8)] = &[
    (Put::Epoch(1), 2),
    (Put::Epoch(2), 0),
    (Put::Epoch(3), 0),
    (Put::Reset(1), 2),
    (Put::Reset(2), 0),
    (Put::Reset(3), 0),
    (Put::Schedule(None, 1), 1),
    (Put::Schedule(Some(1), 1), 2),
    (Put::Schedule(Some(2), 1), 0),
    (Put::Schedule(Some(3), 1), 0),
    (Put::Statuses(None, &[]), 1),
    (Put::Statuses(Some(1), &[]), 2),
    (Put::Statuses(Some(2), &[]), 0),
    (Put::Statuses(Some(3), &[]), 0),
    (Put::Claim(2, 7), 0),
    (Put::Report(3, 7, TABLE), 0),
    (Put::Submit((100, 8)), 0),
];

// The table as a slice: a function that names a table has all of it written out.
fn fenced_rows() -> &'static [(Put, u8)] {
    FENCED
}

/// How many are pending under a change's right, where that is a holder's of the record.
const RIGHTS: &[(Put, Option<usize>)] = &[
    (Put::Epoch(9), Some(0)),
    (Put::Reset(9), Some(0)),
    (Put::Statuses(Some(9), &[(100, 4), (100, 5)]), Some(2)),
    (Put::Schedule(Some(9), 1), None),
    (Put::Claim(2, 7), None),
    (Put::Report(3, 7, TABLE), None),
    (Put::Submit((100, 8)), None),
];

// The table as a slice: a function that names a table has all of it written out.
fn rights() -> &'static [(Put, Option<usize>)] {
    RIGHTS
}

fn cause_told(cause: StateCause) -> Answer {
    match cause {
        StateCause::NoSuchCompaction(id) => Answer::NoSuch(id.tail()),
        StateCause::CompactionState(id) => Answer::State(id.tail()),
        _ => Answer::Other,
    }
}

fn told(made: &Result<Option<Compactions>, SlateDBError>) -> Answer {
    match made {
        Ok(None) => Answer::Nothing,
        Ok(Some(_)) => Answer::Made,
        Err(e) => match e {
            SlateDBError::InvalidDBState(cause) => cause_told(*cause),
            _ => Answer::Other,
        },
    }
}

/// What a change at a moment makes of the record.
fn made(
    rt: &impl Abort,
    alloc: Global,
    put: Put,
    now: i64,
) -> Result<Option<Compactions>, SlateDBError> {
    let compactions = record_of(rt, alloc, 2, HELD);
    let change = change(rt, alloc, put);
    let made = change.make(alloc, now, 7, &compactions);
    drop(change);
    drop(compactions);
    made
}

fn told_of(rt: &impl Abort, alloc: Global, put: Put) -> Answer {
    let made = made(rt, alloc, put, 50);
    let answer = told(&made);
    drop(made);
    answer
}

#[test]
fn changes_are_made_or_refused(rt: HostRuntime) {
    for (row, (put, wanted)) in told_rows().iter().enumerate() {
        assert!(rt; told_of(&rt, rt.alloc(), *put) == *wanted, "at row {row}");
    }
}

/// A worker's first letter, where its name has no other.
fn letter(name: &str) -> char {
    match name {
        "4" => '4',
        "7" => '7',
        "9" => '9',
        _ => '?',
    }
}

fn seen(compaction: &Compaction) -> Shown {
    let worker = match &compaction.worker {
        None => None,
        Some(worker) => Some((letter(worker.worker_id.as_str()), worker.last_heartbeat_ms)),
    };
    (
        compaction.status,
        worker,
        compaction.output_ssts.as_slice().len(),
    )
}

fn seen_at(compactions: &Compactions, tail: u8) -> Option<Shown> {
    match compactions.get(id((100, tail))) {
        None => None,
        Some(compaction) => Some(seen(compaction)),
    }
}

/// The record after a change at a moment.
fn after(rt: &impl Abort, alloc: Global, put: Put, now: i64) -> Compactions {
    made(rt, alloc, put, now)
        .expect(rt, "made")
        .expect(rt, "a record")
}

/// One compaction after a change at a moment.
fn seen_after(rt: &impl Abort, alloc: Global, put: Put, now: i64, tail: u8) -> Option<Shown> {
    let record = after(rt, alloc, put, now);
    let seen = seen_at(&record, tail);
    drop(record);
    seen
}

/// The epoch after a change.
fn epoch_after(rt: &impl Abort, alloc: Global, put: Put) -> u64 {
    let record = after(rt, alloc, put, 50);
    let epoch = record.compactor_epoch;
    drop(record);
    epoch
}

#[test]
fn changes_make_what_they_say(rt: HostRuntime) {
    for (row, (put, now, tail, wanted)) in seen_rows().iter().enumerate() {
        let seen = seen_after(&rt, rt.alloc(), *put, *now, *tail);
        assert!(rt; seen == *wanted, "at row {row}");
    }
}

#[test]
fn one_change_alone_gives_an_epoch(rt: HostRuntime) {
    for (row, (put, wanted)) in EPOCHS.iter().enumerate() {
        assert!(rt;
            epoch_after(&rt, rt.alloc(), *put) == *wanted,
            "at row {row}"
        );
    }
}

fn fenced(refusal: &Option<SlateDBError>) -> u8 {
    match refusal {
        None => 0,
        Some(e) => match e {
            SlateDBError::InvalidDBState(cause) => not_open(*cause),
            SlateDBError::Fenced { own, read } => { if *own == 1 && *read == 2 { 2 } else { 9 } }
            _ => 9,
        },
    }
}

fn not_open(cause: StateCause) -> u8 {
    match cause {
        StateCause::NotOpen => 1,
        _ => 9,
    }
}

fn fenced_by(rt: &impl Abort, alloc: Global, put: Put) -> u8 {
    let compactions = record_of(rt, alloc, 2, HELD);
    let change = change(rt, alloc, put);
    let refusal = change.refusal_at(&compactions);
    drop(change);
    drop(compactions);
    let told = fenced(&refusal);
    drop(refusal);
    told
}

#[test]
fn compactors_are_fenced(rt: HostRuntime) {
    for (row, (put, wanted)) in fenced_rows().iter().enumerate() {
        assert!(rt; fenced_by(&rt, rt.alloc(), *put) == *wanted, "at row {row}");
    }
}

fn pending(right: &Right) -> Option<usize> {
    match right {
        Right::RecordHolder { pending } => Some(pending.as_slice().len()),
        _ => None,
    }
}

fn pending_under(rt: &impl Abort, alloc: Global, put: Put) -> Option<usize> {
    let change = change(rt, alloc, put);
    let right = change.right(alloc);
    drop(change);
    let right = right.expect(rt, "memory");
    let count = pending(&right);
    drop(right);
    count
}

#[test]
fn holders_of_the_record_remove(rt: HostRuntime) {
    for (row, (put, wanted)) in rights().iter().enumerate() {
        assert!(rt;
            pending_under(&rt, rt.alloc(), *put) == *wanted,
            "at row {row}"
        );
    }
}

/// An epoch, and the one after an open, where there is one.
const RAISED: [(u64, Option<u64>); 3] = [(0, Some(1)), (7, Some(8)), (u64::MAX, None)];

fn raised(rt: &impl Abort, alloc: Global, epoch: u64) -> Option<u64> {
    let compactions = record_of(rt, alloc, epoch, HELD);
    let made = raise_record(alloc, 1, &compactions);
    drop(compactions);
    let epoch = epoch_in(&made);
    drop(made);
    epoch
}

fn epoch_in(made: &Result<Option<Compactions>, SlateDBError>) -> Option<u64> {
    match made {
        Ok(Some(record)) => Some(record.compactor_epoch),
        _ => None,
    }
}

#[test]
fn an_open_raises_the_epoch(rt: HostRuntime) {
    let first = first_record(rt.alloc());
    let is_first = first.compactor_epoch == 0 && first.is_empty();
    drop(first);
    assert!(rt; is_first);
    for (epoch, wanted) in &RAISED {
        assert!(rt; raised(&rt, rt.alloc(), *epoch) == *wanted, "{epoch}");
    }
}
