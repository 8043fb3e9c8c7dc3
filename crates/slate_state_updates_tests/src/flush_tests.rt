//! What a flush of uploaded tables makes of a manifest.

use crate::test_values::{With, manifest_of};
use bytes::Bytes;
use slate_ids::{Listed, SlateDBError, Ulid, UpdateRule};
use slate_layout::ManifestCodec;
use slate_model::{LsmTreeState, Manifest, SsTableHandle, SsTableId, SsTableInfo};
use slate_state_updates::{FlushBatch, FlushedTable, ManifestChange, ManifestRules, flush_tables};
use slate_txn_changes::commit_change;
use slate_txn_log::CommitPhase;
use std::alloc::Global;
use std::process::Abort;

/// A table of a flush: its moment, that of its view, and its prefix.
type Row = (u32, u32, &'static str);

/// What the manifest has, the tables of the flush, and the text of the trees afterwards: of each its prefix, `:`, and the moments of its
/// L0's tables.
const FLUSHES: &[(&[With], &[Row], &str)] = &[
    (&[], &[], ": "),
    (&[], &[(5, 50, "")], ": 5 "),
    (&[], &[(5, 50, ""), (6, 60, "")], ": 6 5 "),
    (&[With::Table(4, 0)], &[(5, 50, ""), (4, 60, "")], ": 5 4 "),
    (&[], &[(5, 50, "a"), (5, 60, "b")], ": a: 5 "),
    (
        &[With::Run(3)],
        &[(3, 50, "a"), (7, 60, "b"), (8, 70, ""), (9, 80, "b")],
        ": 8 b: 9 7 ",
    ),
    (
        &[With::Segment("b", &[2, 1])],
        &[(5, 50, "a"), (6, 60, "b"), (7, 70, "c")],
        ": a: 5 b: 6 2 1 c: 7 ",
    ),
    (
        &[With::Segment("ab", &[2])],
        &[(5, 50, "a"), (6, 60, "abc")],
        ": a: 5 ab: 2 abc: 6 ",
    ),
    (&[With::Log(4)], &[(4, 50, "")], ": 4 w4 "),
];

// The table as a slice: a function that names a table has all of it written out.
fn flushes() -> &'static [(&'static [With], &'static [Row], &'static str)] {
    FLUSHES
}

/// The table of a row, with keys from `a` to `b`.
fn flushed(row: &Row) -> FlushedTable {
    let (moment, view, prefix) = row;
    let mut info = SsTableInfo::default();
    info.first_entry = Some(Bytes::from("a"));
    info.last_entry = Some(Bytes::from("b"));
    FlushedTable {
        view: Ulid::from_parts(*view as u64, 0),
        prefix: Bytes::from(*prefix),
        sst: SsTableHandle {
            id: SsTableId::Compacted(Ulid::from_parts(*moment as u64, 0)),
            format_version: 1,
            info,
        },
    }
}

/// A flush of these tables, up to file 3, with the next file 5, and at the number 20 and the tick 30.
fn batch(rt: &impl Abort, alloc: Global, rows: &[Row]) -> FlushBatch {
    let mut tables = Listed::new(alloc);
    for row in rows {
        tables.push(flushed(row)).expect(rt, "memory");
    }
    FlushBatch {
        tables,
        replay_after: 3,
        next_wal: 5,
        seq: 20,
        tick: 30,
    }
}

/// Adds a tree's prefix and the moments of its L0's tables.
fn push_tree(rt: &impl Abort, text: &mut String, prefix: &str, tree: &LsmTreeState) {
    text.push_str(prefix).expect(rt, "memory");
    text.push_str(": ").expect(rt, "memory");
    for view in tree.l0.as_deque().iter() {
        push_table(rt, text, view.sst.id);
    }
}

/// Adds a file's number after `w`, or a table's moment.
fn push_table(rt: &impl Abort, text: &mut String, id: SsTableId) {
    match id {
        SsTableId::Wal(number) => write!(text, "w{number} ").expect(rt, "memory"),
        SsTableId::Compacted(id) => write!(text, "{} ", id.timestamp_ms()).expect(rt, "memory"),
    }
}

/// The text of a manifest's trees.
fn trees_text(rt: &impl Abort, alloc: Global, manifest: &Manifest) -> String {
    let mut text = String::new(alloc);
    push_tree(rt, &mut text, "", &manifest.core.tree);
    for segment in manifest.core.segments() {
        let prefix = str::from_utf8(segment.prefix().as_slice()).expect(rt, "letters");
        push_tree(rt, &mut text, prefix, segment.tree());
    }
    text
}

/// Whether a flush has the numbers that it was given, and its pair in the tracker.
fn has_numbers(manifest: &Manifest) -> bool {
    let core = &manifest.core;
    core.replay_after_wal_id == 3
        && core.next_wal_sst_id == 5
        && core.last_l0_seq == 20
        && core.last_l0_clock_tick == 30
        && core.sequence_tracker.pairs().len() == 1
}

/// What a flush of these tables makes of a manifest.
fn flushed_by(rt: &impl Abort, alloc: Global, rows: &[Row], old: &Manifest) -> Manifest {
    let batch = batch(rt, alloc, rows);
    let new = flush_tables(alloc, &batch, old).expect(rt, "memory");
    drop(batch);
    new
}

/// Whether a flush of these tables leaves trees of this text.
fn flushes_to(
    rt: &impl Abort,
    alloc: Global,
    withs: &[With],
    rows: &[Row],
    expected: &str,
) -> bool {
    let old = manifest_of(rt, alloc, &[withs]);
    let new = flushed_by(rt, alloc, rows, &old);
    drop(old);
    has_numbers(&new) & has_trees(rt, alloc, new, expected)
}

/// Whether a manifest, which is used up, has trees of this text.
fn has_trees(rt: &impl Abort, alloc: Global, manifest: Manifest, expected: &str) -> bool {
    let text = trees_text(rt, alloc, &manifest);
    drop(manifest);
    let is_so = text.as_str() == expected;
    drop(text);
    is_so
}

#[test]
fn a_flush_puts_new_tables_in_front_of_their_prefixes(rt: HostRuntime) {
    for (withs, rows, expected) in flushes() {
        assert!(rt;
            flushes_to(&rt, rt.alloc(), withs, rows, expected),
            "{expected}"
        );
    }
}

#[test]
fn a_flush_may_lower_what_the_rules_then_refuse(rt: HostRuntime) {
    let old = manifest_of(&rt, rt.alloc(), &[&[With::Replay(9)]]);
    let new = flushed_by(&rt, rt.alloc(), &[], &old);
    drop(old);
    let replay = new.core.replay_after_wal_id;
    drop(new);
    assert!(rt; replay == 3);
}

#[test]
fn a_flush_first_merges_the_manifest_with_itself(rt: HostRuntime) {
    let mut old = manifest_of(&rt, rt.alloc(), &[&[With::Table(6, 0), With::Table(4, 0)]]);
    old.core.tree.last_compacted_l0_sst_id = Some(Ulid::from_parts(4, 0));
    let rows = [(5, 50, ""), (6, 60, ""), (4, 70, "")];
    let new = flushed_by(&rt, rt.alloc(), &rows, &old);
    drop(old);
    assert!(rt; has_trees(&rt, rt.alloc(), new, ": 4 5 6 "));
}

/// What a commit comes to.
#[derive(Clone, Copy)]
enum Told {
    /// It puts the next version.
    Put,
    /// A number falls.
    Lowered,
    /// The moment from which on new tables may be, and that of an earlier one.
    Late(i64, i64),
    /// A prefix, and the one with which it begins.
    Nested(&'static str, &'static str),
}

/// What version 7 has, the tables of the flush, and what its commit comes to.
const COMMITS: &[(&[With], &[Row], Told)] = &[
    (&[], &[(5, 50, ""), (4, 60, "b")], Told::Put),
    (&[With::Replay(3)], &[], Told::Put),
    (&[With::Replay(4)], &[], Told::Lowered),
    (
        &[With::Replay(4), With::Floor(400)],
        &[(399, 50, "")],
        Told::Lowered,
    ),
    (&[With::Floor(400)], &[(400, 50, "")], Told::Put),
    (
        &[With::Floor(400)],
        &[(400, 50, ""), (399, 60, "a")],
        Told::Late(400, 399),
    ),
    (
        &[With::Table(500, 0)],
        &[(499, 999, "")],
        Told::Late(500, 499),
    ),
    (
        &[With::Segment("a", &[4])],
        &[(5, 50, "ab")],
        Told::Nested("ab", "a"),
    ),
    (
        &[With::Segment("ab", &[4])],
        &[(5, 50, "a")],
        Told::Nested("ab", "a"),
    ),
];

// The table as a slice: a function that names a table has all of it written out.
fn commits() -> &'static [(&'static [With], &'static [Row], Told)] {
    COMMITS
}

/// Whether a refusal is this one.
fn is_refusal(e: &SlateDBError, told: Told) -> bool {
    match told {
        Told::Put => false,
        Told::Lowered => is_lowered(e),
        Told::Late(least, late) => is_late(e, least, late),
        Told::Nested(longer, shorter) => is_nested(e, longer, shorter),
    }
}

fn is_lowered(e: &SlateDBError) -> bool {
    match e {
        SlateDBError::UpdateRefused(rule) => *rule == UpdateRule::U1,
        _ => false,
    }
}

fn is_late(e: &SlateDBError, least: i64, late: i64) -> bool {
    match e {
        SlateDBError::InvalidClockTick {
            last_tick,
            next_tick,
        } => *last_tick == least && *next_tick == late,
        _ => false,
    }
}

/// Whether a refusal names this pair of prefixes.
pub(crate) fn is_nested(e: &SlateDBError, longer: &str, shorter: &str) -> bool {
    match e {
        SlateDBError::InvalidSegmentPrefix { prefix, conflict } => {
            prefix.as_slice() == longer.as_bytes() && conflict.as_slice() == shorter.as_bytes()
        }
        _ => false,
    }
}

/// Whether a commit comes to this.
fn comes_to(commit: &Result<Option<CommitPhase<Manifest>>, SlateDBError>, told: Told) -> bool {
    match commit {
        Ok(commit) => commit.is_some() && matches!(told, Told::Put),
        Err(e) => is_refusal(e, told),
    }
}

/// The commit of a flush of these tables after version 7, which has these.
fn commit_of(
    rt: &impl Abort,
    alloc: Global,
    withs: &[With],
    rows: &[Row],
) -> Result<Option<CommitPhase<Manifest>>, SlateDBError> {
    let old = manifest_of(rt, alloc, &[withs]);
    let change = ManifestChange::Flush {
        writer: Some(0),
        batch: batch(rt, alloc, rows),
    };
    let commit = commit_change(
        alloc,
        &change,
        &ManifestCodec,
        &ManifestRules,
        1000,
        7,
        &old,
    );
    drop(change);
    drop(old);
    commit
}

/// Whether the commit of a flush of these tables after version 7 comes to this.
fn flush_comes_to(
    rt: &impl Abort,
    alloc: Global,
    withs: &[With],
    rows: &[Row],
    told: Told,
) -> bool {
    let commit = commit_of(rt, alloc, withs, rows);
    let is_so = comes_to(&commit, told);
    drop(commit);
    is_so
}

#[test]
fn the_rules_see_what_a_flush_puts(rt: HostRuntime) {
    for (row, (withs, rows, told)) in commits().iter().enumerate() {
        assert!(rt;
            flush_comes_to(&rt, rt.alloc(), withs, rows, *told),
            "at row {row}"
        );
    }
}
