//! The segments of a writer and of a compactor, merged by prefix.

use crate::test_trees::{Seen, SegmentRow, have_text, segments};
use slate_ids::SlateDBError;
use slate_model::Segment;
use slate_state_merges::{
    merge_segments_from_compactor, merge_segments_from_writer, prefixes_ascend,
};
use std::alloc::Global;
use std::process::Abort;

type Segments = &'static [SegmentRow];

const EMPTY: SegmentRow = ("b", (&[], &[], None, None));

const MARKED: SegmentRow = ("b", (&[], &[], Some(4), None));

const WITH_RUN: SegmentRow = ("b", (&[], &[7], None, None));

const WITH_VIEW: SegmentRow = ("b", (&[Seen::Table(5, 5)], &[], None, None));

const A: SegmentRow = ("a", (&[Seen::Table(1, 1)], &[], None, None));

const A_TAKEN: SegmentRow = ("a", (&[], &[], Some(1), None));

const B_NEW: SegmentRow = (
    "b",
    (&[Seen::Table(3, 3), Seen::Table(2, 2)], &[9], None, None),
);

const C: SegmentRow = ("c", (&[Seen::Table(6, 6)], &[], None, None));

const C_RUN: SegmentRow = ("c", (&[], &[1], Some(6), None));

const D: SegmentRow = ("d", (&[Seen::Table(8, 8)], &[], None, None));

const ROOT: SegmentRow = ("", (&[Seen::Table(9, 9)], &[], None, None));

/// A writer's segments, a compactor's, what the compactor makes of the writer's (`!` and the prefix, where it is refused), and what the
/// writer makes of the compactor's.
const MERGES: &[(Segments, Segments, &str, &str)] = &[
    (&[], &[], "", ""),
    (&[A], &[A_TAKEN], "a: / v1 ; ", ""),
    (&[A], &[], "a: 1 / ; ", "a: 1 / ; "),
    (&[], &[EMPTY], "", ""),
    (&[], &[MARKED], "", ""),
    (&[], &[WITH_RUN], "!b", "b: / 7 ; "),
    (&[], &[WITH_VIEW], "!b", ""),
    (&[A], &[WITH_RUN], "!b", "a: 1 / ; b: / 7 ; "),
    (
        &[A, C],
        &[WITH_RUN, C_RUN],
        "!b",
        "a: 1 / ; b: / 7 ; c: / 1 v6 ; ",
    ),
    (
        &[A, C],
        &[A_TAKEN, MARKED, C_RUN],
        "a: / v1 ; c: / 1 v6 ; ",
        "c: / 1 v6 ; ",
    ),
    (&[B_NEW], &[WITH_RUN], "b: 3 2 / 7 ; ", "b: 3 2 / 7 ; "),
    (&[B_NEW], &[A_TAKEN], "b: 3 2 / ; ", "b: 3 2 / ; "),
    (
        &[B_NEW, D],
        &[C_RUN],
        "!c",
        "b: 3 2 / ; c: / 1 v6 ; d: 8 / ; ",
    ),
    (
        &[A, B_NEW, C, D],
        &[C_RUN],
        "a: 1 / ; b: 3 2 / ; c: / 1 v6 ; d: 8 / ; ",
        "a: 1 / ; b: 3 2 / ; c: / 1 v6 ; d: 8 / ; ",
    ),
    (
        &[ROOT, A],
        &[WITH_RUN, C_RUN],
        "!b",
        ": 9 / ; a: 1 / ; b: / 7 ; c: / 1 v6 ; ",
    ),
];

/// These merges.
fn merges() -> &'static [(Segments, Segments, &'static str, &'static str)] {
    MERGES
}

/// Segments whose order is tried, and whether they ascend.
const ORDERS: [(Segments, bool); 6] = [
    (&[], true),
    (&[ROOT], true),
    (&[ROOT, A, C], true),
    (&[A, A_TAKEN], false),
    (&[C, A], false),
    (&[A, ROOT], false),
];

/// Whether what a compactor makes of a writer's segments has this text.
fn from_writer(
    rt: &impl Abort,
    alloc: Global,
    writer: Segments,
    compactor: Segments,
    expected: &str,
) -> bool {
    let ours = segments(rt, alloc, writer);
    let theirs = segments(rt, alloc, compactor);
    assert!(rt; prefixes_ascend(ours.as_slice()) && prefixes_ascend(theirs.as_slice()));
    let merged = merge_segments_from_writer(alloc, theirs.as_slice(), ours.as_slice());
    drop(theirs);
    drop(ours);
    let is_so = tells(rt, alloc, &merged, expected);
    drop(merged);
    is_so
}

/// Whether merged segments have this text, or the refused prefix follows `!`.
fn tells(
    rt: &impl Abort,
    alloc: Global,
    merged: &Result<Vec<Segment>, SlateDBError>,
    expected: &str,
) -> bool {
    match merged {
        Ok(merged) => have_text(rt, alloc, merged.as_slice(), expected),
        Err(e) => match e {
            SlateDBError::SegmentWithoutWriter(prefix) => {
                expected.len() > 0
                    && expected.as_bytes()[0] == b'!'
                    && prefix.as_slice() == &expected.as_bytes()[1..]
            }
            _ => false,
        },
    }
}

/// Whether what a writer makes of a compactor's segments has this text.
fn from_compactor(
    rt: &impl Abort,
    alloc: Global,
    writer: Segments,
    compactor: Segments,
    expected: &str,
) -> bool {
    let ours = segments(rt, alloc, writer);
    let theirs = segments(rt, alloc, compactor);
    assert!(rt; prefixes_ascend(ours.as_slice()) && prefixes_ascend(theirs.as_slice()));
    let merged = merge_segments_from_compactor(alloc, ours.as_slice(), theirs.as_slice());
    drop(theirs);
    drop(ours);
    has_text(rt, alloc, merged.expect(rt, "memory"), expected)
}

/// Whether segments, which are used up, have this text.
fn has_text(rt: &impl Abort, alloc: Global, segments: Vec<Segment>, expected: &str) -> bool {
    let is_so = have_text(rt, alloc, segments.as_slice(), expected);
    drop(segments);
    is_so
}

#[test]
fn a_compactor_follows_the_writers_prefixes(rt: HostRuntime) {
    for (writer, compactor, expected, _) in merges() {
        assert!(rt;
            from_writer(&rt, rt.alloc(), writer, compactor, expected),
            "{expected}"
        );
    }
}

#[test]
fn a_writer_keeps_what_holds_tables_on_either_side(rt: HostRuntime) {
    for (writer, compactor, _, expected) in merges() {
        assert!(rt;
            from_compactor(&rt, rt.alloc(), writer, compactor, expected),
            "{expected}"
        );
    }
}

/// Whether segments ascend.
fn ascend(rt: &impl Abort, alloc: Global, rows: Segments) -> bool {
    let segments = segments(rt, alloc, rows);
    let ordered = prefixes_ascend(segments.as_slice());
    drop(segments);
    ordered
}

#[test]
fn prefixes_ascend_strictly(rt: HostRuntime) {
    for (rows, expected) in &ORDERS {
        assert!(rt; ascend(&rt, rt.alloc(), rows) == *expected);
    }
}
