//! The segments that a range of keys meets.

use crate::test_values::{core_of, have_prefixes};
use bytes::Bytes;
use slate_ids::BytesRange;
use slate_model::{ManifestCore, Segment};
use std::alloc::Global;
use std::ops::Bound;
use std::process::Abort;

/// The keys of a range.
#[derive(Clone, Copy)]
enum Keys {
    /// From one to another, both included.
    Closed(&'static str, &'static str),
    /// Above one.
    Above(&'static str),
    /// Below one.
    Below(&'static str),
}

/// Keys, and those of the segments `a` and `c` that they meet.
const MEETINGS: &[(Keys, &'static str)] = &[
    (Keys::Closed("b", "b"), ""),
    (Keys::Closed("a1", "c"), "a,c,"),
    (Keys::Closed("azz", "b"), "a,"),
    (Keys::Closed("A", "Z"), ""),
    (Keys::Closed("d", "e"), ""),
    (Keys::Above("a"), "a,c,"),
    (Keys::Above("b"), "c,"),
    (Keys::Above("d"), ""),
    (Keys::Below("c"), "a,"),
    (Keys::Below("ca"), "a,c,"),
];

// The table as a slice: a function that names a table has all of it written out.
fn meetings() -> &'static [(Keys, &'static str)] {
    MEETINGS
}

/// The keys from one to another, both included.
#[tactic(auto, unfolding(slate_ids::specs::Keys::is_ordered))]
fn closed(rt: &impl Abort, start: &'static str, end: &'static str) -> BytesRange {
    assert!(rt; start <= end);
    BytesRange::new(
        Bound::Included(Bytes::from(start)),
        Bound::Included(Bytes::from(end)),
    )
}

/// The range of these keys.
#[tactic(auto, unfolding(slate_ids::specs::Keys::is_ordered))]
fn range(rt: &impl Abort, keys: Keys) -> BytesRange {
    match keys {
        Keys::Closed(start, end) => closed(rt, start, end),
        Keys::Above(start) => {
            BytesRange::new(Bound::Excluded(Bytes::from(start)), Bound::Unbounded)
        }
        Keys::Below(end) => BytesRange::new(Bound::Unbounded, Bound::Excluded(Bytes::from(end))),
    }
}

/// Whether these keys meet the segments of these prefixes, where there are any to choose from.
fn select(
    rt: &impl Abort,
    alloc: Global,
    core: &ManifestCore,
    range: &BytesRange,
    expected: Option<&str>,
) -> bool {
    assert!(rt; Segment::are_apart(core.segments()));
    match core.select_segments(range) {
        None => expected.is_none(),
        Some(segments) => match expected {
            None => false,
            Some(expected) => have_prefixes(rt, alloc, segments, expected),
        },
    }
}

/// Whether these keys meet the expected ones of the segments with these prefixes.
fn meet(
    rt: &impl Abort,
    alloc: Global,
    prefixes: &[&'static str],
    keys: Keys,
    expected: Option<&str>,
) -> bool {
    let core = core_of(rt, alloc, prefixes);
    let range = range(rt, keys);
    let is_so = select(rt, alloc, &core, &range, expected);
    drop(range);
    drop(core);
    is_so
}

#[test]
fn a_range_meets_the_segments_that_it_reaches(rt: HostRuntime) {
    for (keys, expected) in meetings() {
        let is_so = meet(&rt, rt.alloc(), &["a", "c"], *keys, Some(expected));
        assert!(rt; is_so, "where {expected} is expected");
    }
}

#[test]
fn without_segments_there_is_no_choice(rt: HostRuntime) {
    assert!(rt; meet(&rt, rt.alloc(), &[], Keys::Above(""), None));
}
