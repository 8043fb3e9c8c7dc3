//! Ranges of keys.

use bytes::Bytes;
use slate_ids::{BytesRange, KeySpan};
use std::alloc::Global;
use std::ops::Bound;
use std::process::Abort;

/// From a key, included, to a key, excluded.
fn half_open(rt: &impl Abort, start: &'static str, end: &'static str) -> BytesRange {
    let start = Bound::Included(Bytes::from(start));
    let end = Bound::Excluded(Bytes::from(end));
    assert!(rt;
        KeySpan::new(start.as_ref(), end.as_ref()).is_proper(),
        "no proper range"
    );
    BytesRange::new(start, end)
}

/// Whether a range is another.
fn same(one: BytesRange, other: BytesRange) -> bool {
    let so = one.is(&other);
    drop(one);
    drop(other);
    so
}

/// What two ranges have in common.
fn common(rt: &impl Abort, one: BytesRange, other: BytesRange) -> Option<BytesRange> {
    let found = one.intersect(&other).expect(rt, "memory");
    drop(one);
    drop(other);
    found
}

/// Whether two ranges have nothing in common.
fn are_apart(rt: &impl Abort, one: BytesRange, other: BytesRange) -> bool {
    match common(rt, one, other) {
        Some(found) => {
            drop(found);
            false
        }
        None => true,
    }
}

#[test]
fn ranges_have_a_common_part(rt: HostRuntime) {
    assert!(rt; are_apart(&rt, half_open(&rt, "a", "c"), half_open(&rt, "c", "d")));
    let found = common(&rt, half_open(&rt, "a", "c"), half_open(&rt, "b", "d"));
    let found = found.expect(&rt, "a range");
    assert!(rt; same(found, half_open(&rt, "b", "c")));
}

/// The prefix `ab`.
fn prefix(rt: &impl Abort, alloc: Global) -> BytesRange {
    BytesRange::from_prefix(alloc, b"ab").expect(rt, "memory")
}

/// A clone of a range.
fn cloned(rt: &impl Abort, range: BytesRange) -> BytesRange {
    let cloned = range.clone().expect(rt, "memory");
    drop(range);
    cloned
}

/// A range as a span, and that as an owner of its keys.
fn owned(rt: &impl Abort, range: BytesRange) -> BytesRange {
    let owned = range.as_span().to_range().expect(rt, "memory");
    drop(range);
    owned
}

#[test]
fn a_prefix_ends_at_its_successor(rt: HostRuntime) {
    let alloc = rt.alloc();
    assert!(rt; same(prefix(&rt, alloc), half_open(&rt, "ab", "ac")));
    assert!(rt; same(cloned(&rt, prefix(&rt, alloc)), half_open(&rt, "ab", "ac")));
    assert!(rt; same(owned(&rt, prefix(&rt, alloc)), half_open(&rt, "ab", "ac")));
}

#[test]
#[tactic(auto, unfolding(slate_ids::specs::Keys::is_ordered))]
fn ranges_are_made_of_slices(rt: HostRuntime) {
    let start = Bound::Included(b"a".as_slice());
    let end = Bound::Excluded(b"c".as_slice());
    let range = BytesRange::from_slice(rt.alloc(), start, end).expect(&rt, "memory");
    assert!(rt; range.contains(b"b") && !range.contains(b"c"));
    drop(range);
}
