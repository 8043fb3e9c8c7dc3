//! Sorted runs.

use crate::test_values::{Side, id, is_copied, range, view};
use slate_ids::BytesRange;
use slate_model_tables::{SortedRun, SsTableView};
use std::alloc::Global;
use std::collections::VecDeque;
use std::ops::Bound::{Included, Unbounded};
use std::process::Abort;

/// The ends of the view of a run.
const ONE: [(&str, &str); 1] = [("a", "z")];

/// The ends of the views of another run, whose numbers are 1 to 3.
const THREE: [(&str, &str); 3] = [("a", "c"), ("c", "e"), ("f", "h")];

/// A run of views from and to these keys, whose numbers count from 1.
fn run_of(rt: &impl Abort, alloc: Global, ends: &[(&'static str, &'static str)]) -> SortedRun {
    let mut views = Vec::new(alloc);
    let mut number = 0u8;
    for (first, last) in ends {
        number = number.saturating_add(1);
        views.push(view(number, first, last)).expect(rt, "memory");
    }
    SortedRun::new(7, views)
}

/// Whether there are so many views, and the first has this number.
fn are(found: &VecDeque<&SsTableView>, first: u8, count: usize) -> bool {
    match found.front() {
        Some(view) => {
            let view: &SsTableView = view;
            found.len() == count && view.id == id(first)
        }
        None => false,
    }
}

/// Whether so many views cover a range, and the first has this number.
fn cover(
    rt: &impl Abort,
    alloc: Global,
    run: &SortedRun,
    range: &BytesRange,
    wanted: (u8, usize),
) -> bool {
    assert!(rt; run.is_in_order());
    let found = run.tables_covering_range(alloc, range).expect(rt, "memory");
    let are_so = are(&found, wanted.0, wanted.1);
    drop(found);
    are_so
}

/// Whether the first two of three views cover the range of c alone.
fn cover_c(rt: &impl Abort, alloc: Global, run: &SortedRun) -> bool {
    let range = range(rt, Included("c"), Included("c"));
    let is_so = cover(rt, alloc, run, &range, (1, 2));
    drop(range);
    is_so
}

/// Whether the last of three views covers the range from i on.
fn cover_from_i(rt: &impl Abort, alloc: Global, run: &SortedRun) -> bool {
    let range = range(rt, Included("i"), Unbounded);
    let is_so = cover(rt, alloc, run, &range, (3, 1));
    drop(range);
    is_so
}

/// Whether so many views cover a key, and the first has this number.
fn cover_key(
    rt: &impl Abort,
    alloc: Global,
    run: &SortedRun,
    key: &str,
    wanted: (u8, usize),
) -> bool {
    assert!(rt; run.is_in_order());
    let found = run
        .tables_covering_point_key(alloc, key.as_bytes())
        .expect(rt, "memory");
    begin(found, wanted.0) && found.len() == wanted.1
}

/// Whether the first of these has this number.
fn begin(found: &[SsTableView], first: u8) -> bool {
    match found.first() {
        Some(view) => view.id == id(first),
        None => false,
    }
}

fn finds_views(rt: &impl Abort, alloc: Global, run: &SortedRun) {
    assert!(rt; cover_c(rt, alloc, run));
    assert!(rt; cover_from_i(rt, alloc, run));
    assert!(rt; cover_key(rt, alloc, run, "c", (1, 2)));
}

#[test]
fn views_cover_ranges_and_keys(rt: HostRuntime) {
    let run = run_of(&rt, rt.alloc(), &THREE);
    finds_views(&rt, rt.alloc(), &run);
    drop(run);
}

fn overlaps(rt: &impl Abort, run: &SortedRun, start: Side, end: Side) -> bool {
    let range = range(rt, start, end);
    let overlaps = run.overlaps_range(&range);
    drop(range);
    overlaps.expect(rt, "memory")
}

fn spans_its_view(rt: &impl Abort, run: &SortedRun) {
    assert!(rt; overlaps(rt, run, Included("b"), Included("b")));
    assert!(rt; !overlaps(rt, run, Included("zz"), Unbounded));
}

#[test]
fn a_run_spans_its_views(rt: HostRuntime) {
    let run = run_of(&rt, rt.alloc(), &ONE);
    spans_its_view(&rt, &run);
    drop(run);
}

#[test]
fn a_copy_of_a_run_is_equal(rt: HostRuntime) {
    assert!(rt; is_copied(&rt, rt.alloc(), run_of(&rt, rt.alloc(), &THREE)));
}
