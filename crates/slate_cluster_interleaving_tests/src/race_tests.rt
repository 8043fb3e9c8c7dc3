//! A pass that is raced by a second one at each of its steps.

use crate::test_clusters::{after, count, has_boundary, steps, version};
use std::alloc::Global;
use std::process::Abort;

// Two writers open, so that there are three versions, and two collectors start a pass each.
const STARTED: &str = r#"{"databases":[{"path":"db"}],"events":[
  {"open":0,"kind":"writer","db":"db"},{"start":0,"call":"open_writer"},{"step":0,"at":1000,"times":5},
  {"open":1,"kind":"writer","db":"db"},{"start":1,"call":"open_writer"},{"step":1,"at":1000,"times":5},
  {"open":2,"kind":"collector","db":"db"},{"start":2,"call":"pass","pass":"manifest","min_age":0},
  {"open":3,"kind":"collector","db":"db"},{"start":3,"call":"pass","pass":"manifest","min_age":0}]}"#;

const NONE: &str = "reply pass 0 0 0";

const ONE: &str = "reply pass 1 1 0";

const BOTH: &str = "reply pass 2 2 0";

// How many steps the first pass makes before the second runs to its end, and the replies of both. A first pass that has listed picks
// both old versions, though the second has deleted them; the second picks those that are left at its list.
const RACES: &[(u32, &str, &str)] = &[
    (0, NONE, BOTH),
    (1, NONE, BOTH),
    (2, NONE, BOTH),
    (3, NONE, BOTH),
    (4, BOTH, BOTH),
    (5, BOTH, BOTH),
    (6, BOTH, BOTH),
    (7, BOTH, BOTH),
    (8, BOTH, BOTH),
    (9, BOTH, ONE),
    (10, BOTH, NONE),
];

// The table as a slice: a function that names a table has all of it written out.
fn races() -> &'static [(u32, &'static str, &'static str)] {
    RACES
}

// Whether both passes end so, the greatest version alone is left, and the boundary is 2.
fn race_ends(rt: &impl Abort, alloc: Global, before: u32, first: &str, second: &str) -> bool {
    let mut cluster = after(rt, alloc, STARTED);
    steps(rt, alloc, &mut cluster, 2, 5000, before);
    steps(rt, alloc, &mut cluster, 3, 5000, 12);
    steps(rt, alloc, &mut cluster, 2, 5000, 12);
    let ended = count(rt, alloc, &cluster, "call 2 ", first) == 1
        && count(rt, alloc, &cluster, "call 3 ", second) == 1;
    let left = version(rt, alloc, &cluster, 1).is_none()
        && version(rt, alloc, &cluster, 2).is_none()
        && version(rt, alloc, &cluster, 3).is_some();
    let bounded = has_boundary(rt, &cluster, b"2");
    drop(cluster);
    ended && left && bounded
}

#[test]
fn a_pass_is_raced_at_each_step(rt: HostRuntime) {
    for (before, first, second) in races() {
        assert!(rt;
            race_ends(&rt, rt.alloc(), *before, first, second),
            "{before}"
        );
    }
}
