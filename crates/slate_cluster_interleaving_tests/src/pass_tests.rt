//! The boundary that the manifest pass of a collector leaves, whose bytes no report tells.

use crate::test_clusters::{after, has_boundary};
use std::alloc::Global;
use std::process::Abort;

// Scripts with a pass, and the boundary that they leave. The versions below the greatest go; a filter that allows nothing keeps them, and
// so do a dry run, a filter of paths all but those at these, and one of no path. In the last a pass deletes three old versions, and a
// second one the late put of a number below the boundary.
const BOUNDARIES: &[(&str, &[u8])] = &[
    (
        r#"{"databases":[{"path":"db"}],"events":[
  {"open":1,"kind":"writer","db":"db"},{"start":1,"call":"open_writer"},{"step":1,"at":1000,"times":5},
  {"open":2,"kind":"writer","db":"db"},{"start":2,"call":"open_writer"},{"step":2,"at":1000,"times":5},
  {"open":3,"kind":"collector","db":"db"},{"start":3,"call":"pass","pass":"manifest","min_age":1000},
  {"step":3,"at":3601000,"times":10}]}"#,
        b"2",
    ),
    (
        r#"{"databases":[{"path":"db"}],"events":[
  {"open":1,"kind":"writer","db":"db"},{"start":1,"call":"open_writer"},{"step":1,"at":1000,"times":5},
  {"open":2,"kind":"writer","db":"db"},{"start":2,"call":"open_writer"},{"step":2,"at":1000,"times":5},
  {"open":3,"kind":"collector","db":"db"},
  {"start":3,"call":"pass","pass":"manifest","min_age":1000,"filter":"none"},{"step":3,"at":3601000,"times":8}]}"#,
        b"2",
    ),
    (
        r#"{"databases":[{"path":"db"}],"events":[
  {"open":1,"kind":"writer","db":"db"},{"start":1,"call":"open_writer"},{"step":1,"at":1000,"times":5},
  {"open":2,"kind":"writer","db":"db"},{"start":2,"call":"open_writer"},{"step":2,"at":1000,"times":5},
  {"open":3,"kind":"collector","db":"db"},{"start":3,"call":"pass","pass":"manifest","min_age":0,"dry_run":true},
  {"step":3,"at":3601000,"times":8}]}"#,
        b"2",
    ),
    (
        r#"{"databases":[{"path":"db"}],"events":[
  {"open":1,"kind":"writer","db":"db"},{"start":1,"call":"open_writer"},{"step":1,"at":1000,"times":5},
  {"open":2,"kind":"writer","db":"db"},{"start":2,"call":"open_writer"},{"step":2,"at":1000,"times":5},
  {"open":3,"kind":"collector","db":"db"},{"start":3,"call":"pass","pass":"manifest","min_age":1000,"filter":[
  "db/manifest/00000000000000000003.manifest","db/manifest/00000000000000000002.manifest","db/manifest","x"]},
  {"step":3,"at":3601000,"times":9}]}"#,
        b"2",
    ),
    (
        r#"{"databases":[{"path":"db"}],"events":[
  {"open":1,"kind":"writer","db":"db"},{"start":1,"call":"open_writer"},{"step":1,"at":1000,"times":5},
  {"open":2,"kind":"writer","db":"db"},{"start":2,"call":"open_writer"},{"step":2,"at":1000,"times":5},
  {"open":3,"kind":"collector","db":"db"},
  {"start":3,"call":"pass","pass":"manifest","min_age":1000,"filter":[]},{"step":3,"at":3601000,"times":8}]}"#,
        b"2",
    ),
    (
        r#"{"databases":[{"path":"db"}],"events":[
  {"open":1,"kind":"holder","db":"db"},{"start":1,"call":"write_checkpoint","id":7},{"step":1,"at":1000,"times":3},
  {"open":2,"kind":"writer","db":"db"},{"start":2,"call":"open_writer"},{"step":2,"at":1000,"times":5},
  {"open":3,"kind":"writer","db":"db"},{"start":3,"call":"open_writer"},{"step":3,"at":1000,"times":5},
  {"open":4,"kind":"writer","db":"db"},{"start":4,"call":"open_writer"},{"step":4,"at":1000,"times":5},
  {"open":5,"kind":"collector","db":"db"},{"start":5,"call":"pass","pass":"manifest","min_age":0},
  {"step":5,"at":5000,"times":11},{"step":1,"at":6000,"times":2},
  {"start":5,"call":"pass","pass":"manifest","min_age":0},{"step":5,"at":9000,"times":8}]}"#,
        b"3",
    ),
];

// The table as a slice: a function that names a table has all of it written out.
fn boundaries() -> &'static [(&'static str, &'static [u8])] {
    BOUNDARIES
}

// Whether a run leaves this boundary.
fn leaves_boundary(rt: &impl Abort, alloc: Global, script: &str, bytes: &[u8]) -> bool {
    let cluster = after(rt, alloc, script);
    let has = has_boundary(rt, &cluster, bytes);
    drop(cluster);
    has
}

// The boundary is the greatest number that was to go, whether it went or not.
#[test]
fn a_boundary_has_its_number_in_decimal(rt: HostRuntime) {
    for (script, bytes) in boundaries() {
        assert!(rt;
            leaves_boundary(&rt, rt.alloc(), script, *bytes),
            "{script}"
        );
    }
}
