//! Clusters of the databases of scripts.

use slate_cluster::Cluster;
use slate_ids::DbPath;
use slate_script::{Event, Script, read_script};
use std::alloc::Global;
use std::process::Abort;

/// The path `db`.
pub(crate) fn db(rt: &impl Abort) -> DbPath {
    DbPath::from_text("db")
        .expect(rt, "memory")
        .expect(rt, "a path")
}

/// The cluster of the databases of a script without events.
pub(crate) fn cluster_of(rt: &impl Abort, alloc: Global, text: &str) -> Cluster {
    let Script { databases, events } = read_script(alloc, text.as_bytes()).expect(rt, "a script");
    drop(events);
    Cluster::new(alloc, databases.into_vec()).expect(rt, "a cluster")
}

/// Does events of which none is bad, with an entry for each.
pub(crate) fn does(rt: &impl Abort, alloc: Global, cluster: &mut Cluster, events: &[Event]) {
    let report = cluster.run(alloc, events).expect(rt, "good events");
    let entries = report.entries.len();
    drop(report);
    assert!(rt; entries == events.len());
}
