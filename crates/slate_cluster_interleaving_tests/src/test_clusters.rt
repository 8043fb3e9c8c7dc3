//! Clusters of scripts, and what is read off them.

use slate_cluster::{Cluster, ClusterError};
use slate_ids::{DbPath, ObjectPath};
use slate_layout::decode_manifest;
use slate_script::{Entry, Event, Script, entry_line, read_script};
use slate_store::Mark;
use std::alloc::Global;
use std::process::Abort;

/// The path `db`.
pub(crate) fn db(rt: &impl Abort) -> DbPath {
    DbPath::from_text("db")
        .expect(rt, "memory")
        .expect(rt, "a path")
}

/// The script of a text.
pub(crate) fn script_of(rt: &impl Abort, alloc: Global, text: &str) -> Script {
    read_script(alloc, text.as_bytes()).expect(rt, "a script")
}

/// The cluster of a script's databases, after its events.
pub(crate) fn after(rt: &impl Abort, alloc: Global, text: &str) -> Cluster {
    let Script { databases, events } = script_of(rt, alloc, text);
    let mut cluster = Cluster::new(alloc, databases.into_vec()).expect(rt, "a cluster");
    does(rt, alloc, &mut cluster, events.as_slice());
    drop(events);
    cluster
}

/// Does events of which none is bad, with an entry for each.
pub(crate) fn does(rt: &impl Abort, alloc: Global, cluster: &mut Cluster, events: &[Event]) {
    let report = cluster.run(alloc, events).expect(rt, "good events");
    let entries = report.entries.len();
    drop(report);
    assert!(rt; entries == events.len());
}

/// The place of the first bad event.
pub(crate) fn bad_place(alloc: Global, cluster: &mut Cluster, events: &[Event]) -> Option<u64> {
    match cluster.run(alloc, events) {
        Ok(report) => {
            drop(report);
            None
        }
        Err(ClusterError::BadEvent { place }) => Some(place),
        Err(ClusterError::OutOfMemory { .. }) => None,
    }
}

/// Steps of a party at a moment.
pub(crate) fn steps(
    rt: &impl Abort,
    alloc: Global,
    cluster: &mut Cluster,
    party: u32,
    moment: i64,
    times: u32,
) {
    let mark = Mark::Good;
    let step = [Event::Step {
        party,
        moment,
        mark,
    }];
    for _ in 0..times {
        does(rt, alloc, cluster, &step);
    }
    drop(step);
}

fn epoch_in(rt: &impl Abort, alloc: Global, bytes: &[u8]) -> u64 {
    let manifest = decode_manifest(alloc, bytes).expect(rt, "a manifest");
    let epoch = manifest.writer_epoch;
    drop(manifest);
    epoch
}

/// The bytes of an object, where it stands.
pub(crate) fn bytes_at(cluster: &Cluster, path: ObjectPath) -> Option<&[u8]> {
    let object = cluster.store().object(&path);
    drop(path);
    match object {
        Some(object) => Some(object.bytes.as_slice()),
        None => None,
    }
}

/// The writer epoch of a version and how many bytes it has, where it stands.
pub(crate) fn version(
    rt: &impl Abort,
    alloc: Global,
    cluster: &Cluster,
    number: u64,
) -> Option<(u64, usize)> {
    match bytes_at(cluster, ObjectPath::Manifest(db(rt), number)) {
        None => None,
        Some(bytes) => Some((epoch_in(rt, alloc, bytes), bytes.len())),
    }
}

/// Whether the boundary of the manifests has these bytes.
pub(crate) fn has_boundary(rt: &impl Abort, cluster: &Cluster, bytes: &[u8]) -> bool {
    match bytes_at(cluster, ObjectPath::ManifestBoundary(db(rt))) {
        None => false,
        Some(found) => found == bytes,
    }
}

/// Whether the line of an entry has both texts.
pub(crate) fn has(rt: &impl Abort, alloc: Global, entry: &Entry, one: &str, other: &str) -> bool {
    let line = entry_line(alloc, 0, entry).expect(rt, "memory");
    let both = line.as_str().contains(one) && line.as_str().contains(other);
    drop(line);
    both
}

/// How many entries have lines with both texts.
pub(crate) fn count(
    rt: &impl Abort,
    alloc: Global,
    cluster: &Cluster,
    one: &str,
    other: &str,
) -> u64 {
    let mut found = 0u64;
    for entry in cluster.trail() {
        if has(rt, alloc, entry, one, other) {
            found = found.saturating_add(1);
        }
    }
    found
}

// Whether a version may follow one with the last epoch: an open raises it, and a flush, whose tracker has a pair, keeps it.
fn may_follow(last: Option<u64>, epoch: u64, length: usize) -> bool {
    match last {
        None => epoch == 0 && length == 97,
        Some(last) => epoch == last.saturating_add(1) || (epoch == last && length == 113),
    }
}

/// Whether the store has versions from 1 up without a gap, each as it may follow the one before it, and besides the first one for each
/// put that was created.
pub(crate) fn is_chain(rt: &impl Abort, alloc: Global, cluster: &Cluster) -> bool {
    let mut last = None;
    let most = count(rt, alloc, cluster, "put_new", "-> created").saturating_add(1);
    for place in 0..most {
        let Some((epoch, length)) = version(rt, alloc, cluster, place.saturating_add(1)) else {
            return false;
        };
        if !may_follow(last, epoch, length) {
            return false;
        }
        last = Some(epoch);
    }
    version(rt, alloc, cluster, most.saturating_add(1)).is_none()
}
