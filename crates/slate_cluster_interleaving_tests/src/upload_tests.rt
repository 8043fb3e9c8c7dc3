//! Uploads and flushes by a cluster's own calls: what stands in the version that a flush put, and which refusal comes first.

use crate::test_clusters::{after, db};
use slate_cluster::Cluster;
use slate_ids::{ObjectPath, SlateDBError, StateCause, Ulid};
use slate_layout::{decode_info, decode_manifest};
use slate_model::{LsmTreeState, Manifest, Plain, SsTableId};
use slate_script::{Entry, Reply};
use std::alloc::Global;
use std::process::Abort;

// A writer that flushes two tables into the root and two under each of two prefixes, in two flushes, the second with numbers.
const FLUSHES: &str = r#"{"databases":[{"path":"db"}],"events":[
  {"open":1,"kind":"writer","db":"db"},{"start":1,"call":"open_writer"},{"step":1,"at":1000,"times":5},
  {"start":1,"call":"upload","table":"100:1","first":"b","last":"k"},{"step":1,"at":1000},
  {"start":1,"call":"upload","table":"100:2"},{"step":1,"at":1000},
  {"start":1,"call":"upload","table":"100:3"},{"step":1,"at":1000},
  {"start":1,"call":"upload","table":"100:4"},{"step":1,"at":1000},
  {"start":1,"call":"upload","table":"100:5"},{"step":1,"at":1000},
  {"start":1,"call":"upload","table":"100:6"},{"step":1,"at":1000},
  {"start":1,"call":"flush","tables":[{"table":"100:1","view":"101:1"},{"table":"100:2","view":"101:2","prefix":"q"},
    {"table":"100:3","view":"101:3","prefix":"p"},{"table":"100:4","view":"101:4"}]},{"step":1,"at":1000,"times":5},
  {"start":1,"call":"flush","tables":[{"table":"100:5","view":"101:5","prefix":"q"},
    {"table":"100:6","view":"101:6","prefix":"p"},{"table":"100:1","view":"101:7","prefix":"p"}],
    "replay_after":3,"next_wal":8,"seq":20,"tick":-7},{"step":1,"at":1000,"times":5}]}"#;

fn manifest(rt: &impl Abort, alloc: Global, cluster: &Cluster, number: u64) -> Manifest {
    let path = ObjectPath::Manifest(db(rt), number);
    let object = cluster.store().object(&path).expect(rt, "a version");
    decode_manifest(alloc, object.bytes.as_slice()).expect(rt, "a manifest")
}

// Whether a tree's L0 has just these tables of 100 ms, newest first, each under the view of its tail at 101 ms.
fn has_tables(tree: &LsmTreeState, tails: &[u128]) -> bool {
    if tree.l0.as_deque().len() != tails.len() {
        return false;
    }
    let mut i = 0;
    for view in tree.l0.as_deque().iter() {
        let Some(tail) = tails.get(i) else {
            return false;
        };
        let table = SsTableId::Compacted(Ulid::from_parts(100, *tail % (1 << 80)));
        if view.sst.id != table || view.id != Ulid::from_parts(101, *tail % (1 << 80)) {
            return false;
        }
        i += 1;
    }
    true
}

// Whether the tree of a prefix has just these tables.
fn has_at(manifest: &Manifest, prefix: &[u8], tails: &[u128]) -> bool {
    match manifest.core.tree_for_segment(prefix) {
        Some(tree) => has_tables(tree, tails),
        None => false,
    }
}

#[test]
fn flushed_tables_stand_in_front_of_their_trees(rt: HostRuntime) {
    let cluster = after(&rt, rt.alloc(), FLUSHES);
    let first = manifest(&rt, rt.alloc(), &cluster, 3);
    assert!(rt;
        has_at(&first, b"", &[4, 1]) && has_at(&first, b"p", &[3]) && has_at(&first, b"q", &[2])
    );
    assert!(rt; first.core.floor == 100 && first.core.next_wal_sst_id == 1);
    let second = manifest(&rt, rt.alloc(), &cluster, 4);
    assert!(rt; has_at(&second, b"", &[4, 1]));
    assert!(rt; has_at(&second, b"p", &[6, 3]) && has_at(&second, b"q", &[5, 2]));
    assert!(rt; second.core.segments().len() == 2);
    assert!(rt; second.core.replay_after_wal_id == 3 && second.core.next_wal_sst_id == 8);
    assert!(rt; second.core.last_l0_seq == 20 && second.core.last_l0_clock_tick == -7);
    drop(second);
    drop(first);
    drop(cluster);
}

// The object of a table is its info, and its handle has the format version 1 and that info.
#[test]
fn a_flushed_table_has_the_info_of_its_upload(rt: HostRuntime) {
    let cluster = after(&rt, rt.alloc(), FLUSHES);
    let path = ObjectPath::Table(db(&rt), Ulid::from_parts(100, 1));
    let object = cluster.store().object(&path).expect(&rt, "a table");
    let info = decode_info(rt.alloc(), object.bytes.as_slice()).expect(&rt, "an info");
    let manifest = manifest(&rt, rt.alloc(), &cluster, 4);
    let views = manifest.core.tree.l0.as_deque();
    let view = views.get(1).expect(&rt, "a view");
    assert!(rt; view.sst.format_version == 1 && view.sst.info.is(&info));
    assert!(rt; info.first_entry.as_ref().expect(&rt, "a key").as_slice() == b"b".as_slice());
    assert!(rt; info.last_entry.as_ref().expect(&rt, "a key").as_slice() == b"k".as_slice());
    drop(view);
    drop(views);
    drop(manifest);
    drop(info);
    drop(object);
    drop(path);
    drop(cluster);
}

// A flush of a table that wasn't uploaded, before the open and after it.
const MISSING: &str = r#"{"databases":[{"path":"db"}],"events":[
  {"open":1,"kind":"writer","db":"db"},
  {"start":1,"call":"flush","tables":[{"table":"100:1","view":"101:1"}]},
  {"start":1,"call":"open_writer"},{"step":1,"at":1000,"times":5},
  {"start":1,"call":"upload","table":"100:2"},{"step":1,"at":1000},
  {"start":1,"call":"flush","tables":[{"table":"100:2","view":"101:2"},{"table":"100:1","view":"101:3"},
    {"table":"100:4","view":"101:4"}]}]}"#;

// Why the call that starts at a place was refused there.
fn cause_at(cluster: &Cluster, place: usize) -> Option<StateCause> {
    match cluster.trail().get(place) {
        Some(Entry::Started { reply, .. }) => match reply {
            Some(Reply::Refused(refusal)) => match refusal {
                SlateDBError::InvalidDBState(cause) => Some(*cause),
                _ => None,
            },
            _ => None,
        },
        _ => None,
    }
}

#[test]
fn a_party_without_an_open_is_refused_before_its_tables_are_looked_up(rt: HostRuntime) {
    let cluster = after(&rt, rt.alloc(), MISSING);
    assert!(rt; cause_at(&cluster, 1) == Some(StateCause::NotOpen));
    let missing = StateCause::NotUploaded(Ulid::from_parts(100, 1));
    assert!(rt; cause_at(&cluster, 10) == Some(missing));
    drop(cluster);
}
