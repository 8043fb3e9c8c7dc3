//! A cluster by its own calls: what a script's text doesn't tell, and what no script can say.

use crate::test_clusters::{after, bad_place, bytes_at, db, does, script_of};
use slate_cluster::{Cluster, NewError};
use slate_ids::{CheckpointId, GcMessage, Listed, ObjectPath, Text};
use slate_layout::decode_manifest;
use slate_model::Checkpoint;
use slate_script::{Call, ClusterCause, DbSpec, Event, FilterWord, Script};
use std::alloc::Global;
use std::mem;
use std::process::Abort;

// A writer that opens, and flushes a second later.
const FLUSH: &str = r#"{"databases":[{"path":"db"}],"events":[
  {"open":1,"kind":"writer","db":"db"},{"start":1,"call":"open_writer"},{"step":1,"at":1000,"times":5},
  {"start":1,"call":"flush","tables":[]},{"step":1,"at":2000,"times":5}]}"#;

// The first manifest, with writer epoch 1.
const RAISED: [u8; 97] = [
    0, 2, 0, 0, 0, 0, 1, 0, 0, 0, 0, 0, 0, 0, 1, 0, 0, 0, 0, 0, 0, 0, 0, 0, 0, 0, 0, 0, 0, 0, 0, 0,
    0, 0, 0, 0, 0, 0, 0, 0, 0, 0, 0, 0, 0, 0, 0, 0, 0, 0, 0, 0, 0, 0x80, 0, 0, 0, 0, 0, 0, 0, 0, 0,
    0, 0, 0, 0, 0, 0, 0, 0, 0, 0, 0, 0, 0, 0, 0, 0, 0, 0, 0, 0, 0, 0, 0, 0, 0, 0, 0, 0, 0, 0, 0, 0,
    0, 0,
];

// The same after a flush at sequence number 0 and tick 0, which the tracker has as its one pair.
const FLUSHED: [u8; 113] = [
    0, 2, 0, 0, 0, 0, 1, 0, 0, 0, 0, 0, 0, 0, 1, 0, 0, 0, 0, 0, 0, 0, 0, 0, 0, 0, 0, 0, 0, 0, 0, 0,
    0, 0, 0, 0, 0, 0, 0, 0, 0, 0, 0, 0, 0, 0, 0, 0, 0, 0, 0, 0, 0, 0, 0, 0, 0, 0, 0, 0, 0, 0, 0, 0,
    0, 0, 0, 0, 0, 0, 0, 0, 0, 0, 0, 0, 0, 0, 0, 0, 1, 0, 0, 0, 0, 0, 0, 0, 0, 0, 0, 0, 0, 0, 0, 0,
    0, 0, 0, 0, 0, 0, 0, 0, 0, 0, 0, 0, 0, 0, 0, 0, 0,
];

// Whether a version has these bytes and was put at this moment.
fn is_version(rt: &impl Abort, cluster: &Cluster, number: u64, bytes: &[u8], moment: i64) -> bool {
    let path = ObjectPath::Manifest(db(rt), number);
    let object = cluster.store().object(&path);
    drop(path);
    match object {
        None => false,
        Some(object) => object.bytes.as_slice() == bytes && object.last_modified == moment,
    }
}

#[test]
fn manifests_are_put_as_their_bytes(rt: HostRuntime) {
    let cluster = after(&rt, rt.alloc(), FLUSH);
    assert!(rt; cluster.trail().len() == 13);
    assert!(rt; is_version(&rt, &cluster, 2, RAISED.as_slice(), 1000));
    assert!(rt; is_version(&rt, &cluster, 3, FLUSHED.as_slice(), 2000));
    drop(cluster);
}

// A new database, without a record.
const NEW: &str = r#"{"databases":[{"path":"db"}],"events":[]}"#;

// The bytes of a new manifest.
const FIRST: [u8; 97] = [
    0, 2, 0, 0, 0, 0, 1, 0, 0, 0, 0, 0, 0, 0, 0, 0, 0, 0, 0, 0, 0, 0, 0, 0, 0, 0, 0, 0, 0, 0, 0, 0,
    0, 0, 0, 0, 0, 0, 0, 0, 0, 0, 0, 0, 0, 0, 0, 0, 0, 0, 0, 0, 0, 0x80, 0, 0, 0, 0, 0, 0, 0, 0, 0,
    0, 0, 0, 0, 0, 0, 0, 0, 0, 0, 0, 0, 0, 0, 0, 0, 0, 0, 0, 0, 0, 0, 0, 0, 0, 0, 0, 0, 0, 0, 0, 0,
    0, 0,
];

#[test]
fn a_new_database_has_the_first_manifest(rt: HostRuntime) {
    let cluster = after(&rt, rt.alloc(), NEW);
    let first = bytes_at(&cluster, ObjectPath::Manifest(db(&rt), 1));
    assert!(rt; first.expect(&rt, "a version") == FIRST.as_slice());
    drop(cluster);
}

const COMES: &str =
    r#"{"databases":[{"path":"db"}],"events":[{"open":1,"kind":"writer","db":"db"}]}"#;

const OPENS: &str =
    r#"{"databases":[],"events":[{"start":1,"call":"open_writer"},{"step":1,"at":1000}]}"#;

// The events before a bad one stand, and the next run goes on from there.
#[test]
fn a_cluster_goes_on_after_a_bad_event(rt: HostRuntime) {
    let comes = script_of(&rt, rt.alloc(), COMES);
    let opens = script_of(&rt, rt.alloc(), OPENS);
    let mut cluster = after(&rt, rt.alloc(), COMES);
    assert!(rt; bad_place(rt.alloc(), &mut cluster, comes.events.as_slice()) == Some(0));
    assert!(rt; cluster.trail().len() == 1);
    does(&rt, rt.alloc(), &mut cluster, opens.events.as_slice());
    assert!(rt; cluster.trail().len() == 3);
    drop(cluster);
    drop(opens);
    drop(comes);
}

const COLLECTOR: &str =
    r#"{"databases":[{"path":"db"}],"events":[{"open":1,"kind":"collector","db":"db"}]}"#;

// Whether a collector can start this pass.
fn starts(rt: &impl Abort, alloc: Global, pass: GcMessage, filter: FilterWord) -> bool {
    let mut cluster = after(rt, alloc, COLLECTOR);
    let call = Call::Pass {
        pass,
        min_age: 0,
        dry_run: false,
        filter,
    };
    let start = [Event::start(alloc, 1, call).expect(rt, "memory")];
    let bad = bad_place(alloc, &mut cluster, &start);
    let entries = cluster.trail().len();
    drop(start);
    drop(cluster);
    bad.is_none() && entries == 2
}

const PASSES: [(GcMessage, bool); 6] = [
    (GcMessage::Manifest, true),
    (GcMessage::Wal, false),
    (GcMessage::WalFence, false),
    (GcMessage::Compacted, true),
    (GcMessage::Compactions, true),
    (GcMessage::Detach, false),
];

#[test]
fn manifests_records_and_tables_have_a_pass(rt: HostRuntime) {
    for (pass, starting) in &PASSES {
        assert!(rt; starts(&rt, rt.alloc(), *pass, FilterWord::All) == *starting);
    }
}

#[test]
fn a_pass_starts_with_any_filter(rt: HostRuntime) {
    let paths: Listed<Text> = Listed::new(rt.alloc());
    let manifest = GcMessage::Manifest;
    assert!(rt; starts(&rt, rt.alloc(), manifest, FilterWord::Paths(paths)));
    assert!(rt; starts(&rt, rt.alloc(), manifest, FilterWord::Nothing));
}

// A database with a table.
const TABLE: &str =
    r#"{"databases":[{"path":"db","floor":100,"l0":[{"view":"5:1","table":"100:1"}]}],"events":[]}"#;

// A database with a record, of which a table is an output.
const OUTPUT: &str = r#"{"databases":[{"path":"db","record":{"epoch":0,"compactions":[
  {"id":"100:2","status":"compacted","views":[],"runs":[7],"destination":7,"outputs":["100:3"]}]}}],"events":[]}"#;

// What is changed of the database before the cluster is made.
#[derive(Clone, Copy)]
enum Change {
    Nothing,
    // The table is taken out of the store.
    NoTable,
    // A checkpoint of the version of this number is added.
    Checkpoint(u64),
    // The record has this epoch.
    RecordEpoch(u64),
}

fn add_checkpoint(rt: &impl Abort, spec: &mut DbSpec, version: u64) {
    let checkpoint = Checkpoint {
        id: CheckpointId::from_u64(1),
        manifest_id: version,
        expire_time: None,
        create_time: 0,
        name: None,
    };
    let checkpoints = &mut spec.manifest.core.checkpoints;
    checkpoints.push(checkpoint).expect(rt, "memory");
}

fn change_spec(rt: &impl Abort, alloc: Global, spec: &mut DbSpec, change: Change) {
    match change {
        Change::Nothing => {}
        Change::NoTable => drop(mem::replace(&mut spec.tables, Listed::new(alloc))),
        Change::Checkpoint(version) => add_checkpoint(rt, spec, version),
        Change::RecordEpoch(epoch) => {
            if let Some(record) = &mut spec.compactions {
                record.compactor_epoch = epoch;
            }
        }
    }
}

// Why no cluster is made.
fn cause(rt: &impl Abort, alloc: Global, text: &str, change: Change) -> Option<ClusterCause> {
    let Script { databases, events } = script_of(rt, alloc, text);
    drop(events);
    let mut specs = databases.into_vec();
    for spec in specs.as_mut_slice() {
        change_spec(rt, alloc, spec, change);
    }
    match Cluster::new(alloc, specs) {
        Ok(cluster) => {
            drop(cluster);
            None
        }
        Err(NewError::BadCluster(cause)) => Some(cause),
        Err(_) => None,
    }
}

// The tables of trees are present, and opening checkpoints name the first version; the outputs of a record are present, and its epoch is
// at most that of its manifest.
const CHANGES: &[(&str, Change, Option<ClusterCause>)] = &[
    (TABLE, Change::Nothing, None),
    (TABLE, Change::NoTable, Some(ClusterCause::Tables)),
    (TABLE, Change::Checkpoint(1), None),
    (
        TABLE,
        Change::Checkpoint(2),
        Some(ClusterCause::Checkpoints),
    ),
    (OUTPUT, Change::Nothing, None),
    (OUTPUT, Change::NoTable, Some(ClusterCause::Outputs)),
    (OUTPUT, Change::RecordEpoch(1), Some(ClusterCause::Epoch)),
];

// The table as a slice: a function that names a table has all of it written out.
fn changes() -> &'static [(&'static str, Change, Option<ClusterCause>)] {
    CHANGES
}

#[test]
fn no_script_has_these_databases(rt: HostRuntime) {
    for (text, change, wanted) in changes() {
        let found = cause(&rt, rt.alloc(), text, *change);
        assert!(rt; found == *wanted, "{text}");
    }
}

// A checkpoint that a step at 1500 makes, whose moments are whole seconds.
const LIFETIME: &str = r#"{"databases":[{"path":"db"}],"events":[
  {"open":1,"kind":"holder","db":"db"},{"start":1,"call":"write_checkpoint","id":7,"lifetime":2500},
  {"step":1,"at":1500,"times":5}]}"#;

// A checkpoint whose put lost its answer, and a second one.
const LOST: &str = r#"{"databases":[{"path":"db"}],"events":[
  {"open":1,"kind":"holder","db":"db"},{"start":1,"call":"write_checkpoint","id":7},
  {"step":1,"at":1000,"times":3},{"step":1,"at":1000,"mark":"lost"},
  {"start":1,"call":"write_checkpoint","id":8},{"step":1,"at":1000,"times":5}]}"#;

// A checkpoint: its number, the version that it names, its expiry and when it was made.
type Made = (u64, u64, Option<i64>, i64);

// A script, a number, and the checkpoints of the version of this number.
const MADE: &[(&str, u64, &[Made])] = &[
    (LIFETIME, 2, &[(7, 2, Some(4000), 1000)]),
    (LOST, 3, &[(7, 2, None, 1000), (8, 3, None, 1000)]),
];

// The table as a slice: a function that names a table has all of it written out.
fn made_rows() -> &'static [(&'static str, u64, &'static [Made])] {
    MADE
}

fn is_made(checkpoint: &Checkpoint, made: Made) -> bool {
    checkpoint.id.is(&CheckpointId::from_u64(made.0))
        && checkpoint.manifest_id == made.1
        && checkpoint.expire_time == made.2
        && checkpoint.create_time == made.3
}

fn are_made(checkpoints: &[Checkpoint], made: &[Made]) -> bool {
    for (i, checkpoint) in checkpoints.iter().enumerate() {
        match made.get(i) {
            Some(made) if is_made(checkpoint, *made) => {}
            _ => return false,
        }
    }
    checkpoints.len() == made.len()
}

// Whether the bytes are of a manifest with just these checkpoints.
fn tells(rt: &impl Abort, alloc: Global, bytes: &[u8], made: &[Made]) -> bool {
    let manifest = decode_manifest(alloc, bytes).expect(rt, "a manifest");
    let good = are_made(manifest.core.checkpoints.as_slice(), made);
    drop(manifest);
    good
}

// Whether a version that a script leaves has just these checkpoints.
fn leaves(rt: &impl Abort, alloc: Global, script: &str, number: u64, made: &[Made]) -> bool {
    let cluster = after(rt, alloc, script);
    let good = match bytes_at(&cluster, ObjectPath::Manifest(db(rt), number)) {
        None => false,
        Some(bytes) => tells(rt, alloc, bytes, made),
    };
    drop(cluster);
    good
}

// Each names the version that its commit makes.
#[test]
fn checkpoints_stand_in_their_own_version(rt: HostRuntime) {
    for (script, number, made) in made_rows() {
        assert!(rt; leaves(&rt, rt.alloc(), script, *number, made), "{script}");
    }
}
