//! Passes: what each reads, picks and leaves, its deletes, a filter that allows none, a dry run, no boundary, refusals.

use crate::test_filters::{Fixed, database};
use crate::test_stores::{End, NOW, Put, are_left, end_of, store_of};
use slate_gc_passes::{GarbageCollectorDirectoryOptions, GcPhase, PassSettings};
use slate_ids::{DbPath, GcMessage, Listed, ObjectPath};
use slate_store::{MemoryStore, StoredObject};
use std::alloc::Global;
use std::process::Abort;

const THREE: [Put; 3] = [Put::Plain(1), Put::Plain(2), Put::Plain(3)];

const NAMED: [Put; 3] = [Put::Plain(1), Put::Plain(2), Put::Naming(3, 1, None)];

const EXPIRED: [Put; 3] = [
    Put::Plain(1),
    Put::Plain(2),
    Put::Naming(3, 1, Some(NOW + 2)),
];

/// Three records beside a manifest.
const RECORDS: [Put; 4] = [
    Put::Plain(1),
    Put::Record(1, None),
    Put::Record(2, None),
    Put::Record(3, None),
];

/// A table of the first version, which a checkpoint names, one of the second, and others: unused, and at and above the least compaction
/// and the watermark.
const TABLES: [Put; 9] = [
    Put::Holding(1, &[50], None),
    Put::Holding(2, &[300], Some(1)),
    Put::Record(1, Some(100)),
    Put::Table(40),
    Put::Table(50),
    Put::Table(99),
    Put::Table(100),
    Put::Table(250),
    Put::Table(300),
];

/// The same with a later compaction: the watermark bounds.
const LATE: [Put; 5] = [
    Put::Holding(1, &[300], None),
    Put::Record(1, Some(900)),
    Put::Table(299),
    Put::Table(301),
    Put::Table(800),
];

/// Without a record nothing is early.
const ALONE: [Put; 3] = [
    Put::Holding(1, &[300], None),
    Put::Table(40),
    Put::Table(300),
];

/// The first version keeps 3 to 5, the second all from 5 on.
const FILES: [Put; 7] = [
    Put::Replaying(1, 2, 6, None),
    Put::Replaying(2, 5, 8, Some(1)),
    Put::Wal(1, true),
    Put::Wal(2, false),
    Put::Wal(3, false),
    Put::Wal(5, true),
    Put::Wal(6, false),
];

/// A pass, its least age, whether it is a dry run, keeps boundaries, and has a filter that allows none; a step that faults.
type Given = (GcMessage, u64, bool, bool, bool, Option<u8>);

const PLAIN: Given = (GcMessage::Manifest, 1000, false, true, false, None);

/// Over a store, what a pass ends with, the boundary of the manifests afterwards where it is asked for (0: none), and which of the
/// objects are left.
const PASSES: &[(&[Put], Given, End, Option<u64>, &[bool])] = &[
    (
        &THREE,
        PLAIN,
        (10, (2, 2, 0, 1), 0),
        Some(2),
        &[false, false, true],
    ),
    // a filter that allows none
    (
        &THREE,
        (GcMessage::Manifest, 1000, false, true, true, None),
        (8, (0, 0, 0, 3), 0),
        Some(2),
        &[true, true, true],
    ),
    // a dry run
    (
        &THREE,
        (GcMessage::Manifest, 0, true, true, false, None),
        (8, (0, 0, 0, 3), 0),
        Some(2),
        &[true, true, true],
    ),
    // without boundaries
    (
        &THREE,
        (GcMessage::Manifest, 1000, false, false, false, None),
        (8, (2, 2, 0, 1), 0),
        Some(0),
        &[false, false, true],
    ),
    // ages are counted at the moment of the list, which is three steps after the first, and strictly
    (
        &THREE,
        (GcMessage::Manifest, 3_601_002, false, true, false, None),
        (10, (2, 2, 0, 1), 0),
        Some(2),
        &[false, false, true],
    ),
    (
        &THREE,
        (GcMessage::Manifest, 3_601_003, false, true, false, None),
        (6, (0, 0, 0, 3), 0),
        Some(0),
        &[true, true, true],
    ),
    (
        &NAMED,
        PLAIN,
        (9, (1, 1, 0, 2), 0),
        Some(2),
        &[true, false, true],
    ),
    // an expired checkpoint is removed first: version 4 is the greatest then
    (
        &EXPIRED,
        PLAIN,
        (13, (3, 3, 0, 1), 0),
        Some(3),
        &[false, false, false],
    ),
    // a delete that faults is counted, and the next follows
    (
        &THREE,
        (GcMessage::Manifest, 1000, false, true, false, Some(8)),
        (10, (2, 1, 1, 2), 0),
        Some(2),
        &[true, false, true],
    ),
    // any other step that faults ends the pass: the list, the greatest, the boundary
    (
        &THREE,
        (GcMessage::Manifest, 1000, false, true, false, Some(3)),
        (4, (0, 0, 0, 0), 20),
        Some(0),
        &[true, true, true],
    ),
    (
        &THREE,
        (GcMessage::Manifest, 1000, false, true, false, Some(5)),
        (6, (0, 0, 0, 0), 20),
        Some(0),
        &[true, true, true],
    ),
    // the put of the boundary: nothing is deleted without it
    (
        &THREE,
        (GcMessage::Manifest, 1000, false, true, false, Some(7)),
        (8, (0, 0, 0, 0), 20),
        Some(0),
        &[true, true, true],
    ),
    // no manifest: the removal of expired checkpoints is refused
    (
        &[],
        PLAIN,
        (1, (0, 0, 0, 0), 3),
        Some(0),
        &[true, true, true],
    ),
    // the removal's read, the list, the get and the put of the advance, two deletes
    (
        &RECORDS,
        (GcMessage::Compactions, 1000, false, true, false, None),
        (8, (2, 2, 0, 1), 0),
        None,
        &[true, false, false, true],
    ),
    (
        &RECORDS,
        (GcMessage::Compactions, 1000, false, false, false, None),
        (6, (2, 2, 0, 1), 0),
        None,
        &[true, false, false, true],
    ),
    // too young
    (
        &RECORDS,
        (GcMessage::Compactions, 9_000_000, false, true, false, None),
        (4, (0, 0, 0, 3), 0),
        None,
        &[true, true, true, true],
    ),
    // a manifest and no record
    (
        &[Put::Plain(1)],
        (GcMessage::Compactions, 0, false, true, false, None),
        (4, (0, 0, 0, 0), 0),
        None,
        &[true],
    ),
    // the removal's read, the record, the manifest, the version that is named, the list, two deletes
    (
        &TABLES,
        (GcMessage::Compacted, 0, false, true, false, None),
        (13, (2, 2, 0, 0), 0),
        None,
        &[true, true, true, false, true, false, true, true, true],
    ),
    // tables are early by their ids, counted at the moment of the pass's first call
    (
        &TABLES,
        (
            GcMessage::Compacted,
            3_601_003 - 99,
            false,
            true,
            false,
            None,
        ),
        (12, (1, 1, 0, 0), 0),
        None,
        &[true, true, true, false, true, true, true, true, true],
    ),
    (
        &LATE,
        (GcMessage::Compacted, 0, false, true, false, None),
        (11, (1, 1, 0, 0), 0),
        None,
        &[true, true, false, true, true],
    ),
    (
        &ALONE,
        (GcMessage::Compacted, 0, false, true, false, None),
        (8, (0, 0, 0, 0), 0),
        None,
        &[true, true, true],
    ),
    // a version that is named and isn't there
    (
        &[Put::Holding(2, &[300], Some(1)), Put::Table(40)],
        (GcMessage::Compacted, 0, false, true, false, None),
        (8, (0, 0, 0, 0), 4),
        None,
        &[true, true],
    ),
    // a fault of the read of the named version
    (
        &TABLES,
        (GcMessage::Compacted, 0, false, true, false, Some(9)),
        (10, (0, 0, 0, 0), 20),
        None,
        &[true, true, true, true, true, true, true, true, true],
    ),
    // a delete that faults
    (
        &TABLES,
        (GcMessage::Compacted, 0, false, true, false, Some(11)),
        (13, (2, 1, 1, 0), 0),
        None,
        &[true, true, true, true, true, false, true, true, true],
    ),
    // the removal's read, the manifest, the version that is named, the list, deletes
    (
        &FILES,
        (GcMessage::Wal, 1000, false, true, false, None),
        (10, (2, 2, 0, 0), 0),
        None,
        &[true, true, false, false, true, true, true],
    ),
    (
        &FILES,
        (GcMessage::WalFence, 1000, false, true, false, None),
        (9, (1, 1, 0, 0), 0),
        None,
        &[true, true, true, false, true, true, true],
    ),
    (
        &FILES,
        (GcMessage::Wal, 9_000_000, false, true, false, None),
        (8, (0, 0, 0, 0), 0),
        None,
        &[true, true, true, true, true, true, true],
    ),
];

// The table as a slice: a function that names a table has all of it written out.
fn passes() -> &'static [(&'static [Put], Given, End, Option<u64>, &'static [bool])] {
    PASSES
}

fn settings(given: &Given) -> PassSettings {
    PassSettings {
        pass: given.0,
        options: GarbageCollectorDirectoryOptions {
            min_age: given.1,
            interval: None,
            dry_run: given.2,
        },
        boundary_files_enabled: given.3,
    }
}

fn boundary_in(object: Option<&StoredObject>) -> u64 {
    match object {
        None => 0,
        Some(object) => slate_layout::decode_boundary(object.bytes.as_slice()).unwrap_or(u64::MAX),
    }
}

fn boundary(db: DbPath, store: &MemoryStore) -> u64 {
    let path = ObjectPath::ManifestBoundary(db);
    let found = boundary_in(store.object(&path));
    drop(path);
    found
}

fn ends_by(
    rt: &impl Abort,
    alloc: Global,
    db: DbPath,
    store: &mut MemoryStore,
    given: &Given,
    filter: Option<&Fixed>,
) -> End {
    let mut pass = GcPhase::start();
    let end = end_of(
        rt,
        alloc,
        db,
        &mut pass,
        store,
        &settings(given),
        filter,
        given.5,
    );
    drop(pass);
    end
}

fn ends_over(
    rt: &impl Abort,
    alloc: Global,
    db: DbPath,
    store: &mut MemoryStore,
    given: &Given,
) -> End {
    let none = Fixed {
        objects: Listed::new(alloc),
    };
    let filter = if given.4 { Some(&none) } else { None };
    let end = ends_by(rt, alloc, db, store, given, filter);
    drop(none);
    end
}

fn ends_so(
    rt: &impl Abort,
    alloc: Global,
    puts: &[Put],
    given: &Given,
    wanted: &End,
    bound: Option<u64>,
    left: &[bool],
) -> bool {
    let db = database(rt);
    let mut store = store_of(rt, alloc, db, puts);
    let end = ends_over(rt, alloc, db, &mut store, given);
    let are_so = are_left(db, &store, puts, left);
    let found = boundary(db, &store);
    drop(store);
    are_so && bound.unwrap_or(found) == found && end == *wanted
}

#[test]
fn passes_end_so(rt: HostRuntime) {
    for (row, (puts, given, wanted, bound, left)) in passes().iter().enumerate() {
        assert!(rt;
            ends_so(&rt, rt.alloc(), *puts, given, wanted, *bound, *left),
            "at row {row}"
        );
    }
}

#[test]
fn default_options_are_five_minutes(rt: HostRuntime) {
    let options = GarbageCollectorDirectoryOptions::default();
    assert!(rt; options.min_age == 300_000);
    assert!(rt; options.interval.is_none());
    assert!(rt; !options.dry_run);
}
