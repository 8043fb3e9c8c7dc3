//! Runs of all passes: their reports, what they leave, and their statistics.

use crate::test_collectors::{Told, collector, numbers, told_so};
use crate::test_filters::database;
use crate::test_stores::{Put, are_left, store_failing, store_of};
use slate_gc::{GarbageCollector, GarbageCollectorOptions, GcMessage};
use slate_store::MemoryStore;
use std::alloc::Global;
use std::process::Abort;

/// A database as it was made, and two writers that opened.
const THREE: [Put; 3] = [Put::Plain(1), Put::Later(2), Put::Later(3)];

/// A manifest whose checkpoint names a version that is gone, and two records.
const GONE: [Put; 3] = [
    Put::Naming(2, 1, None),
    Put::Record(1, None),
    Put::Record(2, None),
];

/// A manifest at the boundary, so that each read of the latest one begins again.
const BOUNDED: [Put; 2] = [Put::Plain(1), Put::Boundary(1)];

/// The passes that are configured, the objects, the call that fails counted from 0, what the report says, which objects are left, and the
/// statistics. Each least age is 1,000, and the moment is 3,601,000.
const RUNS: &[(
    &[GcMessage],
    &[Put],
    Option<usize>,
    &[Told],
    &[bool],
    [u64; 9],
)] = &[
    (
        &[GcMessage::Manifest],
        &THREE,
        None,
        &[(GcMessage::Manifest, (2, 2, 0, 1), 0)],
        &[false, false, true],
        [2, 0, 0, 0, 0, 0, 1, 1, 0],
    ),
    // the ninth call is the first delete
    (
        &[GcMessage::Manifest],
        &THREE,
        Some(8),
        &[(GcMessage::Manifest, (2, 1, 1, 2), 0)],
        &[true, false, true],
        [1, 0, 0, 0, 0, 0, 1, 2, 0],
    ),
    // a refused pass between two that run: no count of versions is set by it
    (
        &[
            GcMessage::Manifest,
            GcMessage::Compacted,
            GcMessage::Compactions,
        ],
        &GONE,
        None,
        &[
            (GcMessage::Manifest, (0, 0, 0, 1), 0),
            (GcMessage::Compacted, (0, 0, 0, 0), 4),
            (GcMessage::Compactions, (1, 1, 0, 1), 0),
        ],
        &[true, false, true],
        [0, 0, 0, 0, 1, 0, 1, 1, 1],
    ),
    // the first call fails, and the next pass runs
    (
        &[GcMessage::Manifest, GcMessage::Compactions],
        &GONE,
        Some(0),
        &[
            (GcMessage::Manifest, (0, 0, 0, 0), 20),
            (GcMessage::Compactions, (1, 1, 0, 1), 0),
        ],
        &[true, false, true],
        [0, 0, 0, 0, 1, 0, 1, 0, 1],
    ),
    // all tries are used, by each pass its own
    (
        &[GcMessage::Manifest, GcMessage::Compactions],
        &BOUNDED,
        None,
        &[
            (GcMessage::Manifest, (0, 0, 0, 0), 21),
            (GcMessage::Compactions, (0, 0, 0, 0), 21),
        ],
        &[true, true],
        [0, 0, 0, 0, 0, 0, 1, 0, 0],
    ),
    // nothing is configured
    (
        &[],
        &THREE,
        None,
        &[],
        &[true, true, true],
        [0, 0, 0, 0, 0, 0, 1, 0, 0],
    ),
];

// The table as a slice: a function that names a table has all of it written out.
fn runs() -> &'static [(
    &'static [GcMessage],
    &'static [Put],
    Option<usize>,
    &'static [Told],
    &'static [bool],
    [u64; 9],
)] {
    RUNS
}

/// A store with these objects. Where a number is given, the call after so many fails.
fn store_that(rt: &impl Abort, alloc: Global, puts: &[Put], faulty: Option<usize>) -> MemoryStore {
    match faulty {
        None => store_of(rt, alloc, database(rt), puts),
        Some(good) => store_failing(rt, alloc, database(rt), puts, good),
    }
}

/// Whether a run of these passes says so, and the statistics afterwards.
fn once(
    rt: &impl Abort,
    alloc: Global,
    passes: &[GcMessage],
    store: &mut MemoryStore,
    told: &[Told],
) -> (bool, [u64; 9]) {
    let mut gc = collector(rt, passes, 1000);
    let report = gc
        .run_gc_once(alloc, store, 3_601_000, 3)
        .expect(rt, "memory");
    let stats = numbers(gc.stats());
    drop(gc);
    (told_so(report, told), stats)
}

fn runs_so(
    rt: &impl Abort,
    alloc: Global,
    passes: &[GcMessage],
    puts: &[Put],
    faulty: Option<usize>,
    told: &[Told],
    left: &[bool],
    stats: [u64; 9],
) -> bool {
    let db = database(rt);
    let mut store = store_that(rt, alloc, puts, faulty);
    let (says_so, found) = once(rt, alloc, passes, &mut store, told);
    let are_so = are_left(db, &store, puts, left);
    drop(store);
    says_so && are_so && found == stats
}

#[test]
fn all_passes_run_once(rt: HostRuntime) {
    for (row, (passes, puts, faulty, told, left, stats)) in runs().iter().enumerate() {
        assert!(rt;
            runs_so(
                &rt,
                rt.alloc(),
                *passes,
                *puts,
                *faulty,
                *told,
                *left,
                *stats
            ),
            "at row {row}"
        );
    }
}

/// By the defaults, on a new database.
const FIVE: [Told; 5] = [
    (GcMessage::Manifest, (0, 0, 0, 1), 0),
    (GcMessage::Wal, (0, 0, 0, 0), 0),
    (GcMessage::WalFence, (0, 0, 0, 0), 0),
    (GcMessage::Compacted, (0, 0, 0, 0), 0),
    (GcMessage::Compactions, (0, 0, 0, 0), 0),
];

fn runs_twice(rt: &impl Abort, alloc: Global, gc: &mut GarbageCollector) -> bool {
    let mut store = store_of(rt, alloc, database(rt), &[Put::Plain(1)]);
    let first = gc
        .run_gc_once(alloc, &mut store, 5000, 1)
        .expect(rt, "memory");
    let is_first = told_so(first, &FIVE) && numbers(gc.stats()) == [0, 0, 0, 0, 0, 0, 1, 1, 0];
    let second = gc
        .run_gc_once(alloc, &mut store, 5000, 1)
        .expect(rt, "memory");
    drop(store);
    is_first & told_so(second, &FIVE)
}

#[test]
fn a_new_database_has_nothing_to_collect(rt: HostRuntime) {
    let options = GarbageCollectorOptions::default();
    let mut gc = GarbageCollector::new(database(&rt), options, None, None);
    let is_so = runs_twice(&rt, rt.alloc(), &mut gc);
    let stats = numbers(gc.stats());
    drop(gc);
    assert!(rt; is_so);
    assert!(rt; stats == [0, 0, 0, 0, 0, 0, 2, 1, 0]);
}
