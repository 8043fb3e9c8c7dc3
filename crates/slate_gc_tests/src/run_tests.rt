//! Runs over ticks: which passes they run, and where they end.

use crate::test_collectors::{Told, collector, numbers, told_so};
use crate::test_filters::database;
use crate::test_stores::{Put, store_of};
use slate_gc::{GcMessage, ListTicks, RunEnd, Tick, Ticks};
use slate_store::MemoryStore;
use std::alloc::Global;
use std::process::Abort;

/// Three manifests and two records.
const BOTH: [Put; 5] = [
    Put::Plain(1),
    Put::Plain(2),
    Put::Plain(3),
    Put::Record(1, None),
    Put::Record(2, None),
];

const MANIFEST: Tick = Tick::At(GcMessage::Manifest, 5000);

const RECORDS: Tick = Tick::At(GcMessage::Compactions, 5000);

/// The objects, the ticks, the turns; then how a run ends, what the report says, the tick that is next, and the statistics. The passes
/// over manifests and records are configured.
const RUNS: &[(&[Put], &[Tick], u64, RunEnd, &[Told], Tick, [u64; 9])] = &[
    // a new database
    (
        &[Put::Plain(1)],
        &[MANIFEST],
        1,
        RunEnd::Turns,
        &[(GcMessage::Manifest, (0, 0, 0, 1), 0)],
        Tick::Stop,
        [0, 0, 0, 0, 0, 0, 0, 1, 0],
    ),
    // one tick, one pass
    (
        &BOTH,
        &[RECORDS, MANIFEST],
        1,
        RunEnd::Turns,
        &[(GcMessage::Compactions, (1, 1, 0, 1), 0)],
        MANIFEST,
        [0, 0, 0, 0, 1, 0, 0, 0, 1],
    ),
    // in the order of the ticks, and one pass twice
    (
        &BOTH,
        &[RECORDS, MANIFEST, RECORDS],
        3,
        RunEnd::Turns,
        &[
            (GcMessage::Compactions, (1, 1, 0, 1), 0),
            (GcMessage::Manifest, (2, 2, 0, 1), 0),
            (GcMessage::Compactions, (0, 0, 0, 1), 0),
        ],
        Tick::Stop,
        [2, 0, 0, 0, 1, 0, 0, 1, 1],
    ),
    // a stop in the middle
    (
        &BOTH,
        &[MANIFEST, Tick::Stop, RECORDS],
        5,
        RunEnd::Stopped,
        &[(GcMessage::Manifest, (2, 2, 0, 1), 0)],
        RECORDS,
        [2, 0, 0, 0, 0, 0, 0, 1, 0],
    ),
    // a stop that is no longer among the turns
    (
        &BOTH,
        &[MANIFEST, Tick::Stop],
        1,
        RunEnd::Turns,
        &[(GcMessage::Manifest, (2, 2, 0, 1), 0)],
        Tick::Stop,
        [2, 0, 0, 0, 0, 0, 0, 1, 0],
    ),
    // no tick is left
    (
        &BOTH,
        &[RECORDS],
        2,
        RunEnd::Stopped,
        &[(GcMessage::Compactions, (1, 1, 0, 1), 0)],
        Tick::Stop,
        [0, 0, 0, 0, 1, 0, 0, 0, 1],
    ),
    // passes that aren't configured do nothing, and use a turn
    (
        &BOTH,
        &[
            Tick::At(GcMessage::Wal, 5000),
            Tick::At(GcMessage::Detach, 5000),
            MANIFEST,
            RECORDS,
        ],
        3,
        RunEnd::Turns,
        &[(GcMessage::Manifest, (2, 2, 0, 1), 0)],
        RECORDS,
        [2, 0, 0, 0, 0, 0, 0, 1, 0],
    ),
    (
        &BOTH,
        &[MANIFEST],
        0,
        RunEnd::Turns,
        &[],
        MANIFEST,
        [0, 0, 0, 0, 0, 0, 0, 0, 0],
    ),
];

// The table as a slice: a function that names a table has all of it written out.
fn runs() -> &'static [(
    &'static [Put],
    &'static [Tick],
    u64,
    RunEnd,
    &'static [Told],
    Tick,
    [u64; 9],
)] {
    RUNS
}

fn ticks_of(rt: &impl Abort, alloc: Global, ticks: &[Tick]) -> ListTicks {
    ListTicks::new(Vec::from_slice(alloc, ticks).expect(rt, "memory"))
}

/// How a run ends, whether its report says so, and the statistics afterwards.
fn run(
    rt: &impl Abort,
    alloc: Global,
    store: &mut MemoryStore,
    ticks: &mut ListTicks,
    turns: u64,
    told: &[Told],
) -> (RunEnd, bool, [u64; 9]) {
    let mut gc = collector(rt, &[GcMessage::Manifest, GcMessage::Compactions], 1000);
    let (found, report) = gc.run(alloc, store, ticks, turns, 3).expect(rt, "memory");
    let stats = numbers(gc.stats());
    drop(gc);
    (found, told_so(report, told), stats)
}

fn runs_so(
    rt: &impl Abort,
    alloc: Global,
    puts: &[Put],
    ticks: &[Tick],
    turns: u64,
    end: RunEnd,
    told: &[Told],
    next: Tick,
    stats: [u64; 9],
) -> bool {
    let mut store = store_of(rt, alloc, database(rt), puts);
    let mut list = ticks_of(rt, alloc, ticks);
    let (found, says_so, numbers) = run(rt, alloc, &mut store, &mut list, turns, told);
    drop(store);
    let is_next = list.next() == next;
    drop(list);
    found == end && says_so && is_next && numbers == stats
}

#[test]
fn ticks_run_passes(rt: HostRuntime) {
    for (row, (puts, ticks, turns, end, told, next, stats)) in runs().iter().enumerate() {
        assert!(rt;
            runs_so(
                &rt,
                rt.alloc(),
                *puts,
                *ticks,
                *turns,
                *end,
                *told,
                *next,
                *stats
            ),
            "at row {row}"
        );
    }
}

/// How a run of stopped ticks ends, and whether its report is empty.
fn run_stopped(
    rt: &impl Abort,
    alloc: Global,
    store: &mut MemoryStore,
    ticks: &mut ListTicks,
) -> (RunEnd, bool) {
    let mut gc = collector(rt, &[GcMessage::Manifest], 1000);
    gc.stop(ticks);
    let (end, report) = gc.run(alloc, store, ticks, 5, 3).expect(rt, "memory");
    drop(gc);
    (end, told_so(report, &[]))
}

#[test]
fn ticks_that_were_stopped_run_nothing(rt: HostRuntime) {
    let mut store = store_of(&rt, rt.alloc(), database(&rt), &BOTH);
    let mut ticks = ticks_of(&rt, rt.alloc(), &[MANIFEST, MANIFEST]);
    let (end, is_empty) = run_stopped(&rt, rt.alloc(), &mut store, &mut ticks);
    drop(store);
    let next = ticks.next();
    drop(ticks);
    assert!(rt; end == RunEnd::Stopped && is_empty);
    assert!(rt; next == Tick::Stop);
}
