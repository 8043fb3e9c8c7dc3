//! A rival that commits first at each commit of a call.

use crate::racing_store::RacingStore;
use crate::test_lives::{checkpoint, code, created, db, finished, id, latest, opened, submitted};
use slate_ids::SlateDBError;
use slate_state_writer::CompactorStateWriter;
use slate_store::MemoryStore;
use std::alloc::Global;
use std::process::Abort;

/// A store with the first manifest, whose put is the first; the one after so many is lost.
fn racing(rt: &impl Abort, alloc: Global, left: u32) -> RacingStore {
    let inner = MemoryStore::new(alloc, Vec::new(alloc));
    let mut store = RacingStore { inner, left };
    created(rt, alloc, &mut store);
    store
}

/// An open, or why it was refused, in so many tries.
fn open(
    rt: &impl Abort,
    alloc: Global,
    store: &mut RacingStore,
    tries: u32,
) -> Result<CompactorStateWriter, SlateDBError> {
    assert!(rt; tries > 0);
    CompactorStateWriter::new(alloc, store, db(rt), 1000, tries)
}

/// Of the put of this place that an open loses: its epoch with two tries, and the numbers of the manifest and of the record then.
const OPENS: [(u32, u64, (u64, u64)); 4] = [
    (1, 1, (3, 3)),
    (2, 2, (3, 3)),
    (3, 2, (3, 4)),
    (4, 2, (3, 5)),
];

#[test]
fn an_open_begins_again_after_a_conflict(rt: HostRuntime) {
    for (left, epoch, numbers) in &OPENS {
        let alloc = rt.alloc();
        let mut store = racing(&rt, alloc, *left);
        let writer = open(&rt, alloc, &mut store, 2).expect(&rt, "an open");
        assert!(rt; writer.local_epoch() == *epoch, "{left}");
        drop(writer);
        assert!(rt; latest(&rt, alloc, &mut store) == *numbers, "{left}");
        drop(store);
        let mut store = racing(&rt, alloc, *left);
        assert!(rt; code(open(&rt, alloc, &mut store, 1)) == 21, "{left}");
        drop(store);
    }
}

/// Of the put that a write of the whole state loses, after the nine before it: the numbers that it leaves with two tries, and with one.
const WRITES: [(u32, (u64, u64), (u64, u64)); 3] = [
    (9, (5, 8), (3, 7)),
    (10, (5, 8), (4, 7)),
    (11, (5, 9), (4, 8)),
];

/// What a write of the whole state answers, and the numbers that it leaves.
fn written(rt: &impl Abort, alloc: Global, left: u32, tries: u32) -> (u8, (u64, u64), usize) {
    let mut store = racing(rt, alloc, left);
    let mut writer = finished(rt, alloc, &mut store);
    assert!(rt; tries > 0);
    let reply = writer.write_state_safely(alloc, &mut store, checkpoint(), 61_500, tries);
    let pending = writer.local().pending.as_slice().len();
    drop(writer);
    let numbers = latest(rt, alloc, &mut store);
    drop(store);
    (code(reply), numbers, pending)
}

#[test]
fn a_write_begins_again_with_the_manifest(rt: HostRuntime) {
    for (left, twice, once) in &WRITES {
        assert!(rt;
            written(&rt, rt.alloc(), *left, 2) == (0, *twice, 0),
            "{left}"
        );
        let pending = if *left == 11 { 0 } else { 1 };
        assert!(rt;
            written(&rt, rt.alloc(), *left, 1) == (21, *once, pending),
            "{left}"
        );
    }
}

#[test]
fn a_schedule_begins_again(rt: HostRuntime) {
    let alloc = rt.alloc();
    let mut store = racing(&rt, alloc, 6);
    let mut writer = opened(&rt, alloc, &mut store);
    assert!(rt; submitted(&rt, alloc, &mut store) == 0);
    assert!(rt; code(writer.schedule(alloc, &mut store, id(20), 2000, 2)) == 0);
    assert!(rt; latest(&rt, alloc, &mut store) == (2, 6));
    drop(writer);
    drop(store);
}
