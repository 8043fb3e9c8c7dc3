//! What stands where one store call fails or loses its answer, or a rival opens between two steps.

use crate::test_lives::{
    checkpoint, code, db, finished, latest, opened, with_manifest, with_marks,
};
use slate_state_writer::{CompactorStateMachine, CompactorStateWriter};
use slate_store::{Mark, MemoryStore, Step};
use std::alloc::Global;
use std::process::Abort;

/// Of the store call of this place in a write of the whole state: the greatest numbers of the manifest and of the record that stand where it
/// has no effect, and where it loses its answer; and the number of the manifest that the compactor holds then, and how many compactions are
/// pending.
const STANDS: &[((u64, u64), (u64, u64), (u64, usize))] = &[
    ((2, 7), (2, 7), (2, 1)),
    ((2, 7), (2, 7), (2, 1)),
    ((2, 7), (2, 7), (2, 1)),
    ((2, 7), (3, 7), (2, 1)),
    ((3, 7), (3, 7), (2, 1)),
    ((3, 7), (4, 7), (3, 1)),
    ((4, 7), (4, 7), (3, 1)),
    ((4, 7), (4, 7), (4, 0)),
    ((4, 7), (4, 7), (4, 0)),
    ((4, 7), (4, 7), (4, 0)),
    ((4, 7), (4, 8), (4, 0)),
    ((4, 8), (4, 8), (4, 0)),
];

// The table as a slice: a function that names a table has all of it written out.
fn stands_rows() -> &'static [((u64, u64), (u64, u64), (u64, usize))] {
    STANDS
}

/// The calls before the write of a state: of the first manifest, the open, the submission, the schedule, the claim, the report and the
/// refresh.
const BEFORE: usize = 2 + 12 + 5 + 5 + 5 + 5 + 6;

/// What the write of a state answers and leaves, where the call of this place goes under the mark.
fn marked(
    rt: &impl Abort,
    alloc: Global,
    place: usize,
    mark: Mark,
) -> (u8, (u64, u64), (u64, usize)) {
    let mut store = with_marks(rt, alloc, BEFORE.wrapping_add(place), mark);
    let mut writer = finished(rt, alloc, &mut store);
    let reply = writer.write_state_safely(alloc, &mut store, checkpoint(), 61_500, 2);
    let held = (writer.manifest().0, writer.local().pending.as_slice().len());
    assert!(rt; writer.compactions().0 == 7);
    drop(writer);
    let numbers = latest(rt, alloc, &mut store);
    drop(store);
    (code(reply), numbers, held)
}

#[test]
fn a_call_without_effect_leaves_what_stood(rt: HostRuntime) {
    for (place, (stands, _, held)) in stands_rows().iter().enumerate() {
        let left = marked(&rt, rt.alloc(), place, Mark::Fail);
        assert!(rt; left == (20, *stands, *held), "{place}");
    }
}

#[test]
fn a_lost_answer_leaves_its_put(rt: HostRuntime) {
    for (place, (_, stands, held)) in stands_rows().iter().enumerate() {
        let left = marked(&rt, rt.alloc(), place, Mark::Lost);
        assert!(rt; left == (20, *stands, *held), "{place}");
    }
}

/// Whether an open that loses the answer of its call of this place ends in a fault, and another one opens with this epoch.
fn opens_after(rt: &impl Abort, alloc: Global, place: usize) -> u64 {
    let mut store = with_marks(rt, alloc, place.wrapping_add(2), Mark::Lost);
    assert!(rt; code(CompactorStateWriter::new(alloc, &mut store, db(rt), 1000, 1)) == 20);
    let writer = opened(rt, alloc, &mut store);
    let epoch = writer.local_epoch();
    drop(writer);
    drop(store);
    epoch
}

// The fourth of its calls puts the epoch.
#[test]
fn an_open_goes_on_after_a_lost_answer(rt: HostRuntime) {
    for place in 0..12usize {
        let epoch = if place < 3 { 1 } else { 2 };
        assert!(rt; opens_after(&rt, rt.alloc(), place) == epoch, "{place}");
    }
}

/// A step: 99 where it goes on, and else the number of its refusal, or 0.
fn told<T: Drop>(step: Step<T>) -> u8 {
    match step {
        Step::Again => 99,
        Step::Done(reply) => code(reply),
    }
}

/// A step of a call on the state.
fn step(
    rt: &impl Abort,
    alloc: Global,
    store: &mut MemoryStore,
    writer: &mut CompactorStateWriter,
    machine: &mut CompactorStateMachine,
) -> u8 {
    assert!(rt; machine.due());
    told(machine.next(alloc, writer, store, 61_500))
}

// The rival opens after the manifest was read.
#[test]
fn a_machine_ends_at_a_conflict(rt: HostRuntime) {
    let alloc = rt.alloc();
    let mut store = with_manifest(&rt, alloc);
    let mut writer = finished(&rt, alloc, &mut store);
    let mut machine = writer.start_write_manifest_safely(checkpoint());
    for _ in 0..3u8 {
        assert!(rt; step(&rt, alloc, &mut store, &mut writer, &mut machine) == 99);
    }
    let other = opened(&rt, alloc, &mut store);
    drop(other);
    assert!(rt; step(&rt, alloc, &mut store, &mut writer, &mut machine) == 1);
    assert!(rt; !machine.due() && writer.local().pending.as_slice().len() == 1);
    let mut again = writer.start_write_manifest_safely(checkpoint());
    for _ in 0..2u8 {
        assert!(rt; step(&rt, alloc, &mut store, &mut writer, &mut again) == 99);
    }
    assert!(rt; step(&rt, alloc, &mut store, &mut writer, &mut again) == 2);
    drop(again);
    drop(machine);
    drop(writer);
    drop(store);
}
