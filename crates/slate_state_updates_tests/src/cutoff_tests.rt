//! The cutoff: no new flushed table is from before the floor and the watermark.

use crate::test_values::With::{Floor, Log, Marker, Run, Segment, Table};
use crate::test_values::{With, manifest_of};
use slate_ids::SlateDBError;
use slate_state_updates::l0_ulid_cutoff;
use std::alloc::Global;
use std::process::Abort;

/// What the current manifest has, what the dirty one has, and the two ticks of the refusal.
const CUTOFF: &[(&[With], &[With], Option<(i64, i64)>)] = &[
    (&[Table(100, 0)], &[Table(100, 0), Table(100, 1)], None),
    (
        &[Table(100, 0)],
        &[Table(100, 0), Table(50, 0)],
        Some((100, 50)),
    ),
    (&[], &[Table(1, 0)], None),
    (&[Marker(300)], &[Table(250, 0)], Some((300, 250))),
    // the view is from the moment 999
    (&[Table(100, 0)], &[Table(50, 0)], Some((100, 50))),
    // a floor above the watermark, and its tie
    (&[Floor(400)], &[Table(350, 1)], Some((400, 350))),
    (&[Floor(400)], &[Table(400, 0)], None),
    (
        &[Floor(400), Table(500, 0)],
        &[Table(450, 0)],
        Some((500, 450)),
    ),
    // a floor above the last tick, and at it
    (
        &[Floor(9_223_372_036_854_775_808)],
        &[Table(350, 0)],
        Some((i64::MAX, 350)),
    ),
    (
        &[Floor(9_223_372_036_854_775_807)],
        &[Table(350, 0)],
        Some((i64::MAX, 350)),
    ),
    (&[Floor(u64::MAX)], &[Table(350, 0)], Some((i64::MAX, 350))),
    // files of the write-ahead log pass
    (&[Floor(400)], &[Log(1)], None),
    (&[Floor(400)], &[Log(1), Table(399, 0)], Some((400, 399))),
    // flushed tables of any tree are known, tables of runs alone are not
    (&[Floor(400), Segment("a", &[50])], &[Table(50, 0)], None),
    (&[Floor(400), Run(50)], &[Table(50, 0)], Some((400, 50))),
    // the root comes first, and the newest
    (
        &[Floor(400)],
        &[
            Table(410, 0),
            Table(300, 0),
            Table(200, 0),
            Segment("a", &[100]),
        ],
        Some((400, 300)),
    ),
    (
        &[Floor(400)],
        &[Segment("a", &[400, 100]), Segment("b", &[200])],
        Some((400, 100)),
    ),
    // runs of the dirty manifest don't count
    (&[Floor(400)], &[Run(100)], None),
];

// The table as a slice: a function that names a table has all of it written out.
fn cutoff() -> &'static [(&'static [With], &'static [With], Option<(i64, i64)>)] {
    CUTOFF
}

/// The ticks of a refusal; (-1, -1) for another refusal.
fn ticks_in(checked: &Result<(), SlateDBError>) -> Option<(i64, i64)> {
    match checked {
        Ok(()) => None,
        Err(e) => match e {
            SlateDBError::InvalidClockTick {
                last_tick,
                next_tick,
            } => Some((*last_tick, *next_tick)),
            _ => Some((-1, -1)),
        },
    }
}

/// The ticks of the refusal of a dirty manifest after the current one; (-1, -1) for another refusal.
fn ticks(rt: &impl Abort, alloc: Global, current: &[With], dirty: &[With]) -> Option<(i64, i64)> {
    let current = manifest_of(rt, alloc, &[current]);
    let dirty = manifest_of(rt, alloc, &[dirty]);
    let checked = l0_ulid_cutoff(alloc, &dirty, &current);
    drop(dirty);
    drop(current);
    let found = ticks_in(&checked);
    drop(checked);
    found
}

#[test]
fn new_tables_are_from_the_floor_and_the_watermark_on(rt: HostRuntime) {
    for (row, (current, dirty, refused)) in cutoff().iter().enumerate() {
        assert!(rt;
            ticks(&rt, rt.alloc(), current, dirty) == *refused,
            "at row {row}"
        );
    }
}
