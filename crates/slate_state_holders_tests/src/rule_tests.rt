//! The rules on records, as the update of a holder asks them.

use crate::answers::{db, empty};
use crate::record_values::record;
use slate_ids::{Listed, SlateDBError, Ulid, UpdateRule};
use slate_model::{Compactions, Plain};
use slate_state_holders::StoredCompactions;
use slate_store::MemoryStore;
use slate_txn_log::Right;
use std::alloc::Global;
use std::mem;
use std::process::Abort;

/// Compactions, by the milliseconds of each and of its output.
type Rows = &'static [(u64, u64)];

/// Under which right a record is put: a plain one, or that of a holder of the record to whom those at these milliseconds are pending.
#[derive(Clone, Copy, Debug)]
enum Put {
    Plainly,
    ByHolder(&'static [u64]),
}

/// Why an update is refused.
#[derive(Clone, Copy, Debug, PartialEq, Eq)]
enum Verdict {
    Committed,
    Early(i64, i64),
    Broken(UpdateRule),
    Other,
}

const HELD: Rows = &[(200, 200), (100, 110), (300, 310)];

/// The epoch and the compactions of a new record after the held one of epoch 2, and what its update answers.
const UPDATES: &[(u64, Rows, Put, Verdict)] = &[
    (2, HELD, Put::Plainly, Verdict::Committed),
    (3, HELD, Put::Plainly, Verdict::Committed),
    (1, HELD, Put::Plainly, Verdict::Broken(UpdateRule::U1)),
    // a late submission
    (
        2,
        &[(100, 110), (200, 200), (300, 310), (99, 120)],
        Put::Plainly,
        Verdict::Early(100, 99),
    ),
    (
        2,
        &[(100, 110), (200, 200), (300, 310), (150, 160)],
        Put::Plainly,
        Verdict::Committed,
    ),
    (
        1,
        &[(100, 110), (200, 200), (300, 310), (99, 120)],
        Put::Plainly,
        Verdict::Broken(UpdateRule::U1),
    ),
    // a late output
    (
        2,
        &[(100, 110), (200, 199), (300, 310)],
        Put::Plainly,
        Verdict::Early(200, 199),
    ),
    (
        2,
        &[(100, 100), (200, 200), (300, 300)],
        Put::Plainly,
        Verdict::Committed,
    ),
    (
        2,
        &[(99, 98), (100, 110), (200, 199), (300, 310)],
        Put::Plainly,
        Verdict::Early(100, 99),
    ),
    // none stays
    (2, &[], Put::ByHolder(&[]), Verdict::Broken(UpdateRule::U8)),
    (2, &[], Put::Plainly, Verdict::Broken(UpdateRule::U8)),
    // one goes
    (
        2,
        &[(200, 200), (300, 310)],
        Put::Plainly,
        Verdict::Broken(UpdateRule::U9),
    ),
    (
        2,
        &[(200, 200), (300, 310)],
        Put::ByHolder(&[]),
        Verdict::Committed,
    ),
    (
        2,
        &[(200, 200), (300, 310)],
        Put::ByHolder(&[100]),
        Verdict::Broken(UpdateRule::U9),
    ),
    (
        2,
        &[(200, 200), (300, 310)],
        Put::ByHolder(&[200]),
        Verdict::Committed,
    ),
    (
        2,
        &[(200, 199), (300, 310)],
        Put::Plainly,
        Verdict::Early(200, 199),
    ),
];

// The table as a slice: a function that names a table has all of it written out.
fn updates() -> &'static [(u64, Rows, Put, Verdict)] {
    UPDATES
}

fn right(rt: &impl Abort, alloc: Global, put: Put) -> Right {
    match put {
        Put::Plainly => Right::Plain,
        Put::ByHolder(pending) => {
            let mut ids = Listed::new(alloc);
            for ms in pending {
                ids.push(Ulid::from_parts(*ms % (1 << 48), 1))
                    .expect(rt, "memory");
            }
            Right::RecordHolder { pending: ids }
        }
    }
}

fn verdict_of(reply: &Result<(), SlateDBError>) -> Verdict {
    match reply {
        Ok(()) => Verdict::Committed,
        Err(
            SlateDBError::InvalidClockTick {
                last_tick,
                next_tick,
            },
        ) => Verdict::Early(*last_tick, *next_tick),
        Err(SlateDBError::UpdateRefused(rule)) => Verdict::Broken(*rule),
        Err(_) => Verdict::Other,
    }
}

/// Commits a record in place of the one held.
fn update(
    rt: &impl Abort,
    alloc: Global,
    store: &mut MemoryStore,
    holder: &mut StoredCompactions,
    new: Compactions,
    right: &Right,
) -> Verdict {
    let mut dirty = holder.prepare_dirty(alloc).expect(rt, "memory");
    drop(mem::replace(&mut dirty.value, new));
    let reply = holder.update(alloc, store, dirty, right, 6);
    let answer = verdict_of(&reply);
    drop(reply);
    answer
}

/// What the update to a record answers after the held one.
fn updated(rt: &impl Abort, alloc: Global, new: Compactions, right: Right) -> Verdict {
    let mut store = empty(alloc);
    let mut holder = StoredCompactions::create(alloc, &mut store, db(rt), 2, 5).expect(
        rt, "memory",
    );
    let held = record(rt, alloc, 2, HELD);
    let first = update(rt, alloc, &mut store, &mut holder, held, &Right::Plain);
    assert!(rt; first == Verdict::Committed);
    let answer = update(rt, alloc, &mut store, &mut holder, new, &right);
    drop(right);
    drop(holder);
    drop(store);
    answer
}

#[test]
fn updates_are_refused_by_the_first_rule(rt: HostRuntime) {
    for (epoch, rows, put, wanted) in updates() {
        let new = record(&rt, rt.alloc(), *epoch, *rows);
        let answer = updated(&rt, rt.alloc(), new, right(&rt, rt.alloc(), *put));
        assert!(rt; answer == *wanted, "{epoch} {rows:?} {put:?}");
    }
}

/// Whether the latest record is the one held, with so many compactions.
fn is_read_back(
    rt: &impl Abort,
    alloc: Global,
    store: &mut MemoryStore,
    holder: &StoredCompactions,
    count: usize,
) -> bool {
    let read = StoredCompactions::load(alloc, store, db(rt), 1).expect(rt, "memory");
    let is_so = read.id() == 2
        && read.compactions().is(holder.compactions())
        && read.compactions().len() == count
        && read.compactions().compactor_epoch == 2;
    drop(read);
    is_so
}

#[test]
fn compactions_are_read_back(rt: HostRuntime) {
    let alloc = rt.alloc();
    let mut store = empty(alloc);
    let mut holder = StoredCompactions::create(alloc, &mut store, db(&rt), 0, 5).expect(
        &rt, "memory",
    );
    let new = record(&rt, alloc, 2, &[(100, 110), (200, 200)]);
    let answer = update(&rt, alloc, &mut store, &mut holder, new, &Right::Plain);
    assert!(rt; answer == Verdict::Committed);
    assert!(rt; is_read_back(&rt, alloc, &mut store, &holder, 2));
    drop(holder);
    drop(store);
}
