//! The machines of holders, over any log: each goes on so many steps less one, and answers in its last.

use crate::answers::{Answer, done, end, goes_on};
use slate_ids::SlateDBError;
use slate_state_holders::{
    DbCreateMachine, DbFenced, DbInitMachine, DbLoadMachine, DbStored, DbTryLoadMachine,
    DbUpdateMachine,
};
use slate_state_logs::DbLog;
use slate_store::MemoryStore;
use slate_txn_log::Right;
use std::alloc::Global;
use std::process::Abort;

/// The holder that a creation makes.
pub(crate) fn create<L: DbLog>(
    rt: &impl Abort,
    alloc: Global,
    store: &mut MemoryStore,
    machine: DbCreateMachine<L>,
    steps: u8,
) -> Result<DbStored<L>, SlateDBError> {
    let mut machine = machine;
    for _ in 1..steps {
        assert!(rt; machine.due());
        assert!(rt; goes_on(machine.next(alloc, store, 5)));
    }
    assert!(rt; machine.due());
    let step = machine.next(alloc, store, 5);
    drop(machine);
    end(rt, step)
}

/// The holder that a load makes.
pub(crate) fn load<L: DbLog>(
    rt: &impl Abort,
    alloc: Global,
    store: &mut MemoryStore,
    machine: DbLoadMachine<L>,
    steps: u8,
) -> Result<DbStored<L>, SlateDBError> {
    let mut machine = machine;
    for _ in 1..steps {
        assert!(rt; machine.due());
        assert!(rt; goes_on(machine.next(alloc, store, 5)));
    }
    assert!(rt; machine.due());
    let step = machine.next(alloc, store, 5);
    drop(machine);
    end(rt, step)
}

/// The holder that a load makes where there is a version.
pub(crate) fn try_load<L: DbLog>(
    rt: &impl Abort,
    alloc: Global,
    store: &mut MemoryStore,
    machine: DbTryLoadMachine<L>,
    steps: u8,
) -> Result<Option<DbStored<L>>, SlateDBError> {
    let mut machine = machine;
    for _ in 1..steps {
        assert!(rt; machine.due());
        assert!(rt; goes_on(machine.next(alloc, store, 5)));
    }
    assert!(rt; machine.due());
    let step = machine.next(alloc, store, 5);
    drop(machine);
    end(rt, step)
}

/// The fenced holder that a fence makes.
pub(crate) fn init<L: DbLog>(
    rt: &impl Abort,
    alloc: Global,
    store: &mut MemoryStore,
    machine: DbInitMachine<L>,
    steps: u8,
) -> Result<DbFenced<L>, SlateDBError> {
    let mut machine = machine;
    for _ in 1..steps {
        assert!(rt; machine.due());
        assert!(rt; goes_on(machine.next(alloc, store, 7)));
    }
    assert!(rt; machine.due());
    let step = machine.next(alloc, store, 7);
    drop(machine);
    end(rt, step)
}

/// A refresh.
pub(crate) fn refresh<L: DbLog>(
    rt: &impl Abort,
    alloc: Global,
    store: &mut MemoryStore,
    holder: &mut DbStored<L>,
    steps: u8,
) -> Answer {
    let mut machine = holder.start_refresh();
    for _ in 1..steps {
        assert!(rt; machine.due());
        assert!(rt; goes_on(machine.next(alloc, holder, store, 5)));
    }
    assert!(rt; machine.due());
    let step = machine.next(alloc, holder, store, 5);
    drop(machine);
    done(end(rt, step))
}

/// An update.
pub(crate) fn update<L: DbLog>(
    rt: &impl Abort,
    alloc: Global,
    store: &mut MemoryStore,
    holder: &mut DbStored<L>,
    machine: DbUpdateMachine<L>,
    steps: u8,
) -> Answer {
    let mut machine = machine;
    for _ in 1..steps {
        assert!(rt; machine.due());
        assert!(rt; goes_on(machine.next(alloc, holder, store, 5)));
    }
    assert!(rt; machine.due());
    let step = machine.next(alloc, holder, store, 5);
    drop(machine);
    done(end(rt, step))
}

/// The machine that commits the version held once more.
pub(crate) fn start_again<L: DbLog>(
    rt: &impl Abort,
    alloc: Global,
    holder: &DbStored<L>,
) -> DbUpdateMachine<L> {
    let dirty = holder.prepare_dirty(alloc).expect(rt, "memory");
    holder
        .start_update(alloc, dirty, &Right::Plain)
        .expect(rt, "memory")
}

/// Commits the version held once more, by no machine.
pub(crate) fn again<L: DbLog>(
    rt: &impl Abort,
    alloc: Global,
    store: &mut MemoryStore,
    holder: &mut DbStored<L>,
) -> Answer {
    let dirty = holder.prepare_dirty(alloc).expect(rt, "memory");
    done(holder.update(alloc, store, dirty, &Right::Plain, 6))
}

/// An update, after a first one, of the version that was held before it: in no step.
pub(crate) fn stale<L: DbLog>(
    rt: &impl Abort,
    alloc: Global,
    store: &mut MemoryStore,
    holder: &mut DbStored<L>,
) -> Answer {
    let dirty = holder.prepare_dirty(alloc).expect(rt, "memory");
    assert!(rt; again(rt, alloc, store, holder) == Answer::Done);
    let mut machine = holder
        .start_update(alloc, dirty, &Right::Plain)
        .expect(rt, "memory");
    assert!(rt; !machine.due());
    let step = machine.next(alloc, holder, store, 5);
    drop(machine);
    done(end(rt, step))
}

/// A commit of what isn't made: in no step.
pub(crate) fn none_made<L: DbLog>(
    rt: &impl Abort,
    alloc: Global,
    store: &mut MemoryStore,
    holder: &mut DbStored<L>,
) -> Answer {
    let nothing = |_n: u64, _value: &L::Value| Ok(None);
    let mut machine = holder
        .start_maybe_apply_update(alloc, nothing, &Right::Plain)
        .expect(rt, "memory");
    assert!(rt; !machine.due());
    let step = machine.next(alloc, holder, store, 5);
    drop(machine);
    done(end(rt, step))
}

/// A refresh of a fenced holder.
pub(crate) fn fenced_refresh<L: DbLog>(
    rt: &impl Abort,
    alloc: Global,
    store: &mut MemoryStore,
    holder: &mut DbFenced<L>,
    steps: u8,
) -> Answer {
    let mut machine = holder.start_refresh();
    for _ in 1..steps {
        assert!(rt; machine.due());
        assert!(rt; goes_on(machine.next(alloc, holder, store, 5)));
    }
    assert!(rt; machine.due());
    let step = machine.next(alloc, holder, store, 5);
    drop(machine);
    done(end(rt, step))
}

/// An update of a fenced holder with the version held.
pub(crate) fn fenced_again<L: DbLog>(
    rt: &impl Abort,
    alloc: Global,
    store: &mut MemoryStore,
    holder: &mut DbFenced<L>,
    steps: u8,
) -> Answer {
    let dirty = holder.prepare_dirty(alloc).expect(rt, "memory");
    let mut machine = holder
        .start_update(alloc, dirty, &Right::Plain)
        .expect(rt, "memory");
    for _ in 1..steps {
        assert!(rt; machine.due());
        assert!(rt; goes_on(machine.next(alloc, holder, store, 5)));
    }
    assert!(rt; machine.due());
    let step = machine.next(alloc, holder, store, 5);
    drop(machine);
    done(end(rt, step))
}

/// A commit by a fenced holder of what isn't made: in no step.
pub(crate) fn fenced_none_made<L: DbLog>(
    rt: &impl Abort,
    alloc: Global,
    store: &mut MemoryStore,
    holder: &mut DbFenced<L>,
) -> Answer {
    let nothing = |_n: u64, _value: &L::Value| Ok(None);
    let mut machine = holder
        .start_maybe_apply_update(alloc, nothing, &Right::Plain)
        .expect(rt, "memory");
    assert!(rt; !machine.due());
    let step = machine.next(alloc, holder, store, 5);
    drop(machine);
    done(end(rt, step))
}
