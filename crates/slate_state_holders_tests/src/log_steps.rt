//! The machines of calls on a log, over any log: each goes on so many steps less one, and answers in its last.

use crate::answers::{Answer, done, end, found, goes_on};
use slate_ids::SlateDBError;
use slate_state_logs::DbLog;
use slate_state_stores::{
    DbAdvanceMachine, DbDeleteMachine, DbDeleteUncheckedMachine, DbLatestMachine, DbListMachine,
    DbReadMachine, DbStore, DbTryLatestMachine, DbTryReadMachine,
};
use slate_store::MemoryStore;
use std::alloc::Global;
use std::process::Abort;

/// A call on a log by a machine.
#[derive(Clone, Copy, Debug)]
pub(crate) enum LogSteps {
    Latest,
    TryLatest,
    Read(u64),
    TryRead(u64),
    /// How many versions there are.
    List,
    DeleteUnchecked(u64),
    Advance(u64),
    Delete(u64),
}

/// The latest version.
pub(crate) fn latest<L: DbLog>(
    rt: &impl Abort,
    alloc: Global,
    log: &DbStore<L>,
    store: &mut MemoryStore,
    machine: DbLatestMachine<L>,
    steps: u8,
) -> Result<L::Version, SlateDBError> {
    let mut machine = machine;
    for _ in 1..steps {
        assert!(rt; machine.due());
        assert!(rt; goes_on(machine.next(alloc, log, store, 0)));
    }
    assert!(rt; machine.due());
    let step = machine.next(alloc, log, store, 0);
    drop(machine);
    end(rt, step)
}

/// The latest version where there is one.
pub(crate) fn try_latest<L: DbLog>(
    rt: &impl Abort,
    alloc: Global,
    log: &DbStore<L>,
    store: &mut MemoryStore,
    machine: DbTryLatestMachine<L>,
    steps: u8,
) -> Result<Option<L::Version>, SlateDBError> {
    let mut machine = machine;
    for _ in 1..steps {
        assert!(rt; machine.due());
        assert!(rt; goes_on(machine.next(alloc, log, store, 0)));
    }
    assert!(rt; machine.due());
    let step = machine.next(alloc, log, store, 0);
    drop(machine);
    end(rt, step)
}

/// A version that is needed, in one step.
pub(crate) fn read<L: DbLog>(
    rt: &impl Abort,
    alloc: Global,
    log: &DbStore<L>,
    store: &mut MemoryStore,
    machine: DbReadMachine<L>,
) -> Answer {
    let mut machine = machine;
    assert!(rt; machine.due());
    let step = machine.next(alloc, log, store, 0);
    drop(machine);
    done(end(rt, step))
}

/// A version that may be there, in one step.
pub(crate) fn try_read<L: DbLog>(
    rt: &impl Abort,
    alloc: Global,
    log: &DbStore<L>,
    store: &mut MemoryStore,
    machine: DbTryReadMachine<L>,
) -> Answer {
    let mut machine = machine;
    assert!(rt; machine.due());
    let step = machine.next(alloc, log, store, 0);
    drop(machine);
    found(end(rt, step))
}

/// How many versions a list has, in one step.
pub(crate) fn list<L: DbLog>(
    rt: &impl Abort,
    alloc: Global,
    log: &DbStore<L>,
    store: &mut MemoryStore,
    machine: DbListMachine<L>,
) -> Answer {
    let mut machine = machine;
    assert!(rt; machine.due());
    let step = machine.next(alloc, log, store, 0);
    drop(machine);
    let versions = end(rt, step).expect(rt, "memory");
    let count = versions.as_slice().len() as u64;
    drop(versions);
    Answer::Number(count)
}

/// A delete that nothing is asked before, in one step.
pub(crate) fn delete_unchecked<L: DbLog>(
    rt: &impl Abort,
    alloc: Global,
    log: &DbStore<L>,
    store: &mut MemoryStore,
    machine: DbDeleteUncheckedMachine<L>,
) -> Answer {
    let mut machine = machine;
    assert!(rt; machine.due());
    let step = machine.next(alloc, log, store, 0);
    drop(machine);
    done(end(rt, step))
}

/// A move of the boundary.
pub(crate) fn advance<L: DbLog>(
    rt: &impl Abort,
    alloc: Global,
    log: &DbStore<L>,
    store: &mut MemoryStore,
    machine: DbAdvanceMachine<L>,
    steps: u8,
) -> Answer {
    let mut machine = machine;
    for _ in 1..steps {
        assert!(rt; machine.due());
        assert!(rt; goes_on(machine.next(alloc, log, store, 8)));
    }
    assert!(rt; machine.due());
    let step = machine.next(alloc, log, store, 8);
    drop(machine);
    done(end(rt, step))
}

/// A delete that the latest version and the boundary allow.
pub(crate) fn delete<L: DbLog>(
    rt: &impl Abort,
    alloc: Global,
    log: &DbStore<L>,
    store: &mut MemoryStore,
    machine: DbDeleteMachine<L>,
    steps: u8,
) -> Answer {
    let mut machine = machine;
    for _ in 1..steps {
        assert!(rt; machine.due());
        assert!(rt; goes_on(machine.next(alloc, log, store, 0)));
    }
    assert!(rt; machine.due());
    let step = machine.next(alloc, log, store, 0);
    drop(machine);
    done(end(rt, step))
}
