//! The machines of calls on a log and its holders, as rows of tables.

use crate::calls::{
    Answer, Held, above_one, done, keep, keep_fenced, keep_found, plus_one, stands, two, value_of,
    version,
};
use crate::test_logs::{
    Codec, FencedHolder, First, Holder, Rising, Value, commit_of, end, ended, goes_on, log, puts,
};
use slate_store::MemoryStore;
use slate_txn::{DirtyObject, Fenced, FencedUpdateMachine, InitMachine, Stored, UpdateMachine};
use slate_txn_log::{DeletePhase, Right};
use std::alloc::Global;
use std::process::Abort;

/// A call by a machine. Holders are named by their places.
#[derive(Clone, Copy, Debug)]
pub(crate) enum Steps {
    Log(LogSteps),
    Create(Value),
    /// A creation of a value without bytes: in no step.
    NoCreation,
    Load,
    TryLoad,
    /// The last holder becomes a fenced one by the next epoch.
    Fence,
    /// The same by this epoch.
    FenceWith(u64),
    /// The same by an epoch that is too small: no step is due.
    NoFence(u64),
    Of(usize, HolderSteps),
    OfFenced(usize, HolderSteps),
}

/// A call on the log.
#[derive(Clone, Copy, Debug)]
pub(crate) enum LogSteps {
    Latest,
    Read(u64),
    /// The two versions above 1.
    List,
    /// `(0, 6)`, which is to follow `(0, 5)`, version 1.
    Commit,
    Delete(u64),
    DeleteUnchecked(u64),
}

/// A call of a holder.
#[derive(Clone, Copy, Debug)]
pub(crate) enum HolderSteps {
    Refresh,
    /// The version held is followed by this value.
    Update(Value),
    /// Another number than the one held is followed: no step is due.
    NoUpdate(u64),
    /// Commits the value plus one.
    AddOne,
}

fn latest(rt: &impl Abort, alloc: Global, store: &mut MemoryStore, steps: u8) -> Answer {
    let log = log(rt);
    let mut machine = log.start_read_latest();
    for _ in 1..steps {
        assert!(rt; machine.due());
        assert!(rt; goes_on(machine.next(alloc, &log, store, 0)));
    }
    assert!(rt; machine.due());
    let step = machine.next(alloc, &log, store, 0);
    assert!(rt; !machine.due());
    drop(machine);
    drop(log);
    version(end(rt, step))
}

fn read(rt: &impl Abort, alloc: Global, store: &mut MemoryStore, n: u64) -> Answer {
    let log = log(rt);
    let mut machine = log.start_try_read(n);
    let step = machine.next(alloc, &log, store, 0);
    drop(log);
    value_of(n, end(rt, step))
}

fn list(rt: &impl Abort, alloc: Global, store: &mut MemoryStore) -> Answer {
    let log = log(rt);
    let mut machine = log.start_list(above_one());
    let step = machine.next(alloc, &log, store, 0);
    drop(log);
    let versions = ended(rt, step);
    let answer = two(versions.as_slice());
    drop(versions);
    answer
}

fn commit(rt: &impl Abort, alloc: Global, store: &mut MemoryStore, steps: u8) -> Answer {
    let log = log(rt);
    let mut machine = commit_of(rt, alloc, (0, 6));
    let call = machine.asks(alloc, &log).expect(rt, "memory");
    assert!(rt; puts(&call, Some(2), &[0, 6]));
    drop(call);
    for _ in 1..steps {
        assert!(rt; machine.due());
        assert!(rt; goes_on(machine.next(alloc, &log, store, 8)));
    }
    assert!(rt; machine.due());
    let step = machine.next(alloc, &log, store, 8);
    assert!(rt; !machine.due());
    drop(machine);
    drop(log);
    let (n, value) = ended(rt, step);
    Answer::Version(n, value)
}

/// A deletion, before whose last step the version stands.
fn delete(
    rt: &impl Abort,
    alloc: Global,
    store: &mut MemoryStore,
    machine: DeletePhase,
    n: u64,
    steps: u8,
) -> Answer {
    let log = log(rt);
    let mut machine = machine;
    for _ in 1..steps {
        assert!(rt; machine.due());
        assert!(rt; goes_on(machine.next(alloc, &log, store, 0)));
        assert!(rt; stands(rt, store, n));
    }
    assert!(rt; machine.due());
    let step = machine.next(alloc, &log, store, 0);
    assert!(rt; !machine.due());
    drop(log);
    done(end(rt, step))
}

fn on_log(
    rt: &impl Abort,
    alloc: Global,
    store: &mut MemoryStore,
    call: LogSteps,
    steps: u8,
) -> Answer {
    match call {
        LogSteps::Latest => latest(rt, alloc, store, steps),
        LogSteps::Read(n) => read(rt, alloc, store, n),
        LogSteps::List => list(rt, alloc, store),
        LogSteps::Commit => commit(rt, alloc, store, steps),
        LogSteps::Delete(n) => {
            let log = log(rt);
            let machine = log.start_delete(n).clone().expect(rt, "memory");
            drop(log);
            delete(rt, alloc, store, machine, n, steps)
        }
        LogSteps::DeleteUnchecked(n) => {
            let log = log(rt);
            let machine = log.start_delete_unchecked(n);
            drop(log);
            delete(rt, alloc, store, machine, n, steps)
        }
    }
}

fn create(rt: &impl Abort, alloc: Global, held: &mut Held, value: Value, steps: u8) -> Answer {
    let mut machine = Stored::start_init(alloc, log(rt), Rising, value).expect(rt, "memory");
    for _ in 1..steps {
        assert!(rt; machine.due());
        assert!(rt; goes_on(machine.next(alloc, &mut held.store, 8)));
    }
    assert!(rt; machine.due());
    let step = machine.next(alloc, &mut held.store, 8);
    assert!(rt; !machine.due());
    drop(machine);
    keep(rt, &mut held.stored, end(rt, step))
}

fn no_creation(rt: &impl Abort, alloc: Global, held: &mut Held) -> Answer {
    let mut machine = Stored::start_init(alloc, log(rt), Rising, (0, 256)).expect(rt, "memory");
    assert!(rt; !machine.due());
    let step = machine.next(alloc, &mut held.store, 8);
    drop(machine);
    keep(rt, &mut held.stored, end(rt, step))
}

fn load(rt: &impl Abort, alloc: Global, held: &mut Held, steps: u8) -> Answer {
    let mut machine = Stored::start_load(log(rt), Rising);
    for _ in 1..steps {
        assert!(rt; machine.due());
        assert!(rt; goes_on(machine.next(alloc, &mut held.store, 0)));
    }
    assert!(rt; machine.due());
    let step = machine.next(alloc, &mut held.store, 0);
    drop(machine);
    keep(rt, &mut held.stored, end(rt, step))
}

fn try_load(rt: &impl Abort, alloc: Global, held: &mut Held, steps: u8) -> Answer {
    let mut machine = Stored::start_try_load(log(rt), Rising);
    for _ in 1..steps {
        assert!(rt; machine.due());
        assert!(rt; goes_on(machine.next(alloc, &mut held.store, 0)));
    }
    assert!(rt; machine.due());
    let step = machine.next(alloc, &mut held.store, 0);
    drop(machine);
    keep_found(rt, &mut held.stored, end(rt, step))
}

fn fence(
    rt: &impl Abort,
    alloc: Global,
    held: &mut Held,
    machine: InitMachine<Value, Codec, Rising, First>,
    steps: u8,
) -> Answer {
    let mut machine = machine;
    for _ in 1..steps {
        assert!(rt; machine.due());
        assert!(rt; goes_on(machine.next(alloc, &mut held.store, 8)));
    }
    assert!(rt; machine.due());
    let step = machine.next(alloc, &mut held.store, 8);
    drop(machine);
    keep_fenced(rt, &mut held.fenced, end(rt, step))
}

fn no_fence(rt: &impl Abort, alloc: Global, stored: Holder, epoch: u64) -> Answer {
    let machine = Fenced::start_init_with_epoch(alloc, stored, First, epoch).expect(rt, "memory");
    assert!(rt; !machine.due());
    drop(machine);
    Answer::Nothing
}

fn refresh(
    rt: &impl Abort,
    alloc: Global,
    store: &mut MemoryStore,
    holder: &mut Holder,
    steps: u8,
) -> Answer {
    let mut machine = holder.start_refresh();
    for _ in 1..steps {
        assert!(rt; machine.due());
        assert!(rt; goes_on(machine.next(alloc, holder, store, 0)));
    }
    assert!(rt; machine.due());
    let step = machine.next(alloc, holder, store, 0);
    drop(machine);
    done(end(rt, step))
}

fn update(
    rt: &impl Abort,
    alloc: Global,
    store: &mut MemoryStore,
    holder: &mut Holder,
    machine: UpdateMachine<Value>,
    steps: u8,
) -> Answer {
    let mut machine = machine;
    for _ in 1..steps {
        assert!(rt; machine.due());
        assert!(rt; goes_on(machine.next(alloc, holder, store, 8)));
    }
    assert!(rt; machine.due());
    let step = machine.next(alloc, holder, store, 8);
    drop(machine);
    done(end(rt, step))
}

fn start_update(
    rt: &impl Abort,
    alloc: Global,
    holder: &Holder,
    id: u64,
    value: Value,
) -> UpdateMachine<Value> {
    let dirty = DirtyObject { id, value };
    holder
        .start_update(alloc, dirty, &Right::Plain)
        .expect(rt, "memory")
}

fn on_holder(
    rt: &impl Abort,
    alloc: Global,
    store: &mut MemoryStore,
    holder: &mut Holder,
    call: HolderSteps,
    steps: u8,
) -> Answer {
    match call {
        HolderSteps::Refresh => refresh(rt, alloc, store, holder, steps),
        HolderSteps::Update(value) => {
            let machine = start_update(rt, alloc, holder, holder.id(), value);
            update(rt, alloc, store, holder, machine, steps)
        }
        HolderSteps::NoUpdate(id) => {
            let machine = start_update(rt, alloc, holder, id, (0, 9));
            assert!(rt; !machine.due());
            drop(machine);
            Answer::Nothing
        }
        HolderSteps::AddOne => {
            let machine = holder
                .start_maybe_apply(alloc, plus_one, &Right::Plain)
                .expect(rt, "memory");
            update(rt, alloc, store, holder, machine, steps)
        }
    }
}

fn fenced_refresh(
    rt: &impl Abort,
    alloc: Global,
    store: &mut MemoryStore,
    holder: &mut FencedHolder,
    steps: u8,
) -> Answer {
    let mut machine = holder.start_refresh();
    for _ in 1..steps {
        assert!(rt; machine.due());
        assert!(rt; goes_on(machine.next(alloc, holder, store, 0)));
    }
    assert!(rt; machine.due());
    let step = machine.next(alloc, holder, store, 0);
    drop(machine);
    done(end(rt, step))
}

fn fenced_update(
    rt: &impl Abort,
    alloc: Global,
    store: &mut MemoryStore,
    holder: &mut FencedHolder,
    machine: FencedUpdateMachine<Value>,
    steps: u8,
) -> Answer {
    let mut machine = machine;
    for _ in 1..steps {
        assert!(rt; machine.due());
        assert!(rt; goes_on(machine.next(alloc, holder, store, 9)));
    }
    assert!(rt; machine.due());
    let step = machine.next(alloc, holder, store, 9);
    drop(machine);
    done(end(rt, step))
}

fn start_fenced_update(
    rt: &impl Abort,
    alloc: Global,
    holder: &FencedHolder,
    value: Value,
) -> FencedUpdateMachine<Value> {
    let id = holder.id();
    let dirty = DirtyObject { id, value };
    holder
        .start_update(alloc, dirty, &Right::Plain)
        .expect(rt, "memory")
}

fn on_fenced(
    rt: &impl Abort,
    alloc: Global,
    store: &mut MemoryStore,
    holder: &mut FencedHolder,
    call: HolderSteps,
    steps: u8,
) -> Answer {
    match call {
        HolderSteps::Update(value) => {
            let machine = start_fenced_update(rt, alloc, holder, value);
            fenced_update(rt, alloc, store, holder, machine, steps)
        }
        HolderSteps::AddOne => {
            let machine = holder
                .start_maybe_apply(alloc, plus_one, &Right::Plain)
                .expect(rt, "memory");
            fenced_update(rt, alloc, store, holder, machine, steps)
        }
        _ => fenced_refresh(rt, alloc, store, holder, steps),
    }
}

/// What a call answers that is made by a machine in so many steps.
pub(crate) fn by_steps(
    rt: &impl Abort,
    alloc: Global,
    held: &mut Held,
    call: Steps,
    steps: u8,
) -> Answer {
    match call {
        Steps::Log(call) => on_log(rt, alloc, &mut held.store, call, steps),
        Steps::Create(value) => create(rt, alloc, held, value, steps),
        Steps::NoCreation => no_creation(rt, alloc, held),
        Steps::Load => load(rt, alloc, held, steps),
        Steps::TryLoad => try_load(rt, alloc, held, steps),
        Steps::Fence => {
            let stored = held.stored.pop().expect(rt, "a holder");
            let machine = Fenced::start_init(alloc, stored, First).expect(rt, "memory");
            fence(rt, alloc, held, machine, steps)
        }
        Steps::FenceWith(epoch) => {
            let stored = held.stored.pop().expect(rt, "a holder");
            let machine = Fenced::start_init_with_epoch(alloc, stored, First, epoch).expect(
                rt, "memory",
            );
            fence(rt, alloc, held, machine, steps)
        }
        Steps::NoFence(epoch) => {
            let stored = held.stored.pop().expect(rt, "a holder");
            no_fence(rt, alloc, stored, epoch)
        }
        Steps::Of(place, call) => {
            let holder = held.stored.get_mut(place).expect(rt, "a holder");
            on_holder(rt, alloc, &mut held.store, holder, call, steps)
        }
        Steps::OfFenced(place, call) => {
            let holder = held.fenced.get_mut(place).expect(rt, "a holder");
            on_fenced(rt, alloc, &mut held.store, holder, call, steps)
        }
    }
}
