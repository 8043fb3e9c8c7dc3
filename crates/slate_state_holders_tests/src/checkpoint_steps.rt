//! The machines of the checkpoint calls of holders, as rows of tables: each is begun at moment 5, goes on so many steps less one, and
//! answers in its last.

use crate::answers::{Answer, done, end, goes_on};
use crate::manifest_calls::{checkpoint, options};
use slate_ids::{CheckpointId, OutOfMemory};
use slate_state_holders::{
    CheckpointMachine, DeleteCheckpointMachine, FenceableManifest, FencedCheckpointMachine,
    FencedDeleteCheckpointMachine, StoredManifest,
};
use slate_store::MemoryStore;
use std::alloc::Global;
use std::process::Abort;

/// A checkpoint call by a machine; checkpoints by the numbers of their ids, with a lifetime of 1000 milliseconds where they are written.
#[derive(Clone, Copy, Debug)]
pub(crate) enum CheckpointSteps {
    Write(u64),
    /// The same of a checkpoint that is there: in no step.
    WriteOver(u64),
    /// The old checkpoint and the new one.
    Replace(u64, u64),
    /// The checkpoint and its new lifetime.
    Prolong(u64, u64),
    Remove(u64),
}

fn stored_steps(
    rt: &impl Abort,
    alloc: Global,
    store: &mut MemoryStore,
    holder: &mut StoredManifest,
    started: Result<CheckpointMachine, OutOfMemory>,
    steps: u8,
) -> Answer {
    let mut machine = started.expect(rt, "memory");
    for _ in 1..steps {
        assert!(rt; machine.due());
        assert!(rt; goes_on(machine.next(alloc, holder, store, 5)));
    }
    assert!(rt; machine.due());
    let step = machine.next(alloc, holder, store, 5);
    drop(machine);
    checkpoint(end(rt, step))
}

fn stored_removal(
    rt: &impl Abort,
    alloc: Global,
    store: &mut MemoryStore,
    holder: &mut StoredManifest,
    started: Result<DeleteCheckpointMachine, OutOfMemory>,
    steps: u8,
) -> Answer {
    let mut machine = started.expect(rt, "memory");
    for _ in 1..steps {
        assert!(rt; machine.due());
        assert!(rt; goes_on(machine.next(alloc, holder, store, 5)));
    }
    assert!(rt; machine.due());
    let step = machine.next(alloc, holder, store, 5);
    drop(machine);
    done(end(rt, step))
}

fn stored_over(
    rt: &impl Abort,
    alloc: Global,
    store: &mut MemoryStore,
    holder: &mut StoredManifest,
    id: CheckpointId,
) -> Answer {
    let options = options(None);
    let started = holder.start_write_checkpoint(alloc, 5, id, &options);
    drop(options);
    let mut machine = started.expect(rt, "memory");
    assert!(rt; !machine.due());
    let step = machine.next(alloc, holder, store, 5);
    drop(machine);
    checkpoint(end(rt, step))
}

/// What a checkpoint call of a holder answers.
pub(crate) fn stored(
    rt: &impl Abort,
    alloc: Global,
    store: &mut MemoryStore,
    holder: &mut StoredManifest,
    call: CheckpointSteps,
    steps: u8,
) -> Answer {
    match call {
        CheckpointSteps::Write(n) => {
            let options = options(None);
            let id = CheckpointId::from_u64(n);
            let started = holder.start_write_checkpoint(alloc, 5, id, &options);
            drop(options);
            stored_steps(rt, alloc, store, holder, started, steps)
        }
        CheckpointSteps::WriteOver(n) => {
            stored_over(rt, alloc, store, holder, CheckpointId::from_u64(n))
        }
        CheckpointSteps::Replace(old, new) => {
            let options = options(None);
            let old = CheckpointId::from_u64(old);
            let new = CheckpointId::from_u64(new);
            let started = holder.start_replace_checkpoint(alloc, 5, old, new, &options);
            drop(options);
            stored_steps(rt, alloc, store, holder, started, steps)
        }
        CheckpointSteps::Prolong(n, lifetime) => {
            let id = CheckpointId::from_u64(n);
            let started = holder.start_refresh_checkpoint(alloc, 5, id, lifetime);
            stored_steps(rt, alloc, store, holder, started, steps)
        }
        CheckpointSteps::Remove(n) => {
            let started = holder.start_delete_checkpoint(alloc, CheckpointId::from_u64(n));
            stored_removal(rt, alloc, store, holder, started, steps)
        }
    }
}

fn fenced_steps(
    rt: &impl Abort,
    alloc: Global,
    store: &mut MemoryStore,
    holder: &mut FenceableManifest,
    started: Result<FencedCheckpointMachine, OutOfMemory>,
    steps: u8,
) -> Answer {
    let mut machine = started.expect(rt, "memory");
    for _ in 1..steps {
        assert!(rt; machine.due());
        assert!(rt; goes_on(machine.next(alloc, holder, store, 5)));
    }
    assert!(rt; machine.due());
    let step = machine.next(alloc, holder, store, 5);
    drop(machine);
    checkpoint(end(rt, step))
}

fn fenced_removal(
    rt: &impl Abort,
    alloc: Global,
    store: &mut MemoryStore,
    holder: &mut FenceableManifest,
    started: Result<FencedDeleteCheckpointMachine, OutOfMemory>,
    steps: u8,
) -> Answer {
    let mut machine = started.expect(rt, "memory");
    for _ in 1..steps {
        assert!(rt; machine.due());
        assert!(rt; goes_on(machine.next(alloc, holder, store, 5)));
    }
    assert!(rt; machine.due());
    let step = machine.next(alloc, holder, store, 5);
    drop(machine);
    done(end(rt, step))
}

fn fenced_over(
    rt: &impl Abort,
    alloc: Global,
    store: &mut MemoryStore,
    holder: &mut FenceableManifest,
    id: CheckpointId,
) -> Answer {
    let options = options(None);
    let started = holder.start_write_checkpoint(alloc, 5, id, &options);
    drop(options);
    let mut machine = started.expect(rt, "memory");
    assert!(rt; !machine.due());
    let step = machine.next(alloc, holder, store, 5);
    drop(machine);
    checkpoint(end(rt, step))
}

/// What a checkpoint call of a fenced holder answers.
pub(crate) fn fenced(
    rt: &impl Abort,
    alloc: Global,
    store: &mut MemoryStore,
    holder: &mut FenceableManifest,
    call: CheckpointSteps,
    steps: u8,
) -> Answer {
    match call {
        CheckpointSteps::Write(n) => {
            let options = options(None);
            let id = CheckpointId::from_u64(n);
            let started = holder.start_write_checkpoint(alloc, 5, id, &options);
            drop(options);
            fenced_steps(rt, alloc, store, holder, started, steps)
        }
        CheckpointSteps::WriteOver(n) => {
            fenced_over(rt, alloc, store, holder, CheckpointId::from_u64(n))
        }
        CheckpointSteps::Replace(old, new) => {
            let options = options(None);
            let old = CheckpointId::from_u64(old);
            let new = CheckpointId::from_u64(new);
            let started = holder.start_replace_checkpoint(alloc, 5, old, new, &options);
            drop(options);
            fenced_steps(rt, alloc, store, holder, started, steps)
        }
        CheckpointSteps::Prolong(n, lifetime) => {
            let id = CheckpointId::from_u64(n);
            let started = holder.start_refresh_checkpoint(alloc, 5, id, lifetime);
            fenced_steps(rt, alloc, store, holder, started, steps)
        }
        CheckpointSteps::Remove(n) => {
            let started = holder.start_delete_checkpoint(alloc, CheckpointId::from_u64(n));
            fenced_removal(rt, alloc, store, holder, started, steps)
        }
    }
}
