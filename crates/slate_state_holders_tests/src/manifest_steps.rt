//! The machines of calls on manifests, as rows of tables.

use crate::answers::{Answer, db, end, found, goes_on, refused};
use crate::checkpoint_steps::{self, CheckpointSteps};
use crate::holder_steps;
use crate::log_steps::{self, LogSteps};
use crate::manifest_calls::{
    Held, are_both, keep, keep_fenced, keep_found, log, naming_first, number,
};
use slate_ids::NumberRange;
use slate_model::{Manifest, ManifestCore};
use slate_state_holders::{FenceableManifest, StoredManifest, UpdateManifestMachine};
use slate_state_stores::ManifestStore;
use slate_store::MemoryStore;
use slate_txn_log::Right;
use std::alloc::Global;
use std::ops::Bound;
use std::process::Abort;

/// A call by a machine. Holders are named by their places.
#[derive(Clone, Copy, Debug)]
pub(crate) enum Steps {
    Log(LogSteps),
    /// How many versions are read for a manifest of this number, whose two checkpoints name version 1.
    Referenced(u64),
    Create,
    Load,
    TryLoad,
    /// The last holder becomes a fenced one of writers.
    Writer,
    /// The last holder becomes a fenced one of compactors.
    Compactor,
    Holder(usize, HolderSteps),
    Fence(usize, HolderSteps),
    /// A checkpoint call of a holder.
    Checkpoint(usize, CheckpointSteps),
    /// The same of a fenced one.
    FencedCheckpoint(usize, CheckpointSteps),
}

/// A call of a holder.
#[derive(Clone, Copy, Debug)]
pub(crate) enum HolderSteps {
    Refresh,
    /// Commits the manifest held once more.
    Again,
    /// The same after a first time, of the manifest that was held before it: in no step.
    Stale,
    /// Commits a first manifest.
    First,
    /// Commits what isn't made: in no step.
    NoneMade,
}

fn referenced(
    rt: &impl Abort,
    alloc: Global,
    store: &mut MemoryStore,
    n: u64,
    steps: u8,
) -> Answer {
    let log = log(rt);
    let manifest = naming_first(rt, alloc);
    let started = log.start_read_referenced_manifests(alloc, n, &manifest);
    drop(manifest);
    let mut machine = started.expect(rt, "memory");
    for _ in 1..steps {
        assert!(rt; machine.due());
        assert!(rt; goes_on(machine.next(alloc, &log, store, 0)));
    }
    assert!(rt; machine.due());
    let step = machine.next(alloc, &log, store, 0);
    drop(machine);
    drop(log);
    match end(rt, step) {
        Ok(read) => {
            let has_both = are_both(read.as_map(), n);
            drop(read);
            assert!(rt; has_both);
            Answer::Number(2)
        }
        Err(e) => refused(e),
    }
}

fn on_log(
    rt: &impl Abort,
    alloc: Global,
    store: &mut MemoryStore,
    log: &ManifestStore,
    call: LogSteps,
    steps: u8,
) -> Answer {
    match call {
        LogSteps::Latest => {
            let machine = log.start_read_latest_manifest();
            number(log_steps::latest(rt, alloc, log, store, machine, steps))
        }
        LogSteps::TryLatest => {
            let machine = log.start_try_read_latest_manifest();
            found(log_steps::try_latest(rt, alloc, log, store, machine, steps))
        }
        LogSteps::Read(n) => log_steps::read(rt, alloc, log, store, log.start_read_manifest(n)),
        LogSteps::TryRead(n) => {
            log_steps::try_read(rt, alloc, log, store, log.start_try_read_manifest(n))
        }
        LogSteps::List => {
            let all = NumberRange {
                start: Bound::Unbounded,
                end: Bound::Unbounded,
            };
            log_steps::list(rt, alloc, log, store, log.start_list_manifests(all))
        }
        LogSteps::DeleteUnchecked(n) => {
            let machine = log.start_delete_manifest_unchecked(n);
            log_steps::delete_unchecked(rt, alloc, log, store, machine)
        }
        LogSteps::Advance(n) => {
            let machine = log.start_advance_boundary(n);
            log_steps::advance(rt, alloc, log, store, machine, steps)
        }
        LogSteps::Delete(n) => {
            let machine = log.start_delete_manifest(n);
            log_steps::delete(rt, alloc, log, store, machine, steps)
        }
    }
}

fn start_first(rt: &impl Abort, alloc: Global, holder: &StoredManifest) -> UpdateManifestMachine {
    let first = |_n: u64, _m: &Manifest| {
        Ok(Some(Manifest::initial(alloc, ManifestCore::new(alloc))))
    };
    holder
        .start_maybe_apply_update(alloc, first, &Right::Plain)
        .expect(rt, "memory")
}

fn on_holder(
    rt: &impl Abort,
    alloc: Global,
    store: &mut MemoryStore,
    holder: &mut StoredManifest,
    call: HolderSteps,
    steps: u8,
) -> Answer {
    match call {
        HolderSteps::Refresh => holder_steps::refresh(rt, alloc, store, holder, steps),
        HolderSteps::Again => {
            let machine = holder_steps::start_again(rt, alloc, holder);
            holder_steps::update(rt, alloc, store, holder, machine, steps)
        }
        HolderSteps::Stale => holder_steps::stale(rt, alloc, store, holder),
        HolderSteps::First => {
            let machine = start_first(rt, alloc, holder);
            holder_steps::update(rt, alloc, store, holder, machine, steps)
        }
        HolderSteps::NoneMade => holder_steps::none_made(rt, alloc, store, holder),
    }
}

fn on_fenced(
    rt: &impl Abort,
    alloc: Global,
    store: &mut MemoryStore,
    holder: &mut FenceableManifest,
    call: HolderSteps,
    steps: u8,
) -> Answer {
    match call {
        HolderSteps::Refresh => holder_steps::fenced_refresh(rt, alloc, store, holder, steps),
        HolderSteps::NoneMade => holder_steps::fenced_none_made(rt, alloc, store, holder),
        _ => holder_steps::fenced_again(rt, alloc, store, holder, steps),
    }
}

/// What a call answers that is made by a machine in so many steps.
pub(crate) fn by_steps(
    rt: &impl Abort,
    alloc: Global,
    held: &mut Held,
    call: Steps,
    steps: u8,
) -> Answer {
    match call {
        Steps::Log(call) => {
            let log = log(rt);
            let answer = on_log(rt, alloc, &mut held.store, &log, call, steps);
            drop(log);
            answer
        }
        Steps::Referenced(n) => referenced(rt, alloc, &mut held.store, n, steps),
        Steps::Create => {
            let core = ManifestCore::new(alloc);
            let machine = StoredManifest::start_create_new_db(alloc, db(rt), core).expect(
                rt, "memory",
            );
            let reply = holder_steps::create(rt, alloc, &mut held.store, machine, steps);
            keep(rt, &mut held.stored, reply)
        }
        Steps::Load => {
            let machine = StoredManifest::start_load(db(rt));
            let reply = holder_steps::load(rt, alloc, &mut held.store, machine, steps);
            keep(rt, &mut held.stored, reply)
        }
        Steps::TryLoad => {
            let machine = StoredManifest::start_try_load(db(rt));
            let reply = holder_steps::try_load(rt, alloc, &mut held.store, machine, steps);
            keep_found(rt, &mut held.stored, reply)
        }
        Steps::Writer => {
            let stored = held.stored.pop().expect(rt, "a holder");
            let machine = FenceableManifest::start_init_writer(alloc, stored).expect(rt, "memory");
            let reply = holder_steps::init(rt, alloc, &mut held.store, machine, steps);
            keep_fenced(rt, &mut held.fenced, reply)
        }
        Steps::Compactor => {
            let stored = held.stored.pop().expect(rt, "a holder");
            let machine = FenceableManifest::start_init_compactor(alloc, stored).expect(
                rt, "memory",
            );
            let reply = holder_steps::init(rt, alloc, &mut held.store, machine, steps);
            keep_fenced(rt, &mut held.fenced, reply)
        }
        Steps::Holder(place, call) => {
            let holder = held.stored.get_mut(place).expect(rt, "a holder");
            on_holder(rt, alloc, &mut held.store, holder, call, steps)
        }
        Steps::Fence(place, call) => {
            let holder = held.fenced.get_mut(place).expect(rt, "a holder");
            on_fenced(rt, alloc, &mut held.store, holder, call, steps)
        }
        Steps::Checkpoint(place, call) => {
            let holder = held.stored.get_mut(place).expect(rt, "a holder");
            checkpoint_steps::stored(rt, alloc, &mut held.store, holder, call, steps)
        }
        Steps::FencedCheckpoint(place, call) => {
            let holder = held.fenced.get_mut(place).expect(rt, "a holder");
            checkpoint_steps::fenced(rt, alloc, &mut held.store, holder, call, steps)
        }
    }
}
