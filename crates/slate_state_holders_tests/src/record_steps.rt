//! The machines of calls on records, as rows of tables.

use crate::answers::{Answer, db};
use crate::holder_steps;
use crate::log_steps::{self, LogSteps};
use crate::record_calls::{Held, keep, keep_fenced, keep_found, log, number, number_found};
use slate_ids::NumberRange;
use slate_model::Compactions;
use slate_state_holders::{FenceableCompactions, StoredCompactions, UpdateCompactionsMachine};
use slate_state_stores::CompactionsStore;
use slate_store::MemoryStore;
use slate_txn_log::Right;
use std::alloc::Global;
use std::ops::Bound;
use std::process::Abort;

/// A call by a machine. Holders are named by their places.
#[derive(Clone, Copy, Debug)]
pub(crate) enum Steps {
    Log(LogSteps),
    /// With this epoch.
    Create(u64),
    Load,
    TryLoad,
    /// The last holder becomes a fenced one by the next epoch.
    Init,
    /// The same by this epoch.
    InitWith(u64),
    /// The same by an epoch that is too small: no step is due.
    NotDue(u64),
    Holder(usize, HolderSteps),
    Fence(usize, HolderSteps),
}

/// A call of a holder.
#[derive(Clone, Copy, Debug)]
pub(crate) enum HolderSteps {
    Refresh,
    /// Commits the record held once more.
    Again,
    /// The same after a first time, of the record that was held before it: in no step.
    Stale,
    /// Commits a record of epoch 7.
    Seventh,
    /// Commits what isn't made: in no step.
    NoneMade,
}

fn on_log(
    rt: &impl Abort,
    alloc: Global,
    store: &mut MemoryStore,
    log: &CompactionsStore,
    call: LogSteps,
    steps: u8,
) -> Answer {
    match call {
        LogSteps::Latest => {
            let machine = log.start_read_latest_compactions();
            number(log_steps::latest(rt, alloc, log, store, machine, steps))
        }
        LogSteps::TryLatest => {
            let machine = log.start_try_read_latest_compactions();
            number_found(log_steps::try_latest(rt, alloc, log, store, machine, steps))
        }
        LogSteps::Read(n) => {
            log_steps::read(rt, alloc, log, store, log.start_read_compactions(n))
        }
        LogSteps::TryRead(n) => {
            log_steps::try_read(rt, alloc, log, store, log.start_try_read_compactions(n))
        }
        LogSteps::List => {
            let all = NumberRange {
                start: Bound::Unbounded,
                end: Bound::Unbounded,
            };
            log_steps::list(rt, alloc, log, store, log.start_list_compactions(all))
        }
        LogSteps::DeleteUnchecked(n) => {
            let machine = log.start_delete_compactions_unchecked(n);
            log_steps::delete_unchecked(rt, alloc, log, store, machine)
        }
        LogSteps::Advance(n) => {
            let machine = log.start_advance_boundary(n);
            log_steps::advance(rt, alloc, log, store, machine, steps)
        }
        LogSteps::Delete(n) => {
            let machine = log.start_delete_compactions(n);
            log_steps::delete(rt, alloc, log, store, machine, steps)
        }
    }
}

fn start_seventh(
    rt: &impl Abort,
    alloc: Global,
    holder: &StoredCompactions,
) -> UpdateCompactionsMachine {
    let seventh = |_n: u64, _record: &Compactions| Ok(Some(Compactions::new(alloc, 7)));
    holder
        .start_maybe_apply_update(alloc, seventh, &Right::Plain)
        .expect(rt, "memory")
}

fn on_holder(
    rt: &impl Abort,
    alloc: Global,
    store: &mut MemoryStore,
    holder: &mut StoredCompactions,
    call: HolderSteps,
    steps: u8,
) -> Answer {
    match call {
        HolderSteps::Refresh => holder_steps::refresh(rt, alloc, store, holder, steps),
        HolderSteps::Again => {
            let machine = holder_steps::start_again(rt, alloc, holder);
            holder_steps::update(rt, alloc, store, holder, machine, steps)
        }
        HolderSteps::Stale => holder_steps::stale(rt, alloc, store, holder),
        HolderSteps::Seventh => {
            let machine = start_seventh(rt, alloc, holder);
            holder_steps::update(rt, alloc, store, holder, machine, steps)
        }
        HolderSteps::NoneMade => holder_steps::none_made(rt, alloc, store, holder),
    }
}

fn on_fenced(
    rt: &impl Abort,
    alloc: Global,
    store: &mut MemoryStore,
    holder: &mut FenceableCompactions,
    call: HolderSteps,
    steps: u8,
) -> Answer {
    match call {
        HolderSteps::Refresh => holder_steps::fenced_refresh(rt, alloc, store, holder, steps),
        HolderSteps::NoneMade => holder_steps::fenced_none_made(rt, alloc, store, holder),
        _ => holder_steps::fenced_again(rt, alloc, store, holder, steps),
    }
}

fn not_due(rt: &impl Abort, alloc: Global, stored: StoredCompactions, epoch: u64) -> Answer {
    let machine = FenceableCompactions::start_init_with_epoch(alloc, stored, epoch).expect(
        rt, "memory",
    );
    assert!(rt; !machine.due());
    drop(machine);
    Answer::Nothing
}

/// What a call answers that is made by a machine in so many steps.
pub(crate) fn by_steps(
    rt: &impl Abort,
    alloc: Global,
    held: &mut Held,
    call: Steps,
    steps: u8,
) -> Answer {
    match call {
        Steps::Log(call) => {
            let log = log(rt);
            let answer = on_log(rt, alloc, &mut held.store, &log, call, steps);
            drop(log);
            answer
        }
        Steps::Create(epoch) => {
            let machine = StoredCompactions::start_create(alloc, db(rt), epoch).expect(
                rt, "memory",
            );
            let reply = holder_steps::create(rt, alloc, &mut held.store, machine, steps);
            keep(rt, &mut held.stored, reply)
        }
        Steps::Load => {
            let machine = StoredCompactions::start_load(db(rt));
            let reply = holder_steps::load(rt, alloc, &mut held.store, machine, steps);
            keep(rt, &mut held.stored, reply)
        }
        Steps::TryLoad => {
            let machine = StoredCompactions::start_try_load(db(rt));
            let reply = holder_steps::try_load(rt, alloc, &mut held.store, machine, steps);
            keep_found(rt, &mut held.stored, reply)
        }
        Steps::Init => {
            let stored = held.stored.pop().expect(rt, "a holder");
            let machine = FenceableCompactions::start_init(alloc, stored).expect(rt, "memory");
            let reply = holder_steps::init(rt, alloc, &mut held.store, machine, steps);
            keep_fenced(rt, &mut held.fenced, reply)
        }
        Steps::InitWith(epoch) => {
            let stored = held.stored.pop().expect(rt, "a holder");
            let machine = FenceableCompactions::start_init_with_epoch(alloc, stored, epoch).expect(
                rt, "memory",
            );
            let reply = holder_steps::init(rt, alloc, &mut held.store, machine, steps);
            keep_fenced(rt, &mut held.fenced, reply)
        }
        Steps::NotDue(epoch) => {
            let stored = held.stored.pop().expect(rt, "a holder");
            not_due(rt, alloc, stored, epoch)
        }
        Steps::Holder(place, call) => {
            let holder = held.stored.get_mut(place).expect(rt, "a holder");
            on_holder(rt, alloc, &mut held.store, holder, call, steps)
        }
        Steps::Fence(place, call) => {
            let holder = held.fenced.get_mut(place).expect(rt, "a holder");
            on_fenced(rt, alloc, &mut held.store, holder, call, steps)
        }
    }
}
