//! Calls on the records of compactions of a database in a store in memory, as rows of tables.

use crate::answers::{Answer, db, done, empty, found, refused};
use crate::holder_steps::again;
use crate::record_steps::{Steps, by_steps};
use slate_ids::{NumberRange, SlateDBError};
use slate_model::{Compactions, Plain, VersionedCompactions};
use slate_state_holders::{FenceableCompactions, StoredCompactions};
use slate_state_stores::CompactionsStore;
use slate_store::MemoryStore;
use slate_txn_log::Right;
use std::alloc::Global;
use std::ops::Bound;
use std::process::Abort;

/// A call on the log of records, in one try where it takes tries.
#[derive(Clone, Copy, Debug)]
pub(crate) enum OnLog {
    Latest,
    TryLatest,
    Read(u64),
    TryRead(u64),
    Delete(u64),
    DeleteUnchecked(u64),
    Advance(u64),
    /// The numbers of the records between two ends.
    List(Bound<u64>, Bound<u64>),
}

/// A call that makes a holder, which is then the last of its kind.
#[derive(Clone, Copy, Debug)]
pub(crate) enum Hold {
    /// With this epoch.
    Create(u64),
    Load,
    TryLoad,
    /// The last holder becomes a fenced one by the next epoch.
    Init,
    /// The last holder becomes a fenced one by this epoch.
    InitWith(u64),
}

/// A call of a holder.
#[derive(Clone, Copy, Debug)]
pub(crate) enum OnHolder {
    /// The number of the record held, and the own epoch, of a holder that isn't fenced the record's.
    Id,
    /// The epoch of the record held.
    Epoch,
    /// How many compactions the record has that is held.
    Count,
    /// Commits the record held once more.
    Again,
    Refresh,
    /// Commits a copy of the record held, in so many tries.
    Same(u32),
    /// Commits what isn't made.
    NoneMade,
}

/// A call. Holders are named by their places in the order of their making, fenced ones apart.
#[derive(Clone, Copy, Debug)]
pub(crate) enum Call {
    Log(OnLog),
    Hold(Hold),
    Holder(usize, OnHolder),
    Fence(usize, OnHolder),
    /// By a machine, in this many steps.
    Machine(Steps, u8),
}

/// A call of a row, and its answer.
pub(crate) type Row = (Call, Answer);

/// A store, and the holders over it.
#[derive(Drop)]
pub(crate) struct Held {
    pub(crate) store: MemoryStore,
    pub(crate) stored: Vec<StoredCompactions>,
    pub(crate) fenced: Vec<FenceableCompactions>,
}

/// The log of records.
pub(crate) fn log(rt: &impl Abort) -> CompactionsStore {
    CompactionsStore::new(db(rt))
}

/// The number of a record that was read.
pub(crate) fn number(reply: Result<VersionedCompactions, SlateDBError>) -> Answer {
    match reply {
        Ok(version) => {
            let n = version.id();
            drop(version);
            Answer::Number(n)
        }
        Err(e) => refused(e),
    }
}

/// The number of a record that was read where there is one.
pub(crate) fn number_found(reply: Result<Option<VersionedCompactions>, SlateDBError>) -> Answer {
    match reply {
        Ok(Some(version)) => number(Ok(version)),
        Ok(None) => Answer::Nothing,
        Err(e) => refused(e),
    }
}

fn listed(
    rt: &impl Abort,
    alloc: Global,
    store: &mut MemoryStore,
    log: &CompactionsStore,
    range: NumberRange,
) -> Answer {
    let versions = log
        .list_compactions(alloc, store, range)
        .expect(rt, "memory");
    let mut digits = 0u64;
    for version in versions.as_slice() {
        digits = digits.wrapping_mul(10).wrapping_add(version.0);
    }
    drop(versions);
    Answer::Number(digits)
}

fn on_log(
    rt: &impl Abort,
    alloc: Global,
    store: &mut MemoryStore,
    log: &CompactionsStore,
    call: OnLog,
) -> Answer {
    match call {
        OnLog::Latest => number(log.read_latest_compactions(alloc, store, 1)),
        OnLog::TryLatest => number_found(log.try_read_latest_compactions(alloc, store, 1)),
        OnLog::Read(n) => done(log.read_compactions(alloc, store, n)),
        OnLog::TryRead(n) => found(log.try_read_compactions(alloc, store, n)),
        OnLog::Delete(n) => done(log.delete_compactions(alloc, store, n, 1)),
        OnLog::DeleteUnchecked(n) => done(log.delete_compactions_unchecked(alloc, store, n)),
        OnLog::Advance(n) => done(log.advance_boundary(alloc, store, n, 8, 1)),
        OnLog::List(start, end) => listed(rt, alloc, store, log, NumberRange { start, end }),
    }
}

/// A holder that was made.
pub(crate) fn keep(
    rt: &impl Abort,
    stored: &mut Vec<StoredCompactions>,
    reply: Result<StoredCompactions, SlateDBError>,
) -> Answer {
    match reply {
        Ok(holder) => {
            let answer = Answer::Holds(holder.id(), holder.compactions().compactor_epoch);
            stored.push(holder).expect(rt, "memory");
            answer
        }
        Err(e) => refused(e),
    }
}

/// A holder that was made where there is a record.
pub(crate) fn keep_found(
    rt: &impl Abort,
    stored: &mut Vec<StoredCompactions>,
    reply: Result<Option<StoredCompactions>, SlateDBError>,
) -> Answer {
    match reply {
        Ok(Some(holder)) => keep(rt, stored, Ok(holder)),
        Ok(None) => Answer::Nothing,
        Err(e) => refused(e),
    }
}

/// A fenced holder that was made.
pub(crate) fn keep_fenced(
    rt: &impl Abort,
    fenced: &mut Vec<FenceableCompactions>,
    reply: Result<FenceableCompactions, SlateDBError>,
) -> Answer {
    match reply {
        Ok(holder) => {
            let answer = Answer::Holds(holder.compactions().0, holder.local_epoch());
            fenced.push(holder).expect(rt, "memory");
            answer
        }
        Err(e) => refused(e),
    }
}

fn make_holder(rt: &impl Abort, alloc: Global, held: &mut Held, call: Hold) -> Answer {
    match call {
        Hold::Create(epoch) => {
            let reply = StoredCompactions::create(alloc, &mut held.store, db(rt), epoch, 5);
            keep(rt, &mut held.stored, reply)
        }
        Hold::Load => {
            let reply = StoredCompactions::load(alloc, &mut held.store, db(rt), 1);
            keep(rt, &mut held.stored, reply)
        }
        Hold::TryLoad => {
            let reply = StoredCompactions::try_load(alloc, &mut held.store, db(rt), 1);
            keep_found(rt, &mut held.stored, reply)
        }
        Hold::Init => {
            let stored = held.stored.pop().expect(rt, "a holder");
            let reply = FenceableCompactions::init(alloc, stored, &mut held.store, 7, 1);
            keep_fenced(rt, &mut held.fenced, reply)
        }
        Hold::InitWith(epoch) => {
            let stored = held.stored.pop().expect(rt, "a holder");
            let store = &mut held.store;
            let reply = FenceableCompactions::init_with_epoch(alloc, stored, epoch, store, 7, 1);
            keep_fenced(rt, &mut held.fenced, reply)
        }
    }
}

fn same(
    rt: &impl Abort,
    alloc: Global,
    store: &mut MemoryStore,
    holder: &mut StoredCompactions,
    tries: u32,
) -> Answer {
    assert!(rt; 0 < tries);
    let same = |_n: u64, record: &Compactions| Ok(Some(Plain::clone(record, alloc)?));
    done(holder.maybe_apply_update(alloc, store, same, &Right::Plain, 6, tries))
}

fn none_made(alloc: Global, store: &mut MemoryStore, holder: &mut StoredCompactions) -> Answer {
    let none = |_n: u64, _record: &Compactions| Ok(None);
    done(holder.maybe_apply_update(alloc, store, none, &Right::Plain, 6, 1))
}

fn on_holder(
    rt: &impl Abort,
    alloc: Global,
    store: &mut MemoryStore,
    holder: &mut StoredCompactions,
    call: OnHolder,
) -> Answer {
    match call {
        OnHolder::Id => Answer::Holds(holder.id(), holder.compactions().compactor_epoch),
        OnHolder::Epoch => Answer::Number(holder.compactions().compactor_epoch),
        OnHolder::Count => Answer::Number(holder.compactions().len() as u64),
        OnHolder::Again => again(rt, alloc, store, holder),
        OnHolder::Refresh => done(holder.refresh(alloc, store, 1)),
        OnHolder::Same(tries) => same(rt, alloc, store, holder, tries),
        OnHolder::NoneMade => none_made(alloc, store, holder),
    }
}

fn fenced_again(
    alloc: Global,
    store: &mut MemoryStore,
    holder: &mut FenceableCompactions,
) -> Answer {
    match holder.prepare_dirty(alloc) {
        Ok(dirty) => done(holder.update(alloc, store, dirty, &Right::Plain, 8)),
        Err(e) => refused(e),
    }
}

fn fenced_same(
    rt: &impl Abort,
    alloc: Global,
    store: &mut MemoryStore,
    holder: &mut FenceableCompactions,
    tries: u32,
) -> Answer {
    assert!(rt; 0 < tries);
    let same = |_n: u64, record: &Compactions| Ok(Some(Plain::clone(record, alloc)?));
    done(holder.maybe_apply_update(alloc, store, same, &Right::Plain, 8, tries))
}

fn fenced_none_made(
    alloc: Global,
    store: &mut MemoryStore,
    holder: &mut FenceableCompactions,
) -> Answer {
    let none = |_n: u64, _record: &Compactions| Ok(None);
    done(holder.maybe_apply_update(alloc, store, none, &Right::Plain, 8, 1))
}

fn epoch_of(record: &Compactions) -> u64 {
    record.compactor_epoch
}

fn on_fenced(
    rt: &impl Abort,
    alloc: Global,
    store: &mut MemoryStore,
    holder: &mut FenceableCompactions,
    call: OnHolder,
) -> Answer {
    match call {
        OnHolder::Id => Answer::Holds(holder.compactions().0, holder.local_epoch()),
        OnHolder::Epoch => Answer::Number(epoch_of(holder.compactions().1)),
        OnHolder::Count => Answer::Number(holder.compactions().1.len() as u64),
        OnHolder::Again => fenced_again(alloc, store, holder),
        OnHolder::Refresh => done(holder.refresh(alloc, store, 1)),
        OnHolder::Same(tries) => fenced_same(rt, alloc, store, holder, tries),
        OnHolder::NoneMade => fenced_none_made(alloc, store, holder),
    }
}

fn made(rt: &impl Abort, alloc: Global, held: &mut Held, call: Call) -> Answer {
    match call {
        Call::Log(call) => {
            let log = log(rt);
            let answer = on_log(rt, alloc, &mut held.store, &log, call);
            drop(log);
            answer
        }
        Call::Hold(call) => make_holder(rt, alloc, held, call),
        Call::Holder(place, call) => {
            let holder = held.stored.get_mut(place).expect(rt, "a holder");
            on_holder(rt, alloc, &mut held.store, holder, call)
        }
        Call::Fence(place, call) => {
            let holder = held.fenced.get_mut(place).expect(rt, "a holder");
            on_fenced(rt, alloc, &mut held.store, holder, call)
        }
        Call::Machine(call, steps) => by_steps(rt, alloc, held, call, steps),
    }
}

/// Makes the calls of a table over an empty store, and compares their answers.
pub(crate) fn play(rt: &impl Abort, alloc: Global, name: &str, rows: &[Row]) {
    let mut held = Held {
        store: empty(alloc),
        stored: Vec::new(alloc),
        fenced: Vec::new(alloc),
    };
    for (place, (call, wanted)) in rows.iter().enumerate() {
        let answer = made(rt, alloc, &mut held, *call);
        assert!(rt; answer == *wanted, "{name}, row {place}: {answer:?}");
    }
    drop(held);
}
