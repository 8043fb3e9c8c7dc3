//! Calls on a log and its holders in a store in memory, as rows of tables.

use crate::steps::{Steps, by_steps};
use crate::test_logs::{
    Codec, FencedHolder, First, Holder, Log, Rising, Value, Versions, db, log, store_with,
};
use slate_ids::{NumberRange, ObjectPath, SlateDBError};
use slate_store::{MemoryStore, ObjectMetadata};
use slate_txn::{DirtyObject, Fenced, Stored};
use slate_txn_log::{Right, prepare};
use std::alloc::Global;
use std::cell::Cell;
use std::ops::Bound;
use std::process::Abort;

/// What a call answers.
#[derive(Clone, Copy, Debug, PartialEq)]
pub(crate) enum Answer {
    /// It is done, or what is asked is so.
    Done,
    /// There is none, or what is asked isn't so.
    Nothing,
    /// A version.
    Version(u64, Value),
    /// The own epoch, and the version held.
    Holds(u64, u64, Value),
    /// The numbers of two versions.
    Two(u64, u64),
    /// The version of this number was taken, or the boundary was at it.
    Taken(u64, Option<u64>),
    /// The own epoch, and the greater one that was read.
    IsFenced(u64, u64),
    /// The number of another refusal.
    Refused(u8),
}

/// A call on the log.
#[derive(Clone, Copy, Debug)]
pub(crate) enum OnLog {
    /// In so many tries.
    Latest(u32),
    Read(u64),
    /// The two versions above 1.
    List,
    Advance(u64),
    Delete(u64),
    DeleteUnchecked(u64),
    /// A value that is to follow `(0, 5)`, version 1.
    Commit(Value),
    /// Whether the boundary has this text. An absent one has none.
    IsBoundary(Option<&'static str>),
    /// Whether version 1 has these bytes. An absent one has none.
    IsFirst(Option<[u8; 2]>),
    /// Whether this version stands.
    Stands(u64),
}

/// A call that makes a holder, which is then the last of its kind.
#[derive(Clone, Copy, Debug)]
pub(crate) enum Hold {
    Create(Value),
    Load,
    TryLoad,
    /// The last holder becomes a fenced one by the next epoch, in so many tries.
    Fence(u32),
    /// The same by this epoch.
    FenceWith(u64, u32),
}

/// A call of a holder.
#[derive(Clone, Copy, Debug)]
pub(crate) enum OnHolder {
    /// The version held.
    Held,
    /// The version that is handed out to be changed.
    Dirty,
    /// The number that is to be followed, and the value.
    Update(u64, Value),
    Refresh,
    /// Commits the value plus one, in so many tries.
    AddOne(u32),
    /// Commits no value.
    AddNone,
    /// Commits what is refused.
    Refuse,
    /// Commits the value plus one where that is asked once, and no value after that, in two tries.
    AddOnce,
}

/// A call. Holders are named by their places in the order of their making, fenced ones apart.
#[derive(Clone, Copy, Debug)]
pub(crate) enum Call {
    OfLog(OnLog),
    Make(Hold),
    Of(usize, OnHolder),
    OfFenced(usize, OnHolder),
    /// By a machine, in this many steps.
    Machine(Steps, u8),
}

/// The versions and the boundary of a log, and calls with their answers.
pub(crate) type Case = (
    &'static str,
    Versions,
    Option<&'static str>,
    &'static [(Call, Answer)],
);

/// A store, and the holders over it.
#[derive(Drop)]
pub(crate) struct Held {
    pub(crate) store: MemoryStore,
    pub(crate) stored: Vec<Holder>,
    pub(crate) fenced: Vec<FencedHolder>,
}

fn refusal(e: &SlateDBError) -> Answer {
    match e {
        SlateDBError::TransactionalObjectVersionExists { number, boundary } => {
            Answer::Taken(*number, *boundary)
        }
        SlateDBError::Fenced { own, read } => Answer::IsFenced(*own, *read),
        _ => Answer::Refused(e.code()),
    }
}

fn refused(e: SlateDBError) -> Answer {
    let answer = refusal(&e);
    drop(e);
    answer
}

/// Whether a call is done.
pub(crate) fn done<T: Drop>(reply: Result<T, SlateDBError>) -> Answer {
    match reply {
        Ok(value) => {
            drop(value);
            Answer::Done
        }
        Err(e) => refused(e),
    }
}

/// The version that was found.
pub(crate) fn version(reply: Result<Option<(u64, Value)>, SlateDBError>) -> Answer {
    match reply {
        Ok(Some((n, value))) => Answer::Version(n, value),
        Ok(None) => Answer::Nothing,
        Err(e) => refused(e),
    }
}

/// The value of this version that was found.
pub(crate) fn value_of(n: u64, reply: Result<Option<Value>, SlateDBError>) -> Answer {
    match reply {
        Ok(Some(value)) => Answer::Version(n, value),
        Ok(None) => Answer::Nothing,
        Err(e) => refused(e),
    }
}

/// The numbers above 1.
pub(crate) fn above_one() -> NumberRange {
    NumberRange {
        start: Bound::Excluded(1),
        end: Bound::Unbounded,
    }
}

/// The numbers of two versions.
pub(crate) fn two(versions: &[(u64, ObjectMetadata)]) -> Answer {
    match versions {
        [first, second] => Answer::Two(first.0, second.0),
        _ => Answer::Nothing,
    }
}

/// Whether something is so.
fn is(so: bool) -> Answer {
    if so { Answer::Done } else { Answer::Nothing }
}

/// Whether the object at this path has these bytes. An absent one has none.
fn has(store: &MemoryStore, path: ObjectPath, bytes: Option<&[u8]>) -> Answer {
    let so = match (store.object(&path), bytes) {
        (Some(object), Some(bytes)) => object.bytes.as_slice() == bytes,
        (object, bytes) => object.is_none() && bytes.is_none(),
    };
    drop(path);
    is(so)
}

fn is_boundary(rt: &impl Abort, store: &MemoryStore, text: Option<&str>) -> Answer {
    let path = ObjectPath::ManifestBoundary(db(rt));
    match text {
        Some(text) => has(store, path, Some(text.as_bytes())),
        None => has(store, path, None),
    }
}

fn is_first(rt: &impl Abort, store: &MemoryStore, bytes: Option<[u8; 2]>) -> Answer {
    let path = ObjectPath::Manifest(db(rt), 1);
    match bytes {
        Some(bytes) => has(store, path, Some(bytes.as_slice())),
        None => has(store, path, None),
    }
}

/// Whether a version stands.
pub(crate) fn stands(rt: &impl Abort, store: &MemoryStore, n: u64) -> bool {
    let path = ObjectPath::Manifest(db(rt), n);
    let so = store.object(&path).is_some();
    drop(path);
    so
}

fn latest(
    rt: &impl Abort,
    alloc: Global,
    store: &mut MemoryStore,
    log: &Log,
    tries: u32,
) -> Answer {
    assert!(rt; 0 < tries);
    version(log.read_latest(alloc, store, tries))
}

fn listed(rt: &impl Abort, alloc: Global, store: &mut MemoryStore, log: &Log) -> Answer {
    let versions = log.list(alloc, store, above_one()).expect(rt, "memory");
    let answer = two(versions.as_slice());
    drop(versions);
    answer
}

fn committed(
    rt: &impl Abort,
    alloc: Global,
    store: &mut MemoryStore,
    log: &Log,
    value: Value,
) -> Answer {
    match prepare(alloc, &Codec, &Rising, 1, &(0, 5), value, &Right::Plain) {
        Ok(commit) => {
            assert!(rt; commit.due());
            done(commit.run(alloc, log, store, 8))
        }
        Err(e) => refused(e),
    }
}

fn on_log(
    rt: &impl Abort,
    alloc: Global,
    store: &mut MemoryStore,
    log: &Log,
    call: OnLog,
) -> Answer {
    match call {
        OnLog::Latest(tries) => latest(rt, alloc, store, log, tries),
        OnLog::Read(n) => value_of(n, log.try_read(alloc, store, n)),
        OnLog::List => listed(rt, alloc, store, log),
        OnLog::Advance(n) => done(log.advance(alloc, store, n, 9, 1)),
        OnLog::Delete(n) => done(log.delete(alloc, store, n)),
        OnLog::DeleteUnchecked(n) => done(log.delete_unchecked(alloc, store, n)),
        OnLog::Commit(value) => committed(rt, alloc, store, log, value),
        OnLog::IsBoundary(text) => is_boundary(rt, store, text),
        OnLog::IsFirst(bytes) => is_first(rt, store, bytes),
        OnLog::Stands(n) => is(stands(rt, store, n)),
    }
}

fn held_by(holder: &Holder) -> Answer {
    Answer::Version(holder.id(), *holder.object())
}

fn held_by_fenced(holder: &FencedHolder) -> Answer {
    Answer::Holds(holder.local_epoch(), holder.id(), *holder.object())
}

/// A holder that was made.
pub(crate) fn keep(
    rt: &impl Abort,
    stored: &mut Vec<Holder>,
    reply: Result<Holder, SlateDBError>,
) -> Answer {
    match reply {
        Ok(holder) => {
            let answer = held_by(&holder);
            stored.push(holder).expect(rt, "memory");
            answer
        }
        Err(e) => refused(e),
    }
}

/// A holder that was made where there is a version.
pub(crate) fn keep_found(
    rt: &impl Abort,
    stored: &mut Vec<Holder>,
    reply: Result<Option<Holder>, SlateDBError>,
) -> Answer {
    match reply {
        Ok(Some(holder)) => keep(rt, stored, Ok(holder)),
        Ok(None) => Answer::Nothing,
        Err(e) => refused(e),
    }
}

/// A fenced holder that was made.
pub(crate) fn keep_fenced(
    rt: &impl Abort,
    fenced: &mut Vec<FencedHolder>,
    reply: Result<FencedHolder, SlateDBError>,
) -> Answer {
    match reply {
        Ok(holder) => {
            let answer = held_by_fenced(&holder);
            fenced.push(holder).expect(rt, "memory");
            answer
        }
        Err(e) => refused(e),
    }
}

fn fence(
    rt: &impl Abort,
    alloc: Global,
    store: &mut MemoryStore,
    stored: Holder,
    tries: u32,
) -> Result<FencedHolder, SlateDBError> {
    assert!(rt; 0 < tries);
    Fenced::init(alloc, stored, First, store, 8, tries)
}

fn fence_with(
    rt: &impl Abort,
    alloc: Global,
    store: &mut MemoryStore,
    stored: Holder,
    epoch: u64,
    tries: u32,
) -> Result<FencedHolder, SlateDBError> {
    assert!(rt; 0 < tries);
    Fenced::init_with_epoch(alloc, stored, First, epoch, store, 8, tries)
}

fn make_holder(rt: &impl Abort, alloc: Global, held: &mut Held, call: Hold) -> Answer {
    match call {
        Hold::Create(value) => {
            let reply = Stored::init(alloc, &mut held.store, log(rt), Rising, value, 8);
            keep(rt, &mut held.stored, reply)
        }
        Hold::Load => {
            let reply = Stored::load(alloc, &mut held.store, log(rt), Rising, 1);
            keep(rt, &mut held.stored, reply)
        }
        Hold::TryLoad => {
            let reply = Stored::try_load(alloc, &mut held.store, log(rt), Rising, 1);
            keep_found(rt, &mut held.stored, reply)
        }
        Hold::Fence(tries) => {
            let stored = held.stored.pop().expect(rt, "a holder");
            let reply = fence(rt, alloc, &mut held.store, stored, tries);
            keep_fenced(rt, &mut held.fenced, reply)
        }
        Hold::FenceWith(epoch, tries) => {
            let stored = held.stored.pop().expect(rt, "a holder");
            let reply = fence_with(rt, alloc, &mut held.store, stored, epoch, tries);
            keep_fenced(rt, &mut held.fenced, reply)
        }
    }
}

type Change = Result<Option<Value>, SlateDBError>;

/// The value plus one.
pub(crate) fn plus_one(_id: u64, value: &Value) -> Change {
    Ok(Some((value.0, value.1.saturating_add(1))))
}

/// No value.
fn none(_id: u64, _value: &Value) -> Change {
    Ok(None)
}

/// A refusal.
fn refusal_of_all(_id: u64, _value: &Value) -> Change {
    Err(SlateDBError::Exhausted(7))
}

fn add_one(
    rt: &impl Abort,
    alloc: Global,
    store: &mut MemoryStore,
    holder: &mut Holder,
    tries: u32,
) -> Answer {
    assert!(rt; 0 < tries);
    done(holder.maybe_apply(alloc, store, plus_one, &Right::Plain, 8, tries))
}

fn add_once(alloc: Global, store: &mut MemoryStore, holder: &mut Holder) -> Answer {
    let is_first = Cell::new(true);
    let once = |id: u64, value: &Value| {
        if is_first.replace(false) {
            plus_one(id, value)
        } else {
            none(id, value)
        }
    };
    done(holder.maybe_apply(alloc, store, once, &Right::Plain, 8, 2))
}

/// The version that a holder hands out to be changed.
fn handed(reply: Result<DirtyObject<Value>, SlateDBError>) -> Answer {
    match reply {
        Ok(dirty) => {
            let answer = Answer::Version(dirty.id, dirty.value);
            drop(dirty);
            answer
        }
        Err(e) => refused(e),
    }
}

fn on_holder(
    rt: &impl Abort,
    alloc: Global,
    store: &mut MemoryStore,
    holder: &mut Holder,
    call: OnHolder,
) -> Answer {
    match call {
        OnHolder::Held => held_by(holder),
        OnHolder::Dirty => {
            let dirty = holder.prepare_dirty(alloc).expect(rt, "memory");
            handed(Ok(dirty))
        }
        OnHolder::Update(id, value) => {
            let dirty = DirtyObject { id, value };
            done(holder.update(alloc, store, dirty, &Right::Plain, 8))
        }
        OnHolder::Refresh => done(holder.refresh(alloc, store, 1)),
        OnHolder::AddOne(tries) => add_one(rt, alloc, store, holder, tries),
        OnHolder::AddNone => done(holder.maybe_apply(alloc, store, none, &Right::Plain, 8, 1)),
        OnHolder::Refuse => {
            done(holder.maybe_apply(alloc, store, refusal_of_all, &Right::Plain, 8, 1))
        }
        OnHolder::AddOnce => add_once(alloc, store, holder),
    }
}

/// Calls of a fenced holder; a commit of the value plus one in two tries.
fn on_fenced(
    alloc: Global,
    store: &mut MemoryStore,
    holder: &mut FencedHolder,
    call: OnHolder,
) -> Answer {
    match call {
        OnHolder::Dirty => handed(holder.prepare_dirty(alloc)),
        OnHolder::Update(id, value) => {
            let dirty = DirtyObject { id, value };
            done(holder.update(alloc, store, dirty, &Right::Plain, 9))
        }
        OnHolder::Refresh => done(holder.refresh(alloc, store, 1)),
        OnHolder::AddOne(_) => {
            done(holder.maybe_apply(alloc, store, plus_one, &Right::Plain, 8, 2))
        }
        _ => held_by_fenced(holder),
    }
}

fn made(rt: &impl Abort, alloc: Global, held: &mut Held, call: Call) -> Answer {
    match call {
        Call::OfLog(call) => {
            let log = log(rt);
            let answer = on_log(rt, alloc, &mut held.store, &log, call);
            drop(log);
            answer
        }
        Call::Make(call) => make_holder(rt, alloc, held, call),
        Call::Of(place, call) => {
            let holder = held.stored.get_mut(place).expect(rt, "a holder");
            on_holder(rt, alloc, &mut held.store, holder, call)
        }
        Call::OfFenced(place, call) => {
            let holder = held.fenced.get_mut(place).expect(rt, "a holder");
            on_fenced(alloc, &mut held.store, holder, call)
        }
        Call::Machine(call, steps) => by_steps(rt, alloc, held, call, steps),
    }
}

/// Makes the calls of a case, and compares their answers.
pub(crate) fn play(rt: &impl Abort, alloc: Global, case: &Case) {
    let (name, versions, boundary, rows) = *case;
    let mut held = Held {
        store: store_with(rt, alloc, versions, boundary),
        stored: Vec::new(alloc),
        fenced: Vec::new(alloc),
    };
    for (place, (call, wanted)) in rows.iter().enumerate() {
        let answer = made(rt, alloc, &mut held, *call);
        assert!(rt; answer == *wanted, "{name}, row {place}: {answer:?}");
    }
    drop(held);
}
