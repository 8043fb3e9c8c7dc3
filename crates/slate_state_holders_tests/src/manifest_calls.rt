//! Calls on the manifests of a database in a store in memory, as rows of tables.

use crate::answers::{Answer, db, done, empty, found, refused};
use crate::holder_steps::again;
use crate::manifest_steps::{Steps, by_steps};
use slate_ids::{CheckpointId, NumberRange, SlateDBError};
use slate_model::{Checkpoint, CheckpointOptions, Manifest, ManifestCore, VersionedManifest};
use slate_state_holders::{FenceableManifest, StoredManifest};
use slate_state_stores::ManifestStore;
use slate_store::MemoryStore;
use slate_txn_log::Right;
use std::alloc::Global;
use std::collections::BTreeMap;
use std::ops::Bound;
use std::process::Abort;

/// A call on the log of manifests, in one try where it takes tries.
#[derive(Clone, Copy, Debug)]
pub(crate) enum OnLog {
    Latest,
    TryLatest,
    Read(u64),
    TryRead(u64),
    Delete(u64),
    DeleteUnchecked(u64),
    Advance(u64),
    /// The numbers of all versions.
    List,
    /// How many versions are read for a manifest of this number, whose two checkpoints name version 1.
    Referenced(u64),
}

/// A call that makes a holder, which is then the last of its kind.
#[derive(Clone, Copy, Debug)]
pub(crate) enum Hold {
    Create,
    Load,
    TryLoad,
    /// The last holder becomes a fenced one of writers.
    Writer,
    /// The last holder becomes a fenced one of compactors.
    Compactor,
}

/// A call of a holder; checkpoints by the numbers of their ids, with a lifetime of 1000 milliseconds where they are written.
#[derive(Clone, Copy, Debug)]
pub(crate) enum OnHolder {
    /// The number of the version held.
    Id,
    /// Commits the manifest held once more.
    Again,
    /// The same after a first time, of the manifest that was held before it.
    Stale,
    Refresh,
    /// A moment, tries, the checkpoint and its source.
    Write(i64, u32, u64, Option<u64>),
    /// A moment, the old checkpoint and the new one.
    Replace(i64, u64, u64),
    /// A moment, the checkpoint and its new lifetime.
    Prolong(i64, u64, u64),
    /// A moment and the checkpoint.
    Remove(i64, u64),
}

/// A call. Holders are named by their places in the order of their making, fenced ones apart.
#[derive(Clone, Copy, Debug)]
pub(crate) enum Call {
    Log(OnLog),
    Hold(Hold),
    Holder(usize, OnHolder),
    Fence(usize, OnHolder),
    /// By a machine, in this many steps.
    Machine(Steps, u8),
}

/// A call of a row, and its answer.
pub(crate) type Row = (Call, Answer);

/// A store, and the holders over it.
#[derive(Drop)]
pub(crate) struct Held {
    pub(crate) store: MemoryStore,
    pub(crate) stored: Vec<StoredManifest>,
    pub(crate) fenced: Vec<FenceableManifest>,
}

/// The log of manifests.
pub(crate) fn log(rt: &impl Abort) -> ManifestStore {
    ManifestStore::new(db(rt))
}

/// A lifetime of 1000 milliseconds, and this source.
pub(crate) fn options(source: Option<u64>) -> CheckpointOptions {
    CheckpointOptions {
        lifetime: Some(1000),
        source: match source {
            Some(n) => Some(CheckpointId::from_u64(n)),
            None => None,
        },
        name: None,
    }
}

/// The number of a version that was read.
pub(crate) fn number(reply: Result<VersionedManifest, SlateDBError>) -> Answer {
    match reply {
        Ok(version) => {
            let n = version.id();
            drop(version);
            Answer::Number(n)
        }
        Err(e) => refused(e),
    }
}

/// Whether there are two versions, number 1 and this one.
pub(crate) fn are_both(read: &BTreeMap<u64, Manifest>, n: u64) -> bool {
    read.len() == 2 && read.contains_key(&1) && read.contains_key(&n)
}

fn both(rt: &impl Abort, n: u64, reply: Result<BTreeMap<u64, Manifest>, SlateDBError>) -> Answer {
    match reply {
        Ok(read) => {
            let has_both = are_both(&read, n);
            drop(read);
            assert!(rt; has_both);
            Answer::Number(2)
        }
        Err(e) => refused(e),
    }
}

/// The checkpoint that was made.
pub(crate) fn checkpoint(reply: Result<Checkpoint, SlateDBError>) -> Answer {
    match reply {
        Ok(made) => {
            let answer = Answer::Checkpoint(made.manifest_id, made.create_time, made.expire_time);
            drop(made);
            answer
        }
        Err(e) => refused(e),
    }
}

fn listed(rt: &impl Abort, alloc: Global, store: &mut MemoryStore, log: &ManifestStore) -> Answer {
    let all = NumberRange {
        start: Bound::Unbounded,
        end: Bound::Unbounded,
    };
    let versions = log.list_manifests(alloc, store, all).expect(rt, "memory");
    let mut digits = 0u64;
    for version in versions.as_slice() {
        digits = digits.wrapping_mul(10).wrapping_add(version.0);
    }
    drop(versions);
    Answer::Number(digits)
}

/// A manifest whose two checkpoints name version 1.
pub(crate) fn naming_first(rt: &impl Abort, alloc: Global) -> Manifest {
    let mut manifest = Manifest::initial(alloc, ManifestCore::new(alloc));
    for n in 1..3 {
        let checkpoint = Checkpoint {
            id: CheckpointId::from_u64(n),
            manifest_id: 1,
            expire_time: None,
            create_time: 0,
            name: None,
        };
        manifest
            .core
            .checkpoints
            .push(checkpoint)
            .expect(rt, "memory");
    }
    manifest
}

fn referenced(
    rt: &impl Abort,
    alloc: Global,
    store: &mut MemoryStore,
    log: &ManifestStore,
    n: u64,
) -> Answer {
    let manifest = naming_first(rt, alloc);
    let reply = log.read_referenced_manifests(alloc, store, n, &manifest);
    drop(manifest);
    both(rt, n, reply)
}

fn on_log(
    rt: &impl Abort,
    alloc: Global,
    store: &mut MemoryStore,
    log: &ManifestStore,
    call: OnLog,
) -> Answer {
    match call {
        OnLog::Latest => number(log.read_latest_manifest(alloc, store, 1)),
        OnLog::TryLatest => found(log.try_read_latest_manifest(alloc, store, 1)),
        OnLog::Read(n) => done(log.read_manifest(alloc, store, n)),
        OnLog::TryRead(n) => found(log.try_read_manifest(alloc, store, n)),
        OnLog::Delete(n) => done(log.delete_manifest(alloc, store, n, 1)),
        OnLog::DeleteUnchecked(n) => done(log.delete_manifest_unchecked(alloc, store, n)),
        OnLog::Advance(n) => done(log.advance_boundary(alloc, store, n, 8, 1)),
        OnLog::List => listed(rt, alloc, store, log),
        OnLog::Referenced(n) => referenced(rt, alloc, store, log, n),
    }
}

/// A holder that was made.
pub(crate) fn keep(
    rt: &impl Abort,
    stored: &mut Vec<StoredManifest>,
    reply: Result<StoredManifest, SlateDBError>,
) -> Answer {
    match reply {
        Ok(holder) => {
            let n = holder.id();
            stored.push(holder).expect(rt, "memory");
            Answer::Number(n)
        }
        Err(e) => refused(e),
    }
}

/// A holder that was made where there is a version.
pub(crate) fn keep_found(
    rt: &impl Abort,
    stored: &mut Vec<StoredManifest>,
    reply: Result<Option<StoredManifest>, SlateDBError>,
) -> Answer {
    match reply {
        Ok(Some(holder)) => keep(rt, stored, Ok(holder)),
        Ok(None) => Answer::Nothing,
        Err(e) => refused(e),
    }
}

/// A fenced holder that was made.
pub(crate) fn keep_fenced(
    rt: &impl Abort,
    fenced: &mut Vec<FenceableManifest>,
    reply: Result<FenceableManifest, SlateDBError>,
) -> Answer {
    match reply {
        Ok(holder) => {
            let answer = Answer::Holds(holder.manifest().0, holder.local_epoch());
            fenced.push(holder).expect(rt, "memory");
            answer
        }
        Err(e) => refused(e),
    }
}

fn create(
    alloc: Global,
    store: &mut MemoryStore,
    rt: &impl Abort,
) -> Result<StoredManifest, SlateDBError> {
    StoredManifest::create_new_db(alloc, store, db(rt), ManifestCore::new(alloc), 5)
}

fn make_holder(rt: &impl Abort, alloc: Global, held: &mut Held, call: Hold) -> Answer {
    match call {
        Hold::Create => {
            let reply = create(alloc, &mut held.store, rt);
            keep(rt, &mut held.stored, reply)
        }
        Hold::Load => {
            let reply = StoredManifest::load(alloc, &mut held.store, db(rt), 1);
            keep(rt, &mut held.stored, reply)
        }
        Hold::TryLoad => {
            let reply = StoredManifest::try_load(alloc, &mut held.store, db(rt), 1);
            keep_found(rt, &mut held.stored, reply)
        }
        Hold::Writer => {
            let stored = held.stored.pop().expect(rt, "a holder");
            let reply = FenceableManifest::init_writer(alloc, stored, &mut held.store, 7, 1);
            keep_fenced(rt, &mut held.fenced, reply)
        }
        Hold::Compactor => {
            let stored = held.stored.pop().expect(rt, "a holder");
            let reply = FenceableManifest::init_compactor(alloc, stored, &mut held.store, 7, 1);
            keep_fenced(rt, &mut held.fenced, reply)
        }
    }
}

fn stale(
    rt: &impl Abort,
    alloc: Global,
    store: &mut MemoryStore,
    holder: &mut StoredManifest,
) -> Answer {
    let dirty = holder.prepare_dirty(alloc).expect(rt, "memory");
    assert!(rt; again(rt, alloc, store, holder) == Answer::Done);
    done(holder.update(alloc, store, dirty, &Right::Plain, 9))
}

fn written(
    rt: &impl Abort,
    alloc: Global,
    store: &mut MemoryStore,
    holder: &mut StoredManifest,
    call: (i64, u32, u64, Option<u64>),
) -> Answer {
    let (moment, tries, n, source) = call;
    assert!(rt; 0 < tries);
    let options = options(source);
    let id = CheckpointId::from_u64(n);
    let reply = holder.write_checkpoint(alloc, store, moment, tries, id, &options);
    drop(options);
    checkpoint(reply)
}

fn replaced(
    alloc: Global,
    store: &mut MemoryStore,
    holder: &mut StoredManifest,
    call: (i64, u64, u64),
) -> Answer {
    let (moment, old, new) = call;
    let options = options(None);
    let old = CheckpointId::from_u64(old);
    let new = CheckpointId::from_u64(new);
    let reply = holder.replace_checkpoint(alloc, store, moment, 1, old, new, &options);
    drop(options);
    checkpoint(reply)
}

fn on_holder(
    rt: &impl Abort,
    alloc: Global,
    store: &mut MemoryStore,
    holder: &mut StoredManifest,
    call: OnHolder,
) -> Answer {
    match call {
        OnHolder::Id => Answer::Number(holder.id()),
        OnHolder::Again => again(rt, alloc, store, holder),
        OnHolder::Stale => stale(rt, alloc, store, holder),
        OnHolder::Refresh => done(holder.refresh(alloc, store, 1)),
        OnHolder::Write(moment, tries, n, source) => {
            written(rt, alloc, store, holder, (moment, tries, n, source))
        }
        OnHolder::Replace(moment, old, new) => replaced(alloc, store, holder, (moment, old, new)),
        OnHolder::Prolong(moment, n, lifetime) => {
            let id = CheckpointId::from_u64(n);
            checkpoint(holder.refresh_checkpoint(alloc, store, moment, 1, id, lifetime))
        }
        OnHolder::Remove(moment, n) => {
            let id = CheckpointId::from_u64(n);
            done(holder.delete_checkpoint(alloc, store, moment, 1, id))
        }
    }
}

fn fenced_written(
    rt: &impl Abort,
    alloc: Global,
    store: &mut MemoryStore,
    holder: &mut FenceableManifest,
    call: (i64, u32, u64, Option<u64>),
) -> Answer {
    let (moment, tries, n, source) = call;
    assert!(rt; 0 < tries);
    let options = options(source);
    let id = CheckpointId::from_u64(n);
    let reply = holder.write_checkpoint(alloc, store, moment, tries, id, &options);
    drop(options);
    checkpoint(reply)
}

fn fenced_replaced(
    alloc: Global,
    store: &mut MemoryStore,
    holder: &mut FenceableManifest,
    call: (i64, u64, u64),
) -> Answer {
    let (moment, old, new) = call;
    let options = options(None);
    let old = CheckpointId::from_u64(old);
    let new = CheckpointId::from_u64(new);
    let reply = holder.replace_checkpoint(alloc, store, moment, 1, old, new, &options);
    drop(options);
    checkpoint(reply)
}

fn fenced_again(
    rt: &impl Abort,
    alloc: Global,
    store: &mut MemoryStore,
    holder: &mut FenceableManifest,
) -> Answer {
    let dirty = holder.prepare_dirty(alloc).expect(rt, "memory");
    done(holder.update(alloc, store, dirty, &Right::Plain, 11))
}

fn on_fenced(
    rt: &impl Abort,
    alloc: Global,
    store: &mut MemoryStore,
    holder: &mut FenceableManifest,
    call: OnHolder,
) -> Answer {
    match call {
        OnHolder::Id => Answer::Holds(holder.manifest().0, holder.local_epoch()),
        OnHolder::Again => fenced_again(rt, alloc, store, holder),
        OnHolder::Stale => Answer::Nothing,
        OnHolder::Refresh => done(holder.refresh(alloc, store, 1)),
        OnHolder::Write(moment, tries, n, source) => {
            fenced_written(rt, alloc, store, holder, (moment, tries, n, source))
        }
        OnHolder::Replace(moment, old, new) => {
            fenced_replaced(alloc, store, holder, (moment, old, new))
        }
        OnHolder::Prolong(moment, n, lifetime) => {
            let id = CheckpointId::from_u64(n);
            checkpoint(holder.refresh_checkpoint(alloc, store, moment, 1, id, lifetime))
        }
        OnHolder::Remove(moment, n) => {
            let id = CheckpointId::from_u64(n);
            done(holder.delete_checkpoint(alloc, store, moment, 1, id))
        }
    }
}

fn made(rt: &impl Abort, alloc: Global, held: &mut Held, call: Call) -> Answer {
    match call {
        Call::Log(call) => {
            let log = log(rt);
            let answer = on_log(rt, alloc, &mut held.store, &log, call);
            drop(log);
            answer
        }
        Call::Hold(call) => make_holder(rt, alloc, held, call),
        Call::Holder(place, call) => {
            let holder = held.stored.get_mut(place).expect(rt, "a holder");
            on_holder(rt, alloc, &mut held.store, holder, call)
        }
        Call::Fence(place, call) => {
            let holder = held.fenced.get_mut(place).expect(rt, "a holder");
            on_fenced(rt, alloc, &mut held.store, holder, call)
        }
        Call::Machine(call, steps) => by_steps(rt, alloc, held, call, steps),
    }
}

/// Makes the calls of a table over an empty store, and compares their answers.
pub(crate) fn play(rt: &impl Abort, alloc: Global, name: &str, rows: &[Row]) {
    let mut held = Held {
        store: empty(alloc),
        stored: Vec::new(alloc),
        fenced: Vec::new(alloc),
    };
    for (place, (call, wanted)) in rows.iter().enumerate() {
        let answer = made(rt, alloc, &mut held, *call);
        assert!(rt; answer == *wanted, "{name}, row {place}: {answer:?}");
    }
    drop(held);
}
