//! Reads of a compactor's state.

use slate_ids::{DbPath, SlateDBError};
use slate_model::ManifestCore;
use slate_state_holders::{StoredCompactions, StoredManifest};
use slate_state_reader::{CompactorStateReader, CompactorStateView, ReadViewMachine};
use slate_state_stores::ManifestStore;
use slate_store::{MemoryStore, Step};
use slate_txn_log::Right;
use std::alloc::Global;
use std::process::Abort;

fn db(rt: &impl Abort) -> DbPath {
    DbPath::from_text("db")
        .expect(rt, "memory")
        .expect(rt, "a path of a database")
}

fn empty(alloc: Global) -> MemoryStore {
    MemoryStore::new(alloc, Vec::new(alloc))
}

/// A store with a first manifest.
fn with_manifest(rt: &impl Abort, alloc: Global) -> MemoryStore {
    let mut store = empty(alloc);
    let core = ManifestCore::new(alloc);
    let holder = StoredManifest::create_new_db(alloc, &mut store, db(rt), core, 5).expect(
        rt, "memory",
    );
    drop(holder);
    store
}

/// One more version of the manifest.
fn more_manifest(rt: &impl Abort, alloc: Global, store: &mut MemoryStore) {
    let mut holder = StoredManifest::load(alloc, store, db(rt), 1).expect(rt, "memory");
    let dirty = holder.prepare_dirty(alloc).expect(rt, "memory");
    holder
        .update(alloc, store, dirty, &Right::Plain, 6)
        .expect(rt, "memory");
    drop(holder);
}

/// A first record.
fn first_record(rt: &impl Abort, alloc: Global, store: &mut MemoryStore) {
    let holder = StoredCompactions::create(alloc, store, db(rt), 4, 5).expect(rt, "memory");
    drop(holder);
}

/// One more version of the record.
fn more_record(rt: &impl Abort, alloc: Global, store: &mut MemoryStore) {
    let mut holder = StoredCompactions::load(alloc, store, db(rt), 1).expect(rt, "memory");
    let dirty = holder.prepare_dirty(alloc).expect(rt, "memory");
    holder
        .update(alloc, store, dirty, &Right::Plain, 6)
        .expect(rt, "memory");
    drop(holder);
}

/// The numbers of the record, or 0, and of the manifest.
fn numbers(view: &CompactorStateView) -> (u64, u64) {
    let record = match view.compactions() {
        Some(version) => version.id(),
        None => 0,
    };
    (record, view.manifest().id())
}

/// What a read answers: the numbers, or 100 and the number of the refusal.
fn read(rt: &impl Abort, alloc: Global, store: &mut MemoryStore, tries: u32) -> (u64, u64) {
    let reader = CompactorStateReader::new(db(rt));
    assert!(rt; tries > 0);
    let reply = reader.read_view(alloc, store, tries);
    drop(reader);
    told(reply)
}

fn told(reply: Result<CompactorStateView, SlateDBError>) -> (u64, u64) {
    match reply {
        Ok(view) => {
            let numbers = numbers(&view);
            drop(view);
            numbers
        }
        Err(e) => {
            let number = u64::from(e.code());
            drop(e);
            (100, number)
        }
    }
}

#[test]
fn a_view_has_the_record_and_the_manifest(rt: HostRuntime) {
    let alloc = rt.alloc();
    let mut store = empty(alloc);
    assert!(rt; read(&rt, alloc, &mut store, 1) == (100, 3));
    first_record(&rt, alloc, &mut store);
    assert!(rt; read(&rt, alloc, &mut store, 1) == (100, 3));
    drop(store);
    let mut store = with_manifest(&rt, alloc);
    assert!(rt; read(&rt, alloc, &mut store, 1) == (0, 1));
    first_record(&rt, alloc, &mut store);
    more_record(&rt, alloc, &mut store);
    assert!(rt; read(&rt, alloc, &mut store, 1) == (2, 1));
    drop(store);
}

/// A step of a read: 0 where it goes on.
fn step(
    rt: &impl Abort,
    alloc: Global,
    store: &mut MemoryStore,
    machine: &mut ReadViewMachine,
) -> (u64, u64) {
    let reader = CompactorStateReader::new(db(rt));
    assert!(rt; machine.due());
    let step = machine.next(alloc, &reader, store, 0);
    drop(reader);
    match step {
        Step::Again => (0, 0),
        Step::Done(reply) => told(reply),
    }
}

// What others commit between the two reads is seen of the manifest alone.
#[test]
fn the_record_is_read_first(rt: HostRuntime) {
    let alloc = rt.alloc();
    let mut store = with_manifest(&rt, alloc);
    first_record(&rt, alloc, &mut store);
    let reader = CompactorStateReader::new(db(&rt));
    let mut machine = reader.start_read_view();
    drop(reader);
    assert!(rt; step(&rt, alloc, &mut store, &mut machine) == (0, 0));
    assert!(rt; step(&rt, alloc, &mut store, &mut machine) == (0, 0));
    assert!(rt; step(&rt, alloc, &mut store, &mut machine) == (0, 0));
    more_record(&rt, alloc, &mut store);
    more_manifest(&rt, alloc, &mut store);
    assert!(rt; step(&rt, alloc, &mut store, &mut machine) == (0, 0));
    assert!(rt; step(&rt, alloc, &mut store, &mut machine) == (0, 0));
    assert!(rt; step(&rt, alloc, &mut store, &mut machine) == (1, 2));
    assert!(rt; !machine.due());
    drop(machine);
    drop(store);
}

// The manifest's boundary is at its only version, so that each try starts again.
#[test]
fn tries_are_used_up(rt: HostRuntime) {
    let alloc = rt.alloc();
    let mut store = with_manifest(&rt, alloc);
    first_record(&rt, alloc, &mut store);
    let log = ManifestStore::new(db(&rt));
    log.advance_boundary(alloc, &mut store, 1, 8, 1)
        .expect(&rt, "memory");
    drop(log);
    assert!(rt; read(&rt, alloc, &mut store, 1) == (100, 21));
    assert!(rt; read(&rt, alloc, &mut store, 3) == (100, 21));
    drop(store);
}
