//! A store in memory. Its calls are made as values too, beside `perform`.

use crate::test_values::db;
use slate_ids::ObjectPath;
use slate_store::{ListDir, Mark, MemoryStore, ObjectMetadata, ObjectStore, StoreError};
use std::alloc::Global;
use std::process::Abort;

/// A store whose first call is to fail.
fn failing(rt: &impl Abort, alloc: Global) -> MemoryStore {
    let marks = Vec::from_slice(alloc, &[Mark::Fail]).expect(rt, "memory");
    MemoryStore::new(alloc, marks)
}

/// Whether the call that is to fail does, and the next ones write with tags 1 to 3.
fn writes(alloc: Global, store: &mut MemoryStore, path: &ObjectPath) -> bool {
    store.put_new(alloc, path, b"new", 1) == Err(StoreError::Fault)
        && store.put_new(alloc, path, b"new", 1) == Ok(Some(1))
        && store.replace(alloc, path, 1, b"other", 2) == Ok(Some(2))
        && store.put(alloc, path, b"put", 3) == Ok(3)
}

/// Whether a listing has one object, which was put last.
fn has_one(found: &[ObjectMetadata]) -> bool {
    found.len() == 1 && found[0].e_tag == 3
}

/// Whether a list would find that object.
fn would_list(rt: &impl Abort, alloc: Global, store: &MemoryStore, dir: &ListDir) -> bool {
    let found = store.listed(alloc, dir).expect(rt, "memory");
    let so = has_one(found.as_slice());
    drop(found);
    so
}

/// Whether the store has one object, at this path.
fn has_path(rt: &impl Abort, alloc: Global, store: &MemoryStore, path: &ObjectPath) -> bool {
    let paths = store.paths(alloc).expect(rt, "memory");
    let so = paths.len() == 1 && paths[0] == *path;
    drop(paths);
    so
}

fn make_calls(rt: &impl Abort, alloc: Global, store: &mut MemoryStore, path: &ObjectPath) {
    let files = ListDir::Wals(db(rt));
    assert!(rt; writes(alloc, store, path));
    assert!(rt; would_list(rt, alloc, store, &files));
    assert!(rt; has_path(rt, alloc, store, path));
}

#[test]
fn a_call_fails_and_the_next_ones_are_as_usual(rt: HostRuntime) {
    let file = ObjectPath::Wal(db(&rt), 7);
    let mut store = failing(&rt, rt.alloc());
    make_calls(&rt, rt.alloc(), &mut store, &file);
    drop(store);
    drop(file);
}
