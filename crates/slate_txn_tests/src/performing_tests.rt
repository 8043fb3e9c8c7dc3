//! Store calls that are given as values, their answers, and copies of both.

use crate::test_values::db;
use slate_ids::{ByteList, ObjectPath};
use slate_store::{ListDir, MemoryStore, ObjectMetadata, StoreAnswer, StoreCall, perform};
use std::alloc::Global;
use std::process::Abort;

/// The tags that the calls below tell, in their order; 0 of a delete.
const TAGS: [u64; 6] = [1, 2, 3, 3, 3, 0];

fn file(rt: &impl Abort) -> ObjectPath {
    ObjectPath::Wal(db(rt), 7)
}

fn ab(rt: &impl Abort, alloc: Global) -> ByteList {
    ByteList::copy_of(alloc, b"ab").expect(rt, "memory")
}

/// The call at a place.
fn call(rt: &impl Abort, alloc: Global, place: usize) -> StoreCall {
    match place {
        0 => StoreCall::PutNew(file(rt), ab(rt, alloc)),
        1 => StoreCall::Replace(file(rt), 1, ab(rt, alloc)),
        2 => StoreCall::Put(file(rt), ab(rt, alloc)),
        3 => StoreCall::List(ListDir::Wals(db(rt))),
        4 => StoreCall::Get(file(rt)),
        _ => StoreCall::Delete(file(rt)),
    }
}

/// A copy of the call at a place.
fn copied(rt: &impl Abort, alloc: Global, place: usize) -> StoreCall {
    let call = call(rt, alloc, place);
    let copied = call.copy(alloc).expect(rt, "memory");
    drop(call);
    copied
}

/// The answer to the call at a place.
fn answer(rt: &impl Abort, alloc: Global, store: &mut MemoryStore, place: usize) -> StoreAnswer {
    let call = copied(rt, alloc, place);
    let answer = perform(alloc, store, &call, 5).expect(rt, "memory");
    drop(call);
    answer
}

fn first_tag(found: &[ObjectMetadata]) -> Option<u64> {
    match found.first() {
        Some(metadata) => Some(metadata.e_tag),
        None => None,
    }
}

/// The tag that an answer tells.
fn tag_told(told: &StoreAnswer) -> Option<u64> {
    match told {
        StoreAnswer::Found(found) => first_tag(found.as_slice()),
        StoreAnswer::Got(Some(object)) => Some(object.e_tag),
        StoreAnswer::Got(None) => None,
        StoreAnswer::Created(tag) => *tag,
        StoreAnswer::Replaced(tag) => *tag,
        StoreAnswer::Written(tag) => Some(*tag),
        StoreAnswer::Deleted => Some(0),
        StoreAnswer::Fault => None,
    }
}

/// Whether a copy of an answer tells this tag.
fn tells(rt: &impl Abort, alloc: Global, told: &StoreAnswer, tag: u64) -> bool {
    let copied = told.copy(alloc).expect(rt, "memory");
    let so = tag_told(&copied) == Some(tag);
    drop(copied);
    so
}

/// Makes the calls, and compares what they tell.
fn make_calls(rt: &impl Abort, alloc: Global, store: &mut MemoryStore) {
    for (place, tag) in TAGS.iter().enumerate() {
        let told = answer(rt, alloc, store, place);
        let so = tells(rt, alloc, &told, *tag);
        drop(told);
        assert!(rt; so, "at {place}");
    }
}

#[test]
fn calls_tell_their_tags(rt: HostRuntime) {
    let mut store = MemoryStore::new(rt.alloc(), Vec::new(rt.alloc()));
    make_calls(&rt, rt.alloc(), &mut store);
    drop(store);
}
