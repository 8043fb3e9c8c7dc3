//! Bytes of records.

use crate::answers::{db, empty};
use crate::record_calls::log;
use slate_ids::{FormatName, ObjectPath, SlateDBError};
use slate_state_holders::StoredCompactions;
use slate_store::{MemoryStore, ObjectStore};
use std::alloc::Global;
use std::process::Abort;

/// What a read says of bytes: the number of its refusal and the version that it names.
fn refused(reply: &SlateDBError) -> (u8, u16) {
    match reply {
        SlateDBError::InvalidVersion {
            format: FormatName::Compactions,
            actual,
        } => (12, *actual),
        SlateDBError::Corrupt(FormatName::Compactions) => (13, 0),
        SlateDBError::InvalidCompaction => (11, 0),
        _ => (0, 0),
    }
}

/// What a read of record 1 answers where it has these bytes.
fn read_of(rt: &impl Abort, alloc: Global, bytes: &[u8]) -> (u8, u16) {
    let mut store = empty(alloc);
    let path = ObjectPath::Record(db(rt), 1);
    store.put_new(alloc, &path, bytes, 5).expect(rt, "memory");
    drop(path);
    let reply = log(rt).read_compactions(alloc, &mut store, 1);
    drop(store);
    match reply {
        Ok(record) => {
            drop(record);
            (0, 0)
        }
        Err(e) => {
            let answer = refused(&e);
            drop(e);
            answer
        }
    }
}

/// Bytes that are no record, and what a read of them answers.
const OTHERS: &[(&[u8], (u8, u16))] = &[
    (b"", (11, 0)),
    (b"\x00", (11, 0)),
    (b"\x00\x09", (12, 9)),
    (b"\x01\x02", (12, 258)),
    (b"\x00\x02\x00", (13, 0)),
    (
        b"\x00\x02\x00\x00\x00\x00\x00\x00\x00\x00\x00\x00\x00\x00\x00",
        (13, 0),
    ),
];

// The table as a slice: a function that names a table has all of it written out.
fn others() -> &'static [(&'static [u8], (u8, u16))] {
    OTHERS
}

#[test]
fn bytes_that_are_no_record_are_refused(rt: HostRuntime) {
    for (bytes, wanted) in others() {
        assert!(rt; read_of(&rt, rt.alloc(), *bytes) == *wanted, "{wanted:?}");
    }
}

/// The record 1 of this epoch that was put by a creation, as its bytes.
fn first_bytes(rt: &impl Abort, alloc: Global, epoch: u64) -> MemoryStore {
    let mut store = empty(alloc);
    let holder = StoredCompactions::create(alloc, &mut store, db(rt), epoch, 5).expect(
        rt, "memory",
    );
    drop(holder);
    store
}

#[test]
fn a_new_record_has_14_bytes(rt: HostRuntime) {
    let store = first_bytes(&rt, rt.alloc(), 0);
    let object = store
        .object(&ObjectPath::Record(db(&rt), 1))
        .expect(&rt, "a record");
    assert!(rt;
        object.bytes.as_slice()
            == b"\x00\x02\x00\x00\x00\x00\x00\x00\x00\x00\x00\x00\x00\x00".as_slice()
    );
    drop(object);
    drop(store);
}
