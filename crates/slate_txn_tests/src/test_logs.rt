//! Logs of small numbers over a store in memory, for tests.
ghost use Rattle.std.specs.Prelude.{refl};
ghost use Rattle.slate_txn_tests.specs.Numbers.{encoded, decoded, refusal, round_trip};

use slate_ids::{
    DbPath, Epochs, FormatName, ObjectCodec, ObjectPath, OutOfMemory, SlateDBError, UpdateRule,
};
use slate_store::{Mark, MemoryStore, ObjectStore, Step, StoreCall};
use slate_txn::{Fenced, Stored};
use slate_txn_log::{CommitPhase, LogKind, Right, Rules, Sequenced, prepare};
use std::alloc::Global;
use std::process::Abort;

/// An epoch and a number, both below 256.
pub(crate) type Value = (u64, u64);

/// A byte for each number.
#[derive(Clone, Copy, Debug)]
pub(crate) struct Codec;

impl ObjectCodec<(u64, u64)> for Codec {
    ghost encoded = { λ _ v. encoded v };

    ghost decoded = { λ _ bytes. decoded bytes };

    ghost normal = { λ _ v. v };

    fn encode(&self, alloc: Global, value: &(u64, u64)) -> Result<Vec<u8>, SlateDBError> {
        if value.0 < 256 && value.1 < 256 {
            Ok(Vec::from_slice(alloc, &[value.0 as u8, value.1 as u8])?)
        } else {
            Err(SlateDBError::Corrupt(FormatName::Info))
        }
    }

    fn decode(&self, _alloc: Global, bytes: &[u8]) -> Result<(u64, u64), SlateDBError> {
        match bytes {
            [epoch, value] => Ok((*epoch as u64, *value as u64)),
            _ => Err(SlateDBError::Corrupt(FormatName::Info)),
        }
    }

    fn copy(&self, _alloc: Global, value: &(u64, u64)) -> Result<(u64, u64), OutOfMemory> {
        Ok(*value)
    }

    ghost round_trip = { λ _ value bytes h. round_trip value bytes h };
}

/// The first number is the epoch.
#[derive(Clone, Copy, Debug)]
pub(crate) struct First;

impl Epochs<(u64, u64)> for First {
    ghost epoch = { λ _ v. v.0 };

    ghost with_epoch = { λ _ v n. (n, v.1) };

    fn get(&self, value: &(u64, u64)) -> u64 {
        value.0
    }

    fn set(&self, value: &mut (u64, u64), number: u64) {
        *value = (number, value.1);
    }

    ghost epoch_set = { λ _ v n. refl };
}

/// The second number doesn't fall.
#[derive(Clone, Copy, Debug)]
pub(crate) struct Rising;

impl Rules<(u64, u64)> for Rising {
    ghost refusal = { λ _ _ old new _. refusal old new };

    fn check(
        &self,
        _alloc: Global,
        _old_id: u64,
        old: &(u64, u64),
        new: &(u64, u64),
        _right: &Right,
    ) -> Result<(), SlateDBError> {
        if new.1 < old.1 {
            Err(SlateDBError::UpdateRefused(UpdateRule::U1))
        } else {
            Ok(())
        }
    }
}

pub(crate) type Log = Sequenced<(u64, u64), Codec>;

pub(crate) type Holder = Stored<(u64, u64), Codec, Rising>;

pub(crate) type FencedHolder = Fenced<Value, Codec, Rising, First>;

/// The numbers of versions, and their bytes.
pub(crate) type Versions = &'static [(u64, [u8; 2])];

/// The path of the database.
pub(crate) fn db(rt: &impl Abort) -> DbPath {
    DbPath::from_text("db")
        .expect(rt, "memory")
        .expect(rt, "a path of a database")
}

/// The log of manifests of a database.
pub(crate) fn log(rt: &impl Abort) -> Log {
    Sequenced::new(db(rt), LogKind::Manifest, Codec)
}

fn put(rt: &impl Abort, alloc: Global, store: &mut MemoryStore, path: ObjectPath, bytes: &[u8]) {
    store.put(alloc, &path, bytes, 7).expect(rt, "memory");
    drop(path);
}

/// A store in which the log has these versions, and the boundary where there is one.
pub(crate) fn store_with(
    rt: &impl Abort,
    alloc: Global,
    versions: &[(u64, [u8; 2])],
    boundary: Option<&str>,
) -> MemoryStore {
    store_marked(rt, alloc, versions, boundary, Vec::new(alloc))
}

/// The same, whose calls go by these marks, also those that put the versions and the boundary.
pub(crate) fn store_marked(
    rt: &impl Abort,
    alloc: Global,
    versions: &[(u64, [u8; 2])],
    boundary: Option<&str>,
    marks: Vec<Mark>,
) -> MemoryStore {
    let db = db(rt);
    let mut store = MemoryStore::new(alloc, marks);
    for (number, bytes) in versions {
        put(
            rt,
            alloc,
            &mut store,
            ObjectPath::Manifest(db, *number),
            bytes,
        );
    }
    if let Some(text) = boundary {
        let path = ObjectPath::ManifestBoundary(db);
        put(rt, alloc, &mut store, path, text.as_bytes());
    }
    store
}

/// The commit of a value that follows `(0, 5)`, version 1.
pub(crate) fn commit_of(rt: &impl Abort, alloc: Global, value: Value) -> CommitPhase<Value> {
    prepare(alloc, &Codec, &Rising, 1, &(0, 5), value, &Right::Plain).expect(rt, "memory")
}

/// Whether a call puts these bytes where nothing is: as the version of this number, or elsewhere.
pub(crate) fn puts(call: &StoreCall, number: Option<u64>, bytes: &[u8]) -> bool {
    match call {
        StoreCall::PutNew(path, put) => {
            LogKind::Manifest.number_of(path) == number && put.as_slice() == bytes
        }
        _ => false,
    }
}

/// Whether a machine goes on.
pub(crate) fn goes_on<T: Drop>(step: Step<T>) -> bool {
    match step {
        Step::Again => true,
        Step::Done(reply) => {
            drop(reply);
            false
        }
    }
}

/// What a machine answers that ends here.
pub(crate) fn end<T: Drop>(rt: &impl Abort, step: Step<T>) -> Result<T, SlateDBError> {
    match step {
        Step::Done(reply) => reply,
        Step::Again => None.expect(rt, "an end"),
    }
}

/// What it answers well.
pub(crate) fn ended<T: Drop>(rt: &impl Abort, step: Step<T>) -> T {
    end(rt, step).expect(rt, "an answer")
}
