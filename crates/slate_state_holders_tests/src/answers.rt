//! What calls answer, as small values.

use slate_ids::{DbPath, SlateDBError};
use slate_store::{MemoryStore, Step};
use std::alloc::Global;
use std::process::Abort;

/// What a call answers.
#[derive(Clone, Copy, Debug, PartialEq)]
pub(crate) enum Answer {
    /// It is done.
    Done,
    /// There is none.
    Nothing,
    /// A number of a version, or the numbers of several, a digit each.
    Number(u64),
    /// The number of the version held, and an epoch.
    Holds(u64, u64),
    /// A checkpoint: its version, its making and its expiry, in milliseconds.
    Checkpoint(u64, i64, Option<i64>),
    /// The version of this number was taken, or the boundary was at it.
    Taken(u64, Option<u64>),
    /// The own epoch, and the greater one that was read.
    Fenced(u64, u64),
    /// The number of another refusal, and the version that it names, or 0.
    Refused(u8, u64),
}

/// The path of the database.
pub(crate) fn db(rt: &impl Abort) -> DbPath {
    DbPath::from_text("db")
        .expect(rt, "memory")
        .expect(rt, "a path of a database")
}

/// An empty store.
pub(crate) fn empty(alloc: Global) -> MemoryStore {
    MemoryStore::new(alloc, Vec::new(alloc))
}

fn refusal(e: &SlateDBError) -> Answer {
    match e {
        SlateDBError::TransactionalObjectVersionExists { number, boundary } => {
            Answer::Taken(*number, *boundary)
        }
        SlateDBError::Fenced { own, read } => Answer::Fenced(*own, *read),
        SlateDBError::ManifestMissing(n) => Answer::Refused(4, *n),
        SlateDBError::InvalidDeletion(n) => Answer::Refused(9, *n),
        _ => Answer::Refused(e.code(), 0),
    }
}

/// A refusal.
pub(crate) fn refused(e: SlateDBError) -> Answer {
    let answer = refusal(&e);
    drop(e);
    answer
}

/// Whether a call is done.
pub(crate) fn done<T: Drop>(reply: Result<T, SlateDBError>) -> Answer {
    match reply {
        Ok(value) => {
            drop(value);
            Answer::Done
        }
        Err(e) => refused(e),
    }
}

/// Whether what a call may find is there.
pub(crate) fn found<T: Drop>(reply: Result<Option<T>, SlateDBError>) -> Answer {
    match reply {
        Ok(Some(value)) => {
            drop(value);
            Answer::Done
        }
        Ok(None) => Answer::Nothing,
        Err(e) => refused(e),
    }
}

/// Whether a machine goes on.
pub(crate) fn goes_on<T: Drop>(step: Step<T>) -> bool {
    match step {
        Step::Again => true,
        Step::Done(reply) => {
            drop(reply);
            false
        }
    }
}

/// What a machine answers that ends here.
pub(crate) fn end<T: Drop>(rt: &impl Abort, step: Step<T>) -> Result<T, SlateDBError> {
    match step {
        Step::Done(reply) => reply,
        Step::Again => None.expect(rt, "an end"),
    }
}
