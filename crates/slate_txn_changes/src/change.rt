//! What a commit puts, of the version that was read.
ghost use Rattle.std.specs.Prelude.{◌≡◌, ℕ, ℤ, IfOk, Option, None, Result, Ok};
ghost use Rattle.slate_txn_changes.specs.Changes.{fence_by, made_by, right_by};
ghost use Rattle.slate_ids.specs.Answers.{Gives};
ghost use Rattle.slate_ids.specs.declared.error.SlateDBError.{SlateDBError as Refusal};
ghost use Rattle.slate_txn_log.specs.declared.right.Right.{Right as AnyRight};

use slate_ids::{Millis, OutOfMemory, SlateDBError};
use slate_txn_log::Right;
use std::alloc::Global;

/// A change of a log's value: what a commit puts, of the version that was read.
pub trait Change<V> {
    /// What it makes at a moment of a version of this number; nothing, where nothing is to be committed; or why it makes none.
    ghost made: { Self → ℤ → ℕ → V → Result (Option V) Refusal };

    /// Under which right that is put.
    ghost right_of: { Self → AnyRight };

    /// Why a version refuses it, whatever it makes: its fence.
    ghost fence_of: { Self → V → Option Refusal };

    /// The right under which it is put.
    fn right(&self, alloc: Global) -> Result<Right, OutOfMemory>
        ensures { IfOk result (λ right. right ≡ right_of self.now) };

    /// Why its fence refuses a version.
    fn refusal_at(&self, value: &V) -> Option<SlateDBError>
        ensures { result ≡ fence_of self.now value.now };

    /// What it makes at a moment of version `n`; nothing, where nothing is to be committed.
    fn make(&self, alloc: Global, now: Millis, n: u64, value: &V) -> Result<Option<V>, SlateDBError>
        ensures { Gives result (made self.now now n value.now) };
}

/// A change, where there is one; none makes nothing.
impl<V, C: Change<V>> Change<V> for Option<C> {
    ghost made = { λ change now n value. made_by C.made change now n value };

    ghost right_of = { λ change. right_by C.right_of change };

    ghost fence_of = { λ change value. fence_by C.fence_of change value };

    fn right(&self, alloc: Global) -> Result<Right, OutOfMemory> {
        match self {
            None => Ok(Right::Plain),
            Some(change) => change.right(alloc),
        }
    }

    fn refusal_at(&self, value: &V) -> Option<SlateDBError> {
        match self {
            None => None,
            Some(change) => change.refusal_at(value),
        }
    }

    fn make(
        &self,
        alloc: Global,
        now: Millis,
        n: u64,
        value: &V,
    ) -> Result<Option<V>, SlateDBError> {
        match self {
            None => Ok(None),
            Some(change) => change.make(alloc, now, n, value),
        }
    }
}
