//! The commit of what a change makes.
ghost use Rattle.std.specs.Prelude.{◌≡◌, IfOk, IfSome, true};
ghost use Rattle.slate_txn_changes.specs.Changes.{change_commit};
ghost use Rattle.slate_ids.specs.Answers.{Gives};
ghost use Rattle.slate_txn_log.specs.CommitPhase.{is_putting};

use crate::change::Change;
use slate_ids::{Millis, ObjectCodec, SlateDBError};
use slate_txn_log::{CommitPhase, Right, Rules, prepare_change};
use std::alloc::Global;

// The commit of what a change makes, under this right.
fn commit_under<V: Drop, H: Change<V>, C: ObjectCodec<V>, R: Rules<V>>(
    alloc: Global,
    change: &H,
    right: &Right,
    codec: &C,
    rules: &R,
    now: Millis,
    n: u64,
    value: &V,
) -> Result<Option<CommitPhase<V>>, SlateDBError>
    requires right { right.now ≡ H.right_of change.now }
    requires unfenced { H.fence_of change.now value.now ≡ None }
    ensures commit { Gives result (change_commit (H.made change.now) (H.right_of change.now) (H.fence_of change.now)
        (R.refusal rules.now) (C.encoded codec.now) now n value.now) }
    ensures putting { IfOk result (λ commit. IfSome commit (λ c. is_putting c ≡ true)) }
{
    let made = change.make(alloc, now, n, value)?;
    prepare_change(alloc, codec, rules, n, value, made, right)
}

/// The commit of what a change makes at a moment of version `n`; none, where nothing is to be committed. Refused, in this order, by the
/// fence of the change, by what the change refuses, by the last number (`Exhausted`), by the rules, and where the value has no bytes.
pub fn commit_change<V: Drop, H: Change<V>, C: ObjectCodec<V>, R: Rules<V>>(
    alloc: Global,
    change: &H,
    codec: &C,
    rules: &R,
    now: Millis,
    n: u64,
    value: &V,
) -> Result<Option<CommitPhase<V>>, SlateDBError>
    ensures commit { Gives result (change_commit (H.made change.now) (H.right_of change.now) (H.fence_of change.now)
        (R.refusal rules.now) (C.encoded codec.now) now n value.now) }
    ensures putting { IfOk result (λ commit. IfSome commit (λ c. is_putting c ≡ true)) }
{
    match change.refusal_at(value) {
        Some(refusal) => Err(refusal),
        None => {
            let right = change.right(alloc)?;
            let commit = commit_under(alloc, change, &right, codec, rules, now, n, value);
            drop(right);
            commit
        }
    }
}
