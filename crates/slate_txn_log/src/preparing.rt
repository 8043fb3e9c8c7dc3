//! The commit of what a change made.
ghost use Rattle.std.specs.Prelude.{◌≡◌, Ok, IfOk, IfSome, true};
ghost use Rattle.slate_ids.specs.Answers.{Gives};
ghost use Rattle.slate_txn_log.specs.Change.{wanted};
ghost use Rattle.slate_txn_log.specs.CommitPhase.{prepared, is_putting};

use crate::commit_phase::{CommitPhase, prepare};
use crate::right::Right;
use crate::rules::Rules;
use slate_ids::{ObjectCodec, SlateDBError};
use std::alloc::Global;

/// The put of what a change made of the old value of this number, where it made any; none where it made none. Refused as
/// by `prepare`.
pub fn prepare_change<T: Drop, C: ObjectCodec<T>, R: Rules<T>>(
    alloc: Global,
    codec: &C,
    rules: &R,
    id: u64,
    old: &T,
    changed: Option<T>,
    right: &Right,
) -> Result<Option<CommitPhase<T>>, SlateDBError>
    ensures commit { Gives result (wanted
        (λ new. prepared (R.refusal rules.now) (C.encoded codec.now) id old.now new right.now)
        (Ok changed)) }
    ensures putting { IfOk result (λ commit. IfSome commit (λ c. is_putting c ≡ true)) }
{
    match changed {
        None => Ok(None),
        Some(new) => Ok(Some(prepare(alloc, codec, rules, id, old, new, right)?)),
    }
}
