//! The commit of a value read with another epoch.
ghost use Rattle.std.specs.Prelude.{◌≡◌, ◌+◌, IfOk, Some, true};
ghost use Rattle.slate_ids.specs.Answers.{Gives};
ghost use Rattle.slate_txn_log.specs.CommitPhase.{is_putting, commit_version};
ghost use Rattle.slate_txn_log.specs.Change.{next_epoch as raised_once};
ghost use Rattle.slate_txn.specs.FencedApplying.{fenced_made};
ghost use Rattle.slate_txn.specs.Raise.{raised, epoch_commit, this_epoch};

use slate_ids::{Epochs, ObjectCodec, OutOfMemory, SlateDBError};
use slate_txn_log::{CommitPhase, Right, Rules, fence, next_epoch, prepare};
use std::alloc::Global;

// A copy of the value with this epoch.
fn epoch_copy<T: Drop, C: ObjectCodec<T>, E: Epochs<T>>(
    alloc: Global,
    codec: &C,
    epochs: &E,
    epoch: u64,
    value: &T,
) -> Result<T, OutOfMemory>
    ensures { IfOk result (λ copied. copied ≡ E.with_epoch epochs.now value.now epoch) }
{
    let mut copied = codec.copy(alloc, value)?;
    epochs.set(&mut copied, epoch);
    Ok(copied)
}

/// A copy of the value with this epoch, to follow the version of this number. Refused with `Fenced` where its own epoch is
/// greater.
pub(crate) fn set_copy<T: Drop, C: ObjectCodec<T>, E: Epochs<T>>(
    alloc: Global,
    codec: &C,
    epochs: &E,
    epoch: u64,
    id: u64,
    value: &T,
) -> Result<Option<T>, SlateDBError>
    ensures { Gives result (fenced_made E.epoch epochs.now epoch
        (this_epoch (E.with_epoch epochs.now) epoch) id value.now) }
{
    match fence(epoch, epochs.get(value)) {
        Some(e) => Err(e),
        None => Ok(Some(epoch_copy(alloc, codec, epochs, epoch, value)?)),
    }
}

/// A copy of the value with its epoch plus one, to follow the version of this number. Refused with `Exhausted` at the last
/// epoch.
pub(crate) fn raise_copy<T: Drop, C: ObjectCodec<T>, E: Epochs<T>>(
    alloc: Global,
    codec: &C,
    epochs: &E,
    id: u64,
    value: &T,
) -> Result<Option<T>, SlateDBError>
    ensures { Gives result (raised_once (E.epoch epochs.now) (E.with_epoch epochs.now) id value.now) }
{
    next_epoch(epochs, id, codec.copy(alloc, value)?)
}

/// The put of the value of this number with its epoch plus one. Refused are, in this order: the last epoch
/// (`Exhausted`), the last number (`Exhausted`), a value that the rules refuse, and a value that has no bytes.
pub fn prepare_raise<T: Drop, C: ObjectCodec<T>, R: Rules<T>, E: Epochs<T>>(
    alloc: Global,
    codec: &C,
    rules: &R,
    epochs: &E,
    id: u64,
    value: &T,
) -> Result<CommitPhase<T>, SlateDBError>
    ensures commit { Gives result (raised (R.refusal rules.now) (C.encoded codec.now)
        (E.epoch epochs.now) (E.with_epoch epochs.now) id value.now) }
    ensures putting { IfOk result (λ commit. is_putting commit ≡ true) }
    ensures version { IfOk result (λ commit. commit_version commit
        ≡ Some (id + 1, E.with_epoch epochs.now value.now (E.epoch epochs.now value.now + 1))) }
{
    let epoch = epochs.get(value);
    if epoch == u64::MAX {
        return Err(SlateDBError::Exhausted(epoch));
    }
    let new = epoch_copy(alloc, codec, epochs, epoch + 1, value)?;
    prepare(alloc, codec, rules, id, value, new, &Right::Plain)
}

/// The put of the value of this number with this epoch, under this right. Refused are, in this order: a value of a greater
/// epoch (`Fenced`), the last number (`Exhausted`), a value that the rules refuse, and a value that has no bytes.
pub fn prepare_epoch<T: Drop, C: ObjectCodec<T>, R: Rules<T>, E: Epochs<T>>(
    alloc: Global,
    codec: &C,
    rules: &R,
    epochs: &E,
    epoch: u64,
    right: &Right,
    id: u64,
    value: &T,
) -> Result<CommitPhase<T>, SlateDBError>
    ensures commit { Gives result (epoch_commit (R.refusal rules.now) (C.encoded codec.now)
        (E.epoch epochs.now) (E.with_epoch epochs.now) epoch right.now id value.now) }
    ensures putting { IfOk result (λ commit. is_putting commit ≡ true) }
    ensures version { IfOk result (λ commit. commit_version commit
        ≡ Some (id + 1, E.with_epoch epochs.now value.now epoch)) }
{
    match fence(epoch, epochs.get(value)) {
        Some(e) => Err(e),
        None => {
            let new = epoch_copy(alloc, codec, epochs, epoch, value)?;
            prepare(alloc, codec, rules, id, value, new, right)
        }
    }
}
