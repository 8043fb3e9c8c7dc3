//! Changes of a manifest that are handed in, and the checkpoint that stands after one.
ghost use Rattle.std.specs.Prelude.{◌≡◌, IfOk};
ghost use Rattle.slate_ids.specs.Answers.{Gives};
ghost use Rattle.slate_state_holders.specs.ManifestHolders.{answer_of, standing};
ghost use Rattle.slate_state_updates.specs.ManifestChanges.{made};

use slate_ids::{CheckpointId, Millis, OutOfMemory, SlateDBError};
use slate_model::{Checkpoint, CheckpointOptions, Manifest, Plain};
use slate_state_updates::{ManifestChange, find_checkpoint};
use slate_txn_changes::Change;
use std::alloc::Global;

/// Equal options.
pub(crate) fn copy_options(
    alloc: Global,
    options: &CheckpointOptions,
) -> Result<CheckpointOptions, OutOfMemory>
    ensures { IfOk result (λ copied. copied ≡ options.now) }
{
    Ok(CheckpointOptions {
        lifetime: options.lifetime,
        source: options.source,
        name: Plain::clone(&options.name, alloc)?,
    })
}

/// What a change makes at a moment of version `n`.
pub(crate) fn make(
    alloc: Global,
    change: &ManifestChange,
    now: Millis,
    n: u64,
    manifest: &Manifest,
) -> Result<Option<Manifest>, SlateDBError>
    ensures { Gives result (made change.now now n manifest.now) }
{
    change.make(alloc, now, n, manifest)
}

/// A copy of the checkpoint of this id that stands in a manifest. Refused with `CheckpointMissing` where there is none.
pub(crate) fn standing(
    alloc: Global,
    id: &CheckpointId,
    manifest: &Manifest,
) -> Result<Checkpoint, SlateDBError>
    ensures { Gives result (standing id.now manifest.now) }
{
    match find_checkpoint(manifest.core.checkpoints.as_slice(), id) {
        Some(checkpoint) => Ok(checkpoint.clone(alloc)?),
        None => Err(SlateDBError::CheckpointMissing(*id)),
    }
}

/// The answer to a call whose change was committed, or not.
pub(crate) fn answer_of(
    alloc: Global,
    id: &CheckpointId,
    manifest: &Manifest,
    reply: Result<(), SlateDBError>,
) -> Result<Checkpoint, SlateDBError>
    ensures { Gives result (answer_of id.now manifest.now reply) }
{
    match reply {
        Ok(()) => standing(alloc, id, manifest),
        Err(e) => Err(e),
    }
}
