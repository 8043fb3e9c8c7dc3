//! What the machines of checkpoint calls share.
ghost use Rattle.std.specs.Prelude.{◌≡◌, IfOk};
ghost use Rattle.slate_state_holders.specs.CheckpointMachines.{answered, foreseen_of};
ghost use Rattle.slate_state_updates.specs.Checkpoints.{checkpoint_at};

use crate::changes::make;
use slate_ids::{CheckpointId, Millis, OutOfMemory, SlateDBError};
use slate_model::{Checkpoint, Manifest};
use slate_state_updates::{ManifestChange, find_checkpoint};
use slate_store::Step;
use std::alloc::Global;

// A copy of the checkpoint of this id, where it is there.
fn copy_at(
    alloc: Global,
    id: &CheckpointId,
    manifest: &Manifest,
) -> Result<Option<Checkpoint>, OutOfMemory>
    ensures { IfOk result (λ found. found ≡ checkpoint_at id.now manifest.now.core.checkpoints) }
{
    match find_checkpoint(manifest.core.checkpoints.as_slice(), id) {
        Some(checkpoint) => Ok(Some(checkpoint.clone(alloc)?)),
        None => Ok(None),
    }
}

/// The checkpoint of this id that stands once what the change makes at a moment of version `n` is committed, or nothing is.
pub(crate) fn foresee(
    alloc: Global,
    id: &CheckpointId,
    change: &ManifestChange,
    moment: Millis,
    n: u64,
    manifest: &Manifest,
) -> Result<Option<Checkpoint>, OutOfMemory>
    ensures { IfOk result (λ found. found ≡ foreseen_of id.now change.now moment n manifest.now) }
{
    match make(alloc, change, moment, n, manifest) {
        Ok(Some(new)) => {
            let found = copy_at(alloc, id, &new);
            drop(new);
            found
        }
        Ok(None) => copy_at(alloc, id, manifest),
        Err(e) => {
            if e.is_memory() {
                drop(e);
                Err(OutOfMemory)
            } else {
                drop(e);
                Ok(None)
            }
        }
    }
}

/// The answer of a step of the commit. Takes no memory.
pub(crate) fn answer_step(
    id: CheckpointId,
    foreseen: &mut Option<Checkpoint>,
    step: Step<()>,
) -> Step<Checkpoint>
    ensures { result ≡ answered id foreseen.old step }
{
    match step {
        Step::Again => Step::Again,
        Step::Done(Ok(())) => match foreseen.take() {
            Some(checkpoint) => Step::Done(Ok(checkpoint)),
            None => Step::Done(Err(SlateDBError::CheckpointMissing(id))),
        },
        Step::Done(Err(e)) => Step::Done(Err(e)),
    }
}
