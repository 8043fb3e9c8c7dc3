//! Checkpoints by their ids, and the versions that they name.
ghost use Rattle.std.specs.Prelude.{◌≡◌, option_copied};
ghost use Rattle.slate_state_updates.specs.Checkpoints.{checkpoint_at, is_named as named_by};

use slate_ids::CheckpointId;
use slate_model::Checkpoint;

/// The first checkpoint that has this id. Takes no memory.
pub fn find_checkpoint<'a>(
    checkpoints: &'a [Checkpoint],
    id: &CheckpointId,
) -> Option<&'a Checkpoint>
    ensures { option_copied result ≡ checkpoint_at id.now checkpoints.now }
{
    for checkpoint in checkpoints {
        if checkpoint.id.is(id) {
            return Some(checkpoint);
        }
    }
    None
}

/// Whether one of the checkpoints names the version of this number. Takes no memory.
pub fn is_named(n: u64, checkpoints: &[Checkpoint]) -> bool
    ensures { result ≡ named_by n checkpoints.now }
{
    checkpoints.iter().any(|c| c.manifest_id == n)
}
