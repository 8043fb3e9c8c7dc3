//! The versions that checkpoints name.
ghost use Rattle.std.specs.Prelude.{IfOk};
ghost use Rattle.slate_state_updates.specs.NamedSets.{IsSetOf};

use slate_ids::OutOfMemory;
use slate_model::Checkpoint;
use std::alloc::Global;
use std::collections::BTreeSet;

/// The numbers of the versions that checkpoints name, as a set.
pub fn named_versions(
    alloc: Global,
    checkpoints: &[Checkpoint],
) -> Result<BTreeSet<u64>, OutOfMemory>
    ensures { IfOk result (λ named. IsSetOf named checkpoints.now) }
{
    let mut named = BTreeSet::new(alloc);
    for checkpoint in checkpoints {
        named.insert(checkpoint.manifest_id)?;
    }
    Ok(named)
}
