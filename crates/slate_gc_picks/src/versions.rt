//! Which versions of a log a pass may delete.
ghost use Rattle.std.specs.Prelude.{◌≡◌, List, IfOk};
ghost use Rattle.slate_txn_log.specs.LogPaths.{number_of};
ghost use Rattle.slate_model.specs.declared.checkpoint.Checkpoint.{Checkpoint as AnyCheckpoint};
ghost use Rattle.slate_gc_picks.specs.VersionPicks as versions;
ghost use Rattle.slate_state_updates.specs.NamedSets.{IsSetOf};

use crate::keeping::push_if;
use slate_ids::{Listed, OutOfMemory};
use slate_model::Checkpoint;
use slate_state_updates::named_versions;
use slate_store::ObjectMetadata;
use slate_txn_log::LogKind;
use std::alloc::Global;
use std::collections::BTreeSet;

// Whether an object is a version below the greatest that isn't named.
fn may_go(log: LogKind, greatest: u64, named: &BTreeSet<u64>, object: &ObjectMetadata) -> bool
    ensures { (cs : List AnyCheckpoint) → IsSetOf named.now cs
        → result ≡ versions.is_unneeded greatest cs (number_of log object.now.location) }
{
    match log.number_of(&object.location) {
        Some(n) => n < greatest && !named.contains(&n),
        None => false,
    }
}

/// Of these objects the versions of a log below the greatest that no checkpoint names, in their order.
pub fn unneeded(
    alloc: Global,
    log: LogKind,
    greatest: u64,
    checkpoints: &[Checkpoint],
    found: &[ObjectMetadata],
) -> Result<Listed<ObjectMetadata>, OutOfMemory>
    ensures { IfOk result (λ objects. objects
        ≡ versions.unneeded log greatest checkpoints.now found.now) }
{
    let named = named_versions(alloc, checkpoints)?;
    let mut objects = Listed::new(alloc);
    for object in found {
        let keeps = may_go(log, greatest, &named, object);
        push_if(alloc, keeps, &mut objects, object)?;
    }
    drop(named);
    Ok(objects)
}
