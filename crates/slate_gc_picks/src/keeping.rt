//! Objects that are kept of a list.
ghost use Rattle.std.specs.Prelude.{◌≡◌, ◌++◌, ◌∷◌, [], OnOk, if◌then◌else◌};

use slate_ids::{Listed, OutOfMemory};
use slate_store::ObjectMetadata;
use std::alloc::Global;

// Adds a copy of an object at the end, where it is kept.
pub(crate) fn push_if(
    alloc: Global,
    keeps: bool,
    objects: &mut Listed<ObjectMetadata>,
    object: &ObjectMetadata,
) -> Result<(), OutOfMemory>
    ensures { OnOk result (objects.new
        ≡ (if keeps then objects.old ++ object.now ∷ [] else objects.old)) }
{
    if keeps {
        objects.push(object.copy(alloc)?)?;
    }
    Ok(())
}
