//! What a list tells of an object, as a key of ordered sets.
ghost use Rattle.std.specs.Prelude.{◌≡◌, IfOk};
ghost use Rattle.slate_gc_picks.specs.ListedKeys.{key_of};

use slate_ids::{Millis, ObjectPath, OutOfMemory};
use slate_store::ObjectMetadata;
use std::alloc::Global;

/// What a list tells of an object. Keys order by path, then by moment, size and tag.
#[derive(Debug, PartialEq, Eq, PartialOrd, Ord, Drop)]
pub struct ObjectKey {
    pub location: ObjectPath,
    pub last_modified: Millis,
    pub size: u64,
    pub e_tag: u64,
}

impl ObjectKey {
    // The key of an object.
    pub(crate) fn of(alloc: Global, object: &ObjectMetadata) -> Result<ObjectKey, OutOfMemory>
        ensures { IfOk result (λ key. key ≡ key_of object.now) }
    {
        Ok(ObjectKey {
            location: object.location.copy(alloc)?,
            last_modified: object.last_modified,
            size: object.size,
            e_tag: object.e_tag,
        })
    }
}
