//! Answers of a store as values.
ghost use Rattle.std.specs.Prelude.{◌≡◌, IfOk};

use crate::object::{ObjectMetadata, StoredObject, copy_listing};
use slate_ids::{Listed, OutOfMemory};
use std::alloc::Global;

/// What a store answers.
#[derive(Debug, Drop)]
pub enum StoreAnswer {
    /// To a list: the objects of the folder, ascending by the text of their paths.
    Found(Listed<ObjectMetadata>),
    /// To a get: the object, where there is one.
    Got(Option<StoredObject>),
    /// To a put of a new object: its tag; none where the path was taken.
    Created(Option<u64>),
    /// To a replacement: the new tag; none where the path was absent or had another tag.
    Replaced(Option<u64>),
    /// To a put: its tag.
    Written(u64),
    /// To a delete.
    Deleted,
    /// The call failed. It had no effect or its whole effect.
    Fault,
}

impl StoreAnswer {
    /// An equal value.
    pub fn copy(&self, alloc: Global) -> Result<StoreAnswer, OutOfMemory>
        ensures { IfOk result (λ copied. copied ≡ self.now) }
    {
        Ok(match self {
            StoreAnswer::Found(found) => StoreAnswer::Found(copy_listing(alloc, found.as_slice())?),
            StoreAnswer::Got(None) => StoreAnswer::Got(None),
            StoreAnswer::Got(Some(object)) => StoreAnswer::Got(Some(object.copy(alloc)?)),
            StoreAnswer::Created(tag) => StoreAnswer::Created(*tag),
            StoreAnswer::Replaced(tag) => StoreAnswer::Replaced(*tag),
            StoreAnswer::Written(tag) => StoreAnswer::Written(*tag),
            StoreAnswer::Deleted => StoreAnswer::Deleted,
            StoreAnswer::Fault => StoreAnswer::Fault,
        })
    }
}
