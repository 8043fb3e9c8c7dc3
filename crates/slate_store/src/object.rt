//! Objects, and what a list tells of them.
ghost use Rattle.std.specs.Prelude.{◌≡◌, ◌∷◌, [], ◌++◌, IfOk, OnOk};

use slate_ids::{ByteList, Listed, Millis, ObjectPath, OutOfMemory};
use std::alloc::Global;

/// What a list tells of an object.
#[derive(Debug, Drop)]
pub struct ObjectMetadata {
    pub location: ObjectPath,
    /// The moment of its last write.
    pub last_modified: Millis,
    /// Its length in bytes.
    pub size: u64,
    /// The tag of its last write.
    pub e_tag: u64,
}

/// An object.
#[derive(Debug, Drop)]
pub struct StoredObject {
    pub bytes: ByteList,
    /// The moment of its last write.
    pub last_modified: Millis,
    /// The tag of its last write.
    pub e_tag: u64,
}

impl ObjectMetadata {
    /// An equal value.
    pub fn copy(&self, alloc: Global) -> Result<ObjectMetadata, OutOfMemory>
        ensures { IfOk result (λ copied. copied ≡ self.now) }
    {
        Ok(ObjectMetadata {
            location: self.location.copy(alloc)?,
            last_modified: self.last_modified,
            size: self.size,
            e_tag: self.e_tag,
        })
    }
}

impl StoredObject {
    /// An equal value.
    pub fn copy(&self, alloc: Global) -> Result<StoredObject, OutOfMemory>
        ensures { IfOk result (λ copied. copied ≡ self.now) }
    {
        Ok(StoredObject {
            bytes: self.bytes.copy(alloc)?,
            last_modified: self.last_modified,
            e_tag: self.e_tag,
        })
    }
}

// Adds equal metadata at the end of a list.
fn add_copy(
    alloc: Global,
    copied: &mut Listed<ObjectMetadata>,
    metadata: &ObjectMetadata,
) -> Result<(), OutOfMemory>
    ensures { OnOk result (copied.new ≡ copied.old ++ metadata.now ∷ []) }
{
    let metadata = metadata.copy(alloc)?;
    copied.push(metadata)
}

/// Equal metadata, in the same order.
pub fn copy_listing(
    alloc: Global,
    listing: &[ObjectMetadata],
) -> Result<Listed<ObjectMetadata>, OutOfMemory>
    ensures { IfOk result (λ copied. copied ≡ listing.now) }
{
    let mut copied = Listed::new(alloc);
    for metadata in listing {
        match add_copy(alloc, &mut copied, metadata) {
            Ok(()) => {}
            Err(e) => {
                drop(copied);
                return Err(e);
            }
        }
    }
    Ok(copied)
}
