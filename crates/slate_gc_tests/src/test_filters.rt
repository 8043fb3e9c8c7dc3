//! A filter that lies, for tests.

use slate_gc_picks::GcFilter;
use slate_ids::{DbPath, Listed, Millis, ObjectPath, OutOfMemory};
use slate_store::{ObjectMetadata, copy_listing};
use std::alloc::Global;
use std::process::Abort;

/// A filter that returns the same objects whatever it is asked.
#[derive(Drop)]
pub(crate) struct Fixed {
    pub objects: Listed<ObjectMetadata>,
}

impl GcFilter for Fixed {
    ghost returns = { λ fixed _. fixed.objects };

    fn filter(
        &self,
        alloc: Global,
        _candidates: &[ObjectMetadata],
    ) -> Result<Vec<ObjectMetadata>, OutOfMemory> {
        Ok(copy_listing(alloc, self.objects.as_slice())?.into_vec())
    }
}

/// The database of the tests.
pub(crate) fn database(rt: &impl Abort) -> DbPath {
    DbPath::from_text("db")
        .expect(rt, "memory")
        .expect(rt, "a path")
}

/// What a list tells of the manifest of this number, which was written with this tag.
pub(crate) fn manifest_object(db: DbPath, number: u64, tag: u64, size: u64) -> ObjectMetadata {
    ObjectMetadata {
        location: ObjectPath::Manifest(db, number),
        last_modified: 0,
        size,
        e_tag: tag,
    }
}

/// What a list tells of a file of the write-ahead log.
pub(crate) fn wal_object(
    db: DbPath,
    number: u64,
    size: u64,
    last_modified: Millis,
) -> ObjectMetadata {
    ObjectMetadata {
        location: ObjectPath::Wal(db, number),
        last_modified,
        size,
        e_tag: number,
    }
}
