//! A store in which a rival commits first.

use slate_ids::{Millis, ObjectPath};
use slate_store::{ListDir, MemoryStore, ObjectMetadata, ObjectStore, StoreError, StoredObject};
use std::alloc::Global;

/// A store in memory in which a rival commits a version right before one is put: the one before it again, or where there is none the same.
#[derive(Drop)]
pub(crate) struct RacingStore {
    pub(crate) inner: MemoryStore,
    /// How many versions are put before the one that is lost.
    pub(crate) left: u32,
}

/// What was got, where it is there.
fn found(got: Result<Option<StoredObject>, StoreError>) -> Option<StoredObject> {
    match got {
        Ok(object) => object,
        Err(e) => {
            drop(e);
            None
        }
    }
}

/// The version before one.
fn version_before(path: &ObjectPath) -> Option<ObjectPath> {
    match path {
        ObjectPath::Manifest(db, n) => n.checked_sub(1).map(|n| ObjectPath::Manifest(*db, n)),
        ObjectPath::Record(db, n) => n.checked_sub(1).map(|n| ObjectPath::Record(*db, n)),
        _ => None,
    }
}

impl RacingStore {
    // What stands as the version before one.
    fn before(&mut self, alloc: Global, path: &ObjectPath) -> Option<StoredObject> {
        match version_before(path) {
            Some(before) => {
                let got = self.inner.get(alloc, &before);
                drop(before);
                found(got)
            }
            None => None,
        }
    }

    // The rival's put.
    fn race(&mut self, alloc: Global, path: &ObjectPath, bytes: &[u8], moment: Millis) {
        match self.before(alloc, path) {
            Some(object) => {
                let put = self
                    .inner
                    .put_new(alloc, path, object.bytes.as_slice(), moment);
                drop(object);
                drop(put);
            }
            None => drop(self.inner.put_new(alloc, path, bytes, moment)),
        }
    }
}

// It tells nothing of itself. It runs out of memory where the store in memory fails, which it doesn't.
impl ObjectStore for RacingStore {
    ghost use Rattle.std.specs.Prelude.{None};

    ghost told = { λ _. record { faults = 0; contents = None; marks = None; calls = None } };

    fn list(&mut self, alloc: Global, dir: &ListDir) -> Result<Vec<ObjectMetadata>, StoreError> {
        match self.inner.list(alloc, dir) {
            Ok(found) => Ok(found),
            Err(_) => Err(StoreError::OutOfMemory),
        }
    }

    fn get(
        &mut self,
        alloc: Global,
        path: &ObjectPath,
    ) -> Result<Option<StoredObject>, StoreError> {
        match self.inner.get(alloc, path) {
            Ok(object) => Ok(object),
            Err(_) => Err(StoreError::OutOfMemory),
        }
    }

    fn put_new(
        &mut self,
        alloc: Global,
        path: &ObjectPath,
        bytes: &[u8],
        moment: Millis,
    ) -> Result<Option<u64>, StoreError> {
        if self.left == 0 {
            self.race(alloc, path, bytes, moment);
        }
        self.left = self.left.wrapping_sub(1);
        match self.inner.put_new(alloc, path, bytes, moment) {
            Ok(tag) => Ok(tag),
            Err(_) => Err(StoreError::OutOfMemory),
        }
    }

    fn replace(
        &mut self,
        alloc: Global,
        path: &ObjectPath,
        tag: u64,
        bytes: &[u8],
        moment: Millis,
    ) -> Result<Option<u64>, StoreError> {
        match self.inner.replace(alloc, path, tag, bytes, moment) {
            Ok(tag) => Ok(tag),
            Err(_) => Err(StoreError::OutOfMemory),
        }
    }

    fn put(
        &mut self,
        alloc: Global,
        path: &ObjectPath,
        bytes: &[u8],
        moment: Millis,
    ) -> Result<u64, StoreError> {
        match self.inner.put(alloc, path, bytes, moment) {
            Ok(tag) => Ok(tag),
            Err(_) => Err(StoreError::OutOfMemory),
        }
    }

    fn delete(&mut self, path: &ObjectPath) -> Result<(), StoreError> {
        match self.inner.delete(path) {
            Ok(()) => Ok(()),
            Err(_) => Err(StoreError::OutOfMemory),
        }
    }
}
