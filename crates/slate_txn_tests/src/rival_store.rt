//! A store in which a rival commits first.

use slate_ids::{Millis, ObjectPath};
use slate_store::{ListDir, MemoryStore, ObjectMetadata, ObjectStore, StoreError, StoredObject};
use std::alloc::Global;

/// A store in memory in which a rival puts a version of these bytes right before one is put, so many times. It is asked for lists, gets
/// and new objects alone.
#[derive(Drop)]
pub(crate) struct RivalStore {
    pub(crate) inner: MemoryStore,
    pub(crate) bytes: [u8; 2],
    pub(crate) left: u32,
}

// It tells nothing of itself. It runs out of memory where the store in memory fails, which it doesn't.
impl ObjectStore for RivalStore {
    ghost use Rattle.std.specs.Prelude.{None};

    ghost told = { λ _. record { faults = 0; contents = None; marks = None; calls = None } };

    fn list(&mut self, alloc: Global, dir: &ListDir) -> Result<Vec<ObjectMetadata>, StoreError> {
        match self.inner.list(alloc, dir) {
            Ok(found) => Ok(found),
            Err(_) => Err(StoreError::OutOfMemory),
        }
    }

    fn get(
        &mut self,
        alloc: Global,
        path: &ObjectPath,
    ) -> Result<Option<StoredObject>, StoreError> {
        match self.inner.get(alloc, path) {
            Ok(object) => Ok(object),
            Err(_) => Err(StoreError::OutOfMemory),
        }
    }

    fn put_new(
        &mut self,
        alloc: Global,
        path: &ObjectPath,
        bytes: &[u8],
        moment: Millis,
    ) -> Result<Option<u64>, StoreError> {
        if 0 < self.left {
            let rival = self.bytes;
            drop(self.inner.put_new(alloc, path, rival.as_slice(), moment));
            self.left = self.left.wrapping_sub(1);
        }
        match self.inner.put_new(alloc, path, bytes, moment) {
            Ok(tag) => Ok(tag),
            Err(_) => Err(StoreError::OutOfMemory),
        }
    }

    fn replace(
        &mut self,
        _alloc: Global,
        _path: &ObjectPath,
        _tag: u64,
        _bytes: &[u8],
        _moment: Millis,
    ) -> Result<Option<u64>, StoreError> {
        Err(StoreError::OutOfMemory)
    }

    fn put(
        &mut self,
        _alloc: Global,
        _path: &ObjectPath,
        _bytes: &[u8],
        _moment: Millis,
    ) -> Result<u64, StoreError> {
        Err(StoreError::OutOfMemory)
    }

    fn delete(&mut self, _path: &ObjectPath) -> Result<(), StoreError> {
        Err(StoreError::OutOfMemory)
    }
}
