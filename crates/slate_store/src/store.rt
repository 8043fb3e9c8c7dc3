//! The trait of object stores.
ghost use Rattle.std.specs.Prelude.{◌≡◌, pos};
ghost use Rattle.slate_store.specs.declared.store_call.StoreCall.TheVariants as calls;
ghost use Rattle.slate_store.specs.declared.store_answer.StoreAnswer.TheVariants as answers;
ghost use Rattle.slate_store.specs.StoreCalls.{Told, Calls};

use crate::list_dir::ListDir;
use crate::object::{ObjectMetadata, StoredObject};
use slate_ids::{Millis, ObjectPath, OutOfMemory};
use std::alloc::Global;

/// Why a store call failed.
#[derive(Clone, Copy, Debug, PartialEq, Eq)]
pub enum StoreError {
    /// The call had no effect or its whole effect.
    Fault,
    /// Memory ran out, and nothing changed.
    OutOfMemory,
}

impl From<OutOfMemory> for StoreError {
    ghost use Rattle.slate_store.specs.declared.store.StoreError.TheVariants.{OutOfMemory as NoMemory};

    ghost from_gives = { λ _ e. e ≡ NoMemory };

    fn from(_e: OutOfMemory) -> StoreError {
        StoreError::OutOfMemory
    }
}

/// A store of objects. A fault comes only where its count of faults rose.
pub trait ObjectStore {
    /// What the store tells of itself.
    ghost told: { Self → Told };

    /// The objects of a folder, ascending by the text of their paths.
    fn list(&mut self, alloc: Global, dir: &ListDir) -> Result<Vec<ObjectMetadata>, StoreError>
        ensures { Calls (λ v. answers.Found v.items) (told self.old) (told self.new)
            (calls.List dir.now) (pos 0) result };

    /// The object at a path, where there is one.
    fn get(&mut self, alloc: Global, path: &ObjectPath) -> Result<Option<StoredObject>, StoreError>
        ensures { Calls answers.Got (told self.old) (told self.new) (calls.Get path.now) (pos 0) result };

    /// Writes an object where none stands. Answers its tag, or None where the path is taken, and writes nothing then.
    fn put_new(
        &mut self,
        alloc: Global,
        path: &ObjectPath,
        bytes: &[u8],
        moment: Millis,
    ) -> Result<Option<u64>, StoreError>
        ensures { Calls answers.Created (told self.old) (told self.new)
            (calls.PutNew path.now bytes.now) moment result };

    /// Writes an object in the place of the one with this tag. Answers the new tag, or None where the path is absent or
    /// has another tag, and writes nothing then.
    fn replace(
        &mut self,
        alloc: Global,
        path: &ObjectPath,
        tag: u64,
        bytes: &[u8],
        moment: Millis,
    ) -> Result<Option<u64>, StoreError>
        ensures { Calls answers.Replaced (told self.old) (told self.new)
            (calls.Replace path.now tag bytes.now) moment result };

    /// Writes an object, and answers its tag.
    fn put(
        &mut self,
        alloc: Global,
        path: &ObjectPath,
        bytes: &[u8],
        moment: Millis,
    ) -> Result<u64, StoreError>
        ensures { Calls answers.Written (told self.old) (told self.new)
            (calls.Put path.now bytes.now) moment result };

    /// Removes the object at a path. An absent one is no error.
    fn delete(&mut self, path: &ObjectPath) -> Result<(), StoreError>
        ensures { Calls (λ _. answers.Deleted) (told self.old) (told self.new)
            (calls.Delete path.now) (pos 0) result };
}
