//! Store calls as values.
ghost use Rattle.std.specs.Prelude.{◌≡◌, IfOk};

use crate::list_dir::ListDir;
use slate_ids::{ByteList, ObjectPath, OutOfMemory};
use std::alloc::Global;

/// A call of a store.
#[derive(Debug, Drop)]
pub enum StoreCall {
    List(ListDir),
    Get(ObjectPath),
    PutNew(ObjectPath, ByteList),
    Replace(ObjectPath, u64, ByteList),
    Put(ObjectPath, ByteList),
    Delete(ObjectPath),
}

// An equal path and equal bytes.
fn both(
    alloc: Global,
    path: &ObjectPath,
    bytes: &ByteList,
) -> Result<(ObjectPath, ByteList), OutOfMemory>
    ensures { IfOk result (λ copied. copied ≡ (path.now, bytes.now)) }
{
    let path = path.copy(alloc)?;
    match bytes.copy(alloc) {
        Ok(bytes) => Ok((path, bytes)),
        Err(e) => {
            drop(path);
            Err(e)
        }
    }
}

impl StoreCall {
    /// An equal value.
    pub fn copy(&self, alloc: Global) -> Result<StoreCall, OutOfMemory>
        ensures { IfOk result (λ copied. copied ≡ self.now) }
    {
        Ok(match self {
            StoreCall::List(dir) => StoreCall::List(*dir),
            StoreCall::Get(path) => StoreCall::Get(path.copy(alloc)?),
            StoreCall::PutNew(path, bytes) => {
                let (path, bytes) = both(alloc, path, bytes)?;
                StoreCall::PutNew(path, bytes)
            }
            StoreCall::Replace(path, tag, bytes) => {
                let (path, bytes) = both(alloc, path, bytes)?;
                StoreCall::Replace(path, *tag, bytes)
            }
            StoreCall::Put(path, bytes) => {
                let (path, bytes) = both(alloc, path, bytes)?;
                StoreCall::Put(path, bytes)
            }
            StoreCall::Delete(path) => StoreCall::Delete(path.copy(alloc)?),
        })
    }
}
