//! Store calls that are given as values.
ghost use Rattle.slate_store.specs.StoreCalls.{Performs};
ghost use Rattle.slate_store.specs.declared.store_call.StoreCall.TheVariants as calls;

use crate::list_dir::ListDir;
use crate::store::{ObjectStore, StoreError};
use crate::store_answer::StoreAnswer;
use crate::store_call::StoreCall;
use slate_ids::{ByteList, Listed, Millis, ObjectPath, OutOfMemory};
use std::alloc::Global;

fn perform_list<S: ObjectStore>(
    alloc: Global,
    store: &mut S,
    dir: &ListDir,
    moment: Millis,
) -> Result<StoreAnswer, OutOfMemory>
    ensures { Performs (S.told store.old) (S.told store.new) (calls.List dir.now) moment result }
{
    match store.list(alloc, dir) {
        Ok(found) => Ok(StoreAnswer::Found(Listed::from_vec(found))),
        Err(StoreError::Fault) => Ok(StoreAnswer::Fault),
        Err(StoreError::OutOfMemory) => Err(OutOfMemory),
    }
}

fn perform_get<S: ObjectStore>(
    alloc: Global,
    store: &mut S,
    path: &ObjectPath,
    moment: Millis,
) -> Result<StoreAnswer, OutOfMemory>
    ensures { Performs (S.told store.old) (S.told store.new) (calls.Get path.now) moment result }
{
    match store.get(alloc, path) {
        Ok(object) => Ok(StoreAnswer::Got(object)),
        Err(StoreError::Fault) => Ok(StoreAnswer::Fault),
        Err(StoreError::OutOfMemory) => Err(OutOfMemory),
    }
}

fn perform_put_new<S: ObjectStore>(
    alloc: Global,
    store: &mut S,
    path: &ObjectPath,
    bytes: &ByteList,
    moment: Millis,
) -> Result<StoreAnswer, OutOfMemory>
    ensures { Performs (S.told store.old) (S.told store.new) (calls.PutNew path.now bytes.now) moment result }
{
    match store.put_new(alloc, path, bytes.as_slice(), moment) {
        Ok(tag) => Ok(StoreAnswer::Created(tag)),
        Err(StoreError::Fault) => Ok(StoreAnswer::Fault),
        Err(StoreError::OutOfMemory) => Err(OutOfMemory),
    }
}

fn perform_replace<S: ObjectStore>(
    alloc: Global,
    store: &mut S,
    path: &ObjectPath,
    tag: u64,
    bytes: &ByteList,
    moment: Millis,
) -> Result<StoreAnswer, OutOfMemory>
    ensures { Performs (S.told store.old) (S.told store.new)
        (calls.Replace path.now tag bytes.now) moment result }
{
    match store.replace(alloc, path, tag, bytes.as_slice(), moment) {
        Ok(tag) => Ok(StoreAnswer::Replaced(tag)),
        Err(StoreError::Fault) => Ok(StoreAnswer::Fault),
        Err(StoreError::OutOfMemory) => Err(OutOfMemory),
    }
}

fn perform_put<S: ObjectStore>(
    alloc: Global,
    store: &mut S,
    path: &ObjectPath,
    bytes: &ByteList,
    moment: Millis,
) -> Result<StoreAnswer, OutOfMemory>
    ensures { Performs (S.told store.old) (S.told store.new) (calls.Put path.now bytes.now) moment result }
{
    match store.put(alloc, path, bytes.as_slice(), moment) {
        Ok(tag) => Ok(StoreAnswer::Written(tag)),
        Err(StoreError::Fault) => Ok(StoreAnswer::Fault),
        Err(StoreError::OutOfMemory) => Err(OutOfMemory),
    }
}

fn perform_delete<S: ObjectStore>(
    store: &mut S,
    path: &ObjectPath,
    moment: Millis,
) -> Result<StoreAnswer, OutOfMemory>
    ensures { Performs (S.told store.old) (S.told store.new) (calls.Delete path.now) moment result }
{
    match store.delete(path) {
        Ok(()) => Ok(StoreAnswer::Deleted),
        Err(StoreError::Fault) => Ok(StoreAnswer::Fault),
        Err(StoreError::OutOfMemory) => Err(OutOfMemory),
    }
}

/// Makes a call that is given as a value. A write takes the moment. Running out of memory leaves all unchanged.
pub fn perform<S: ObjectStore>(
    alloc: Global,
    store: &mut S,
    call: &StoreCall,
    moment: Millis,
) -> Result<StoreAnswer, OutOfMemory>
    ensures { Performs (S.told store.old) (S.told store.new) call.now moment result }
{
    match call {
        StoreCall::List(dir) => perform_list(alloc, store, dir, moment),
        StoreCall::Get(path) => perform_get(alloc, store, path, moment),
        StoreCall::PutNew(path, bytes) => perform_put_new(alloc, store, path, bytes, moment),
        StoreCall::Replace(path, tag, bytes) => {
            perform_replace(alloc, store, path, *tag, bytes, moment)
        }
        StoreCall::Put(path, bytes) => perform_put(alloc, store, path, bytes, moment),
        StoreCall::Delete(path) => perform_delete(store, path, moment),
    }
}
