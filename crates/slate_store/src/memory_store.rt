//! A store in memory.
ghost use Rattle.std.specs.Prelude.{◌≡◌, ◌≢◌, ◌≤◌, ◌+◌, [], ◌∷◌, drop, map, length, pos, is_some, option_copied, Ok, Err, IfOk, OnOk, OnErr};
ghost use Rattle.std.specs.Map.{remove_entry, lookup};
ghost use Rattle.std.specs.BTreeMap.{is_at, insert_entry};
ghost use Rattle.slate_ids.specs.PathText.{path_cmp};
ghost use Rattle.slate_store.specs.StoreCalls.{Calls, next_mark};
ghost use Rattle.slate_store.specs.InMemory.{told_of, paths_of, answer_under, answered, faulted, left_under, write_mark, tag_under, Writes};
ghost use Rattle.slate_store.specs.Store.{object_at, has_tag as HasTag, listed, stored};
ghost use Rattle.slate_store.specs.declared.mark.Mark.TheVariants.{Good};
ghost use Rattle.slate_store.specs.declared.store.StoreError.TheVariants.{Fault, OutOfMemory as NoMemory};
ghost use Rattle.slate_store.specs.declared.store_call.StoreCall.TheVariants as calls;
ghost use Rattle.slate_store.specs.declared.store_answer.StoreAnswer.TheVariants as answers;

use crate::list_dir::ListDir;
use crate::listing::listing;
use crate::mark::Mark;
use crate::marks::Marks;
use crate::object::{ObjectMetadata, StoredObject};
use crate::store::{ObjectStore, StoreError};
use slate_ids::{ByteList, Millis, ObjectPath, OutOfMemory};
use std::alloc::Global;
use std::collections::BTreeMap;
use std::marker::Model;

type Objects = BTreeMap<ObjectPath, StoredObject>;

/// A store in memory: its objects, the last tag that it gave, the marks of the calls to come, and the count of faults,
/// which stays at 2^64 - 1 once there. Each call takes one mark. A write that has no tag left faults, and writes
/// nothing.
#[derive(Debug, Drop)]
pub struct MemoryStore {
    objects: Objects,
    last_tag: u64,
    marks: Marks,
    faults: u64,
}

impl Model for MemoryStore {
    ghost use Rattle.slate_store.specs.InMemory.{Memory};

    ghost Value = { Memory };

    ghost view = { λ a. record {
      store = record { objects = a.objects.entries; last_tag = a.last_tag };
      marks = a.marks;
      faults = a.faults;
    } };
}

// The object at a path.
fn object_of<'a>(objects: &'a Objects, path: &ObjectPath) -> Option<&'a StoredObject>
    ensures { option_copied result ≡ lookup (is_at (path_cmp path.now)) objects.now.entries }
{
    objects.get(path)
}

// An equal object, where one stands at a path.
fn copy_of(
    alloc: Global,
    objects: &Objects,
    path: &ObjectPath,
) -> Result<Option<StoredObject>, OutOfMemory>
    ensures { IfOk result (λ found. found ≡ lookup (is_at (path_cmp path.now)) objects.now.entries) }
{
    match object_of(objects, path) {
        Some(object) => Ok(Some(object.copy(alloc)?)),
        None => Ok(None),
    }
}

// Whether an object stands at a path.
fn is_taken(objects: &Objects, path: &ObjectPath) -> bool
    ensures { result ≡ is_some (lookup (is_at (path_cmp path.now)) objects.now.entries) }
{
    objects.contains_key(path)
}

// Whether an object with this tag stands at a path.
fn has_tag(objects: &Objects, path: &ObjectPath, tag: u64) -> bool
    ensures { result ≡ HasTag tag (lookup (is_at (path_cmp path.now)) objects.now.entries) }
{
    match object_of(objects, path) {
        Some(object) => object.e_tag == tag,
        None => false,
    }
}

// Equal paths of all objects, ascending.
fn copy_paths(alloc: Global, objects: &Objects) -> Result<Vec<ObjectPath>, OutOfMemory>
    ensures { IfOk result (λ paths. paths.items ≡ map (λ o. o.0) objects.now.entries) }
{
    let mut paths = Vec::new(alloc);
    for (path, _) in objects {
        paths.push(path.copy(alloc)?)?;
    }
    Ok(paths)
}

// Puts an object at a path.
fn keep(objects: &mut Objects, path: ObjectPath, object: StoredObject) -> Result<(), OutOfMemory>
    ensures ok { OnOk result (objects.new.entries ≡ insert_entry path_cmp objects.old.entries path object) }
    ensures err { OnErr result (objects.new.entries ≡ objects.old.entries) }
{
    drop(objects.insert(path, object)?);
    Ok(())
}

// Puts an object of these bytes, this moment and this tag at a copy of a path.
fn keep_bytes(
    alloc: Global,
    objects: &mut Objects,
    path: &ObjectPath,
    bytes: ByteList,
    moment: Millis,
    tag: u64,
) -> Result<(), OutOfMemory>
    ensures ok { OnOk result (objects.new.entries ≡ insert_entry path_cmp objects.old.entries path.now
        (record { bytes = bytes; last_modified = moment; e_tag = tag })) }
    ensures err { OnErr result (objects.new.entries ≡ objects.old.entries) }
{
    match path.copy(alloc) {
        Ok(path) => {
            let object = StoredObject {
                bytes,
                last_modified: moment,
                e_tag: tag,
            };
            keep(objects, path, object)
        }
        Err(e) => {
            drop(bytes);
            Err(e)
        }
    }
}

// Removes the object at a path, unless the call fails.
fn remove_under(mark: Mark, objects: &mut Objects, path: &ObjectPath)
    ensures { objects.new.entries
        ≡ left_under mark objects.old.entries (remove_entry (is_at (path_cmp path.now)) objects.old.entries) }
{
    match mark {
        Mark::Fail => {}
        Mark::Good | Mark::Lost => {
            drop(objects.remove(path));
        }
    }
}

impl MemoryStore {
    /// A store with no objects, whose last tag is 0, and with no faults. Its calls go by these marks, one mark a call;
    /// after their end each call is good. Takes no memory.
    pub fn new(alloc: Global, marks: Vec<Mark>) -> MemoryStore
        ensures { result
            ≡ record { store = record { objects = []; last_tag = 0 }; marks = marks.items; faults = 0 } }
    {
        MemoryStore {
            objects: BTreeMap::new(alloc),
            last_tag: 0,
            marks: Marks::new(marks),
            faults: 0,
        }
    }

    /// Gives the next call another mark. Takes no memory.
    pub fn set_mark(&mut self, mark: Mark)
        ensures { self.new
            ≡ record {
              store = self.old.store;
              marks = mark ∷ drop 1 self.old.marks;
              faults = self.old.faults;
            } }
    {
        self.marks.set(mark);
    }

    /// How many calls have faulted. The count stays at 2^64 - 1 once there.
    pub fn faults(&self) -> u64
        ensures { result ≡ self.now.faults }
    {
        self.faults
    }

    /// The paths of all objects, ascending by their text. It is no store call: it takes no mark.
    pub fn paths(&self, alloc: Global) -> Result<Vec<ObjectPath>, OutOfMemory>
        ensures { IfOk result (λ paths. paths.items ≡ paths_of self.now.store) }
    {
        copy_paths(alloc, &self.objects)
    }

    /// The object at a path, where there is one. It is no store call: it takes no mark.
    pub fn object(&self, path: &ObjectPath) -> Option<&StoredObject>
        ensures { option_copied result ≡ object_at path.now self.now.store }
    {
        object_of(&self.objects, path)
    }

    /// What a list of a folder would find now. It is no store call: it takes no mark.
    pub fn listed(&self, alloc: Global, dir: &ListDir) -> Result<Vec<ObjectMetadata>, OutOfMemory>
        ensures { IfOk result (λ found. found.items ≡ listed dir.now self.now.store) }
    {
        listing(alloc, &self.objects, dir)
    }

    /// The last tag that was given, 0 before the first. Each write that has its effect gets the next one.
    pub fn last_tag(&self) -> u64
        ensures { result ≡ self.now.store.last_tag }
    {
        self.last_tag
    }

    /// How many objects there are.
    pub fn len(&self) -> usize
        ensures { result ≡ length self.now.store.objects }
    {
        self.objects.len()
    }

    // Takes the next call's mark, and gives the answer under it.
    fn answer<T: Drop>(&mut self, value: T) -> Result<T, StoreError>
        ensures result { result ≡ answer_under (next_mark self.old.marks) value }
        ensures after { self.new ≡ answered self.old }
        ensures later { self.old.faults ≤ self.new.faults }
    {
        match self.marks.take() {
            Mark::Good => Ok(value),
            Mark::Fail | Mark::Lost => {
                drop(value);
                self.faults = self.faults.saturating_add(1);
                Err(StoreError::Fault)
            }
        }
    }

    // Takes the next call's mark, and faults.
    fn fault(&mut self) -> StoreError
        ensures result { result ≡ Fault }
        ensures after { self.new ≡ faulted self.old }
        ensures later { self.old.faults ≤ self.new.faults }
    {
        self.marks.take();
        self.faults = self.faults.saturating_add(1);
        StoreError::Fault
    }

    // The tag of the next write, where it writes.
    fn next_tag(&self) -> Option<u64>
        ensures { result ≡ tag_under (write_mark self.now) (self.now.store.last_tag + 1) }
    {
        match self.marks.first() {
            Mark::Fail => None,
            Mark::Good | Mark::Lost => self.last_tag.checked_add(1),
        }
    }

    // Writes an object, which gets the next tag.
    fn write(
        &mut self,
        alloc: Global,
        path: &ObjectPath,
        bytes: &[u8],
        moment: Millis,
    ) -> Result<u64, StoreError>
        ensures writes { Writes (write_mark self.old)
            (stored path.now bytes.now moment self.old.store) self.old self.new result }
        ensures later { self.old.faults ≤ self.new.faults }
    {
        let Some(tag) = self.next_tag() else {
            return Err(self.fault());
        };
        let bytes = ByteList::copy_of(alloc, bytes)?;
        keep_bytes(alloc, &mut self.objects, path, bytes, moment, tag)?;
        self.last_tag = tag;
        self.answer(tag)
    }
}

impl ObjectStore for MemoryStore {
    ghost told = { told_of };

    fn list(&mut self, alloc: Global, dir: &ListDir) -> Result<Vec<ObjectMetadata>, StoreError> {
        let found = listing(alloc, &self.objects, dir)?;
        self.answer(found)
    }

    fn get(
        &mut self,
        alloc: Global,
        path: &ObjectPath,
    ) -> Result<Option<StoredObject>, StoreError> {
        let found = copy_of(alloc, &self.objects, path)?;
        self.answer(found)
    }

    fn put_new(
        &mut self,
        alloc: Global,
        path: &ObjectPath,
        bytes: &[u8],
        moment: Millis,
    ) -> Result<Option<u64>, StoreError> {
        if is_taken(&self.objects, path) {
            self.answer(None)
        } else {
            Ok(Some(self.write(alloc, path, bytes, moment)?))
        }
    }

    fn replace(
        &mut self,
        alloc: Global,
        path: &ObjectPath,
        tag: u64,
        bytes: &[u8],
        moment: Millis,
    ) -> Result<Option<u64>, StoreError> {
        if has_tag(&self.objects, path, tag) {
            Ok(Some(self.write(alloc, path, bytes, moment)?))
        } else {
            self.answer(None)
        }
    }

    fn put(
        &mut self,
        alloc: Global,
        path: &ObjectPath,
        bytes: &[u8],
        moment: Millis,
    ) -> Result<u64, StoreError> {
        self.write(alloc, path, bytes, moment)
    }

    /// Removes the object at a path. An absent one is no error. Takes no memory: under a good mark it succeeds.
    fn delete(&mut self, path: &ObjectPath) -> Result<(), StoreError>
        ensures calls { Calls (λ _. answers.Deleted) (told_of self.old) (told_of self.new)
            (calls.Delete path.now) (pos 0) result }
        ensures good { next_mark self.old.marks ≡ Good → result ≡ Ok tt }
        ensures no_memory { result ≢ Err NoMemory }
    {
        remove_under(self.marks.first(), &mut self.objects, path);
        self.answer(())
    }
}
