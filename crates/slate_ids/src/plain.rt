//! Values that are copied and compared whole.
ghost use Rattle.std.specs.Prelude.{◌≡◌, ◌∷◌, [], ◌++◌, IfOk, OnOk, IsTrue, ◌↔◌};

use crate::bytes_range::BytesRange;
use crate::checkpoint_id::CheckpointId;
use crate::db_path::DbPath;
use crate::listed::Listed;
use crate::out_of_memory::OutOfMemory;
use crate::text::Text;
use crate::ulid::Ulid;
use crate::walk::Walk;
use bytes::Bytes;
use std::alloc::Global;

/// A value of fields: it has an equal copy, and two are equal where all fields are.
pub trait Plain {
    /// An equal value. It shares the keys.
    fn clone(&self, alloc: Global) -> Result<Self, OutOfMemory>
        ensures { IfOk result (λ copied. copied ≡ self.now) };

    /// Whether all fields are equal. Takes no memory.
    fn is(&self, other: &Self) -> bool
        ensures { IsTrue result ↔ self.now ≡ other.now };
}

impl Plain for Bytes {
    fn clone(&self, _alloc: Global) -> Result<Bytes, OutOfMemory> {
        Ok(<Bytes as Clone>::clone(self)?)
    }

    fn is(&self, other: &Bytes) -> bool {
        self == other
    }
}

impl Plain for BytesRange {
    fn clone(&self, _alloc: Global) -> Result<BytesRange, OutOfMemory> {
        BytesRange::clone(self)
    }

    fn is(&self, other: &BytesRange) -> bool {
        BytesRange::is(self, other)
    }
}

impl Plain for Text {
    fn clone(&self, alloc: Global) -> Result<Text, OutOfMemory> {
        self.copy(alloc)
    }

    fn is(&self, other: &Text) -> bool {
        self.as_str() == other.as_str()
    }
}

impl Plain for Ulid {
    fn clone(&self, _alloc: Global) -> Result<Ulid, OutOfMemory> {
        Ok(*self)
    }

    fn is(&self, other: &Ulid) -> bool {
        self == other
    }
}

impl Plain for CheckpointId {
    fn clone(&self, _alloc: Global) -> Result<CheckpointId, OutOfMemory> {
        Ok(*self)
    }

    fn is(&self, other: &CheckpointId) -> bool {
        self.as_bytes().as_slice() == other.as_bytes().as_slice()
    }
}

impl Plain for DbPath {
    fn clone(&self, _alloc: Global) -> Result<DbPath, OutOfMemory> {
        Ok(*self)
    }

    fn is(&self, other: &DbPath) -> bool {
        self.letters() == other.letters()
    }
}

impl<T: Plain + Drop> Plain for Option<T> {
    fn clone(&self, alloc: Global) -> Result<Option<T>, OutOfMemory> {
        match self {
            Some(value) => Ok(Some(value.clone(alloc)?)),
            None => Ok(None),
        }
    }

    fn is(&self, other: &Option<T>) -> bool {
        match (self, other) {
            (Some(a), Some(b)) => a.is(b),
            (None, None) => true,
            _ => false,
        }
    }
}

/// Equal values of two.
pub fn clone_both<A: Plain + Drop, B: Plain + Drop>(
    alloc: Global,
    one: &A,
    other: &B,
) -> Result<(A, B), OutOfMemory>
    ensures { IfOk result (λ copied. copied ≡ (one.now, other.now)) }
{
    let one = one.clone(alloc)?;
    match other.clone(alloc) {
        Ok(other) => Ok((one, other)),
        Err(e) => {
            drop(one);
            Err(e)
        }
    }
}

// Adds an equal value at the end of a list.
fn add_copy<T: Plain + Drop>(
    alloc: Global,
    copied: &mut Vec<T>,
    item: &T,
) -> Result<(), OutOfMemory>
    ensures { OnOk result (copied.new.items ≡ copied.old.items ++ item.now ∷ []) }
{
    copied.push(item.clone(alloc)?)?;
    Ok(())
}

// Adds values equal to those of a walk at the end of a list.
fn add_copies<'a, T: Plain + Drop + 'a, W: Walk<'a, T>>(
    alloc: Global,
    copied: &mut Vec<T>,
    walk: &mut W,
) -> Result<(), OutOfMemory>
    ensures { OnOk result (copied.new.items ≡ copied.old.items ++ W.left walk.old) }
{
    while let Some(item) = walk.step() {
        add_copy(alloc, copied, item)?;
    }
    Ok(())
}

/// A list of values equal to those of a walk, in the room that they need.
pub fn copies<'a, T: Plain + Drop + 'a, W: Walk<'a, T> + Drop>(
    alloc: Global,
    walk: W,
) -> Result<Vec<T>, OutOfMemory>
    ensures { IfOk result (λ copied. copied.items ≡ W.left walk) }
{
    let mut copied = Vec::new(alloc);
    let mut walk = walk;
    let added = add_copies(alloc, &mut copied, &mut walk);
    drop(walk);
    match added {
        Ok(()) => {
            copied.shrink_to_fit();
            Ok(copied)
        }
        Err(e) => {
            drop(copied);
            Err(e)
        }
    }
}

// Whether what is left of two walks has the same values, one by one.
fn go_alike<'a, T: Plain + 'a, W: Walk<'a, T>>(walk: &mut W, others: &mut W) -> bool
    ensures { IsTrue result ↔ W.left walk.old ≡ W.left others.old }
{
    while let Some(item) = walk.step() {
        match others.step() {
            Some(other) => {
                if !item.is(other) {
                    return false;
                }
            }
            None => return false,
        }
    }
    others.step().is_none()
}

/// Whether two walks have the same values, one by one. Takes no memory.
pub fn are_same<'a, T: Plain + 'a, W: Walk<'a, T> + Drop>(a: W, b: W) -> bool
    ensures { IsTrue result ↔ W.left a ≡ W.left b }
{
    let mut walk = a;
    let mut others = b;
    let same = go_alike(&mut walk, &mut others);
    drop(walk);
    drop(others);
    same
}

impl<T: Plain + Drop> Plain for Listed<T> {
    fn clone(&self, alloc: Global) -> Result<Listed<T>, OutOfMemory> {
        Ok(Listed::from_vec(copies(alloc, self.as_slice().iter())?))
    }

    fn is(&self, other: &Listed<T>) -> bool {
        are_same(self.as_slice().iter(), other.as_slice().iter())
    }
}
