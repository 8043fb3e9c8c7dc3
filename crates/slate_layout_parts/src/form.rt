//! Forms: how values of another crate's type stand in bytes.
ghost use Rattle.std.specs.Prelude.{◌≡◌, ◌<◌, ◌^◌, ◌++◌, ℕ, Bool, true, List, Option, OnOk, IfOk};
ghost use Rattle.std.specs.List.{flat_map, list_all};
ghost use Rattle.slate_model_tables.specs.declared.ss_table_handle.SsTableHandle.{SsTableHandle};
ghost use Rattle.std.proofs.Common.{arith};
ghost use Rattle.slate_layout_parts.specs.Bytes as bytes;
ghost use Rattle.slate_layout_parts.specs.Reading as reading;
ghost use Rattle.slate_layout_parts.specs.Reading.{items_in};
ghost use Rattle.slate_layout_parts.specs.Reads.{Reads, PairFits, ListFits};
ghost use Rattle.slate_layout_parts.specs.laws.Groups.{pair_reads, list_reads};
ghost use Rattle.slate_layout_parts.specs.Typed as typed;

use crate::groups::has_room;
use crate::numbers::write_count;
use crate::part::Part;
use crate::reader::Reader;
use crate::tables::Tables;
use slate_ids::{Listed, OutOfMemory};
use std::alloc::Global;

/// How values of a type stand in bytes, where the type is of another crate, so that it can't be a part. What is written is read back,
/// and only what was written is read.
pub trait Form<T: Drop> {
    /// The bytes of a value.
    ghost bytes: { T → List ℕ };

    /// The value that bytes begin with, among these tables, and the bytes after it.
    ghost in_front: { List SsTableHandle → List ℕ → Option (T × List ℕ) };

    /// Whether a value has bytes, among these tables.
    ghost Fits: { List SsTableHandle → T → Type 0 };

    /// Whether a value is one of its type: numbers have their bits, texts are UTF-8. Each that a program holds is.
    ghost is_typed: { T → Bool };

    /// How many bytes a value has at least.
    ghost LEAST: { ℕ };

    const LEAST: usize;

    /// It has 16 bits.
    ghost few: { LEAST < 2 ^ 16 };

    /// What fits is read as it was written; what is read fits, and was written so.
    ghost reads: { (tables : List SsTableHandle) → Reads (in_front tables) bytes (Fits tables) LEAST };

    /// Adds the bytes of a value at the end.
    fn write(value: &T, out: &mut Vec<u8>) -> Result<(), OutOfMemory>
        ensures bytes { OnOk result (out.new.items ≡ out.old.items ++ bytes value.now) }
        ensures typed { OnOk result (is_typed value.now ≡ true) };

    /// The value that bytes begin with, where they begin with one. Views are of these tables.
    fn read<'a>(
        alloc: Global,
        tables: &Tables,
        from: Reader<'a>,
    ) -> Result<Option<(T, Reader<'a>)>, OutOfMemory>
        ensures { IfOk result (λ read. read ≡ in_front tables.now from.entry) };
}

// Adds the bytes of each value at the end.
pub(crate) fn write_each<T: Drop, F: Form<T>>(
    items: &[T],
    out: &mut Vec<u8>,
) -> Result<(), OutOfMemory>
    ensures bytes { OnOk result (out.new.items ≡ out.old.items ++ flat_map F.bytes items.now) }
    ensures typed { OnOk result (list_all F.is_typed items.now ≡ true) }
{
    for item in items {
        F::write(item, out)?;
    }
    Ok(())
}

/// Adds how many values there are and the bytes of each at the end.
pub fn write_list<T: Drop, F: Form<T>>(items: &[T], out: &mut Vec<u8>) -> Result<(), OutOfMemory>
    ensures bytes { OnOk result (out.new.items ≡ out.old.items ++ bytes.list_bytes F.bytes items.now) }
    ensures typed { OnOk result (list_all F.is_typed items.now ≡ true) }
{
    write_count(items.len(), out)?;
    write_each::<T, F>(items, out)
}

// So many values, one after the other.
fn read_each<'a, T: Drop, F: Form<T>>(
    alloc: Global,
    tables: &Tables,
    count: usize,
    from: Reader<'a>,
) -> Result<Option<(Listed<T>, Reader<'a>)>, OutOfMemory>
    ensures { IfOk result (λ read. read ≡ items_in (F.in_front tables.now) count from.entry) }
{
    let mut items = Listed::new(alloc);
    let mut left = from;
    for _ in 0..count {
        match F::read(alloc, tables, left) {
            Ok(Some((item, rest))) => {
                match items.push(item) {
                    Ok(()) => {}
                    Err(e) => {
                        drop(items);
                        return Err(e);
                    }
                }
                left = rest;
            }
            Ok(None) => {
                drop(items);
                return Ok(None);
            }
            Err(e) => {
                drop(items);
                return Err(e);
            }
        }
    }
    items.shrink_to_fit();
    Ok(Some((items, left)))
}

// A list of values of a form, where bytes begin with one.
pub(crate) fn read_list<'a, T: Drop, F: Form<T>>(
    alloc: Global,
    tables: &Tables,
    from: Reader<'a>,
) -> Result<Option<(Listed<T>, Reader<'a>)>, OutOfMemory>
    ensures { IfOk result (λ read. read ≡ reading.list_in (F.in_front tables.now) F.LEAST from.entry) }
{
    let Some((count, from)) = from.u32() else {
        return Ok(None);
    };
    if !has_room(count, F::LEAST, &from) {
        return Ok(None);
    }
    read_each::<T, F>(alloc, tables, count as usize, from)
}

/// The form of parts: as they stand.
pub struct Itself;

impl<T: Part> Form<T> for Itself {
    ghost bytes = { T.bytes };

    ghost in_front = { T.in_front };

    ghost Fits = { T.Fits };

    ghost is_typed = { T.is_typed };

    ghost LEAST = { T.LEAST };

    const LEAST: usize = T::LEAST;

    ghost few = { T.few };

    ghost reads = { T.reads };

    fn write(value: &T, out: &mut Vec<u8>) -> Result<(), OutOfMemory> {
        value.write(out)
    }

    fn read<'a>(
        alloc: Global,
        tables: &Tables,
        from: Reader<'a>,
    ) -> Result<Option<(T, Reader<'a>)>, OutOfMemory> {
        T::read(alloc, tables, from)
    }
}

impl<A: Drop, B: Drop, F: Form<A>, G: Form<B>> Form<(A, B)> for (F, G) {
    ghost bytes = { bytes.pair_bytes F.bytes G.bytes };

    ghost in_front = { λ tables. reading.pair_in (F.in_front tables) (G.in_front tables) };

    ghost Fits = { λ tables. PairFits (F.Fits tables) (G.Fits tables) };

    ghost is_typed = { typed.both F.is_typed G.is_typed };

    ghost LEAST = { F.LEAST };

    const LEAST: usize = F::LEAST;

    ghost few = { F.few };

    ghost reads = { λ tables. pair_reads (F.in_front tables) F.bytes (F.Fits tables) F.LEAST (F.reads tables) (G.in_front tables) G.bytes (G.Fits tables) G.LEAST (G.reads tables) };

    fn write(value: &(A, B), out: &mut Vec<u8>) -> Result<(), OutOfMemory> {
        F::write(&value.0, out)?;
        G::write(&value.1, out)
    }

    fn read<'a>(
        alloc: Global,
        tables: &Tables,
        from: Reader<'a>,
    ) -> Result<Option<((A, B), Reader<'a>)>, OutOfMemory> {
        let Some((a, from)) = F::read(alloc, tables, from)? else {
            return Ok(None);
        };
        match G::read(alloc, tables, from) {
            Ok(Some((b, from))) => Ok(Some(((a, b), from))),
            Ok(None) => {
                drop(a);
                Ok(None)
            }
            Err(e) => {
                drop(a);
                Err(e)
            }
        }
    }
}

/// The form of lists of values of a form: how many there are, and each.
pub struct ListOf<F> {
    _form: F,
}

impl<T: Drop, F: Form<T>> Form<Listed<T>> for ListOf<F> {
    ghost bytes = { bytes.list_bytes F.bytes };

    ghost in_front = { λ tables. reading.list_in (F.in_front tables) F.LEAST };

    ghost Fits = { λ tables. ListFits (F.Fits tables) };

    ghost is_typed = { list_all F.is_typed };

    ghost LEAST = { 4 };

    const LEAST: usize = 4;

    ghost few = { omega arith };

    ghost reads = { λ tables. list_reads (F.in_front tables) F.bytes (F.Fits tables) F.LEAST (F.reads tables) };

    fn write(items: &Listed<T>, out: &mut Vec<u8>) -> Result<(), OutOfMemory> {
        write_list::<T, F>(items.as_slice(), out)
    }

    fn read<'a>(
        alloc: Global,
        tables: &Tables,
        from: Reader<'a>,
    ) -> Result<Option<(Listed<T>, Reader<'a>)>, OutOfMemory> {
        read_list::<T, F>(alloc, tables, from)
    }
}
