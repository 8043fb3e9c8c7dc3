//! The bytes of pairs, options and lists.
ghost use Rattle.std.specs.Prelude.{◌≡◌, ◌++◌, ◌<◌, ◌^◌, ◌*◌, nat_le, true, length, OnOk};
ghost use Rattle.std.specs.List.{flat_map, list_all};
ghost use Rattle.std.proofs.Common.{arith};
ghost use Rattle.slate_layout_parts.specs.Bytes as bytes;
ghost use Rattle.slate_layout_parts.specs.Reading as reading;
ghost use Rattle.slate_layout_parts.specs.Reads.{PairFits, OptionFits, ListFits};
ghost use Rattle.slate_layout_parts.specs.laws.Groups.{pair_reads, option_reads, list_reads};
ghost use Rattle.slate_layout_parts.specs.Typed as typed;

use crate::form::{Itself, read_list, write_each, write_list};
use crate::part::Part;
use crate::reader::Reader;
use crate::tables::Tables;
use slate_ids::{Listed, OutOfMemory};
use std::alloc::Global;

impl<A: Part, B: Part> Part for (A, B) {
    ghost bytes = { bytes.pair_bytes A.bytes B.bytes };

    ghost in_front = { λ tables. reading.pair_in (A.in_front tables) (B.in_front tables) };

    ghost Fits = { λ tables. PairFits (A.Fits tables) (B.Fits tables) };

    ghost is_typed = { typed.both A.is_typed B.is_typed };

    ghost LEAST = { A.LEAST };

    const LEAST: usize = A::LEAST;

    ghost few = { A.few };

    ghost reads = { λ tables. pair_reads (A.in_front tables) A.bytes (A.Fits tables) A.LEAST (A.reads tables) (B.in_front tables) B.bytes (B.Fits tables) B.LEAST (B.reads tables) };

    fn write(&self, out: &mut Vec<u8>) -> Result<(), OutOfMemory> {
        self.0.write(out)?;
        self.1.write(out)
    }

    fn read<'a>(
        alloc: Global,
        tables: &Tables,
        from: Reader<'a>,
    ) -> Result<Option<((A, B), Reader<'a>)>, OutOfMemory> {
        let Some((a, from)) = A::read(alloc, tables, from)? else {
            return Ok(None);
        };
        match B::read(alloc, tables, from) {
            Ok(Some((b, from))) => Ok(Some(((a, b), from))),
            Ok(None) => {
                drop(a);
                Ok(None)
            }
            Err(e) => {
                drop(a);
                Err(e)
            }
        }
    }
}

impl<T: Part> Part for Option<T> {
    ghost bytes = { bytes.option_bytes T.bytes };

    ghost in_front = { λ tables. reading.option_in (T.in_front tables) };

    ghost Fits = { λ tables. OptionFits (T.Fits tables) };

    ghost is_typed = { typed.none_or T.is_typed };

    ghost LEAST = { 1 };

    const LEAST: usize = 1;

    ghost few = { omega arith };

    ghost reads = { λ tables. option_reads (T.in_front tables) T.bytes (T.Fits tables) T.LEAST (T.reads tables) };

    fn write(&self, out: &mut Vec<u8>) -> Result<(), OutOfMemory> {
        match self {
            None => false.write(out),
            Some(value) => {
                true.write(out)?;
                value.write(out)
            }
        }
    }

    fn read<'a>(
        alloc: Global,
        tables: &Tables,
        from: Reader<'a>,
    ) -> Result<Option<(Option<T>, Reader<'a>)>, OutOfMemory> {
        let Some((flag, from)) = from.flag() else {
            return Ok(None);
        };
        if !flag {
            return Ok(Some((None, from)));
        }
        match T::read(alloc, tables, from)? {
            Some((value, from)) => Ok(Some((Some(value), from))),
            None => Ok(None),
        }
    }
}

/// Adds the bytes of each value at the end.
pub fn write_items<T: Part>(items: &[T], out: &mut Vec<u8>) -> Result<(), OutOfMemory>
    ensures bytes { OnOk result (out.new.items ≡ out.old.items ++ flat_map T.bytes items.now) }
    ensures typed { OnOk result (list_all T.is_typed items.now ≡ true) }
{
    write_each::<T, Itself>(items, out)
}

/// Whether so many values of at least so many bytes can be left.
pub fn has_room(count: u32, least: usize, from: &Reader<'_>) -> bool
    requires { least < 2 ^ 16 }
    ensures { result ≡ nat_le (count * least) (length from.now) }
{
    count as usize * least <= from.len()
}

impl<T: Part> Part for Listed<T> {
    ghost bytes = { bytes.list_bytes T.bytes };

    ghost in_front = { λ tables. reading.list_in (T.in_front tables) T.LEAST };

    ghost Fits = { λ tables. ListFits (T.Fits tables) };

    ghost is_typed = { list_all T.is_typed };

    ghost LEAST = { 4 };

    const LEAST: usize = 4;

    ghost few = { omega arith };

    ghost reads = { λ tables. list_reads (T.in_front tables) T.bytes (T.Fits tables) T.LEAST (T.reads tables) };

    fn write(&self, out: &mut Vec<u8>) -> Result<(), OutOfMemory> {
        write_list::<T, Itself>(self.as_slice(), out)
    }

    fn read<'a>(
        alloc: Global,
        tables: &Tables,
        from: Reader<'a>,
    ) -> Result<Option<(Listed<T>, Reader<'a>)>, OutOfMemory> {
        read_list::<T, Itself>(alloc, tables, from)
    }
}
