//! The bytes of ranges of keys.
ghost use Rattle.std.specs.Prelude.{◌≡◌, ◌++◌, OnOk};
ghost use Rattle.slate_ids.specs.Keys.{pointed};
ghost use Rattle.std.proofs.Common.{arith};
ghost use Rattle.slate_layout_parts.specs.RangeParts as ranges;
ghost use Rattle.slate_layout_parts.specs.Typed as typed;
ghost use Rattle.slate_layout_parts.specs.laws.Ranges as laws;

use crate::part::Part;
use crate::reader::Reader;
use crate::tables::Tables;
use bytes::Bytes;
use slate_ids::{BytesRange, KeySpan, OutOfMemory};
use std::alloc::Global;
use std::ops::Bound;

// Adds the bytes of a bound at the end.
fn write_bound(bound: Bound<&Bytes>, out: &mut Vec<u8>) -> Result<(), OutOfMemory>
    ensures { OnOk result (out.new.items ≡ out.old.items ++ ranges.bound_bytes (pointed bound.entry)) }
{
    match bound {
        Bound::Unbounded => 0u8.write(out),
        Bound::Included(key) => {
            1u8.write(out)?;
            key.write(out)
        }
        Bound::Excluded(key) => {
            2u8.write(out)?;
            key.write(out)
        }
    }
}

impl Part for Bound<Bytes> {
    ghost bytes = { ranges.bound_bytes };

    ghost in_front = { λ tables. ranges.bound_in };

    ghost Fits = { λ tables. ranges.BoundFits };

    ghost is_typed = { typed.any };

    ghost LEAST = { 1 };

    const LEAST: usize = 1;

    ghost few = { omega arith };

    ghost reads = { λ tables. laws.bound_reads };

    fn write(&self, out: &mut Vec<u8>) -> Result<(), OutOfMemory> {
        write_bound(self.as_ref(), out)
    }

    fn read<'a>(
        alloc: Global,
        tables: &Tables,
        from: Reader<'a>,
    ) -> Result<Option<(Bound<Bytes>, Reader<'a>)>, OutOfMemory> {
        let Some((kind, from)) = from.byte() else {
            return Ok(None);
        };
        if kind == 0 {
            return Ok(Some((Bound::Unbounded, from)));
        }
        if kind > 2 {
            return Ok(None);
        }
        match Bytes::read(alloc, tables, from)? {
            None => Ok(None),
            Some((key, from)) => {
                if kind == 1 {
                    Ok(Some((Bound::Included(key), from)))
                } else {
                    Ok(Some((Bound::Excluded(key), from)))
                }
            }
        }
    }
}

// The range of two bounds, where it is proper.
fn range_of(start: Bound<Bytes>, end: Bound<Bytes>) -> Option<BytesRange>
    ensures { result ≡ ranges.range_of (start, end) }
{
    if KeySpan::new(start.as_ref(), end.as_ref()).is_proper() {
        Some(BytesRange::new(start, end))
    } else {
        drop(start);
        drop(end);
        None
    }
}

impl Part for BytesRange {
    ghost bytes = { ranges.range_bytes };

    ghost in_front = { λ tables. ranges.range_in };

    ghost Fits = { λ tables. ranges.RangeFits };

    ghost is_typed = { typed.any };

    ghost LEAST = { 1 };

    const LEAST: usize = 1;

    ghost few = { omega arith };

    ghost reads = { λ tables. laws.range_reads };

    fn write(&self, out: &mut Vec<u8>) -> Result<(), OutOfMemory> {
        write_bound(self.start_bound(), out)?;
        write_bound(self.end_bound(), out)
    }

    fn read<'a>(
        alloc: Global,
        tables: &Tables,
        from: Reader<'a>,
    ) -> Result<Option<(BytesRange, Reader<'a>)>, OutOfMemory> {
        let Some(((start, end), from)) = <(Bound<Bytes>, Bound<Bytes>)>::read(alloc, tables, from)?
        else {
            return Ok(None);
        };
        match range_of(start, end) {
            Some(range) => Ok(Some((range, from))),
            None => Ok(None),
        }
    }
}
