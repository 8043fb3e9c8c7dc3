//! The bytes of numbers and flags.
ghost use Rattle.std.specs.Prelude.{◌≡◌, ◌<◌, ◌^◌, ◌++◌, OnOk, true};
ghost use Rattle.std.proofs.Common.{arith};
ghost use Rattle.slate_layout_parts.specs.Bytes as bytes;
ghost use Rattle.slate_layout_parts.specs.Reading as reading;
ghost use Rattle.slate_layout_parts.specs.laws.Atoms as atoms;
ghost use Rattle.slate_layout_parts.specs.Typed as typed;

use crate::part::Part;
use crate::reader::Reader;
use crate::tables::Tables;
use slate_ids::OutOfMemory;
use std::alloc::Global;

impl Part for u64 {
    ghost bytes = { bytes.u64_bytes };

    ghost in_front = { λ tables. reading.u64_in };

    ghost Fits = { λ tables. λ n. bytes.is_u64 n ≡ true };

    ghost is_typed = { bytes.is_u64 };

    ghost LEAST = { 8 };

    const LEAST: usize = 8;

    ghost few = { omega arith };

    ghost reads = { λ tables. atoms.u64_reads };

    #[tactic(auto, unfolding(crate::specs::Bytes::u64_bytes))]
    fn write(&self, out: &mut Vec<u8>) -> Result<(), OutOfMemory> {
        out.extend_from_slice(&self.to_be_bytes())?;
        Ok(())
    }

    fn read<'a>(
        _alloc: Global,
        _tables: &Tables,
        from: Reader<'a>,
    ) -> Result<Option<(u64, Reader<'a>)>, OutOfMemory> {
        Ok(from.u64())
    }
}

impl Part for u8 {
    ghost bytes = { bytes.byte_bytes };

    ghost in_front = { λ tables. reading.byte_in };

    ghost Fits = { λ tables. λ n. Unit {0} };

    ghost is_typed = { typed.any };

    ghost LEAST = { 1 };

    const LEAST: usize = 1;

    ghost few = { omega arith };

    ghost reads = { λ tables. atoms.byte_reads };

    fn write(&self, out: &mut Vec<u8>) -> Result<(), OutOfMemory> {
        out.push(*self)?;
        Ok(())
    }

    fn read<'a>(
        _alloc: Global,
        _tables: &Tables,
        from: Reader<'a>,
    ) -> Result<Option<(u8, Reader<'a>)>, OutOfMemory> {
        Ok(from.byte())
    }
}

impl Part for u16 {
    ghost bytes = { bytes.u16_bytes };

    ghost in_front = { λ tables. reading.u16_in };

    ghost Fits = { λ tables. λ n. n < 2 ^ 16 };

    ghost is_typed = { typed.is_u16 };

    ghost LEAST = { 2 };

    const LEAST: usize = 2;

    ghost few = { omega arith };

    ghost reads = { λ tables. atoms.u16_reads };

    #[tactic(auto, unfolding(crate::specs::Bytes::u16_bytes))]
    fn write(&self, out: &mut Vec<u8>) -> Result<(), OutOfMemory> {
        out.extend_from_slice(&self.to_be_bytes())?;
        Ok(())
    }

    fn read<'a>(
        _alloc: Global,
        _tables: &Tables,
        from: Reader<'a>,
    ) -> Result<Option<(u16, Reader<'a>)>, OutOfMemory> {
        Ok(from.u16())
    }
}

impl Part for u32 {
    ghost bytes = { bytes.u32_bytes };

    ghost in_front = { λ tables. reading.u32_in };

    ghost Fits = { λ tables. λ n. n < 2 ^ 32 };

    ghost is_typed = { typed.is_u32 };

    ghost LEAST = { 4 };

    const LEAST: usize = 4;

    ghost few = { omega arith };

    ghost reads = { λ tables. atoms.u32_reads };

    #[tactic(auto, unfolding(crate::specs::Bytes::u32_bytes))]
    fn write(&self, out: &mut Vec<u8>) -> Result<(), OutOfMemory> {
        out.extend_from_slice(&self.to_be_bytes())?;
        Ok(())
    }

    fn read<'a>(
        _alloc: Global,
        _tables: &Tables,
        from: Reader<'a>,
    ) -> Result<Option<(u32, Reader<'a>)>, OutOfMemory> {
        Ok(from.u32())
    }
}

impl Part for i64 {
    ghost bytes = { bytes.i64_bytes };

    ghost in_front = { λ tables. reading.i64_in };

    ghost Fits = { λ tables. λ z. bytes.is_i64 z ≡ true };

    ghost is_typed = { bytes.is_i64 };

    ghost LEAST = { 8 };

    const LEAST: usize = 8;

    ghost few = { omega arith };

    ghost reads = { λ tables. atoms.i64_reads };

    fn write(&self, out: &mut Vec<u8>) -> Result<(), OutOfMemory> {
        self.cast_unsigned().write(out)
    }

    fn read<'a>(
        _alloc: Global,
        _tables: &Tables,
        from: Reader<'a>,
    ) -> Result<Option<(i64, Reader<'a>)>, OutOfMemory> {
        Ok(from.i64())
    }
}

impl Part for bool {
    ghost bytes = { bytes.flag_bytes };

    ghost in_front = { λ tables. reading.flag_in };

    ghost Fits = { λ tables. λ flag. Unit {0} };

    ghost is_typed = { typed.any };

    ghost LEAST = { 1 };

    const LEAST: usize = 1;

    ghost few = { omega arith };

    ghost reads = { λ tables. atoms.flag_reads };

    fn write(&self, out: &mut Vec<u8>) -> Result<(), OutOfMemory> {
        out.push(if *self { 1 } else { 0 })?;
        Ok(())
    }

    fn read<'a>(
        _alloc: Global,
        _tables: &Tables,
        from: Reader<'a>,
    ) -> Result<Option<(bool, Reader<'a>)>, OutOfMemory> {
        Ok(from.flag())
    }
}

/// Adds the low four bytes of a count at the end, the highest first.
#[tactic(auto, unfolding(crate::specs::Bytes::u32_bytes))]
pub fn write_count(count: usize, out: &mut Vec<u8>) -> Result<(), OutOfMemory>
    ensures { OnOk result (out.new.items ≡ out.old.items ++ bytes.u32_bytes count) }
{
    out.extend_from_slice(&(count as u64).to_be_bytes()[4..])?;
    Ok(())
}
