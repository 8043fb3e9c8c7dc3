//! The bytes of what is written beside a table.
ghost use Rattle.std.specs.Prelude.{◌≡◌};
ghost use Rattle.std.proofs.Common.{arith};
ghost use Rattle.slate_layout_parts.specs.Bytes.{byte_bytes};
ghost use Rattle.slate_layout_parts.specs.InfoParts as infos;
ghost use Rattle.slate_layout_parts.specs.InfoParts.{tag_in, TagFits};
ghost use Rattle.slate_layout_parts.specs.Typed as typed;
ghost use Rattle.slate_layout_parts.specs.laws.Infos as laws;

use crate::part::Part;
use crate::reader::Reader;
use crate::tables::Tables;
use slate_ids::OutOfMemory;
use slate_model_tables::{CompressionTag, FilterFormat, SstType};
use std::alloc::Global;

impl Part for CompressionTag {
    ghost bytes = { λ c. byte_bytes (infos.codec_number c) };

    ghost in_front = { λ tables. tag_in infos.codec_of };

    ghost Fits = { λ tables. TagFits infos.codec_of infos.codec_number };

    ghost is_typed = { typed.any };

    ghost LEAST = { 1 };

    const LEAST: usize = 1;

    ghost few = { omega arith };

    ghost reads = { λ tables. laws.codec_reads };

    fn write(&self, out: &mut Vec<u8>) -> Result<(), OutOfMemory> {
        match self {
            CompressionTag::None => 0u8.write(out),
            CompressionTag::Snappy => 1u8.write(out),
            CompressionTag::Lz4 => 2u8.write(out),
            CompressionTag::Zlib => 3u8.write(out),
            CompressionTag::Zstd => 4u8.write(out),
        }
    }

    fn read<'a>(
        _alloc: Global,
        _tables: &Tables,
        from: Reader<'a>,
    ) -> Result<Option<(CompressionTag, Reader<'a>)>, OutOfMemory> {
        let Some((number, from)) = from.byte() else {
            return Ok(None);
        };
        let tag = match number {
            0 => CompressionTag::None,
            1 => CompressionTag::Snappy,
            2 => CompressionTag::Lz4,
            3 => CompressionTag::Zlib,
            4 => CompressionTag::Zstd,
            _ => return Ok(None),
        };
        Ok(Some((tag, from)))
    }
}

impl Part for SstType {
    ghost bytes = { λ t. byte_bytes (infos.type_number t) };

    ghost in_front = { λ tables. tag_in infos.type_of };

    ghost Fits = { λ tables. TagFits infos.type_of infos.type_number };

    ghost is_typed = { typed.any };

    ghost LEAST = { 1 };

    const LEAST: usize = 1;

    ghost few = { omega arith };

    ghost reads = { λ tables. laws.type_reads };

    fn write(&self, out: &mut Vec<u8>) -> Result<(), OutOfMemory> {
        match self {
            SstType::Compacted => 0u8.write(out),
            SstType::Wal => 1u8.write(out),
        }
    }

    fn read<'a>(
        _alloc: Global,
        _tables: &Tables,
        from: Reader<'a>,
    ) -> Result<Option<(SstType, Reader<'a>)>, OutOfMemory> {
        match from.byte() {
            Some((0, from)) => Ok(Some((SstType::Compacted, from))),
            Some((1, from)) => Ok(Some((SstType::Wal, from))),
            _ => Ok(None),
        }
    }
}

impl Part for FilterFormat {
    ghost bytes = { λ f. byte_bytes (infos.format_number f) };

    ghost in_front = { λ tables. tag_in infos.format_of };

    ghost Fits = { λ tables. TagFits infos.format_of infos.format_number };

    ghost is_typed = { typed.any };

    ghost LEAST = { 1 };

    const LEAST: usize = 1;

    ghost few = { omega arith };

    ghost reads = { λ tables. laws.format_reads };

    fn write(&self, out: &mut Vec<u8>) -> Result<(), OutOfMemory> {
        match self {
            FilterFormat::Legacy => 0u8.write(out),
            FilterFormat::Composite => 1u8.write(out),
        }
    }

    fn read<'a>(
        _alloc: Global,
        _tables: &Tables,
        from: Reader<'a>,
    ) -> Result<Option<(FilterFormat, Reader<'a>)>, OutOfMemory> {
        match from.byte() {
            Some((0, from)) => Ok(Some((FilterFormat::Legacy, from))),
            Some((1, from)) => Ok(Some((FilterFormat::Composite, from))),
            _ => Ok(None),
        }
    }
}
