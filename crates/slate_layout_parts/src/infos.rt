//! The bytes of what is known of a table, and of its handle.
ghost use Rattle.std.specs.Prelude.{◌≡◌, ◌<◌, ◌^◌, IfOk, Some, if◌then◌else◌};
ghost use Rattle.std.proofs.Common.{arith};
ghost use Rattle.slate_layout_parts.specs.InfoParts as infos;
ghost use Rattle.slate_layout_parts.specs.Typed as typed;
ghost use Rattle.slate_layout_parts.specs.laws.Infos as laws;

use crate::part::Part;
use crate::reader::Reader;
use crate::tables::{Tables, table_id};
use bytes::Bytes;
use slate_ids::{OutOfMemory, Ulid};
use slate_model_tables::{
    CompressionTag, FilterFormat, SsTableHandle, SsTableId, SsTableInfo, SstType,
};
use std::alloc::Global;

// The first and the last key.
type Entries = (Option<Bytes>, Option<Bytes>);

// Index and filters, codec and type, statistics and the form of filters.
type Places = (
    ((u64, u64), (u64, u64)),
    ((CompressionTag, SstType), ((u64, u64), FilterFormat)),
);

/// Whether a last key is there only after a first one, and isn't below it.
pub fn are_entries(first: &Option<Bytes>, last: &Option<Bytes>) -> bool
    ensures { result ≡ infos.are_entries first.now last.now }
{
    match (first, last) {
        (None, last) => last.is_none(),
        (Some(_), None) => true,
        (Some(first), Some(last)) => first.as_slice().cmp(last.as_slice()).is_le(),
    }
}

// What is known, of its parts.
fn info_of(entries: Entries, places: Places) -> Option<SsTableInfo>
    ensures { result ≡ infos.info_of (entries, places) }
{
    let (first_entry, last_entry) = entries;
    if !are_entries(&first_entry, &last_entry) {
        drop(first_entry);
        drop(last_entry);
        return None;
    }
    let ((index, filter), ((compression_codec, sst_type), (stats, filter_format))) = places;
    Some(SsTableInfo {
        first_entry,
        last_entry,
        index_offset: index.0,
        index_len: index.1,
        filter_offset: filter.0,
        filter_len: filter.1,
        compression_codec,
        sst_type,
        stats_offset: stats.0,
        stats_len: stats.1,
        filter_format,
    })
}

// Where the parts of a table lie, and how it is written.
fn places_of(info: &SsTableInfo) -> Places
    ensures { result ≡ (infos.parts_of info.now).1 }
{
    let index = (info.index_offset, info.index_len);
    let filter = (info.filter_offset, info.filter_len);
    let stats = (info.stats_offset, info.stats_len);
    (
        (index, filter),
        (
            (info.compression_codec, info.sst_type),
            (stats, info.filter_format),
        ),
    )
}

impl Part for SsTableInfo {
    ghost bytes = { infos.info_bytes };

    ghost in_front = { λ tables. infos.info_in };

    ghost Fits = { λ tables. infos.InfoFits };

    ghost is_typed = { typed.is_info };

    ghost LEAST = { 1 };

    const LEAST: usize = 1;

    ghost few = { omega arith };

    ghost reads = { λ tables. laws.info_reads };

    fn write(&self, out: &mut Vec<u8>) -> Result<(), OutOfMemory> {
        self.first_entry.write(out)?;
        self.last_entry.write(out)?;
        places_of(self).write(out)
    }

    fn read<'a>(
        alloc: Global,
        tables: &Tables,
        from: Reader<'a>,
    ) -> Result<Option<(SsTableInfo, Reader<'a>)>, OutOfMemory> {
        let Some(((entries, places), from)) = <(Entries, Places)>::read(alloc, tables, from)? else {
            return Ok(None);
        };
        match info_of(entries, places) {
            Some(info) => Ok(Some((info, from))),
            None => Ok(None),
        }
    }
}

impl Part for SsTableHandle {
    ghost bytes = { infos.handle_bytes };

    ghost in_front = { λ tables. infos.handle_in };

    ghost Fits = { λ tables. infos.HandleFits };

    ghost is_typed = { typed.is_handle };

    ghost LEAST = { 8 };

    const LEAST: usize = 8;

    ghost few = { omega arith };

    ghost reads = { λ tables. laws.handle_reads };

    fn write(&self, out: &mut Vec<u8>) -> Result<(), OutOfMemory> {
        table_id(self.id).write(out)?;
        self.format_version.write(out)?;
        self.info.write(out)
    }

    fn read<'a>(
        alloc: Global,
        tables: &Tables,
        from: Reader<'a>,
    ) -> Result<Option<(SsTableHandle, Reader<'a>)>, OutOfMemory> {
        match <(Ulid, (u16, SsTableInfo))>::read(alloc, tables, from)? {
            Some(((id, (format_version, info)), from)) => {
                let handle = SsTableHandle {
                    id: SsTableId::Compacted(id),
                    format_version,
                    info,
                };
                Ok(Some((handle, from)))
            }
            None => Ok(None),
        }
    }
}

impl Part for SsTableId {
    ghost bytes = { infos.table_bytes };

    ghost in_front = { λ tables. infos.table_in };

    ghost Fits = { λ tables. infos.TableFits };

    ghost is_typed = { typed.is_table };

    ghost LEAST = { 8 };

    const LEAST: usize = 8;

    ghost few = { omega arith };

    ghost reads = { λ tables. laws.table_reads };

    fn write(&self, out: &mut Vec<u8>) -> Result<(), OutOfMemory> {
        table_id(*self).write(out)
    }

    fn read<'a>(
        alloc: Global,
        tables: &Tables,
        from: Reader<'a>,
    ) -> Result<Option<(SsTableId, Reader<'a>)>, OutOfMemory> {
        match Ulid::read(alloc, tables, from)? {
            Some((id, from)) => Ok(Some((SsTableId::Compacted(id), from))),
            None => Ok(None),
        }
    }
}
