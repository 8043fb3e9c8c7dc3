//! What is known of a table.
ghost use Rattle.std.specs.Prelude.{◌≡◌, IfOk};
ghost use Rattle.slate_model_tables.specs.Tables.{no_info};

use crate::table_tags::{CompressionTag, FilterFormat, SstType};
use bytes::Bytes;
use slate_ids::{OutOfMemory, Plain};
use std::alloc::Global;

/// What is known of a table: its first and its last key, where its parts lie in its object, in bytes, and how it is written.
#[derive(Debug, Drop)]
pub struct SsTableInfo {
    /// The first key. A table without keys has none.
    pub first_entry: Option<Bytes>,
    /// The last key, where it is known.
    pub last_entry: Option<Bytes>,
    /// Where the index begins.
    pub index_offset: u64,
    /// How long the index is.
    pub index_len: u64,
    /// Where the filters begin.
    pub filter_offset: u64,
    /// How long the filters are.
    pub filter_len: u64,
    /// How blocks are compressed.
    pub compression_codec: CompressionTag,
    /// What wrote the table.
    pub sst_type: SstType,
    /// Where the statistics begin.
    pub stats_offset: u64,
    /// How long the statistics are.
    pub stats_len: u64,
    /// The form of the filters.
    pub filter_format: FilterFormat,
}

/// Nothing known: no entries, numbers 0, not compressed, compacted, composite filters.
impl Default for SsTableInfo {
    ghost is_default = { λ info. info ≡ no_info };

    fn default() -> SsTableInfo {
        SsTableInfo {
            first_entry: None,
            last_entry: None,
            index_offset: 0,
            index_len: 0,
            filter_offset: 0,
            filter_len: 0,
            compression_codec: CompressionTag::None,
            sst_type: SstType::default(),
            stats_offset: 0,
            stats_len: 0,
            filter_format: FilterFormat::default(),
        }
    }
}

impl SsTableInfo {
    /// An equal value. It shares the keys.
    pub fn clone(&self, alloc: Global) -> Result<SsTableInfo, OutOfMemory>
        ensures { IfOk result (λ copied. copied ≡ self.now) }
    {
        let first_entry = Plain::clone(&self.first_entry, alloc)?;
        match Plain::clone(&self.last_entry, alloc) {
            Ok(last_entry) => Ok(self.with_entries(first_entry, last_entry)),
            Err(e) => {
                drop(first_entry);
                Err(e)
            }
        }
    }

    // The same with these entries.
    fn with_entries(&self, first_entry: Option<Bytes>, last_entry: Option<Bytes>) -> SsTableInfo
        ensures { result ≡ record self.now { first_entry = first_entry; last_entry = last_entry } }
    {
        SsTableInfo {
            first_entry,
            last_entry,
            index_offset: self.index_offset,
            index_len: self.index_len,
            filter_offset: self.filter_offset,
            filter_len: self.filter_len,
            compression_codec: self.compression_codec,
            sst_type: self.sst_type,
            stats_offset: self.stats_offset,
            stats_len: self.stats_len,
            filter_format: self.filter_format,
        }
    }
}

impl Plain for SsTableInfo {
    fn clone(&self, alloc: Global) -> Result<SsTableInfo, OutOfMemory> {
        SsTableInfo::clone(self, alloc)
    }

    fn is(&self, other: &SsTableInfo) -> bool {
        self.first_entry.is(&other.first_entry)
            && self.last_entry.is(&other.last_entry)
            && self.index_offset == other.index_offset
            && self.index_len == other.index_len
            && self.filter_offset == other.filter_offset
            && self.filter_len == other.filter_len
            && self.compression_codec == other.compression_codec
            && self.sst_type == other.sst_type
            && self.stats_offset == other.stats_offset
            && self.stats_len == other.stats_len
            && self.filter_format == other.filter_format
    }
}
