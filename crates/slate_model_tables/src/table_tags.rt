//! What is written beside a table.
ghost use Rattle.std.specs.Prelude.{◌≡◌};
ghost use Rattle.slate_model_tables.specs.Tables.{type_of, default_type, default_format};

use crate::ss_table_id::SsTableId;

/// What wrote a table.
#[derive(Clone, Copy, Debug, Drop, PartialEq, Eq, Hash)]
pub enum SstType {
    /// A flush or a compaction.
    Compacted,
    /// The write-ahead log.
    Wal,
}

/// A table is compacted where nothing else is said.
impl Default for SstType {
    ghost is_default = { λ t. t ≡ default_type };

    fn default() -> SstType {
        SstType::Compacted
    }
}

/// The type of a table by its id.
impl From<&SsTableId> for SstType {
    ghost from_gives = { λ id t. t ≡ type_of id.now };

    fn from(id: &SsTableId) -> SstType {
        match id {
            SsTableId::Wal(_) => SstType::Wal,
            SsTableId::Compacted(_) => SstType::Compacted,
        }
    }
}

/// The form of a table's filter.
#[derive(Clone, Copy, Debug, Drop, PartialEq, Eq, Hash)]
pub enum FilterFormat {
    /// One filter.
    Legacy,
    /// Named filters, one after the other.
    Composite,
}

/// Filters are composite where nothing else is said.
impl Default for FilterFormat {
    ghost is_default = { λ f. f ≡ default_format };

    fn default() -> FilterFormat {
        FilterFormat::Composite
    }
}

/// How the blocks of a table are compressed.
#[derive(Clone, Copy, Debug, Drop, PartialEq, Eq, Hash)]
pub enum CompressionTag {
    /// Not at all.
    None,
    /// By Snappy.
    Snappy,
    /// By LZ4.
    Lz4,
    /// By zlib.
    Zlib,
    /// By Zstandard.
    Zstd,
}
