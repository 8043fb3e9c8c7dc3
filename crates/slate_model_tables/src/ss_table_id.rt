//! The id of a table.
ghost use Rattle.std.specs.Prelude.{◌≡◌, true};
ghost use Rattle.slate_model_tables.specs.Tables.{is_wal, is_compacted};

use slate_ids::{OutOfMemory, Plain, Ulid};
use std::alloc::Global;

/// The id of a table: a number of the write-ahead log, or the id of a compacted table. Those of the log order first, by number.
#[derive(Clone, Copy, Debug, PartialEq, Eq, PartialOrd, Ord, Hash)]
pub enum SsTableId {
    /// A file of the write-ahead log.
    Wal(u64),
    /// A table that a flush or a compaction wrote.
    Compacted(Ulid),
}

impl SsTableId {
    /// Whether it is a file of the write-ahead log.
    pub fn is_wal(&self) -> bool
        ensures { result ≡ is_wal self.now }
    {
        matches!(self, SsTableId::Wal(_))
    }

    /// Whether it is a compacted table.
    pub fn is_compacted(&self) -> bool
        ensures { result ≡ is_compacted self.now }
    {
        matches!(self, SsTableId::Compacted(_))
    }

    /// The number of a file of the write-ahead log.
    pub fn unwrap_wal_id(&self) -> u64
        requires { is_wal self.now ≡ true }
        ensures { self.now ≡ SsTableId.Wal result }
    {
        match self {
            SsTableId::Wal(number) => *number,
            SsTableId::Compacted(_) => unreachable!(),
        }
    }

    /// The id of a compacted table.
    pub fn unwrap_compacted_id(&self) -> Ulid
        requires { is_compacted self.now ≡ true }
        ensures { self.now ≡ SsTableId.Compacted result }
    {
        match self {
            SsTableId::Wal(_) => unreachable!(),
            SsTableId::Compacted(id) => *id,
        }
    }
}

impl Plain for SsTableId {
    fn clone(&self, _alloc: Global) -> Result<SsTableId, OutOfMemory> {
        Ok(*self)
    }

    fn is(&self, other: &SsTableId) -> bool {
        self == other
    }
}
