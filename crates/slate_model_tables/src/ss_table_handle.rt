//! A table as it lies in the store.
ghost use Rattle.std.specs.Prelude.{◌≡◌, IfOk};
ghost use Rattle.slate_model_tables.specs.Tables.{table_size};

use crate::ss_table_id::SsTableId;
use crate::ss_table_info::SsTableInfo;
use slate_ids::{OutOfMemory, Plain};
use std::alloc::Global;
use std::convert::AsRef;

/// A table as it lies in the store.
#[derive(Debug, Drop)]
pub struct SsTableHandle {
    /// Which table.
    pub id: SsTableId,
    /// The version of the format that it is written in.
    pub format_version: u16,
    /// What is known of it.
    pub info: SsTableInfo,
}

impl SsTableHandle {
    /// About how many bytes the table has: up to the end of its index, which is written last. The sum saturates.
    pub fn estimate_size(&self) -> u64
        ensures { result ≡ table_size self.now }
    {
        self.info.index_offset.saturating_add(self.info.index_len)
    }

    /// An equal value. It shares the keys.
    pub fn clone(&self, alloc: Global) -> Result<SsTableHandle, OutOfMemory>
        ensures { IfOk result (λ copied. copied ≡ self.now) }
    {
        Ok(SsTableHandle {
            id: self.id,
            format_version: self.format_version,
            info: self.info.clone(alloc)?,
        })
    }
}

impl AsRef<SsTableHandle> for SsTableHandle {
    fn as_ref(&self) -> &SsTableHandle
        ensures { result.now ≡ self.now }
    {
        self
    }
}

impl Plain for SsTableHandle {
    fn clone(&self, alloc: Global) -> Result<SsTableHandle, OutOfMemory> {
        SsTableHandle::clone(self, alloc)
    }

    fn is(&self, other: &SsTableHandle) -> bool {
        self.id == other.id
            && self.format_version == other.format_version
            && self.info.is(&other.info)
    }
}
