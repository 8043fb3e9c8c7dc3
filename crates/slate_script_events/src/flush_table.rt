//! Tables that a flush adds.

use bytes::Bytes;
use slate_ids::{OutOfMemory, Ulid};
use slate_model::Plain;
use std::alloc::Global;

/// A table that a flush puts in front of a tree's flushed tables.
#[derive(Debug, Drop)]
pub struct FlushTable {
    /// Which table.
    pub table: Ulid,
    /// Which view of it.
    pub view: Ulid,
    /// The prefix of the tree's segment; empty for the root.
    pub prefix: Bytes,
}

impl Plain for FlushTable {
    fn clone(&self, alloc: Global) -> Result<FlushTable, OutOfMemory> {
        Ok(FlushTable {
            table: self.table,
            view: self.view,
            prefix: Plain::clone(&self.prefix, alloc)?,
        })
    }

    fn is(&self, other: &FlushTable) -> bool {
        self.table.is(&other.table) && self.view.is(&other.view) && self.prefix.is(&other.prefix)
    }
}
