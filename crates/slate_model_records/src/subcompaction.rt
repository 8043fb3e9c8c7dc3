//! A part of a compaction.

use slate_ids::{BytesRange, Listed, OutOfMemory, clone_both};
use slate_model_tables::{Plain, SsTableHandle};
use std::alloc::Global;

/// A part of a compaction: the keys of a range.
#[derive(Debug, Drop)]
pub struct Subcompaction {
    /// The keys.
    pub range: BytesRange,
    /// The tables that it has written so far, in order.
    pub output_ssts: Listed<SsTableHandle>,
}

impl Plain for Subcompaction {
    fn clone(&self, alloc: Global) -> Result<Subcompaction, OutOfMemory> {
        let (range, output_ssts) = clone_both(alloc, &self.range, &self.output_ssts)?;
        Ok(Subcompaction { range, output_ssts })
    }

    fn is(&self, other: &Subcompaction) -> bool {
        self.range.is(&other.range) && self.output_ssts.is(&other.output_ssts)
    }
}
