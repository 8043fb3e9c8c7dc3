//! What a collector reports.

use slate_gc_passes::PassCounts;
use slate_ids::{GcMessage, Listed, SlateDBError};

/// Why a run of a collector ended.
#[derive(Clone, Copy, Debug, PartialEq, Eq)]
pub enum RunEnd {
    /// The ticks were stopped, or a `Stop` was the next of them.
    Stopped,
    /// So many ticks were taken as were allowed, and none was a `Stop`.
    Turns,
}

/// The passes that were run, in their order: each with its counts, or with the refusal that ended it.
#[derive(Debug, Drop)]
pub struct GcReport {
    pub passes: Listed<(GcMessage, Result<PassCounts, SlateDBError>)>,
}
