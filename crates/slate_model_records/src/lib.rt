//! The record of compactions: what was submitted, who runs it, how far it is, and what it wrote.
#![tactic(auto)]

mod compaction;
mod compaction_context;
mod compaction_spec;
mod compaction_status;
mod compactions;
mod compactions_iter;
mod entries;
mod retained;
mod source_id;
mod subcompaction;
mod versioned_compactions;
mod worker_spec;

pub use compaction::Compaction;
pub use compaction_context::CompactionContext;
pub use compaction_spec::CompactionSpec;
pub use compaction_status::CompactionStatus;
pub use compactions::Compactions;
pub use compactions_iter::CompactionsIter;
pub use source_id::SourceId;
pub use subcompaction::Subcompaction;
pub use versioned_compactions::VersionedCompactions;
pub use worker_spec::WorkerSpec;
