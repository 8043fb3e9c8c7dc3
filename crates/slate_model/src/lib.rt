//! The values of a database: tables, their views, sorted runs, trees, segments, manifests, moments of sequence numbers, and records of compactions.
#![tactic(auto)]

mod checkpoint;
mod external_db;
mod find_option;
mod lsm_tree_state;
mod manifest;
mod manifest_core;
mod nesting;
mod owned_tables;
mod prefix_extractor;
mod pruned_entries;
mod segment;
mod segment_search;
mod segment_selection;
mod segments;
mod sequence_tracker;
mod tree_of_prefix;
mod trees;
mod validation;
mod versioned_manifest;
mod views;
mod watermark;

pub use checkpoint::{Checkpoint, CheckpointCreateResult, CheckpointOptions};
pub use external_db::ExternalDb;
pub use find_option::FindOption;
pub use lsm_tree_state::LsmTreeState;
pub use manifest::Manifest;
pub use manifest_core::ManifestCore;
pub use prefix_extractor::PrefixExtractor;
pub use segment::Segment;
pub use sequence_tracker::SequenceTracker;
pub use slate_model_records::{
    Compaction, CompactionContext, CompactionSpec, CompactionStatus, Compactions, CompactionsIter,
    SourceId, Subcompaction, VersionedCompactions, WorkerSpec,
};
pub use slate_model_tables::{
    CompressionTag, FilterFormat, Plain, Queue, SortedRun, SsTableHandle, SsTableId, SsTableInfo,
    SsTableView, SstType, all_show_keys, max_l0_overlap,
};
pub use trees::Trees;
pub use versioned_manifest::VersionedManifest;
pub use views::Views;
