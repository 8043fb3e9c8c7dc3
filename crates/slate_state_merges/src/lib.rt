//! Merges: what a writer and a compactor make of one another's trees, and the trees that a compactor holds.
#![tactic(auto)]

mod laws;
mod local_trees;
mod manifest_merge;
mod order;
mod segment_merges;
mod side_by_side;
mod tree_merge;

pub use laws::merging_again;
pub use local_trees::LocalTrees;
pub use manifest_merge::merge_remote_manifest;
pub use order::prefixes_ascend;
pub use segment_merges::{merge_segments_from_compactor, merge_segments_from_writer};
pub use tree_merge::{TreeMerge, merge_writer_and_compactor};
