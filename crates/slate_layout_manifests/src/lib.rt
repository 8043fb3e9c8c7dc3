//! The parts of manifests as bytes, the tables of their views, and the manifest that bytes stand for.
#![tactic(auto)]

mod gathered;
mod manifest_parts;
mod trees;
mod used_tables;

pub use gathered::Gathered;
pub use manifest_parts::{CheckpointForm, EntryForm, TrackerForm};
pub use trees::{SegmentForm, TreeForm};
pub use used_tables::are_all_used;
