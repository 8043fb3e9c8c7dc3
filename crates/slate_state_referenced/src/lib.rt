//! The versions that a manifest's checkpoints name, and the reading of them.
#![tactic(auto)]

mod laws;
mod manifest_map;
mod number_queue;
mod referenced_phase;

pub use laws::{named_numbers_are_named, named_numbers_come_once};
pub use manifest_map::{ManifestMap, into_map};
pub use number_queue::NumberQueue;
pub use referenced_phase::{ReferencedPhase, read_named};
