//! Deletes of a version that the latest one and the boundary allow, over any log.
#![tactic(auto)]

mod checked_delete;
mod checked_delete_phase;
mod names;

pub use checked_delete::delete_checked;
pub use checked_delete_phase::CheckedDeletePhase;
pub use names::VersionNames;
