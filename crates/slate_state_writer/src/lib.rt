//! The writer of a compactor's state: what a compactor holds of a database, and the calls that bring it into the manifest and the record.
#![tactic(auto)]

mod compactor_writer;
mod laws;
mod open;
mod state_calls;
mod state_machine;

pub use compactor_writer::CompactorStateWriter;
pub use laws::{calls_leave_what_they_made, records_follow_manifests};
pub use open::OpenStateMachine;
pub use state_machine::CompactorStateMachine;
