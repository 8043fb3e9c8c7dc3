//! What is seen of a compactor's state: its record and its manifest, read one after the other by one call.
#![tactic(auto)]

mod both_phase;
mod both_read;
mod state_reader;
mod state_view;

pub use both_phase::{Both, BothPhase};
pub use both_read::read_both;
pub use state_reader::{CompactorStateReader, ReadViewMachine};
pub use state_view::CompactorStateView;
