//! The parties of a cluster, and what an event does to its state.
#![tactic(auto)]

mod parties;
mod state;

pub use state::ClusterState;
