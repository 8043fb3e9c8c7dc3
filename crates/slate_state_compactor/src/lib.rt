//! What a compactor holds between its calls: its trees, its record of compactions, and those that it finished and no manifest has yet.
#![tactic(auto)]

mod finishing;
mod laws;
mod local_state;
mod taken;

pub use laws::ends_keep_order;
pub use local_state::LocalState;
