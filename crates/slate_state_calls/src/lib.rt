//! The calls of a compactor as machines: what it holds, the open of a database, and its calls on its state. Each says which store call is
//! due and goes on from its answer, for plain calls and for a cluster's parties alike.
#![tactic(auto)]

mod changes;
mod commits;
mod compactor;
mod logs;
mod open_phase;
mod state_ends;
mod state_phase;
mod state_start;
mod versions;

pub use compactor::Compactor;
pub use open_phase::{OpenPhase, OpenStep};
pub use state_phase::{ManifestStep, RecordStep, StatePhase};
pub use state_start::{StateStart, TreesWrite};
