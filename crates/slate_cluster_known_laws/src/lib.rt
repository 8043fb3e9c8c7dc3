//! What the events of a run and their entries tell: what is known of each party, which event is bad, and which ids were carried. Laws of the
//! definitions of `slate_cluster_protocol`, with no code of the product. Each law is what a function without work ensures, so that a function that
//! calls it has the law.
#![tactic(auto)]

mod events_done;
mod parties_known;

pub use events_done::{bad_after, checkpoints_carried, ulids_carried};
pub use parties_known::known_as_told;
