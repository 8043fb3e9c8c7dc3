//! What a compactor's plain calls answer over a store that serves them well. Laws of the definitions of its reader and its writer, with no
//! code of the product: each is what a function without work ensures.
#![tactic(auto)]

mod calls;
mod changes;
mod views;

pub use calls::{open_ends, state_call_ends};
pub use changes::changes_are_plain;
pub use views::{both_ends, view_ends};
