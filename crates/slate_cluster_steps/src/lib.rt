//! The calls of a party: one step of a call makes its store call, and goes on from the answer.
#![tactic(auto)]

mod begins;
mod id_lists;
mod party_steps;
mod steps;
mod table;
mod uploaded;
mod uploading;
mod works;

pub use begins::{Onward, begin, end, is_end};
pub use party_steps::{PartyStep, step_party};
pub use table::{call_ids, has_call};
