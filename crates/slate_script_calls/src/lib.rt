//! Events of scripts, and their calls.
#![tactic(auto)]

mod items;
mod parts;
mod read_call;
mod read_compactor_call;
mod read_pass;
mod read_worker_call;
mod read_writer_call;

pub use items::{EventItem, read_event};
