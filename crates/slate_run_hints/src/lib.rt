//! A second look at an input that was refused or has a bad event: in which words, and at which place as it is written, to say what is wrong. No contract
//! speaks of these words. Where nothing more precise is found there is no hint.
#![tactic(auto)]

mod bad_events;
mod carried;
mod events;
mod fields;
mod hint;
mod items;
mod name;
mod plain;
mod records;
mod refused;
mod repeats;
mod scripts;
mod spot;
mod trees;
mod why;

pub use bad_events::bad_event_hint;
pub use hint::Hint;
pub use refused::cluster_hint;
pub use scripts::{event_spot, script_hint};
pub use spot::Spot;
pub use why::Why;
