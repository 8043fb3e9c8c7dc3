//! What JSON values stand for: fields of objects, plain values and words of a script.
#![tactic(auto)]

mod fields;
mod flushed_table;
mod json_error;
mod opening_checkpoint;
mod values;
mod words;
mod written_id;

pub use fields::{array_of, defaulted, only, optional, required};
pub use json_error::JsonError;
pub use values::{FromJson, or_malformed};
