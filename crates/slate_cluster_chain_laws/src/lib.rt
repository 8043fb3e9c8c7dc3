//! What holds of the chains of committed versions alone, and of the rules by which they grow, with no store of a run and no code of
//! the product. Each law is what a function without work ensures, so that a function that calls it has the law.
#![tactic(auto)]

mod entries;
mod fences;
mod needs;
mod own_tables;

pub use entries::{entry_steps, outputs_obeyed};
pub use fences::{epoch_steps, raises_once};
pub use needs::needed_versions;
pub use own_tables::table_steps;
