//! What of a manifest has bytes: its normal form, and the first field that has none.
#![tactic(auto)]

mod normal;
mod normality;
mod unencodable;

pub use normal::normal_form_manifest;
pub use normality::is_normal;
pub use unencodable::{early_field, late_field};
