//! What the collector answers over a store that serves it well. Laws of the definitions of passes and reports, with no code of the product:
//! each is what a function without work ensures.
#![tactic(auto)]

mod reports;

pub use reports::{collectors_pick_listed, layout_ways_are_plain, pass_ends, report_ends};
