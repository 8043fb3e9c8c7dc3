//! What the plain call answers that changes a log's latest version, over a store that serves it well. Laws of the definitions of changes
//! under way, with no code of the product: each is what a function without work ensures.
#![tactic(auto)]

mod changes;

pub use changes::change_latest_ends;
