//! What plain calls and the calls of a run have in common: a plain call's last turn is its row. No code of the product.
#![tactic(auto)]

mod twins;

pub use twins::calls_are_rows;
