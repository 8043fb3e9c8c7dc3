//! What holds of the compactors of a run: the order of their fences, and that what a compactor holds is in the record of its database.
//! Laws of the definitions of `slate_cluster_protocol`, with no code of the product. Each law is what a function without work ensures,
//! so that a function that calls it has the law.
#![tactic(auto)]

mod compactors;

pub use compactors::{fences_in_order, pending_stands, records_grow};
