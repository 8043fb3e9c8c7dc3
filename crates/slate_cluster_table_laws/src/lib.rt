//! What holds of the tables of a run: watermarks, and that what is named was put.
//! Laws of the definitions of `slate_cluster_protocol`, with no code of the product. Each law is what a function without work ensures,
//! so that a function that calls it has the law.
#![tactic(auto)]

mod presence;

pub use presence::{tables_were_put, watermarks_stay_below};
