//! What holds of the tables of a run that nobody needs: they stay so, they are what the rule of a pass over tables picks, and all that passes remove
//! is of them. Laws of the definitions of `slate_cluster_protocol`, with no code of the product. Each law is what a function without work ensures,
//! so that a function that calls it has the law.
#![tactic(auto)]

mod removed_tables;
mod spare_tables;

pub use removed_tables::{removed_tables_are_spare, tables_stay_unpublished};
pub use spare_tables::{spare_tables_stay, table_picks_are_spare};
