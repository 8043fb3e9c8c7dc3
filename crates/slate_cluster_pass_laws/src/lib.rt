//! What holds of passes, along any answers, and of those over a log where nobody disturbs them: laws of the definitions of
//! `slate_cluster_protocol`, with no code of the product. Each law is what a function without work ensures, so that a function that
//! calls it has the law.
#![tactic(auto)]

mod exact_passes;
mod passes_alone;

pub use exact_passes::{
    dry_run, exact_by_rule, exact_pass, manifest_picks, record_picks, table_picks,
};
pub use passes_alone::undisturbed_pass;
