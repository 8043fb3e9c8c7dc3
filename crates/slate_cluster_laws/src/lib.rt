//! What each event of a run keeps and brings, whatever happens in it: what holds of the logs, of the trail, of what stands as a run
//! begins, and of the parties. Laws of the definitions of `slate_cluster_protocol`, with no code of the product. Each law is what a
//! function without work ensures, so that a function that calls it has the law.
#![tactic(auto)]

mod chains;
mod openings;
mod safe_parties;

pub use chains::{changed, list_top, put_elsewhere, taken_path, written_puts};
pub use openings::opening_stands;
pub use safe_parties::{
    above_boundary, changes_fit, commits_hold, due_bounded, epochs_stand, late_put_is_refused,
    own_calls, own_commits, picks_spare, puts_stand, reads_answer, referenced_stand,
};
