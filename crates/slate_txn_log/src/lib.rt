//! The versioned log, over any codec, rules and store: reads, commits, lists and deletions of its versions, and advances of
//! its boundary.
#![tactic(auto)]

mod advance;
mod advance_phase;
mod boundary;
mod commit;
mod commit_phase;
mod delete;
mod delete_phase;
mod fencing;
mod list_phase;
mod log_kind;
mod next_value;
mod preparing;
mod ran_out;
mod read_latest;
mod read_phase;
mod right;
mod rules;
mod sequenced;
mod try_read;
mod try_read_phase;
mod versions;

pub use advance_phase::AdvancePhase;
pub use boundary::{boundary_in, decode_boundary, encode_boundary, greater, greatest};
pub use commit_phase::{CommitPhase, prepare};
pub use delete_phase::DeletePhase;
pub use fencing::fence;
pub use list_phase::ListPhase;
pub use log_kind::LogKind;
pub use next_value::next_epoch;
pub use preparing::prepare_change;
pub use read_phase::ReadPhase;
pub use right::Right;
pub use rules::Rules;
pub use sequenced::Sequenced;
pub use try_read_phase::TryReadPhase;
