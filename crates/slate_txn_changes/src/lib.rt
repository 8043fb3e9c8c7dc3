//! Changes of a log's latest version, over any codec, rules and store: what a change makes of the version read is committed under its
//! right, unless its fence refuses that version.
#![tactic(auto)]

mod change;
mod changing;
mod commits;
mod fences;
mod latest;
mod log_work;

pub use change::Change;
pub use changing::Changing;
pub use commits::commit_change;
pub use fences::holder_fence;
pub use latest::change_latest;
pub use log_work::{LogEnd, LogWork};
