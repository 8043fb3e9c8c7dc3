//! The lines of a report.
#![tactic(auto)]

mod end_lines;
mod report_lines;
mod store_lines;

pub use end_lines::{bad_cluster, bad_script, push_commits, push_deleted, push_end};
pub use report_lines::{entry_line, push_cause, push_entries, push_entry, push_left, push_place};
pub use store_lines::push_path;
