//! The commands of the program and the texts that it writes, and how it ends.
#![tactic(auto)]

mod command;
mod report_end;
mod status;
mod texts;

pub use command::{Command, command_in};
pub use report_end::push_rest;
pub use slate_script_lines::{bad_cluster, bad_script};
pub use status::Status;
pub use texts::{deliver, help, run_help, version};
