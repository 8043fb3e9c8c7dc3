//! A cluster of parties over one store, and the program over it.
#![tactic(auto)]

mod answers;
mod cluster;
mod events_done;
mod progress;
mod telling;
mod top_call;

pub use cluster::{Cluster, ClusterError, Report};
pub use slate_cluster_opening::NewError;
pub use slate_cluster_reports::{Command, Status};
pub use slate_state_updates::ManifestRules;
pub use top_call::program;
