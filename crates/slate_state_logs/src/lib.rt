//! The two logs of a database, that of its manifests and that of its records of compactions: what their stores and holders are over.
#![tactic(auto)]

mod db_log;
mod laws;
mod manifests;
mod records;

pub use db_log::DbLog;
pub use laws::{logs_are_plain, records_are_plain};
pub use manifests::{ManifestNames, Manifests};
pub use records::{NoNames, Records};
