//! What a plain call on a log of a database answers over a store that serves it well, and what those on manifests answer besides: laws of the
//! definitions of stores and holders, with no code of the product. Each law is what a function without work ensures.
#![tactic(auto)]

mod change_calls;
mod checked_deletes;
mod checkpoint_calls;
mod db_creations;
mod db_fences;
mod db_loads;
mod db_reads;
mod db_refreshes;
mod db_updates;
mod insides;
mod referenced_reads;

pub use change_calls::{changes_end, fenced_changes_end};
pub use checked_deletes::checked_delete_ends;
pub use checkpoint_calls::{checkpoint_calls_end, fenced_checkpoint_calls_end};
pub use db_creations::create_db_ends;
pub use db_fences::{fence_db_at_ends, fence_db_ends};
pub use db_loads::{load_db_ends, try_load_db_ends};
pub use db_reads::{read_latest_ends, read_version_ends, try_read_latest_ends};
pub use db_refreshes::{fenced_refresh_ends, refresh_ends};
pub use db_updates::{fenced_update_ends, update_ends};
pub use insides::{db_logs_inside, manifests_inside};
pub use referenced_reads::referenced_ends;
