//! What each call makes of a manifest, and the rules on new versions.
#![tactic(auto)]

mod checkpointed;
mod checkpoints;
mod entries;
mod epochs;
mod flush_batch;
mod flushed_tables;
mod laws;
mod lookups;
mod manifest_change;
mod named;
mod placing;
mod prefixes;
mod rules;
mod run_tables;
mod tables;

pub use checkpoints::{
    delete_checkpoint, expire_checkpoints, refresh_checkpoint, replace_checkpoint, write_checkpoint,
};
pub use epochs::{ManifestEpochs, raise_epoch};
pub use flush_batch::{FlushBatch, FlushedTable, flush_tables};
pub use flushed_tables::l0_ulid_cutoff;
pub use laws::{
    cutoff_is_timely, lawful_updates_keep, neighbours_tell, prefixes_stand_apart, rules_refuse_so,
    unchanged_trees_pass,
};
pub use lookups::{find_checkpoint, is_named};
pub use manifest_change::{ManifestChange, floors_rise};
pub use named::named_versions;
pub use prefixes::check_prefixes;
pub use rules::{ManifestRules, check_entries, check_names, check_numbers, check_runs};
