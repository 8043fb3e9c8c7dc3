//! What each call makes of a record of compactions, and the rules on new versions.
#![tactic(auto)]

mod entry_steps;
mod record_change;
mod record_epochs;
mod record_rules;
mod whole_records;

pub use entry_steps::{claim, report, schedule, submit};
pub use record_change::RecordChange;
pub use record_epochs::{RecordEpochs, first_record, raise_record};
pub use record_rules::{CompactionsRules, records_stand, refusal_of_record};
pub use whole_records::{put_local_statuses, put_statuses, reset};
