//! The least compaction of a record.
ghost use Rattle.std.specs.Prelude.{◌≡◌};
ghost use Rattle.slate_state_record_updates.specs.RecordRules as rules;

use slate_model::Compactions;

/// The least milliseconds of the ids of a record's compactions; 0 without compactions.
pub fn least_ms(compactions: &Compactions) -> u64
    ensures { result ≡ rules.least_ms compactions.now.entries }
{
    match compactions.least_id() {
        None => 0,
        Some(id) => id.timestamp_ms(),
    }
}
