//! What the codecs of the logs and the rules on them refuse.
ghost use Rattle.slate_state_logs.specs.RecordLog.{record_of_bytes, bytes_of_record, record_rules};
ghost use Rattle.slate_txn_laws.specs.Plain.{PlainLog};

use crate::db_log::DbLog;

/// The codec of any log of a database and the rules on it refuse a value for what it is: with no fault of the store, no fence, no taken
/// number and no tries that are used up.
pub fn logs_are_plain<L: DbLog>()
    ensures { PlainLog L.Codec.decoded L.Codec.encoded L.Rules.refusal }
{}

/// Those of records, in words of records. So the laws on what plain calls answer over a store that serves them hold of the calls on records.
#[tactic(auto, using(crate::specs::laws::RecordsPlain::records_plain))]
pub fn records_are_plain()
    ensures { PlainLog record_of_bytes bytes_of_record record_rules }
{}
