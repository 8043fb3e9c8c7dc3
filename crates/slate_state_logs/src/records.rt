//! The log of records of compactions.
ghost use Rattle.std.specs.Prelude.{false, refl};
ghost use Rattle.slate_state_logs.specs.RecordLog as definitions;
ghost use Rattle.slate_state_logs.specs.laws.RecordsPlain.{record_missing_plain, records_plain};
ghost use Rattle.slate_txn_log.specs.declared.log_kind.LogKind.TheVariants as logs;

use crate::db_log::DbLog;
use slate_ids::SlateDBError;
use slate_layout::CompactionsCodec;
use slate_model::{Compactions, VersionedCompactions};
use slate_state_record_updates::{CompactionsRules, RecordEpochs};
use slate_txn_delete::VersionNames;
use slate_txn_log::LogKind;

/// A record names no versions.
#[derive(Clone, Copy, Debug, Drop)]
pub struct NoNames;

impl VersionNames<Compactions> for NoNames {
    ghost named = { λ _ value number. false };

    fn names(&self, _value: &Compactions, _number: u64) -> bool {
        false
    }
}

/// The log of a database's records of compactions.
#[derive(Clone, Copy, Debug)]
pub struct Records;

impl DbLog for Records {
    type Value = Compactions;

    type Version = VersionedCompactions;

    type Codec = CompactionsCodec;

    type Rules = CompactionsRules;

    type Epochs = RecordEpochs;

    type Names = NoNames;

    ghost its_kind = { logs.Compactions };

    ghost its_names = { record {} };

    ghost version_of = { definitions.version_of };

    ghost missing_at = { definitions.record_missing };

    fn kind() -> LogKind {
        LogKind::Compactions
    }

    fn codec() -> CompactionsCodec {
        CompactionsCodec
    }

    fn rules() -> CompactionsRules {
        CompactionsRules
    }

    fn names() -> NoNames {
        NoNames
    }

    fn version(id: u64, value: Compactions) -> VersionedCompactions {
        VersionedCompactions::new(id, value)
    }

    fn missing(_number: u64) -> SlateDBError {
        SlateDBError::LatestTransactionalObjectVersionMissing
    }

    ghost plain = { records_plain };

    ghost missing_plain = { record_missing_plain };

    ghost missing_inside = { λ _. refl };
}
