//! The two logs of a database.
ghost use Rattle.std.specs.Prelude.{◌≡◌};
ghost use Rattle.slate_txn_log.specs.declared.log_kind.LogKind.TheVariants as logs;

use slate_ids::DbPath;
use slate_layout::{CompactionsCodec, ManifestCodec};
use slate_model::{Compactions, Manifest};
use slate_txn_log::{LogKind, Sequenced};

/// The log of a database's manifests.
pub(crate) fn manifests(db: DbPath) -> Sequenced<Manifest, ManifestCodec>
    ensures db { result.db ≡ db }
    ensures log { result.log ≡ logs.Manifest }
{
    Sequenced::new(db, LogKind::Manifest, ManifestCodec)
}

/// The log of a database's records of compactions.
pub(crate) fn records(db: DbPath) -> Sequenced<Compactions, CompactionsCodec>
    ensures db { result.db ≡ db }
    ensures log { result.log ≡ logs.Compactions }
{
    Sequenced::new(db, LogKind::Compactions, CompactionsCodec)
}
