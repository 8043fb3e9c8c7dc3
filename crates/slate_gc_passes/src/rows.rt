//! The row of each pass: what it lists, and whose boundary it advances.
ghost use Rattle.std.specs.Prelude.{◌≡◌};
ghost use Rattle.slate_gc_passes.specs.Rows as rows;

use crate::pass_settings::PassSettings;
use slate_ids::{DbPath, GcMessage};
use slate_store::{ListDir, ObjectMetadata};
use slate_txn_log::LogKind;

/// The folder that a pass lists.
pub(crate) fn folder_of(pass: GcMessage, db: DbPath) -> ListDir
    ensures { result ≡ rows.folder_of pass db }
{
    match pass {
        GcMessage::Manifest | GcMessage::Detach => ListDir::Manifests(db),
        GcMessage::Wal | GcMessage::WalFence => ListDir::Wals(db),
        GcMessage::Compacted => ListDir::Tables(db),
        GcMessage::Compactions => ListDir::Records(db),
    }
}

/// Whether a pass reads the greatest listed version, and the boundary, before it knows its candidates.
pub(crate) fn reads_greatest(pass: GcMessage) -> bool
    ensures { result ≡ rows.reads_greatest pass }
{
    match pass {
        GcMessage::Manifest => true,
        GcMessage::Wal
        | GcMessage::WalFence
        | GcMessage::Compacted
        | GcMessage::Compactions
        | GcMessage::Detach => false,
    }
}

/// The log whose versions a pass deletes, where it does.
pub(crate) fn log_of_pass(pass: GcMessage) -> Option<LogKind>
    ensures { result ≡ rows.log_of_pass pass }
{
    match pass {
        GcMessage::Manifest => Some(LogKind::Manifest),
        GcMessage::Compactions => Some(LogKind::Compactions),
        GcMessage::Wal | GcMessage::WalFence | GcMessage::Compacted | GcMessage::Detach => None,
    }
}

/// The log whose boundary a pass advances.
pub(crate) fn advanced_log(pass: GcMessage) -> LogKind
    ensures { result ≡ rows.log_or_manifests (rows.log_of_pass pass) }
{
    match log_of_pass(pass) {
        Some(log) => log,
        None => LogKind::Manifest,
    }
}

/// How many versions the log of a pass has, of so many listed objects; 0 where the pass deletes none.
pub(crate) fn versions_of(pass: GcMessage, listed: u64) -> u64
    ensures { result ≡ rows.versions_in (rows.log_of_pass pass) listed }
{
    match log_of_pass(pass) {
        Some(_) => listed,
        None => 0,
    }
}

/// The number to which the boundary is moved up, where it is.
pub(crate) fn target(settings: &PassSettings, candidates: &[ObjectMetadata]) -> Option<u64>
    ensures { result ≡ rows.target settings.now candidates.now }
{
    if !settings.boundary_files_enabled {
        return None;
    }
    match log_of_pass(settings.pass) {
        Some(log) => slate_txn_log::greatest(log, candidates),
        None => None,
    }
}
