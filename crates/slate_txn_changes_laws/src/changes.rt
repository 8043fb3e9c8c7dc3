//! Changes of a log's latest version.
ghost use Rattle.std.specs.Prelude.{◌≡◌, ◌<◌, ℕ, ℤ, List, true};
ghost use Rattle.slate_ids.specs.Ids.{is_db_path};
ghost use Rattle.slate_txn_changes.specs.Latest.{Changes};
ghost use Rattle.slate_txn_changes_laws.specs.ChangeEnds.{ChangeEnds, Commit, Decoded};
ghost use Rattle.slate_txn_changes_laws.specs.Works.{PlainWork};
ghost use Rattle.slate_txn_laws.specs.Ending.{WhereReady};
ghost use Rattle.slate_txn_log.specs.declared.log_kind.LogKind.{LogKind};

/// Over a store that serves it, what a change makes of the latest version of a log that is ready stands after it, or the change makes
/// nothing, or the log has no version; else the change or the codec refuses that version, or the boundary is not a number, and then the
/// contents stay. The first try does. The log is left ready. Or memory ran out. It never answers a fault, a taken number, or that its
/// tries are used up.
pub fn change_latest_ends<V>()
    ensures { (decoded : Decoded V) (commit : Commit V) (db : List ℕ) (log : LogKind) (moment : ℤ) (tries : ℕ)
        → PlainWork decoded commit → is_db_path db ≡ true → 0 < tries
        → WhereReady db log (Changes db log decoded commit moment tries) (ChangeEnds decoded commit db log moment) }
{}
