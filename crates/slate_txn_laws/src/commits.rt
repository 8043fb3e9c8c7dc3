//! Commits of a number.
ghost use Rattle.std.specs.Prelude.{◌≡◌, ◌<◌, ◌^◌, ℕ, ℤ, List, true};
ghost use Rattle.slate_ids.specs.Ids.{is_db_path};
ghost use Rattle.slate_txn_log.specs.Commit.{Committed};
ghost use Rattle.slate_txn_log.specs.declared.commit_phase.CommitPhase.TheVariants.{Putting};
ghost use Rattle.slate_txn_log.specs.declared.log_kind.LogKind.{LogKind};
ghost use Rattle.slate_txn_laws.specs.Committing.{CommitEnds, IsOver};
ghost use Rattle.slate_txn_laws.specs.Ending.{WhereReady};
ghost use Rattle.slate_txn_laws.specs.Outside.{NotOutside};
ghost use Rattle.slate_txn_laws.specs.Ready.{top_of};

/// Over a store that serves it, the commit of a number to a log that is ready stands, or is refused since the log has a version at or
/// above that number, or since the boundary is not a number; whatever it answers, the log stays ready. The number 1 is so taken only
/// where the log has a version. A number above all versions is never taken.
pub fn commit_ends<T>()
    ensures answers { (db : List ℕ) (log : LogKind) (n : ℕ) (bytes : List ℕ) (value : T) (moment : ℤ)
        → is_db_path db ≡ true → 0 < n → n < 2 ^ 64
        → WhereReady db log (λ old new. Committed db log moment old new (Putting n bytes value)) (CommitEnds db log n bytes value) }
    ensures inside { (db : List ℕ) (log : LogKind) (n : ℕ) (bytes : List ℕ) (value : T) (moment : ℤ)
        → is_db_path db ≡ true → 0 < n → n < 2 ^ 64
        → WhereReady db log (λ old new. Committed db log moment old new (Putting n bytes value))
        (λ s new result. IsOver n (top_of db log s) → NotOutside result) }
{}
