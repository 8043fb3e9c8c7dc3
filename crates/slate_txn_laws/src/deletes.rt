//! Deletions of a version.
ghost use Rattle.std.specs.Prelude.{◌≡◌, ◌<◌, ◌^◌, ℕ, true};
ghost use Rattle.slate_ids.specs.Ids.{is_db_path};
ghost use Rattle.slate_txn_log.specs.Delete.{DeleteRan};
ghost use Rattle.slate_txn_log.specs.declared.sequenced.Sequenced.{Sequenced};
ghost use Rattle.slate_txn_laws.specs.Deleting.{DeleteAnswers};
ghost use Rattle.slate_txn_laws.specs.Ending.{EndsReady, WhereReady, WhereServed};

/// Over a store that serves it, a deletion removes the version, unless that is above the boundary, or the boundary is not a number. It
/// leaves a log ready that was so.
pub fn delete_ends<T, C>()
    ensures answers { (sequenced : Sequenced T C) (n : ℕ)
        → WhereServed (DeleteRan sequenced n) (λ s new. DeleteAnswers sequenced.db sequenced.log s new n) }
    ensures ready { (sequenced : Sequenced T C) (n : ℕ) → is_db_path sequenced.db ≡ true → 0 < n → n < 2 ^ 64
        → WhereReady sequenced.db sequenced.log (DeleteRan sequenced n) (EndsReady sequenced.db sequenced.log) }
{}
