//! Checked deletions of a version.
ghost use Rattle.std.specs.Prelude.{◌≡◌, ◌<◌, ◌^◌, ℕ, Bool, true};
ghost use Rattle.slate_ids.specs.Ids.{is_db_path};
ghost use Rattle.slate_txn_log.specs.declared.sequenced.Sequenced.{Sequenced};
ghost use Rattle.slate_txn_laws.specs.Codecs.{Decoding};
ghost use Rattle.slate_txn_laws.specs.Ending.{EndsInside, EndsReady, WhereReady};
ghost use Rattle.slate_txn_laws.specs.Outside.{NeverOutside};
ghost use Rattle.slate_txn_delete.specs.CheckedDelete.{CheckedRan};
ghost use Rattle.slate_state_complete.specs.CheckedDeleting.{CheckedAnswers};

/// Over a store that serves it, a checked deletion of a version of a log that is ready removes it exactly where it may be deleted: it is
/// not the latest version, that one doesn't name it, and it is not above the boundary. Else it is refused with its number; or the log
/// has no version, or the codec refuses the latest one, or the boundary is not a number. Where it is refused the contents stay. The
/// first try does. It leaves the log ready. Unless the codec does, it never answers a fault or that its tries are used up.
pub fn checked_delete_ends<T, C>()
    ensures answers { (decoded : Decoding C T) (names : T → ℕ → Bool) (sequenced : Sequenced T C) (n tries : ℕ) → 0 < tries
        → WhereReady sequenced.db sequenced.log (CheckedRan decoded names sequenced n tries)
        (λ s new. CheckedAnswers (decoded sequenced.codec) names sequenced.db sequenced.log s new n) }
    ensures ready { (decoded : Decoding C T) (names : T → ℕ → Bool) (sequenced : Sequenced T C) (n tries : ℕ) → 0 < tries
        → is_db_path sequenced.db ≡ true → 0 < n → n < 2 ^ 64
        → WhereReady sequenced.db sequenced.log (CheckedRan decoded names sequenced n tries)
        (EndsReady sequenced.db sequenced.log) }
    ensures inside { (decoded : Decoding C T) (names : T → ℕ → Bool) (sequenced : Sequenced T C) (n tries : ℕ) → 0 < tries
        → NeverOutside (decoded sequenced.codec)
        → WhereReady sequenced.db sequenced.log (CheckedRan decoded names sequenced n tries) EndsInside }
{}
