//! Advances of the boundary.
ghost use Rattle.std.specs.Prelude.{◌≡◌, ◌<◌, ◌^◌, ℕ, ℤ, true};
ghost use Rattle.slate_ids.specs.Ids.{is_db_path};
ghost use Rattle.slate_txn_log.specs.Advance.{Advanced};
ghost use Rattle.slate_txn_log.specs.declared.sequenced.Sequenced.{Sequenced};
ghost use Rattle.slate_txn_laws.specs.Advancing.{AdvanceAnswers, StaysReadyBelow};
ghost use Rattle.slate_txn_laws.specs.Ending.{EndsInside, WhereReady, WhereServed};

/// Over a store that serves it, an advance moves the boundary up to its number, unless the boundary is not a number; the first try does.
/// An advance below the latest version leaves a log ready that was so. It never answers a fault, or that its tries are used up.
pub fn advance_ends<T, C>()
    ensures answers { (sequenced : Sequenced T C) (n : ℕ) (moment : ℤ) (tries : ℕ) → 0 < tries → n < 2 ^ 64
        → WhereServed (Advanced sequenced n moment tries) (λ s new. AdvanceAnswers sequenced.db sequenced.log s new n) }
    ensures ready { (sequenced : Sequenced T C) (n : ℕ) (moment : ℤ) (tries : ℕ) → 0 < tries → n < 2 ^ 64 → is_db_path sequenced.db ≡ true
        → WhereReady sequenced.db sequenced.log (Advanced sequenced n moment tries) (StaysReadyBelow sequenced.db sequenced.log n) }
    ensures inside { (sequenced : Sequenced T C) (n : ℕ) (moment : ℤ) (tries : ℕ) → 0 < tries → n < 2 ^ 64
        → WhereServed (Advanced sequenced n moment tries) EndsInside }
{}
