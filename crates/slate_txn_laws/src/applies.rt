//! Commits of a change of the version held.
ghost use Rattle.std.specs.Prelude.{◌<◌, ℕ, ℤ};
ghost use Rattle.slate_txn.specs.Apply.{Applies, Ways};
ghost use Rattle.slate_txn.specs.Holder.{Holder};
ghost use Rattle.slate_txn_laws.specs.Applying.{ApplyEnds};
ghost use Rattle.slate_txn_laws.specs.Changing.{may_of};
ghost use Rattle.slate_txn_laws.specs.Ending.{EndsInside, FromHolder, FromLatest};
ghost use Rattle.slate_txn_laws.specs.Outside.{WaysInside};

/// Over a store that serves it, with two tries or more, a change of the version held or of the latest one is committed to a log that is
/// ready, or it makes nothing; else the change, the rules, the codec or the last number refuse it, or the boundary is not a number;
/// whatever it answers, the log stays ready. Or memory ran out. From a holder of the latest version one try does. Unless codec, rules
/// or change do, it never answers a fault, a taken number, or that its tries are used up.
pub fn apply_ends<T, C, R>()
    ensures answers { (ways : Ways T C R) (moment : ℤ) (tries : ℕ) (from to : Holder T C R) → 1 < tries
        → FromHolder from (λ old new. Applies ways moment tries old new from to) (ApplyEnds (may_of ways) from to) }
    ensures latest { (ways : Ways T C R) (moment : ℤ) (tries : ℕ) (from to : Holder T C R) → 0 < tries
        → FromLatest from (λ old new. Applies ways moment tries old new from to) (ApplyEnds (may_of ways) from to) }
    ensures inside { (ways : Ways T C R) (moment : ℤ) (tries : ℕ) (from to : Holder T C R) → 1 < tries → WaysInside (may_of ways)
        → FromHolder from (λ old new. Applies ways moment tries old new from to) EndsInside }
{}
