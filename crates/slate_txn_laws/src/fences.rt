//! Fenced holders.
ghost use Rattle.std.specs.Prelude.{◌<◌, ℕ, ℤ};
ghost use Rattle.slate_txn.specs.Apply.{Ways};
ghost use Rattle.slate_txn.specs.Holder.{Holder};
ghost use Rattle.slate_txn_laws.specs.Fencing.{FencesEnd};

/// Over a store that serves it, with two tries or more, the raise of the epoch that makes a fenced holder ends as the commit of that
/// change does: from a holder of any version, the raise of it or of the latest one stands, or is refused for a reason of its own.
pub fn fence_ends<T, C, R, E>()
    ensures { (epoch : E → T → ℕ) (ways : Ways T C R) (moment : ℤ) (tries : ℕ) (holder : Holder T C R) (epochs : E) → 1 < tries
        → FencesEnd epoch ways moment tries holder epochs }
{}
