//! Updates of the value held.
ghost use Rattle.std.specs.Prelude.{◌≡◌, ℤ};
ghost use Rattle.slate_txn_log.specs.declared.right.Right.{Right};
ghost use Rattle.slate_txn.specs.Holder.{Holder};
ghost use Rattle.slate_txn.specs.declared.stored.DirtyObject.{DirtyObject};
ghost use Rattle.slate_txn_laws.specs.Codecs.{Encoding, Refusing};
ghost use Rattle.slate_txn_laws.specs.Ending.{EndsInside, FromHolder, FromLatest};
ghost use Rattle.slate_txn_laws.specs.Outside.{CodecInside, RulesInside};
ghost use Rattle.slate_txn_laws.specs.Updating.{UpdateEnds, UpdatesOf};

/// Over a store that serves it, the update of a holder of the latest version of a log that is ready stands, or the rules, the codec or
/// the last number refuse it, or the boundary is not a number, or memory ran out. Unless memory ran out, the log stays ready. A number
/// is taken only where the holder's version is not the latest, or the dirty value was made of another.
pub fn update_ends<T, C, R>()
    ensures answers { (refusal : Refusing R T) (encoded : Encoding C T) (moment : ℤ) (holder : Holder T C R) (dirty : DirtyObject T)
        (right : Right)
        → FromHolder holder (UpdatesOf refusal encoded moment holder dirty right)
        (UpdateEnds refusal encoded holder dirty right) }
    ensures inside { (refusal : Refusing R T) (encoded : Encoding C T) (moment : ℤ) (holder : Holder T C R) (dirty : DirtyObject T)
        (right : Right) → dirty.id ≡ holder.id → CodecInside encoded → RulesInside refusal
        → FromLatest holder (UpdatesOf refusal encoded moment holder dirty right) EndsInside }
{}
