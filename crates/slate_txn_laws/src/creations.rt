//! Creations of a log.
ghost use Rattle.std.specs.Prelude.{◌≡◌, ℤ, true};
ghost use Rattle.slate_ids.specs.Ids.{is_db_path};
ghost use Rattle.slate_txn_log.specs.declared.sequenced.Sequenced.{Sequenced};
ghost use Rattle.slate_txn.specs.Creating.{Creates};
ghost use Rattle.slate_txn_laws.specs.Codecs.{Encoding};
ghost use Rattle.slate_txn_laws.specs.Creating.{CreateEnds};
ghost use Rattle.slate_txn_laws.specs.Ending.{EndsInside, WhereEmpty, WhereReady};
ghost use Rattle.slate_txn_laws.specs.Outside.{CodecInside};

/// Over a store that serves it, the creation of a log that is ready stands as version 1, or is refused since the log has a version, by
/// the codec, or since the boundary is not a number; or memory ran out. In a log without versions, unless the codec does, it never
/// answers a fault or a taken number.
pub fn create_ends<T, C, R>()
    ensures answers { (encoded : Encoding C T) (moment : ℤ) (sequenced : Sequenced T C) (rules : R) (value : T)
        → is_db_path sequenced.db ≡ true
        → WhereReady sequenced.db sequenced.log (λ old new. Creates encoded moment old new sequenced rules value)
        (CreateEnds encoded sequenced rules value) }
    ensures inside { (encoded : Encoding C T) (moment : ℤ) (sequenced : Sequenced T C) (rules : R) (value : T)
        → is_db_path sequenced.db ≡ true → CodecInside encoded
        → WhereEmpty sequenced.db sequenced.log (λ old new. Creates encoded moment old new sequenced rules value) EndsInside }
{}
