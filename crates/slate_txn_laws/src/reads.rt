//! Reads of the latest version.
ghost use Rattle.std.specs.Prelude.{◌<◌, ℕ};
ghost use Rattle.slate_txn_log.specs.ReadLatest.{Read};
ghost use Rattle.slate_txn_log.specs.declared.sequenced.Sequenced.{Sequenced};
ghost use Rattle.slate_txn_laws.specs.Codecs.{Decoding};
ghost use Rattle.slate_txn_laws.specs.Ending.{EndsInside, WhereReady};
ghost use Rattle.slate_txn_laws.specs.Outside.{NeverOutside};
ghost use Rattle.slate_txn_laws.specs.Reading.{ReadEnds};

/// Over a store that serves it, a read of a log that is ready gives the latest version, or none where there is none, or a refusal of
/// the codec or of the boundary; the first try does, and the contents stay. Unless the codec does, it never answers a fault or that its
/// tries are used up.
pub fn read_ends<T, C>()
    ensures answers { (decoded : Decoding C T) (sequenced : Sequenced T C) (tries : ℕ) → 0 < tries
        → WhereReady sequenced.db sequenced.log (Read decoded sequenced tries) (ReadEnds decoded sequenced) }
    ensures inside { (decoded : Decoding C T) (sequenced : Sequenced T C) (tries : ℕ) → 0 < tries → NeverOutside (decoded sequenced.codec)
        → WhereReady sequenced.db sequenced.log (Read decoded sequenced tries) EndsInside }
{}
