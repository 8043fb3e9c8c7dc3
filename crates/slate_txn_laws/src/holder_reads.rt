//! Loads and refreshes of a holder.
ghost use Rattle.std.specs.Prelude.{◌<◌, ℕ, Option, Result};
ghost use Rattle.slate_ids.specs.declared.error.SlateDBError.{SlateDBError as Refusal};
ghost use Rattle.slate_txn_log.specs.declared.sequenced.Sequenced.{Sequenced};
ghost use Rattle.slate_txn.specs.Holder.{Holder};
ghost use Rattle.slate_txn.specs.Refreshing.{Refreshes};
ghost use Rattle.slate_txn_laws.specs.Replies.{ReadAs};
ghost use Rattle.slate_txn_laws.specs.Codecs.{Decoding};
ghost use Rattle.slate_txn_laws.specs.Ending.{WhereReady};
ghost use Rattle.slate_txn_laws.specs.Reading.{RefreshEnds, ToldEnds};

/// Over a store that serves it, what is answered by a read of a log that is ready, as a load is, is answered by the latest version, by
/// none where there is none, or by a refusal of the codec or of the boundary; or memory ran out.
pub fn load_ends<T, C, X>()
    ensures { (decoded : Decoding C T) (sequenced : Sequenced T C) (answer : Result (Option (ℕ × T)) Refusal → Result X Refusal) (tries : ℕ)
        → 0 < tries → WhereReady sequenced.db sequenced.log (ReadAs decoded answer sequenced tries) (ToldEnds decoded sequenced answer) }
{}

/// Over a store that serves it, a refresh of a holder of a log that is ready holds the latest version; else it is refused as a load
/// is, and the holder is as before.
pub fn refresh_ends<T, C, R>()
    ensures { (decoded : Decoding C T) (tries : ℕ) (from to : Holder T C R) → 0 < tries
        → WhereReady from.sequenced.db from.sequenced.log (λ old new. Refreshes decoded tries old new from to) (RefreshEnds decoded from to) }
{}
