//! Refreshes of a holder of a log of a database.
ghost use Rattle.std.specs.Prelude.{◌<◌, ℕ};
ghost use Rattle.slate_txn_laws.specs.Ending.{EndsInside, WhereReady};
ghost use Rattle.slate_txn_laws.specs.Reading.{RefreshEnds};
ghost use Rattle.slate_state_complete.specs.FencedRefreshes.{FencedRefreshEnds, FencedRefreshesOf};
ghost use Rattle.slate_txn.specs.FencedHolder.{FencedHolder};
ghost use Rattle.slate_txn.specs.Holder.{Holder};
ghost use Rattle.slate_txn.specs.Refreshing.{Refreshes};

use slate_state_logs::DbLog;

/// Over a store that serves it, a refresh of a holder whose log is ready holds the latest version; else it is refused since there is none,
/// by the codec, or since the boundary is not a number, and the holder is as before. Or memory ran out. It never answers a fault or that
/// its tries are used up.
pub fn refresh_ends<L: DbLog>()
    ensures answers { (tries : ℕ) (from to : Holder L.Value L.Codec L.Rules) → 0 < tries
        → WhereReady from.sequenced.db from.sequenced.log (λ old new. Refreshes L.Codec.decoded tries old new from to)
        (RefreshEnds L.Codec.decoded from to) }
    ensures inside { (tries : ℕ) (from to : Holder L.Value L.Codec L.Rules) → 0 < tries
        → WhereReady from.sequenced.db from.sequenced.log (λ old new. Refreshes L.Codec.decoded tries old new from to) EndsInside }
{}

/// The same of a fenced holder, which keeps its epoch and answers the fence of the version that it then holds.
pub fn fenced_refresh_ends<L: DbLog>()
    ensures answers { (tries : ℕ) (from to : FencedHolder L.Value L.Codec L.Rules L.Epochs) → 0 < tries
        → WhereReady from.holder.sequenced.db from.holder.sequenced.log
        (FencedRefreshesOf L.Codec.decoded L.Epochs.epoch tries from to)
        (FencedRefreshEnds L.Codec.decoded L.Epochs.epoch from to) }
    ensures inside { (tries : ℕ) (from to : FencedHolder L.Value L.Codec L.Rules L.Epochs) → 0 < tries
        → WhereReady from.holder.sequenced.db from.holder.sequenced.log
        (FencedRefreshesOf L.Codec.decoded L.Epochs.epoch tries from to) EndsInside }
{}
