//! Loads of the latest version of a log of a database.
ghost use Rattle.std.specs.Prelude.{◌<◌, ℕ, List, Option};
ghost use Rattle.slate_txn_laws.specs.Ending.{EndsInside, WhereReady};
ghost use Rattle.slate_state_complete.specs.Holding.{LoadDbEnds};
ghost use Rattle.slate_state_holders.specs.Holders.{LoadsDb, TryLoadsDb};
ghost use Rattle.slate_txn.specs.Holder.{Holder};
ghost use Rattle.slate_txn.specs.Loading.{loaded, try_loaded};

use slate_state_logs::DbLog;

/// Over a store that serves it, a load of a log that is ready gives a holder of the latest version, or is refused since there is none, by
/// the codec, or since the boundary is not a number. The contents stay. Or memory ran out. The first try does. It never answers a fault or
/// that its tries are used up.
pub fn load_db_ends<L: DbLog>()
    ensures answers { (db : List ℕ) (tries : ℕ) → 0 < tries
        → WhereReady {X = Holder L.Value L.Codec L.Rules} db L.its_kind (LoadsDb L.Codec.decoded L.its_kind db tries)
        (LoadDbEnds L.Codec.decoded L.its_kind db loaded) }
    ensures inside { (db : List ℕ) (tries : ℕ) → 0 < tries
        → WhereReady {X = Holder L.Value L.Codec L.Rules} db L.its_kind (LoadsDb L.Codec.decoded L.its_kind db tries) EndsInside }
{}

/// The same of a load that gives none where the log has no version.
pub fn try_load_db_ends<L: DbLog>()
    ensures answers { (db : List ℕ) (tries : ℕ) → 0 < tries
        → WhereReady {X = Option (Holder L.Value L.Codec L.Rules)} db L.its_kind (TryLoadsDb L.Codec.decoded L.its_kind db tries)
        (LoadDbEnds L.Codec.decoded L.its_kind db try_loaded) }
    ensures inside { (db : List ℕ) (tries : ℕ) → 0 < tries
        → WhereReady {X = Option (Holder L.Value L.Codec L.Rules)} db L.its_kind (TryLoadsDb L.Codec.decoded L.its_kind db tries)
        EndsInside }
{}
