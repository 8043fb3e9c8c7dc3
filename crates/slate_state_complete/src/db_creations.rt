//! Creations of a log of a database.
ghost use Rattle.std.specs.Prelude.{◌≡◌, ℕ, ℤ, List, true};
ghost use Rattle.slate_txn_laws.specs.Ending.{EndsInside, WhereEmpty, WhereReady};
ghost use Rattle.slate_state_complete.specs.Holding.{CreateDbEnds};
ghost use Rattle.slate_state_complete.specs.Taken.{FirstTakenOnly};
ghost use Rattle.slate_state_holders.specs.Holders.{CreatesDb};
ghost use Rattle.slate_ids.specs.Ids.{is_db_path};
ghost use Rattle.slate_txn.specs.Holder.{Holder};

use slate_state_logs::DbLog;

/// Over a store that serves it, the first value of a log that is ready stands as version 1, or is refused since the log has a version, by
/// the codec, or since the boundary is not a number. The log stays ready. Or memory ran out. The one refusal from outside is that the
/// number 1 is taken, and it comes only where the log has a version.
pub fn create_db_ends<L: DbLog>()
    ensures answers { (db : List ℕ) (first : L.Value) (moment : ℤ) → is_db_path db ≡ true
        → WhereReady {X = Holder L.Value L.Codec L.Rules} db L.its_kind (CreatesDb L.Codec.encoded L.its_kind db first moment)
        (CreateDbEnds L.Codec.encoded L.its_kind db first) }
    ensures taken { (db : List ℕ) (first : L.Value) (moment : ℤ) → is_db_path db ≡ true
        → WhereReady {X = Holder L.Value L.Codec L.Rules} db L.its_kind (CreatesDb L.Codec.encoded L.its_kind db first moment)
        (FirstTakenOnly L.its_kind db) }
    ensures inside { (db : List ℕ) (first : L.Value) (moment : ℤ) → is_db_path db ≡ true
        → WhereEmpty {X = Holder L.Value L.Codec L.Rules} db L.its_kind (CreatesDb L.Codec.encoded L.its_kind db first moment)
        EndsInside }
{}
