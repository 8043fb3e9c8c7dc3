//! Reads of a log of a database.
ghost use Rattle.std.specs.Prelude.{◌<◌, ℕ};
ghost use Rattle.slate_txn_laws.specs.Ending.{EndsInside, WhereReady, WhereServed};
ghost use Rattle.slate_state_complete.specs.ReadingVersions.{needed_got, needed_reply, GetsVersion, GetVersionEnds, ReadLatestEnds};
ghost use Rattle.slate_txn_log.specs.TryRead.{try_reply, value_got};
ghost use Rattle.slate_txn_log.specs.declared.sequenced.Sequenced.{Sequenced};
ghost use Rattle.slate_txn_laws.specs.Replies.{latest, latest_or_none, ReadAs};

use slate_state_logs::DbLog;

/// Over a store that serves it, a read of the latest version of a log that is ready gives it, or is refused since there is none, by the
/// codec, or since the boundary is not a number. The contents stay. Or memory ran out. The first try does. It never answers a fault or
/// that its tries are used up.
pub fn read_latest_ends<L: DbLog>()
    ensures answers { (sequenced : Sequenced L.Value L.Codec) (tries : ℕ) → 0 < tries
        → WhereReady sequenced.db sequenced.log (ReadAs L.Codec.decoded (latest L.version_of) sequenced tries)
        (ReadLatestEnds L.Codec.decoded sequenced (latest L.version_of)) }
    ensures inside { (sequenced : Sequenced L.Value L.Codec) (tries : ℕ) → 0 < tries
        → WhereReady sequenced.db sequenced.log (ReadAs L.Codec.decoded (latest L.version_of) sequenced tries) EndsInside }
{}

/// The same of a read that gives none where the log has no version.
pub fn try_read_latest_ends<L: DbLog>()
    ensures answers { (sequenced : Sequenced L.Value L.Codec) (tries : ℕ) → 0 < tries
        → WhereReady sequenced.db sequenced.log (ReadAs L.Codec.decoded (latest_or_none L.version_of) sequenced tries)
        (ReadLatestEnds L.Codec.decoded sequenced (latest_or_none L.version_of)) }
    ensures inside { (sequenced : Sequenced L.Value L.Codec) (tries : ℕ) → 0 < tries
        → WhereReady sequenced.db sequenced.log (ReadAs L.Codec.decoded (latest_or_none L.version_of) sequenced tries) EndsInside }
{}

/// Over a store that serves it, a read of the value of a number gives what the codec reads of the object that stands there; where none
/// does, it gives none or is refused with the number. The contents stay. Or memory ran out. It never answers a fault.
pub fn read_version_ends<L: DbLog>()
    ensures tried { (sequenced : Sequenced L.Value L.Codec) (n : ℕ)
        → WhereServed (GetsVersion sequenced n (try_reply (L.Codec.decoded sequenced.codec)))
        (GetVersionEnds sequenced n (value_got (L.Codec.decoded sequenced.codec))) }
    ensures needed { (sequenced : Sequenced L.Value L.Codec) (n : ℕ)
        → WhereServed (GetsVersion sequenced n (needed_reply L.missing_at n (L.Codec.decoded sequenced.codec)))
        (GetVersionEnds sequenced n (needed_got L.missing_at n (L.Codec.decoded sequenced.codec))) }
    ensures tried_inside { (sequenced : Sequenced L.Value L.Codec) (n : ℕ)
        → WhereServed (GetsVersion sequenced n (try_reply (L.Codec.decoded sequenced.codec))) EndsInside }
    ensures needed_inside { (sequenced : Sequenced L.Value L.Codec) (n : ℕ)
        → WhereServed (GetsVersion sequenced n (needed_reply L.missing_at n (L.Codec.decoded sequenced.codec)))
        EndsInside }
{}
