//! Fences of a holder of a log of a database.
ghost use Rattle.std.specs.Prelude.{◌<◌, ℕ, ℤ};
ghost use Rattle.slate_txn_laws.specs.Fencing.{FencesEnd, FencesEndInside};
ghost use Rattle.slate_txn_log.specs.declared.right.Right.TheVariants.{Plain};
ghost use Rattle.slate_txn.specs.Fence.{raising, setting};
ghost use Rattle.slate_txn.specs.Holder.{Holder};

use slate_state_logs::DbLog;

/// Over a store that serves it, with two tries or more, a holder of any version becomes the fenced one of a kind as the raise of its epoch
/// is committed to a log that is ready, or the raise is refused for a reason of its own. The log stays ready. Or memory ran out. It never
/// answers a fault, a taken number, or that its tries are used up.
pub fn fence_db_ends<L: DbLog>()
    ensures answers { (kind : L.Epochs) (moment : ℤ) (tries : ℕ) (holder : Holder L.Value L.Codec L.Rules) → 1 < tries
        → FencesEnd L.Epochs.epoch (raising L.Codec.decoded L.Codec.encoded L.Rules.refusal L.Epochs.epoch L.Epochs.with_epoch kind)
        moment tries holder kind }
    ensures inside { (kind : L.Epochs) (moment : ℤ) (tries : ℕ) (holder : Holder L.Value L.Codec L.Rules) → 1 < tries
        → FencesEndInside L.Epochs.epoch (raising L.Codec.decoded L.Codec.encoded L.Rules.refusal L.Epochs.epoch L.Epochs.with_epoch kind)
        moment tries holder kind }
{}

/// The same of a fence with an epoch that is handed in, which a version with a greater one refuses.
pub fn fence_db_at_ends<L: DbLog>()
    ensures answers { (kind : L.Epochs) (own : ℕ) (moment : ℤ) (tries : ℕ) (holder : Holder L.Value L.Codec L.Rules) → 1 < tries
        → FencesEnd L.Epochs.epoch
        (setting L.Codec.decoded L.Codec.encoded L.Rules.refusal L.Epochs.epoch L.Epochs.with_epoch kind own Plain)
        moment tries holder kind }
    ensures inside { (kind : L.Epochs) (own : ℕ) (moment : ℤ) (tries : ℕ) (holder : Holder L.Value L.Codec L.Rules) → 1 < tries
        → FencesEndInside L.Epochs.epoch
        (setting L.Codec.decoded L.Codec.encoded L.Rules.refusal L.Epochs.epoch L.Epochs.with_epoch kind own Plain)
        moment tries holder kind }
{}
