//! Updates of the value held.
ghost use Rattle.std.specs.Prelude.{◌≡◌, ℤ};
ghost use Rattle.slate_txn_laws.specs.Ending.{EndsInside, FromHolder, FromLatest};
ghost use Rattle.slate_txn_laws.specs.Updating.{UpdateEnds, UpdatesOf};
ghost use Rattle.slate_state_complete.specs.FencedUpdates.{FencedUpdatesEnd, FencedUpdatesOf};
ghost use Rattle.slate_state_complete.specs.Taken.{NextTakenOnly};
ghost use Rattle.slate_txn_log.specs.declared.right.Right.{Right};
ghost use Rattle.slate_txn.specs.FencedHolder.{FencedHolder};
ghost use Rattle.slate_txn.specs.Holder.{Holder};
ghost use Rattle.slate_txn.specs.declared.stored.DirtyObject.{DirtyObject};

use slate_state_logs::DbLog;

/// Over a store that serves it, the update of a value held stands in a log that is ready, or there is a reason of the call's own
/// (`UpdateAnswers`). The log stays ready. Or memory ran out. The one refusal from outside is that the number is taken, and it comes only
/// where the dirty value was made of another number than the version held, or that is not the latest.
pub fn update_ends<L: DbLog>()
    ensures answers { (moment : ℤ) (holder : Holder L.Value L.Codec L.Rules) (dirty : DirtyObject L.Value) (right : Right)
        → FromHolder holder (UpdatesOf L.Rules.refusal L.Codec.encoded moment holder dirty right)
        (UpdateEnds L.Rules.refusal L.Codec.encoded holder dirty right) }
    ensures taken { (moment : ℤ) (holder : Holder L.Value L.Codec L.Rules) (dirty : DirtyObject L.Value) (right : Right)
        → FromHolder holder (UpdatesOf L.Rules.refusal L.Codec.encoded moment holder dirty right) (NextTakenOnly holder dirty) }
    ensures inside { (moment : ℤ) (holder : Holder L.Value L.Codec L.Rules) (dirty : DirtyObject L.Value) (right : Right)
        → dirty.id ≡ holder.id
        → FromLatest holder (UpdatesOf L.Rules.refusal L.Codec.encoded moment holder dirty right) EndsInside }
{}

/// The same of a fenced holder: where the version held has a greater epoch of its kind than the own one, it is refused before any call.
pub fn fenced_update_ends<L: DbLog>()
    ensures answers { (moment : ℤ) (fenced : FencedHolder L.Value L.Codec L.Rules L.Epochs) (dirty : DirtyObject L.Value) (right : Right)
        → FencedUpdatesEnd L.Rules.refusal L.Codec.encoded L.Epochs.epoch moment fenced dirty right }
    ensures taken { (moment : ℤ) (fenced : FencedHolder L.Value L.Codec L.Rules L.Epochs) (dirty : DirtyObject L.Value) (right : Right)
        → FromHolder fenced.holder (FencedUpdatesOf L.Rules.refusal L.Codec.encoded L.Epochs.epoch moment fenced dirty right)
        (NextTakenOnly fenced.holder dirty) }
    ensures inside { (moment : ℤ) (fenced : FencedHolder L.Value L.Codec L.Rules L.Epochs) (dirty : DirtyObject L.Value) (right : Right)
        → dirty.id ≡ fenced.holder.id
        → FromLatest fenced.holder (FencedUpdatesOf L.Rules.refusal L.Codec.encoded L.Epochs.epoch moment fenced dirty right) EndsInside }
{}
