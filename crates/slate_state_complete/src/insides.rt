//! A log of a database never refuses as others or the store do.
ghost use Rattle.std.specs.Prelude.{ℕ, ℤ};
ghost use Rattle.slate_txn_laws.specs.Changing.{may_of};
ghost use Rattle.slate_txn_laws.specs.Outside.{ChangesInside, CodecInside, FencedInside, RulesInside, WaysInside};
ghost use Rattle.slate_state_complete.specs.ChangeWays.{change_ways, fenced_ways};
ghost use Rattle.slate_txn_log.specs.declared.right.Right.{Right};
ghost use Rattle.slate_txn.specs.Changing.{Making};
ghost use Rattle.slate_txn.specs.Fence.{raising};
ghost use Rattle.slate_state_updates.specs.declared.epochs.ManifestEpochs.{ManifestEpochs};
ghost use Rattle.slate_state_updates.specs.declared.manifest_change.ManifestChange.{ManifestChange};

use slate_state_logs::DbLog;

/// Neither the codec of a log nor its rules, nor the raise of an epoch, answers a fault, a taken number, or that tries are used up. A holder
/// that commits what a function makes does only where the function does, whether a fence is asked before or not.
pub fn db_logs_inside<L: DbLog>()
    ensures decodes { CodecInside L.Codec.decoded }
    ensures encodes { CodecInside L.Codec.encoded }
    ensures allows { RulesInside L.Rules.refusal }
    ensures ways { (changed : Making L.Value) (right : Right)
        → ChangesInside L.Codec.decoded L.Codec.encoded L.Rules.refusal changed right }
    ensures fences { (kind : L.Epochs) (own : ℕ) (changed : Making L.Value) (right : Right)
        → FencedInside L.Codec.decoded L.Codec.encoded L.Rules.refusal L.Epochs.epoch kind own changed right }
    ensures raises { (kind : L.Epochs)
        → WaysInside (may_of (raising L.Codec.decoded L.Codec.encoded L.Rules.refusal L.Epochs.epoch L.Epochs.with_epoch kind)) }
{}

/// Nor does a change of a manifest that is handed in, whether a fence is asked before or not.
pub fn manifests_inside()
    ensures changes { (change : ManifestChange) (moment : ℤ) → WaysInside (change_ways change moment) }
    ensures fenced { (kind : ManifestEpochs) (own : ℕ) (change : ManifestChange) (moment : ℤ)
        → WaysInside (fenced_ways kind own change moment) }
{}
