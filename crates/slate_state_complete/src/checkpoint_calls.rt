//! The calls that answer a checkpoint.
ghost use Rattle.std.specs.Prelude.{◌<◌, ℕ, ℤ, List};
ghost use Rattle.slate_state_updates.specs.declared.manifest_change.ManifestChange.{ManifestChange};
ghost use Rattle.slate_txn_laws.specs.Ending.{EndsInside, FromHolder, FromLatest};
ghost use Rattle.slate_state_holders.specs.ManifestHolders.{Checkpointed, FencedCheckpointed, FencedManifest, ManifestHolder};
ghost use Rattle.slate_state_complete.specs.ChangeWays.{change_ways};
ghost use Rattle.slate_state_complete.specs.Checkpointing.{CheckpointEnds, FencedCheckpointEnds};

/// Over a store that serves it, with two tries or more, a checkpoint call of a log that is ready ends as the commit of its change does
/// (`changes_end`), and answers the checkpoint that stands then, or that none does. The log stays ready. Or memory ran out. From a holder
/// of the latest version one try does. It never answers a fault, a taken number, or that its tries are used up.
pub fn checkpoint_calls_end()
    ensures answers { (id : List ℕ) (change : ManifestChange) (moment : ℤ) (tries : ℕ) (from to : ManifestHolder) → 1 < tries
        → FromHolder from (λ old new. Checkpointed id change moment tries old new from to)
        (CheckpointEnds (change_ways change moment) id from to) }
    ensures latest { (id : List ℕ) (change : ManifestChange) (moment : ℤ) (tries : ℕ) (from to : ManifestHolder) → 0 < tries
        → FromLatest from (λ old new. Checkpointed id change moment tries old new from to)
        (CheckpointEnds (change_ways change moment) id from to) }
    ensures inside { (id : List ℕ) (change : ManifestChange) (moment : ℤ) (tries : ℕ) (from to : ManifestHolder) → 1 < tries
        → FromHolder from (λ old new. Checkpointed id change moment tries old new from to) EndsInside }
{}

/// The same of a fenced holder: a version whose epoch of its kind is above the own one refuses.
pub fn fenced_checkpoint_calls_end()
    ensures answers { (id : List ℕ) (change : ManifestChange) (moment : ℤ) (tries : ℕ) (from to : FencedManifest) → 1 < tries
        → FromHolder from.holder (λ old new. FencedCheckpointed id change moment tries old new from to)
        (FencedCheckpointEnds change moment id from to) }
    ensures latest { (id : List ℕ) (change : ManifestChange) (moment : ℤ) (tries : ℕ) (from to : FencedManifest) → 0 < tries
        → FromLatest from.holder (λ old new. FencedCheckpointed id change moment tries old new from to)
        (FencedCheckpointEnds change moment id from to) }
    ensures inside { (id : List ℕ) (change : ManifestChange) (moment : ℤ) (tries : ℕ) (from to : FencedManifest) → 1 < tries
        → FromHolder from.holder (λ old new. FencedCheckpointed id change moment tries old new from to) EndsInside }
{}
