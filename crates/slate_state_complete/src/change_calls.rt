//! Commits of a change of a manifest.
ghost use Rattle.std.specs.Prelude.{◌<◌, ℕ, ℤ};
ghost use Rattle.slate_state_updates.specs.declared.manifest_change.ManifestChange.{ManifestChange};
ghost use Rattle.slate_txn_laws.specs.Applying.{ApplyEnds};
ghost use Rattle.slate_txn_laws.specs.Ending.{EndsInside, FromHolder, FromLatest};
ghost use Rattle.slate_state_holders.specs.ManifestHolders.{Changed, FencedChanged, FencedManifest, ManifestHolder};
ghost use Rattle.slate_state_complete.specs.ChangeWays.{change_ways, fenced_ways};

/// Over a store that serves it, with two tries or more, a change of a manifest is committed to a log that is ready, or it makes nothing;
/// else the change, the rules, the codec or the last number refuse it, or the boundary is not a number. The log stays ready. Or memory
/// ran out. From a holder of the latest version one try does. It never answers a fault, a taken number, or that its tries are used up.
pub fn changes_end()
    ensures answers { (change : ManifestChange) (moment : ℤ) (tries : ℕ) (from to : ManifestHolder) → 1 < tries
        → FromHolder from (λ old new. Changed change moment tries old new from to) (ApplyEnds (change_ways change moment) from to) }
    ensures latest { (change : ManifestChange) (moment : ℤ) (tries : ℕ) (from to : ManifestHolder) → 0 < tries
        → FromLatest from (λ old new. Changed change moment tries old new from to) (ApplyEnds (change_ways change moment) from to) }
    ensures inside { (change : ManifestChange) (moment : ℤ) (tries : ℕ) (from to : ManifestHolder) → 1 < tries
        → FromHolder from (λ old new. Changed change moment tries old new from to) EndsInside }
{}

/// The same of a fenced holder: a version whose epoch of its kind is above the own one refuses.
pub fn fenced_changes_end()
    ensures answers { (change : ManifestChange) (moment : ℤ) (tries : ℕ) (from to : FencedManifest) → 1 < tries
        → FromHolder from.holder (λ old new. FencedChanged change moment tries old new from to)
        (ApplyEnds (fenced_ways from.epochs from.epoch change moment) from.holder to.holder) }
    ensures latest { (change : ManifestChange) (moment : ℤ) (tries : ℕ) (from to : FencedManifest) → 0 < tries
        → FromLatest from.holder (λ old new. FencedChanged change moment tries old new from to)
        (ApplyEnds (fenced_ways from.epochs from.epoch change moment) from.holder to.holder) }
    ensures inside { (change : ManifestChange) (moment : ℤ) (tries : ℕ) (from to : FencedManifest) → 1 < tries
        → FromHolder from.holder (λ old new. FencedChanged change moment tries old new from to) EndsInside }
{}
