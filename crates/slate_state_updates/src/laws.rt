//! What the rules on new versions of a manifest say.
ghost use Rattle.std.specs.Prelude.{◌≡◌, ◌↔◌, ℕ, List, true, None};
ghost use Rattle.slate_txn_log.specs.declared.right.Right.{Right as AnyRight};
ghost use Rattle.slate_model.specs.declared.manifest.Manifest.{Manifest as AnyManifest};
ghost use Rattle.slate_model.specs.Segments.{Prefixed, IsAscending};
ghost use Rattle.slate_model.specs.Selection.{are_apart};
ghost use Rattle.slate_model.specs.Trees.{trees_of};
ghost use Rattle.slate_state_updates.specs.ExternalEntries.{entries_kept};
ghost use Rattle.slate_state_updates.specs.FlushedTables.{tick_refusal};
ghost use Rattle.slate_state_updates.specs.Prefixes.{prefix_refusal};
ghost use Rattle.slate_state_updates.specs.RuleLaws.{NothingFalls, NamesKnown, AreTimely, AllStandApart, IsOfRules};
ghost use Rattle.slate_state_updates.specs.Rules.{manifest_refusal};
ghost use Rattle.slate_state_updates.specs.RunTables.{runs_known};

/// In a manifest that may follow another no epoch falls, nor the last file of the write-ahead log that needs no replay, nor the floor;
/// and its checkpoints name no version but its own and those that the old one's name.
pub fn lawful_updates_keep()
    ensures numbers { (n : ℕ) (old new : AnyManifest) (right : AnyRight)
        → manifest_refusal n old new right ≡ None → NothingFalls old new }
    ensures names { (n : ℕ) (old new : AnyManifest) (right : AnyRight)
        → manifest_refusal n old new right ≡ None → NamesKnown n old new }
{}

/// The rules refuse with UpdateRefused, InvalidClockTick and InvalidSegmentPrefix, and with nothing else.
pub fn rules_refuse_so()
    ensures { (n : ℕ) (old new : AnyManifest) (right : AnyRight) → IsOfRules (manifest_refusal n old new right) }
{}

/// The cutoff lets a new manifest pass exactly where each of its flushed tables that the old one hasn't is from the old floor and the old
/// watermark on.
pub fn cutoff_is_timely()
    ensures { (old new : AnyManifest) → tick_refusal old new ≡ None ↔ AreTimely old new }
{}

/// Of prefixes that ascend no two nest exactly where no two neighbours do.
#[tactic(auto, using(crate::proofs::PrefixesApart::apart))]
pub fn neighbours_tell()
    ensures { (segments : List Prefixed) → IsAscending segments
        → prefix_refusal segments ≡ None ↔ are_apart segments ≡ true }
{}

/// Of segments that ascend, as those of each manifest do (`ManifestCore::segments`), the rule on prefixes refuses none exactly where any two
/// of them stand apart, not only neighbours: the prefix of the earlier is below that of the later, and neither begins with the other. So do the
/// segments of a manifest that may follow another.
pub fn prefixes_stand_apart()
    ensures exactly { (segments : List Prefixed) → IsAscending segments
        → prefix_refusal segments ≡ None ↔ AllStandApart segments }
    ensures lawful { (n : ℕ) (old new : AnyManifest) (right : AnyRight) → IsAscending new.core.segments
        → manifest_refusal n old new right ≡ None → AllStandApart new.core.segments }
{}

/// A new manifest with the trees and the entries of the old one breaks no rule on tables, under any right.
pub fn unchanged_trees_pass()
    ensures { (old new : AnyManifest) (right : AnyRight)
        → new.external_dbs ≡ old.external_dbs → trees_of new.core ≡ trees_of old.core
        → (entries_kept old new ≡ true) × (tick_refusal old new ≡ None) × (runs_known old new right ≡ true) }
{}
