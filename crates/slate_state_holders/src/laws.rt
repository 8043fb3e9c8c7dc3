//! What stands after a change of a manifest.
ghost use Rattle.std.specs.Prelude.{◌≡◌, ℕ, ℤ, List, Some, None, Ok, true};
ghost use Rattle.slate_model.specs.declared.manifest.Manifest.{Manifest as AnyManifest};
ghost use Rattle.slate_state_holders.specs.AboutCheckpoints.{checkpoint_of};
ghost use Rattle.slate_state_updates.specs.ManifestChanges.{made};
ghost use Rattle.slate_state_updates.specs.Checkpoints.{has_checkpoint};
ghost use Rattle.slate_state_updates.specs.declared.manifest_change.ManifestChange.{ManifestChange as AnyChange};

/// The checkpoint that was written, that replaced another or that was refreshed stands in the manifest that was made.
#[tactic(auto, using(crate::proofs::CheckpointsStand::stands_in_new))]
pub fn checkpoint_stands_in_new()
    ensures { (change : AnyChange) (now : ℤ) (n : ℕ) (m new : AnyManifest) (id : List ℕ)
        → checkpoint_of change ≡ Some id → made change now n m ≡ Ok (Some new) → has_checkpoint id new ≡ true }
{}

/// Where nothing is to be committed, it stands in the manifest that was read.
#[tactic(auto, using(crate::proofs::CheckpointsStand::stands_in_old))]
pub fn checkpoint_stands_in_old()
    ensures { (change : AnyChange) (now : ℤ) (n : ℕ) (m : AnyManifest) (id : List ℕ)
        → checkpoint_of change ≡ Some id → made change now n m ≡ Ok None → has_checkpoint id m ≡ true }
{}
