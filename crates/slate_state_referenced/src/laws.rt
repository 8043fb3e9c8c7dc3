//! Which versions a manifest's checkpoints name.
ghost use Rattle.std.specs.Prelude.{◌≡◌, ◌==◌, ℕ, List, true, false};
ghost use Rattle.slate_state_referenced.specs.Named.{each_once, has_number, named_numbers};
ghost use Rattle.slate_model.specs.declared.checkpoint.Checkpoint.{Checkpoint as AnyCheckpoint};
ghost use Rattle.slate_state_updates.specs.Checkpoints.{is_named};

/// Each number that checkpoints name comes once, so each version is got once.
#[tactic(auto, using(crate::proofs::NamedOnce::named_once))]
pub fn named_numbers_come_once()
    ensures { (own : ℕ) (checkpoints : List AnyCheckpoint) → each_once (named_numbers own checkpoints) ≡ true }
{}

/// Among them are exactly the numbers that a checkpoint names, without the own one.
#[tactic(auto, using(crate::proofs::NamedOnce::own_unnamed, crate::proofs::NamedOnce::others_named))]
pub fn named_numbers_are_named()
    ensures own { (own : ℕ) (checkpoints : List AnyCheckpoint)
        → has_number own (named_numbers own checkpoints) ≡ false }
    ensures others { (own n : ℕ) (checkpoints : List AnyCheckpoint) → (n == own) ≡ false
        → has_number n (named_numbers own checkpoints) ≡ is_named n checkpoints }
{}
