//! What follows from the definitions of an opening alone.
ghost use Rattle.std.specs.Prelude.{◌≡◌, ◌↔◌, ℕ, List, [], true, is_some};
ghost use Rattle.std.specs.List.{IsDistinct};
ghost use Rattle.slate_ids.specs.Ulids.{same_id};
ghost use Rattle.slate_cluster_protocol.specs.Specs as opens;
ghost use Rattle.slate_cluster_opening.specs.Differing.{have_one_path, have_one_id, all_checkpoints};
ghost use Rattle.slate_script_events.specs.declared.db_spec.DbSpec.{DbSpec as Database};

/// What the openings find by notes of what came before is there exactly where nothing comes twice: the tallies where no path
/// does, the ids of checkpoints where no checkpoint's id does; and ids of tables, of compactions or of views differ where none is equal
/// to a later one.
#[tactic(auto, using(crate::proofs::Differing::ids_apart, crate::proofs::Differing::checkpoints_apart, crate::proofs::Differing::paths_apart))]
pub fn nothing_comes_twice()
    ensures paths { (specs : List Database) → (is_some (opens.tallies_from [] specs) ≡ true)
        ↔ IsDistinct have_one_path specs }
    ensures checkpoints { (specs : List Database) → (is_some (opens.checkpoints_from [] specs) ≡ true)
        ↔ IsDistinct have_one_id (all_checkpoints specs) }
    ensures ids { (ids : List (ℕ × ℕ)) → (opens.do_differ ids ≡ true) ↔ IsDistinct same_id ids }
{}
