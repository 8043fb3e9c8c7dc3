//! Laws of merges, over the definitions alone.
ghost use Rattle.std.specs.Prelude.{◌≡◌};
ghost use Rattle.slate_model.specs.declared.lsm_tree_state.LsmTreeState.{LsmTreeState as Tree};
ghost use Rattle.slate_state_merges.specs.Merging.{merged as merge_of};

/// Merging what was merged with the same compactor's tree again changes nothing.
pub fn merging_again()
    ensures { (writer compactor : Tree) → merge_of (merge_of writer compactor) compactor ≡ merge_of writer compactor }
{}
