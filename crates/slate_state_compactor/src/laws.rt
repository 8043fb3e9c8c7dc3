//! Laws of the end of a compaction, over the definitions alone.
ghost use Rattle.std.specs.Prelude.{◌≡◌, List, Some, true};
ghost use Rattle.slate_state_compactor.specs.EndLaws.{descend, LeavesNewer};
ghost use Rattle.slate_state_compactor.specs.Finishing.{finished_tree as tree_finished};
ghost use Rattle.slate_model.specs.declared.lsm_tree_state.LsmTreeState.{LsmTreeState as Tree};
ghost use Rattle.slate_model_records.specs.declared.compaction_spec.CompactionSpec.{CompactionSpec as Spec};
ghost use Rattle.slate_model_tables.specs.declared.ss_table_handle.SsTableHandle.{SsTableHandle as Table};

/// The end of a compaction takes the oldest views of L0, those that its sources name, and leaves all newer ones as they were. Where the
/// numbers of the runs descended strictly before it, they do so after it.
#[tactic(auto, using(crate::proofs::Ends::leaves_newer, crate::proofs::Ends::runs_descend))]
pub fn ends_keep_order()
    ensures newer { (spec : Spec) (outputs : List Table) (tree made : Tree)
        → tree_finished spec outputs tree ≡ Some made → LeavesNewer spec tree made }
    ensures runs { (spec : Spec) (outputs : List Table) (tree made : Tree)
        → tree_finished spec outputs tree ≡ Some made → descend tree.compacted ≡ true → descend made.compacted ≡ true }
{}
