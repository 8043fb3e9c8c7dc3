//! Tables of sorted runs, from one version of a manifest to the next.
ghost use Rattle.std.specs.Prelude.{◌≡◌, ◌++◌, map, IfOk, OnOk};
ghost use Rattle.std.specs.List.{list_all};
ghost use Rattle.slate_model_tables.specs.declared.ss_table_id.SsTableId.TheVariants.{Compacted};
ghost use Rattle.slate_model.specs.Trees.{tables_of};
ghost use Rattle.slate_state_updates.specs.RunTables as runs;
ghost use Rattle.slate_state_updates.specs.TableSets.{has_table, is_among, IsTableSet};

use crate::tables::{TableSet, all_tables, run_tables, set_of};
use slate_ids::{Listed, OutOfMemory, Ulid};
use slate_model::{Manifest, SsTableId};
use slate_txn_log::Right;
use std::alloc::Global;

// Adds tables of these ids.
fn push_compacted(ids: &mut Listed<SsTableId>, outputs: &[Ulid]) -> Result<(), OutOfMemory>
    ensures { OnOk result (ids.new ≡ ids.old ++ map (λ id. Compacted id) outputs.now) }
{
    for id in outputs {
        ids.push(SsTableId::Compacted(*id))?;
    }
    Ok(())
}

// Adds the tables that a compactor made, where the right is one's.
fn push_outputs(ids: &mut Listed<SsTableId>, right: &Right) -> Result<(), OutOfMemory>
    ensures { OnOk result (ids.new ≡ ids.old ++ runs.outputs_of right.now) }
{
    match right {
        Right::Compactor { outputs } => push_compacted(ids, outputs.as_slice()),
        _ => Ok(()),
    }
}

// The tables that may be in sorted runs: those of the old manifest's trees, and those that a compactor made.
fn known_tables(alloc: Global, old: &Manifest, right: &Right) -> Result<TableSet, OutOfMemory>
    ensures { IfOk result (λ set. IsTableSet set (tables_of old.now.core ++ runs.outputs_of right.now)) }
{
    let mut ids = all_tables(alloc, &old.core)?;
    let set = match push_outputs(&mut ids, right) {
        Ok(()) => set_of(alloc, ids.as_slice()),
        Err(e) => Err(e),
    };
    drop(ids);
    set
}

// Whether the set has each of these tables.
fn has_all(set: &TableSet, ids: &[SsTableId]) -> bool
    ensures { result ≡ list_all (has_table set.now) ids.now }
{
    ids.iter().all(|id| set.contains(id))
}

// Whether the right attaches another database.
fn attaches(right: &Right) -> bool
    ensures { result ≡ runs.attaches right.now }
{
    matches!(right, Right::Attach)
}

// Whether the set has each table of a sorted run.
fn all_in(alloc: Global, known: &TableSet, new: &Manifest) -> Result<bool, OutOfMemory>
    ensures { IfOk result (λ all. all ≡ list_all (has_table known.now) (runs.run_tables new.now.core)) }
{
    let ids = run_tables(alloc, &new.core)?;
    let all = has_all(known, ids.as_slice());
    drop(ids);
    Ok(all)
}

// Whether each table of a sorted run was in a tree of the old manifest, or was made by the compactor.
fn are_known(
    alloc: Global,
    old: &Manifest,
    new: &Manifest,
    right: &Right,
) -> Result<bool, OutOfMemory>
    ensures { IfOk result (λ known. known
        ≡ list_all (is_among (tables_of old.now.core ++ runs.outputs_of right.now)) (runs.run_tables new.now.core)) }
{
    let known = known_tables(alloc, old, right)?;
    let all = all_in(alloc, &known, new);
    drop(known);
    all
}

/// Whether each table of a sorted run was in a tree of the old manifest, or was made by the compactor whose right it is. With an attached
/// database any may come.
pub(crate) fn runs_known(
    alloc: Global,
    old: &Manifest,
    new: &Manifest,
    right: &Right,
) -> Result<bool, OutOfMemory>
    ensures { IfOk result (λ known. known ≡ runs.runs_known old.now new.now right.now) }
{
    if attaches(right) {
        return Ok(true);
    }
    Ok(are_known(alloc, old, new, right)?)
}
