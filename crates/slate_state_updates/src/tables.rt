//! The tables of a manifest, in order and as sets.
ghost use Rattle.std.specs.Prelude.{◌≡◌, ◌++◌, IfOk, OnOk};
ghost use Rattle.slate_model.specs.Trees as trees;
ghost use Rattle.slate_model.specs.Trees.{tables_of_views, views_of_runs};
ghost use Rattle.slate_state_updates.specs.FlushedTables as flushed;
ghost use Rattle.slate_state_updates.specs.RunTables as runs;
ghost use Rattle.slate_state_updates.specs.TableSets.{IsTableSet};

use slate_ids::{Listed, OutOfMemory};
use slate_model::{LsmTreeState, ManifestCore, SsTableId, SsTableView};
use std::alloc::Global;
use std::collections::BTreeSet;

/// Tables, in the order of their ids.
pub(crate) type TableSet = BTreeSet<SsTableId>;

// Adds the tables of a tree that flushes wrote and no compaction took.
fn push_flushed(ids: &mut Listed<SsTableId>, tree: &LsmTreeState) -> Result<(), OutOfMemory>
    ensures { OnOk result (ids.new ≡ ids.old ++ tables_of_views tree.now.l0) }
{
    for view in tree.l0.as_deque().iter() {
        ids.push(view.sst.id)?;
    }
    Ok(())
}

// Adds the tables of views.
fn push_tables(ids: &mut Listed<SsTableId>, views: &[SsTableView]) -> Result<(), OutOfMemory>
    ensures { OnOk result (ids.new ≡ ids.old ++ tables_of_views views.now) }
{
    for view in views {
        ids.push(view.sst.id)?;
    }
    Ok(())
}

// Adds the tables of a tree's sorted runs.
fn push_runs(ids: &mut Listed<SsTableId>, tree: &LsmTreeState) -> Result<(), OutOfMemory>
    ensures { OnOk result (ids.new ≡ ids.old ++ tables_of_views (views_of_runs tree.now.compacted)) }
{
    for run in tree.compacted.as_slice() {
        push_tables(ids, run.sst_views())?;
    }
    Ok(())
}

/// The tables that flushes wrote and no compaction took, of all trees: the root's first, of each tree the newest first.
pub(crate) fn flushed_tables(
    alloc: Global,
    core: &ManifestCore,
) -> Result<Listed<SsTableId>, OutOfMemory>
    ensures { IfOk result (λ ids. ids ≡ flushed.flushed_tables core.now) }
{
    let mut ids = Listed::new(alloc);
    for tree in core.trees() {
        push_flushed(&mut ids, tree)?;
    }
    Ok(ids)
}

/// The tables of all trees' sorted runs.
pub(crate) fn run_tables(
    alloc: Global,
    core: &ManifestCore,
) -> Result<Listed<SsTableId>, OutOfMemory>
    ensures { IfOk result (λ ids. ids ≡ runs.run_tables core.now) }
{
    let mut ids = Listed::new(alloc);
    for tree in core.trees() {
        push_runs(&mut ids, tree)?;
    }
    Ok(ids)
}

/// The tables of all trees.
pub(crate) fn all_tables(
    alloc: Global,
    core: &ManifestCore,
) -> Result<Listed<SsTableId>, OutOfMemory>
    ensures { IfOk result (λ ids. ids ≡ trees.tables_of core.now) }
{
    let mut ids = Listed::new(alloc);
    for view in core.views() {
        ids.push(view.sst.id)?;
    }
    Ok(ids)
}

/// The tables of all trees, as a set.
pub(crate) fn known_set(alloc: Global, core: &ManifestCore) -> Result<TableSet, OutOfMemory>
    ensures { IfOk result (λ set. IsTableSet set (trees.tables_of core.now)) }
{
    let ids = all_tables(alloc, core)?;
    let set = set_of(alloc, ids.as_slice());
    drop(ids);
    set
}

/// These tables as a set.
pub(crate) fn set_of(alloc: Global, ids: &[SsTableId]) -> Result<TableSet, OutOfMemory>
    ensures { IfOk result (λ set. IsTableSet set ids.now) }
{
    let mut set = BTreeSet::new(alloc);
    for id in ids {
        set.insert(*id)?;
    }
    Ok(set)
}
