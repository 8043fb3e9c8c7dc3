//! The ids of tables, compactions, views and runs as a run begins: none comes twice, and those of runs fall.
ghost use Rattle.std.specs.Prelude.{◌≡◌, ◌++◌, Some, None, true, map, IfOk, OnOk, if◌then◌else◌};
ghost use Rattle.std.specs.List.{list_all, flat_map};
ghost use Rattle.slate_cluster_protocol.specs.Specs as opens;
ghost use Rattle.slate_ids.specs.Ulids.{is_id};

use slate_ids::{OutOfMemory, Ulid};
use slate_model::{Compactions, LsmTreeState, SortedRun, SsTableView};
use slate_script_events::DbSpec;
use std::alloc::Global;
use std::collections::{BTreeSet, VecDeque};

/// Ids of tables, compactions or views, in order.
type Seen = BTreeSet<(u64, u128)>;

// The parts of an id, by which ids are ordered.
fn parts_of(id: &Ulid) -> (u64, u128)
    ensures parts { result ≡ id.now }
    ensures fits { is_id id.now ≡ true }
{
    (id.timestamp_ms(), id.tail())
}

// Notes these ids. False where one came already.
fn add_once(seen: &mut Seen, ids: &[Ulid]) -> Result<bool, OutOfMemory>
    ensures seen { IfOk result (λ once. (if once then Some seen.new.keys else None)
        ≡ opens.seen_from seen.old.keys ids.now) }
    ensures fit { IfOk result (λ once. (if once then list_all is_id ids.now else true) ≡ true) }
{
    for id in ids {
        let parts = parts_of(id);
        if seen.contains(&parts) {
            return Ok(false);
        }
        seen.insert(parts)?;
    }
    Ok(true)
}

// Adds the ids of a database's tables.
fn push_table_ids(ids: &mut Vec<Ulid>, spec: &DbSpec) -> Result<(), OutOfMemory>
    ensures { OnOk result (ids.new.items ≡ ids.old.items ++ opens.table_ids spec.now) }
{
    for table in spec.tables.as_slice() {
        ids.push(table.0)?;
    }
    Ok(())
}

// The ids of all tables, database by database.
fn all_table_ids(alloc: Global, specs: &[DbSpec]) -> Result<Vec<Ulid>, OutOfMemory>
    ensures { IfOk result (λ ids. ids.items ≡ flat_map opens.table_ids specs.now) }
{
    let mut ids = Vec::new(alloc);
    for spec in specs {
        push_table_ids(&mut ids, spec)?;
    }
    Ok(ids)
}

// Adds the ids of a record's compactions.
fn push_record_ids(ids: &mut Vec<Ulid>, compactions: &Compactions) -> Result<(), OutOfMemory>
    ensures { OnOk result (ids.new.items ≡ ids.old.items ++ map (λ c. c.id) compactions.now.entries) }
{
    for compaction in compactions.iter() {
        ids.push(compaction.id)?;
    }
    Ok(())
}

// Adds the ids of a database's compactions.
fn push_compaction_ids(ids: &mut Vec<Ulid>, spec: &DbSpec) -> Result<(), OutOfMemory>
    ensures { OnOk result (ids.new.items ≡ ids.old.items ++ opens.compaction_ids spec.now) }
{
    match &spec.compactions {
        None => Ok(()),
        Some(record) => push_record_ids(ids, record),
    }
}

// The ids of all compactions, database by database.
fn all_compaction_ids(alloc: Global, specs: &[DbSpec]) -> Result<Vec<Ulid>, OutOfMemory>
    ensures { IfOk result (λ ids. ids.items ≡ flat_map opens.compaction_ids specs.now) }
{
    let mut ids = Vec::new(alloc);
    for spec in specs {
        push_compaction_ids(&mut ids, spec)?;
    }
    Ok(ids)
}

// The ids of views, in order.
fn view_ids(alloc: Global, views: &VecDeque<SsTableView>) -> Result<Vec<Ulid>, OutOfMemory>
    ensures { IfOk result (λ ids. ids.items ≡ map (λ v. v.id) views.now.items) }
{
    let mut ids = Vec::new(alloc);
    for view in views.iter() {
        ids.push(view.id)?;
    }
    Ok(ids)
}

// Whether these ids differ.
fn do_differ(alloc: Global, ids: &[Ulid]) -> Result<bool, OutOfMemory>
    ensures differ { IfOk result (λ differ. differ ≡ opens.do_differ ids.now) }
    ensures fit { IfOk result (λ differ. (if differ then list_all is_id ids.now else true) ≡ true) }
{
    let mut seen = BTreeSet::new(alloc);
    if add_once(&mut seen, ids)? {
        return Ok(true);
    }
    Ok(false)
}

// Whether the ids of runs fall strictly.
fn do_runs_fall(runs: &[SortedRun]) -> bool
    ensures { result ≡ opens.runs_fall runs.now }
{
    let Some((first, others)) = runs.split_first() else {
        return true;
    };
    let mut last = first;
    for run in others {
        if run.id >= last.id {
            return false;
        }
        last = run;
    }
    true
}

// Whether the ids of a tree's views differ, and those of its runs fall.
fn is_tree_in_order(alloc: Global, tree: &LsmTreeState) -> Result<bool, OutOfMemory>
    ensures { IfOk result (λ fine. fine ≡ opens.is_tree_in_order tree.now) }
{
    let ids = view_ids(alloc, tree.l0.as_deque())?;
    let differ = do_differ(alloc, ids.as_slice())?;
    Ok(differ && do_runs_fall(tree.compacted.as_slice()))
}

// Whether all trees of a database are in order.
fn are_trees_in_order(alloc: Global, spec: &DbSpec) -> Result<bool, OutOfMemory>
    ensures { IfOk result (λ fine. fine ≡ opens.are_trees_in_order spec.now) }
{
    for tree in spec.manifest.core.trees() {
        if !is_tree_in_order(alloc, tree)? {
            return Ok(false);
        }
    }
    Ok(true)
}

// Whether all trees of all databases are in order.
fn are_all_in_order(alloc: Global, specs: &[DbSpec]) -> Result<bool, OutOfMemory>
    ensures { IfOk result (λ fine. fine ≡ list_all opens.are_trees_in_order specs.now) }
{
    for spec in specs {
        if !are_trees_in_order(alloc, spec)? {
            return Ok(false);
        }
    }
    Ok(true)
}

/// Whether no id of a table or of a compaction comes twice, and all trees are in order. Where it is so, the ids of tables are ids.
pub(crate) fn are_ulids_fine(alloc: Global, specs: &[DbSpec]) -> Result<bool, OutOfMemory>
    ensures fine { IfOk result (λ fine. fine ≡ opens.are_ulids_fine specs.now) }
    ensures fit { IfOk result (λ fine. (if fine then list_all is_id (flat_map opens.table_ids specs.now) else true) ≡ true) }
{
    let tables = all_table_ids(alloc, specs)?;
    let compactions = all_compaction_ids(alloc, specs)?;
    let tables_differ = do_differ(alloc, tables.as_slice())?;
    let compactions_differ = do_differ(alloc, compactions.as_slice())?;
    let in_order = are_all_in_order(alloc, specs)?;
    Ok(tables_differ && compactions_differ && in_order)
}
