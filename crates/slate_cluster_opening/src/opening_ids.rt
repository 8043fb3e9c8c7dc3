//! The ids that databases carry as a run begins, and nobody brings.
ghost use Rattle.std.specs.Prelude.{◌≡◌, ◌++◌, [], map, Some, None, option_to_list, IfOk, OnOk, option_map, if◌then◌else◌};
ghost use Rattle.std.specs.List.{flat_map, filter_map};
ghost use Rattle.slate_cluster_protocol.specs.Ids as ids;
ghost use Rattle.slate_cluster_protocol.specs.Specs as opens;
ghost use Rattle.slate_ids.specs.Ulids.{id_cmp as ulid_cmp};
ghost use Rattle.slate_model.specs.Trees.{trees_of, views_of};

use crate::carried::Carried;
use crate::pools::{Pool, note_ids, only_named, only_pinned};
use slate_cluster_protocol::Carrier;
use slate_ids::{CheckpointId, OutOfMemory, Ulid};
use slate_model::{
    Checkpoint, Compaction, CompactionContext, Compactions, ExternalDb, LsmTreeState, SourceId,
    SsTableHandle, SsTableId, SsTableView, Subcompaction,
};
use slate_script_events::DbSpec;
use std::alloc::Global;

// Notes the ids of checkpoints. False where one was carried already.
fn add_checkpoints(
    pool: &mut Pool<CheckpointId>,
    checkpoints: &[Checkpoint],
) -> Result<bool, OutOfMemory>
    ensures { IfOk result (λ all. (if all then Some pool.new.entries else None)
        ≡ opens.ids_from pool.old.entries checkpoints.now) }
{
    for checkpoint in checkpoints {
        if pool.contains_key(&checkpoint.id) {
            return Ok(false);
        }
        let named = only_named(checkpoint.id);
        pool.insert(named.0, named.1)?;
    }
    Ok(true)
}

// The ids of all checkpoints. None where one comes twice.
fn open_checkpoints(
    alloc: Global,
    specs: &[DbSpec],
) -> Result<Option<Pool<CheckpointId>>, OutOfMemory>
    ensures { IfOk result (λ o. option_map (λ pool. pool.entries) o ≡ opens.checkpoints_from [] specs.now) }
{
    let mut pool = Pool::new(alloc);
    for spec in specs {
        if !add_checkpoints(&mut pool, spec.manifest.core.checkpoints.as_slice())? {
            return Ok(None);
        }
    }
    Ok(Some(pool))
}

// Adds the ids of checkpoints that an entry names.
fn push_entry(all: &mut Vec<(CheckpointId, Carrier)>, entry: &ExternalDb) -> Result<(), OutOfMemory>
    ensures { OnOk result (all.new.items ≡ all.old.items ++ opens.entry_checkpoints entry.now) }
{
    all.push(only_named(entry.source_checkpoint_id))?;
    if let Some(pin) = entry.final_checkpoint_id {
        all.push(only_pinned(pin))?;
    }
    Ok(())
}

// The ids of checkpoints that these entries name.
fn entries_checkpoints(
    alloc: Global,
    entries: &[ExternalDb],
) -> Result<Vec<(CheckpointId, Carrier)>, OutOfMemory>
    ensures { IfOk result (λ all. all.items ≡ flat_map opens.entry_checkpoints entries.now) }
{
    let mut all = Vec::new(alloc);
    for entry in entries {
        push_entry(&mut all, entry)?;
    }
    Ok(all)
}

// Notes the ids of checkpoints that the entries of all databases name.
fn carry_entries(
    alloc: Global,
    pool: &mut Pool<CheckpointId>,
    specs: &[DbSpec],
) -> Result<(), OutOfMemory>
    ensures { OnOk result (pool.new.entries ≡ ids.with_ids ids.checkpoint_cmp
        (flat_map (λ spec. flat_map opens.entry_checkpoints spec.manifest.external_dbs) specs.now) pool.old.entries) }
{
    for spec in specs {
        let all = entries_checkpoints(alloc, spec.manifest.external_dbs.as_slice())?;
        note_ids(pool, all.as_slice())?;
    }
    Ok(())
}

// Adds an id of a table, view or compaction, where there is one.
fn push_ulid(all: &mut Vec<(Ulid, Carrier)>, id: Option<Ulid>) -> Result<(), OutOfMemory>
    ensures { OnOk result (all.new.items ≡ all.old.items ++ map ids.only_named (option_to_list id)) }
{
    if let Some(id) = id {
        all.push(only_named(id))?;
    }
    Ok(())
}

// The id of a table that has one.
fn ulid_of(id: &SsTableId) -> Option<Ulid>
    ensures { result ≡ opens.ulid_of id.now }
{
    match id {
        SsTableId::Wal(_) => None,
        SsTableId::Compacted(ulid) => Some(*ulid),
    }
}

// Adds the ids of a view and of its table.
fn push_view(all: &mut Vec<(Ulid, Carrier)>, view: &SsTableView) -> Result<(), OutOfMemory>
    ensures { OnOk result (all.new.items ≡ all.old.items ++ map ids.only_named (opens.view_ulids view.now)) }
{
    push_ulid(all, Some(view.id))?;
    push_ulid(all, ulid_of(&view.sst.id))
}

// Adds the ids that a tree was last compacted of.
fn push_markers(all: &mut Vec<(Ulid, Carrier)>, tree: &LsmTreeState) -> Result<(), OutOfMemory>
    ensures { OnOk result (all.new.items ≡ all.old.items ++ map ids.only_named (opens.marker_ulids tree.now)) }
{
    push_ulid(all, tree.last_compacted_l0_sst_view_id)?;
    push_ulid(all, tree.last_compacted_l0_sst_id)
}

// Adds the ids of the tables that an entry lists.
fn push_listed(all: &mut Vec<(Ulid, Carrier)>, entry: &ExternalDb) -> Result<(), OutOfMemory>
    ensures { OnOk result (all.new.items ≡ all.old.items
        ++ map ids.only_named (filter_map opens.ulid_of entry.now.sst_ids)) }
{
    for id in entry.sst_ids.as_slice() {
        push_ulid(all, ulid_of(id))?;
    }
    Ok(())
}

// Adds the ids of a database's tables.
fn push_tables(all: &mut Vec<(Ulid, Carrier)>, spec: &DbSpec) -> Result<(), OutOfMemory>
    ensures { OnOk result (all.new.items ≡ all.old.items ++ map ids.only_named (opens.table_ids spec.now)) }
{
    for table in spec.tables.as_slice() {
        push_ulid(all, Some(table.0))?;
    }
    Ok(())
}

// Adds the ids of a database's views.
fn push_views(all: &mut Vec<(Ulid, Carrier)>, spec: &DbSpec) -> Result<(), OutOfMemory>
    ensures { OnOk result (all.new.items ≡ all.old.items
        ++ map ids.only_named (flat_map opens.view_ulids (views_of spec.now.manifest.core))) }
{
    for view in spec.manifest.core.views() {
        push_view(all, view)?;
    }
    Ok(())
}

// Adds the ids that a database's trees were last compacted of.
fn push_trees(all: &mut Vec<(Ulid, Carrier)>, spec: &DbSpec) -> Result<(), OutOfMemory>
    ensures { OnOk result (all.new.items ≡ all.old.items
        ++ map ids.only_named (flat_map opens.marker_ulids (trees_of spec.now.manifest.core))) }
{
    for tree in spec.manifest.core.trees() {
        push_markers(all, tree)?;
    }
    Ok(())
}

// Adds the ids of the tables that a database's entries list.
fn push_entries(all: &mut Vec<(Ulid, Carrier)>, spec: &DbSpec) -> Result<(), OutOfMemory>
    ensures { OnOk result (all.new.items ≡ all.old.items
        ++ map ids.only_named (flat_map (λ entry. filter_map opens.ulid_of entry.sst_ids) spec.now.manifest.external_dbs)) }
{
    for entry in spec.manifest.external_dbs.as_slice() {
        push_listed(all, entry)?;
    }
    Ok(())
}

// Adds the ids of these tables.
fn push_handles(all: &mut Vec<(Ulid, Carrier)>, ssts: &[SsTableHandle]) -> Result<(), OutOfMemory>
    ensures { OnOk result (all.new.items ≡ all.old.items ++ map ids.only_named (opens.handle_ulids ssts.now)) }
{
    for sst in ssts {
        push_ulid(all, ulid_of(&sst.id))?;
    }
    Ok(())
}

// The id of a view that is a source.
fn view_of(source: &SourceId) -> Option<Ulid>
    ensures { result ≡ opens.view_of source.now }
{
    match source {
        SourceId::SstView(id) => Some(*id),
        SourceId::SortedRun(_) => None,
    }
}

// Adds the ids of the views among these sources.
fn push_sources(all: &mut Vec<(Ulid, Carrier)>, sources: &[SourceId]) -> Result<(), OutOfMemory>
    ensures { OnOk result (all.new.items ≡ all.old.items
        ++ map ids.only_named (filter_map opens.view_of sources.now)) }
{
    for source in sources {
        push_ulid(all, view_of(source))?;
    }
    Ok(())
}

// Adds the ids of the tables that these parts of a compaction have written.
fn push_parts(all: &mut Vec<(Ulid, Carrier)>, parts: &[Subcompaction]) -> Result<(), OutOfMemory>
    ensures { OnOk result (all.new.items ≡ all.old.items
        ++ map ids.only_named (flat_map (λ part. opens.handle_ulids part.output_ssts) parts.now)) }
{
    for part in parts {
        push_handles(all, part.output_ssts.as_slice())?;
    }
    Ok(())
}

// Adds the same of all parts of a compaction, where there is something to go on with.
fn push_context(
    all: &mut Vec<(Ulid, Carrier)>,
    context: &Option<CompactionContext>,
) -> Result<(), OutOfMemory>
    ensures { OnOk result (all.new.items ≡ all.old.items
        ++ map ids.only_named (opens.context_ulids context.now)) }
{
    match context {
        None => Ok(()),
        Some(context) => push_parts(all, context.subcompactions.as_slice()),
    }
}

// Adds the ids of a compaction.
fn push_compaction(
    all: &mut Vec<(Ulid, Carrier)>,
    compaction: &Compaction,
) -> Result<(), OutOfMemory>
    ensures { OnOk result (all.new.items ≡ all.old.items
        ++ map ids.only_named (opens.compaction_ulids compaction.now)) }
{
    push_ulid(all, Some(compaction.id))?;
    push_sources(all, compaction.spec.sources())?;
    push_handles(all, compaction.output_ssts.as_slice())?;
    push_context(all, &compaction.ctx)
}

// Adds the ids of a record's compactions.
fn push_record(all: &mut Vec<(Ulid, Carrier)>, compactions: &Compactions) -> Result<(), OutOfMemory>
    ensures { OnOk result (all.new.items ≡ all.old.items
        ++ map ids.only_named (flat_map opens.compaction_ulids compactions.now.entries)) }
{
    for compaction in compactions.iter() {
        push_compaction(all, compaction)?;
    }
    Ok(())
}

// Adds the ids of a database's compactions.
fn push_compactions(all: &mut Vec<(Ulid, Carrier)>, spec: &DbSpec) -> Result<(), OutOfMemory>
    ensures { OnOk result (all.new.items ≡ all.old.items
        ++ map ids.only_named (flat_map opens.compaction_ulids (opens.compactions_in spec.now.compactions))) }
{
    match &spec.compactions {
        None => Ok(()),
        Some(record) => push_record(all, record),
    }
}

// The ids of tables, views and compactions that a database names.
fn spec_ulids(alloc: Global, spec: &DbSpec) -> Result<Vec<(Ulid, Carrier)>, OutOfMemory>
    ensures { IfOk result (λ all. all.items ≡ map ids.only_named (opens.spec_ulids spec.now)) }
{
    let mut all = Vec::new(alloc);
    push_tables(&mut all, spec)?;
    push_views(&mut all, spec)?;
    push_trees(&mut all, spec)?;
    push_entries(&mut all, spec)?;
    push_compactions(&mut all, spec)?;
    Ok(all)
}

// The ids of tables, views and compactions that all databases name.
fn open_ulids(alloc: Global, specs: &[DbSpec]) -> Result<Pool<Ulid>, OutOfMemory>
    ensures { IfOk result (λ pool. pool.entries
        ≡ ids.with_ids ulid_cmp (map ids.only_named (flat_map opens.spec_ulids specs.now)) []) }
{
    let mut pool = Pool::new(alloc);
    for spec in specs {
        let all = spec_ulids(alloc, spec)?;
        note_ids(&mut pool, all.as_slice())?;
    }
    Ok(pool)
}

/// The ids that databases carry, and nobody brings. None where an id of a checkpoint comes twice.
pub(crate) fn open_carried(alloc: Global, specs: &[DbSpec]) -> Result<Option<Carried>, OutOfMemory>
    ensures { IfOk result (λ o. o ≡ option_map (λ pool. opens.opening_carried specs.now) (opens.checkpoints_from [] specs.now)) }
{
    let Some(mut checkpoints) = open_checkpoints(alloc, specs)? else {
        return Ok(None);
    };
    carry_entries(alloc, &mut checkpoints, specs)?;
    let ulids = open_ulids(alloc, specs)?;
    Ok(Some(Carried { checkpoints, ulids }))
}
