//! The tables that stand in the store as a run begins.
ghost use Rattle.std.specs.Prelude.{◌≡◌, ◌++◌, ◌∷◌, [], map, IfOk, OnOk, if◌then◌else◌};
ghost use Rattle.std.specs.List.{flat_map};
ghost use Rattle.slate_script_databases.specs.Databases as databases;
ghost use Rattle.slate_script_databases.specs.OpeningRecords.{named_outputs};

use crate::record_items::{CompactionItem, RecordItem};
use crate::tree_items::{L0Item, RunItem, TreeItems};
use bytes::Bytes;
use slate_ids::{Listed, OutOfMemory, Ulid};
use slate_model::{SsTableHandle, SsTableId, SsTableInfo};
use std::alloc::Global;
use std::collections::BTreeSet;
use std::mem;

const FORMAT_VERSION: u16 = 1;

// What is known of each table.
fn opening_info() -> SsTableInfo
    ensures { result ≡ databases.opening_info }
{
    let mut info = SsTableInfo::default();
    drop(mem::replace(&mut info.first_entry, Some(Bytes::from_static(b"a"))));
    drop(mem::replace(&mut info.last_entry, Some(Bytes::from_static(b"z"))));
    info
}

/// The table of an id.
pub(crate) fn table_of(id: Ulid) -> SsTableHandle
    ensures { result ≡ databases.table_of id }
{
    SsTableHandle {
        id: SsTableId::Compacted(id),
        format_version: FORMAT_VERSION,
        info: opening_info(),
    }
}

// Adds the tables of these items.
fn push_l0_tables(ids: &mut Listed<Ulid>, items: &[L0Item]) -> Result<(), OutOfMemory>
    ensures { OnOk result (ids.new ≡ ids.old ++ map (λ i. i.table_id) items.now) }
{
    for item in items {
        ids.push(item.table_id)?;
    }
    Ok(())
}

// Adds these ids.
fn push_ids(ids: &mut Listed<Ulid>, others: &[Ulid]) -> Result<(), OutOfMemory>
    ensures { OnOk result (ids.new ≡ ids.old ++ others.now) }
{
    for id in others {
        ids.push(*id)?;
    }
    Ok(())
}

// Adds the tables of these runs.
fn push_run_tables(ids: &mut Listed<Ulid>, items: &[RunItem]) -> Result<(), OutOfMemory>
    ensures { OnOk result (ids.new ≡ ids.old ++ flat_map (λ i. i.table_ids) items.now) }
{
    for item in items {
        push_ids(ids, item.table_ids.as_slice())?;
    }
    Ok(())
}

// The tables that trees name, as often as they do.
fn named_tables(alloc: Global, items: &TreeItems) -> Result<Listed<Ulid>, OutOfMemory>
    ensures { IfOk result (λ ids. ids ≡ databases.named_tables items.now) }
{
    let mut ids = Listed::new(alloc);
    push_l0_tables(&mut ids, items.l0.as_slice())?;
    push_run_tables(&mut ids, items.runs.as_slice())?;
    Ok(ids)
}

// Adds an id, where it is new.
fn push_new(ids: &mut Listed<Ulid>, id: Ulid, is_new: bool) -> Result<(), OutOfMemory>
    ensures { OnOk result (ids.new ≡ (if is_new then ids.old ++ id ∷ [] else ids.old)) }
{
    if is_new {
        ids.push(id)?;
    }
    Ok(())
}

// Each id once, where it comes first.
fn once(alloc: Global, named: &[Ulid]) -> Result<Listed<Ulid>, OutOfMemory>
    ensures { IfOk result (λ ids. ids ≡ databases.once named.now) }
{
    let mut seen = BTreeSet::new(alloc);
    let mut ids = Listed::new(alloc);
    for id in named {
        let is_new = seen.insert(*id)?;
        push_new(&mut ids, *id, is_new)?;
    }
    Ok(ids)
}

// The tables of these ids, with what is known of them.
fn with_infos(alloc: Global, ids: &[Ulid]) -> Result<Listed<(Ulid, SsTableInfo)>, OutOfMemory>
    ensures { IfOk result (λ tables. tables ≡ map databases.with_info ids.now) }
{
    let mut tables = Listed::new(alloc);
    for id in ids {
        tables.push((*id, opening_info()))?;
    }
    Ok(tables)
}

// Adds the outputs of these compactions.
fn push_outputs(ids: &mut Listed<Ulid>, items: &[CompactionItem]) -> Result<(), OutOfMemory>
    ensures { OnOk result (ids.new ≡ ids.old ++ flat_map (λ c. c.outputs) items.now) }
{
    for item in items {
        push_ids(ids, item.outputs.as_slice())?;
    }
    Ok(())
}

// Adds the outputs that a record names, where there is one.
fn push_named_outputs(ids: &mut Listed<Ulid>, item: &Option<RecordItem>) -> Result<(), OutOfMemory>
    ensures { OnOk result (ids.new ≡ ids.old ++ named_outputs item.now) }
{
    match item {
        None => Ok(()),
        Some(item) => push_outputs(ids, item.compactions.as_slice()),
    }
}

/// The tables that trees name, these strays, and the tables that the record names, each once, with what is known of them.
pub(crate) fn tables_of(
    alloc: Global,
    items: &TreeItems,
    item: &Option<RecordItem>,
    strays: &[Ulid],
) -> Result<Listed<(Ulid, SsTableInfo)>, OutOfMemory>
    ensures { IfOk result (λ tables. tables ≡ databases.tables_of items.now strays.now (named_outputs item.now)) }
{
    let mut named = named_tables(alloc, items)?;
    push_ids(&mut named, strays)?;
    push_named_outputs(&mut named, item)?;
    let ids = once(alloc, named.as_slice())?;
    with_infos(alloc, ids.as_slice())
}
