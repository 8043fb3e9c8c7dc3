//! The tables that the views of a manifest are of.
ghost use Rattle.std.specs.Prelude.{◌≡◌, ◌≤◌, [], length, true, Some, None, option_copied, slice_get, if◌then◌else◌};
ghost use Rattle.slate_ids.specs.Ulids as ulids;
ghost use Rattle.slate_model_tables.specs.Tables as known;
ghost use Rattle.slate_layout_parts.specs.TablesOfViews as tables;
ghost use Rattle.slate_layout_parts.specs.TablesOfViews.{ascend, table_at, of_id, place_of};

use slate_ids::Ulid;
use slate_model_tables::{SsTableHandle, SsTableId};
use std::alloc::Global;
use std::marker::Model;

/// Tables whose ids ascend strictly.
#[derive(Drop)]
pub struct Tables {
    handles: Vec<SsTableHandle>,
}

impl Model for Tables {
    ghost use Rattle.std.specs.Prelude.{◌≡◌, List, true};
    ghost use Rattle.slate_model_tables.specs.declared.ss_table_handle.SsTableHandle.{SsTableHandle};
    ghost use Rattle.slate_layout_parts.specs.TablesOfViews.{ascend};

    ghost Value = { List SsTableHandle };

    ghost view = { λ a. a.handles.items };

    ghost invariant = { λ a. ascend a.handles.items ≡ true };
}

/// The id of a compacted table; a file of the write-ahead log has none.
pub fn table_id(id: SsTableId) -> Ulid
    ensures { result ≡ tables.table_id id }
{
    match id {
        SsTableId::Compacted(id) => id,
        SsTableId::Wal(_) => Ulid::from_parts(0, 0),
    }
}

/// Whether a table isn't of the write-ahead log.
pub fn is_compacted(id: &SsTableId) -> bool
    ensures { result ≡ known.is_compacted id.now }
{
    match id {
        SsTableId::Wal(_) => false,
        SsTableId::Compacted(_) => true,
    }
}

/// The milliseconds and the tail of an id.
pub fn parts_of(id: Ulid) -> (u64, u128)
    ensures { result ≡ id }
{
    (id.timestamp_ms(), id.tail())
}

// Whether an id stands before another.
fn id_lt(a: Ulid, b: Ulid) -> bool
    ensures { result ≡ ulids.id_lt a b }
{
    a.timestamp_ms() < b.timestamp_ms()
        || (a.timestamp_ms() == b.timestamp_ms() && a.tail() < b.tail())
}

// Whether a table stands before an id.
fn is_before(table: &SsTableHandle, id: Ulid) -> bool
    ensures { result ≡ tables.is_before id table.now }
{
    id_lt(table_id(table.id), id)
}

// Whether the ids of tables ascend strictly.
fn are_ascending(handles: &[SsTableHandle]) -> bool
    ensures { result ≡ ascend handles.now }
{
    let Some((first, others)) = handles.split_first() else {
        return true;
    };
    let mut last = first;
    for table in others {
        if !is_before(last, table_id(table.id)) {
            return false;
        }
        last = table;
    }
    true
}

// How many tables stand before an id.
fn place_of(handles: &[SsTableHandle], id: Ulid) -> usize
    requires { ascend handles.now ≡ true }
    ensures place { result ≡ tables.place_of id handles.now }
    ensures within { result ≤ length handles.now }
{
    handles.partition_point(|table| is_before(table, id))
}

// The table at a place, where there is one.
#[tactic(auto, using(std::proofs::lemmas::Option::slice_get_read, std::proofs::lemmas::Option::slice_get_past))]
fn table_from(handles: &[SsTableHandle], place: usize) -> Option<&SsTableHandle>
    ensures { option_copied result ≡ slice_get handles.now place }
{
    if place < handles.len() {
        Some(&handles[place])
    } else {
        None
    }
}

// A table, where it is of this id.
fn of_id(table: Option<&SsTableHandle>, id: Ulid) -> Option<&SsTableHandle>
    ensures { option_copied result ≡ tables.of_id id (option_copied table.entry) }
{
    match table {
        Some(table) if table_id(table.id) == id => Some(table),
        _ => None,
    }
}

impl Tables {
    /// No tables. Takes no memory.
    pub fn none(alloc: Global) -> Tables
        ensures { result ≡ [] }
    {
        Tables {
            handles: Vec::new(alloc),
        }
    }

    /// These tables, where their ids ascend strictly. Takes no memory.
    pub fn from_vec(handles: Vec<SsTableHandle>) -> Option<Tables>
        ensures { result ≡ (if ascend handles.items then Some handles.items else None) }
    {
        if are_ascending(handles.as_slice()) {
            Some(Tables { handles })
        } else {
            drop(handles);
            None
        }
    }

    /// The tables, ascending by id.
    pub fn as_slice(&self) -> &[SsTableHandle]
        ensures tables { result.now ≡ self.now }
        ensures ascending { ascend self.now ≡ true }
    {
        self.handles.as_slice()
    }

    /// The table of an id, by search.
    #[tactic(auto, using(crate::proofs::Lookups::found))]
    pub fn get(&self, id: Ulid) -> Option<&SsTableHandle>
        ensures { option_copied result ≡ table_at id self.now }
    {
        let handles = self.handles.as_slice();
        of_id(table_from(handles, place_of(handles, id)), id)
    }
}
