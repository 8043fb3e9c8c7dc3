//! The tables of views, gathered by id.
ghost use Rattle.std.specs.Prelude.{◌≡◌, ◌++◌, [], length, IfOk, OnOk, Some, None, map, true, if◌then◌else◌};
ghost use Rattle.std.specs.List.{flat_map, list_all};
ghost use Rattle.slate_model.specs.Trees.{views_of};
ghost use Rattle.slate_layout_parts.specs.Bytes.{list_bytes};
ghost use Rattle.slate_layout_parts.specs.InfoParts.{handle_bytes};
ghost use Rattle.slate_layout_parts.specs.Typed.{is_handle};
ghost use Rattle.slate_layout_manifests.specs.Gathered as gathering;
ghost use Rattle.slate_layout_manifests.specs.Gathered.{gathered, with_view};

use bytes::Bytes;
use slate_ids::OutOfMemory;
use slate_layout_parts::{Part, parts_of, table_id, write_count};
use slate_model::{ManifestCore, Plain, SsTableHandle, SsTableInfo, SsTableView};
use std::alloc::Global;
use std::collections::BTreeMap;
use std::marker::Model;

/// Tables by their ids, ascending, each once.
#[derive(Drop)]
pub struct Gathered {
    tables: BTreeMap<(u64, u128), SsTableHandle>,
}

impl Model for Gathered {
    ghost use Rattle.slate_layout_manifests.specs.Gathered.{ById};

    ghost Value = { ById };

    ghost view = { λ a. a.tables.entries };
}

// Whether two keys, of which each may be missing, are equal.
fn same_key(a: &Option<Bytes>, b: &Option<Bytes>) -> bool
    ensures { result ≡ gathering.same_key a.now b.now }
{
    match (a, b) {
        (None, None) => true,
        (Some(a), Some(b)) => a.as_slice() == b.as_slice(),
        _ => false,
    }
}

// Whether the same is known of two tables.
fn same_info(a: &SsTableInfo, b: &SsTableInfo) -> bool
    ensures { result ≡ gathering.same_info a.now b.now }
{
    same_key(&a.first_entry, &b.first_entry)
        && same_key(&a.last_entry, &b.last_entry)
        && a.index_offset == b.index_offset
        && a.index_len == b.index_len
        && a.filter_offset == b.filter_offset
        && a.filter_len == b.filter_len
        && a.compression_codec == b.compression_codec
        && a.sst_type == b.sst_type
        && a.stats_offset == b.stats_offset
        && a.stats_len == b.stats_len
        && a.filter_format == b.filter_format
}

// Whether two handles are equal.
fn same_handle(a: &SsTableHandle, b: &SsTableHandle) -> bool
    ensures { result ≡ gathering.same_handle a.now b.now }
{
    a.id == b.id && a.format_version == b.format_version && same_info(&a.info, &b.info)
}

// Adds the bytes of tables at the end.
fn write_tables(
    tables: &BTreeMap<(u64, u128), SsTableHandle>,
    out: &mut Vec<u8>,
) -> Result<(), OutOfMemory>
    ensures bytes { OnOk result (out.new.items ≡ out.old.items ++ flat_map handle_bytes (map (λ e. e.1) tables.now.entries)) }
    ensures typed { OnOk result (list_all is_handle (map (λ e. e.1) tables.now.entries) ≡ true) }
{
    for (_, table) in tables {
        table.write(out)?;
    }
    Ok(())
}

impl Gathered {
    /// No tables. Takes no memory.
    pub fn new(alloc: Global) -> Gathered
        ensures { result ≡ [] }
    {
        Gathered {
            tables: BTreeMap::new(alloc),
        }
    }

    /// How many tables there are.
    pub fn len(&self) -> usize
        ensures { result ≡ length self.now }
    {
        self.tables.len()
    }

    /// Adds the bytes of the tables, ascending by id, at the end.
    pub fn write(&self, out: &mut Vec<u8>) -> Result<(), OutOfMemory>
        ensures bytes { OnOk result (out.new.items ≡ out.old.items ++ list_bytes handle_bytes (map (λ e. e.1) self.now)) }
        ensures typed { OnOk result (list_all is_handle (map (λ e. e.1) self.now) ≡ true) }
    {
        write_count(self.tables.len(), out)?;
        write_tables(&self.tables, out)
    }

    /// Adds the table of a view; whether its id has no other.
    fn add_view(&mut self, alloc: Global, view: &SsTableView) -> Result<bool, OutOfMemory>
        ensures { IfOk result (λ alone. with_view self.old view.now ≡ (if alone then Some self.new else None)) }
    {
        let id = parts_of(table_id(view.sst.id));
        if let Some(table) = self.tables.get(&id) {
            return Ok(same_handle(table, &view.sst));
        }
        drop(self.tables.insert(id, view.sst.clone(alloc)?)?);
        Ok(true)
    }

    /// The tables of all views; none where two of one id are unequal.
    pub fn of_core(alloc: Global, core: &ManifestCore) -> Result<Option<Gathered>, OutOfMemory>
        ensures { IfOk result (λ tables. tables ≡ gathered (views_of core.now) []) }
    {
        let mut tables = Gathered::new(alloc);
        for view in core.views() {
            match tables.add_view(alloc, view) {
                Ok(true) => {}
                Ok(false) => {
                    drop(tables);
                    return Ok(None);
                }
                Err(e) => {
                    drop(tables);
                    return Err(e);
                }
            }
        }
        Ok(Some(tables))
    }
}
