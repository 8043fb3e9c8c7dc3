//! The bytes of views and runs.
ghost use Rattle.std.specs.Prelude.{◌≡◌, ◌++◌, Some, true, IfOk, OnOk, option_copied};
ghost use Rattle.std.proofs.Common.{arith};
ghost use Rattle.slate_model_tables.specs.Tables.{physical_range};
ghost use Rattle.slate_model_tables.specs.Views.{starts_with_key};
ghost use Rattle.slate_layout_parts.specs.Bytes.{option_bytes};
ghost use Rattle.slate_layout_parts.specs.RangeParts.{range_bytes};
ghost use Rattle.slate_layout_parts.specs.ViewParts as views;
ghost use Rattle.slate_layout_parts.specs.Typed as typed;
ghost use Rattle.slate_layout_parts.specs.laws.Views as laws;

use crate::groups::write_items;
use crate::numbers::write_count;
use crate::part::Part;
use crate::reader::Reader;
use crate::tables::{Tables, table_id};
use bytes::Bytes;
use slate_ids::{BytesRange, KeySpan, Listed, OutOfMemory, Ulid};
use slate_model_tables::{Plain, SortedRun, SsTableHandle, SsTableView};
use std::alloc::Global;
use std::ops::Bound;

// The keys of a table from its first one.
fn keys_from<'a>(first: &'a Bytes, table: &'a SsTableHandle) -> KeySpan<'a>
    requires { table.now.info.first_entry ≡ Some first.now }
    ensures { result ≡ physical_range table.now }
{
    match &table.info.last_entry {
        None => KeySpan::new(Bound::Included(first), Bound::Unbounded),
        Some(last) => KeySpan::new(Bound::Included(first), Bound::Included(last)),
    }
}

// Whether a range starts at a key or is open there.
fn starts_with_key(range: &BytesRange) -> bool
    ensures { result ≡ starts_with_key range.now.start }
{
    match range.start_bound() {
        Bound::Excluded(_) => false,
        Bound::Included(_) | Bound::Unbounded => true,
    }
}

/// Whether a table has a first entry, and a visible range, where not all is visible, may be one of it.
pub fn may_show(table: &SsTableHandle, visible: &Option<BytesRange>) -> bool
    ensures { result ≡ views.may_show table.now visible.now }
{
    match (&table.info.first_entry, visible) {
        (None, _) => false,
        (Some(_), None) => true,
        (Some(first), Some(range)) => {
            starts_with_key(range) && keys_from(first, table).meets(&range.as_span())
        }
    }
}

// The view's id, its table's id, and what is visible, where not all is.
type ViewParts = (Ulid, (Ulid, Option<BytesRange>));

// The view of its parts, among these tables.
fn view_of(
    alloc: Global,
    tables: &Tables,
    read: ViewParts,
) -> Result<Option<SsTableView>, OutOfMemory>
    ensures { IfOk result (λ view. view ≡ views.view_of tables.now read) }
{
    let (id, (table, visible)) = read;
    match tables.get(table) {
        None => {
            drop(visible);
            Ok(None)
        }
        Some(table) => {
            if !may_show(table, &visible) {
                drop(visible);
                return Ok(None);
            }
            match table.clone(alloc) {
                Ok(table) => Ok(Some(SsTableView::new_projected(id, table, visible))),
                Err(e) => {
                    drop(visible);
                    Err(e)
                }
            }
        }
    }
}

// Adds the bytes of a visible range, where there is one, at the end.
fn write_visible(visible: Option<&BytesRange>, out: &mut Vec<u8>) -> Result<(), OutOfMemory>
    ensures { OnOk result (out.new.items ≡ out.old.items ++ option_bytes range_bytes (option_copied visible.entry)) }
{
    match visible {
        None => false.write(out),
        Some(range) => {
            true.write(out)?;
            range.write(out)
        }
    }
}

// What is visible of a view's table is a proper range that may be.
#[tactic(auto, using(crate::proofs::Shown::all_shown, crate::proofs::Shown::range_shown))]
fn is_shown(view: &SsTableView)
    ensures { typed.is_shown view.now.sst view.now.visible ≡ true }
{
    if let Some(visible) = view.visible_range() {
        let _span = visible.as_span();
    }
}

impl Part for SsTableView {
    ghost bytes = { views.view_bytes };

    ghost in_front = { views.view_in };

    ghost Fits = { views.ViewFits };

    ghost is_typed = { typed.is_view };

    ghost LEAST = { 8 };

    const LEAST: usize = 8;

    ghost few = { omega arith };

    ghost reads = { laws.view_reads };

    fn write(&self, out: &mut Vec<u8>) -> Result<(), OutOfMemory> {
        is_shown(self);
        self.id.write(out)?;
        table_id(self.sst.id).write(out)?;
        write_visible(self.visible_range(), out)
    }

    fn read<'a>(
        alloc: Global,
        tables: &Tables,
        from: Reader<'a>,
    ) -> Result<Option<(SsTableView, Reader<'a>)>, OutOfMemory> {
        let Some((read, from)) = ViewParts::read(alloc, tables, from)? else {
            return Ok(None);
        };
        match view_of(alloc, tables, read)? {
            Some(view) => Ok(Some((view, from))),
            None => Ok(None),
        }
    }
}

impl Part for SortedRun {
    ghost bytes = { views.run_bytes };

    ghost in_front = { views.run_in };

    ghost Fits = { views.RunFits };

    ghost is_typed = { typed.is_run };

    ghost LEAST = { 4 };

    const LEAST: usize = 4;

    ghost few = { omega arith };

    ghost reads = { laws.run_reads };

    fn write(&self, out: &mut Vec<u8>) -> Result<(), OutOfMemory> {
        let views = self.sst_views();
        self.id.write(out)?;
        write_count(views.len(), out)?;
        write_items(views, out)
    }

    fn read<'a>(
        alloc: Global,
        tables: &Tables,
        from: Reader<'a>,
    ) -> Result<Option<(SortedRun, Reader<'a>)>, OutOfMemory> {
        match <(u32, Listed<SsTableView>)>::read(alloc, tables, from)? {
            Some(((id, views), from)) => Ok(Some((SortedRun::new(id, views.into_vec()), from))),
            None => Ok(None),
        }
    }
}
