//! Which tables the views of a manifest are of.
ghost use Rattle.std.specs.Prelude.{◌≡◌, ℕ, IfOk};
ghost use Rattle.std.specs.List.{list_all};
ghost use Rattle.slate_model.specs.Trees.{views_of};
ghost use Rattle.slate_layout_parts.specs.TablesOfViews as tables;
ghost use Rattle.slate_layout_manifests.specs.UsedTables.{has, any_of};
ghost use Rattle.slate_layout_manifests.specs.ManifestParts.{all_used};

use slate_ids::OutOfMemory;
use slate_layout_parts::{parts_of, table_id};
use slate_model::{Manifest, ManifestCore, SsTableHandle};
use std::alloc::Global;
use std::collections::BTreeSet;

/// Ids of tables, in order.
type Ids = BTreeSet<(u64, u128)>;

// The tables of all views.
fn used_by(alloc: Global, core: &ManifestCore) -> Result<Ids, OutOfMemory>
    ensures { IfOk result (λ ids. (q : ℕ × ℕ) → has ids q ≡ any_of q (views_of core.now)) }
{
    let mut ids = BTreeSet::new(alloc);
    for view in core.views() {
        match ids.insert(parts_of(table_id(view.sst.id))) {
            Ok(_) => {}
            Err(e) => {
                drop(ids);
                return Err(OutOfMemory::from(e));
            }
        }
    }
    Ok(ids)
}

// Whether each table is among these ids.
fn are_among(handles: &[SsTableHandle], ids: &Ids) -> bool
    ensures { result ≡ list_all (λ h. has ids.now (tables.table_id h.id)) handles.now }
{
    for table in handles {
        if !ids.contains(&parts_of(table_id(table.id))) {
            return false;
        }
    }
    true
}

/// Whether each of these tables is used by a view of the manifest.
pub fn are_all_used(
    alloc: Global,
    handles: &[SsTableHandle],
    manifest: &Manifest,
) -> Result<bool, OutOfMemory>
    ensures { IfOk result (λ all. all ≡ all_used handles.now manifest.now) }
{
    let ids = used_by(alloc, &manifest.core)?;
    let all = are_among(handles, &ids);
    drop(ids);
    Ok(all)
}
