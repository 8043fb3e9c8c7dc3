//! The trees of a new database.
ghost use Rattle.std.specs.Prelude.{◌≡◌, map, filter, option_map, IfOk};
ghost use Rattle.std.specs.List.{find};
ghost use Rattle.slate_model.specs.Segments.{IsAscending};
ghost use Rattle.slate_script_databases.specs.Databases as databases;
ghost use Rattle.slate_script_databases.specs.Databases.{view_of, own_view, is_l0_of, is_run_of, is_marker_of};
ghost use Rattle.slate_script_databases.specs.PrefixGroups.{group_at};

use crate::groups::{Groups, groups_of};
use crate::opening_tables::table_of;
use crate::prefixes::{Prefixes, segment_prefixes};
use crate::tree_items::{L0Item, MarkerItem, RunItem, TreeItems};
use bytes::Bytes;
use slate_ids::{Listed, OutOfMemory, Ulid};
use slate_model::{LsmTreeState, Queue, Segment, SortedRun, SsTableView};
use std::alloc::Global;

// The views of these items that are in the tree of a prefix.
fn views_in(alloc: Global, prefix: &[u8], items: &[L0Item]) -> Result<Vec<SsTableView>, OutOfMemory>
    ensures { IfOk result
        (λ views. views.items ≡ map view_of (filter (is_l0_of prefix.now) items.now)) }
{
    let mut views = Vec::new(alloc);
    for item in items {
        if item.prefix.as_slice() == prefix {
            views.push(SsTableView::new(item.view_id, table_of(item.table_id)))?;
        }
    }
    Ok(views)
}

// The tables' own views.
fn own_views(alloc: Global, ids: &[Ulid]) -> Result<Vec<SsTableView>, OutOfMemory>
    ensures { IfOk result (λ views. views.items ≡ map own_view ids.now) }
{
    let mut views = Vec::new(alloc);
    for id in ids {
        views.push(SsTableView::identity(table_of(*id)))?;
    }
    Ok(views)
}

// The run of an item.
fn run_of(alloc: Global, item: &RunItem) -> Result<SortedRun, OutOfMemory>
    ensures { IfOk result (λ run. run ≡ databases.run_of item.now) }
{
    let views = own_views(alloc, item.table_ids.as_slice())?;
    Ok(SortedRun::new(item.id, views))
}

// The runs of these items that are in the tree of a prefix.
fn runs_in(
    alloc: Global,
    prefix: &[u8],
    items: &[RunItem],
) -> Result<Listed<SortedRun>, OutOfMemory>
    ensures { IfOk result (λ runs. runs ≡ map databases.run_of (filter (is_run_of prefix.now) items.now)) }
{
    let mut runs = Listed::new(alloc);
    for item in items {
        if item.prefix.as_slice() == prefix {
            runs.push(run_of(alloc, item)?)?;
        }
    }
    Ok(runs)
}

// The view that was compacted last in the tree of a prefix.
fn marker_in(prefix: &[u8], items: &[MarkerItem]) -> Option<Ulid>
    ensures { result ≡ option_map (λ i. i.view_id) (find (is_marker_of prefix.now) items.now) }
{
    for item in items {
        if item.prefix.as_slice() == prefix {
            return Some(item.view_id);
        }
    }
    None
}

/// The tree of a prefix.
pub(crate) fn tree_of(
    alloc: Global,
    prefix: &[u8],
    items: &TreeItems,
) -> Result<LsmTreeState, OutOfMemory>
    ensures { IfOk result (λ tree. tree ≡ databases.tree_of prefix.now items.now) }
{
    let views = views_in(alloc, prefix, items.l0.as_slice())?;
    match runs_in(alloc, prefix, items.runs.as_slice()) {
        Ok(compacted) => Ok(LsmTreeState {
            last_compacted_l0_sst_view_id: marker_in(prefix, items.markers.as_slice()),
            last_compacted_l0_sst_id: None,
            l0: Queue::from_vec(views),
            compacted,
        }),
        Err(e) => {
            drop(views);
            Err(e)
        }
    }
}

// The tree of a prefix, of the items that its group has.
fn tree_in(alloc: Global, groups: &Groups, prefix: &Bytes) -> Result<LsmTreeState, OutOfMemory>
    ensures { IfOk result
        (λ tree. tree ≡ databases.tree_of prefix.now (group_at groups.now prefix.now)) }
{
    match groups.get(prefix) {
        Some(group) => tree_of(alloc, prefix.as_slice(), group),
        None => Ok(LsmTreeState::new(alloc)),
    }
}

// The segment of a prefix.
fn segment_of(alloc: Global, groups: &Groups, prefix: &Bytes) -> Result<Segment, OutOfMemory>
    ensures { IfOk result
        (λ segment. segment ≡ databases.segment_of (group_at groups.now prefix.now) prefix.now) }
{
    let copied = prefix.clone()?;
    match tree_in(alloc, groups, prefix) {
        Ok(tree) => Ok(Segment::new(copied, tree)),
        Err(e) => {
            drop(copied);
            Err(e)
        }
    }
}

// The segments of these prefixes.
fn segments_at(
    alloc: Global,
    groups: &Groups,
    prefixes: &Prefixes,
) -> Result<Vec<Segment>, OutOfMemory>
    ensures { IfOk result
        (λ segments. segments.items ≡ map (λ p. databases.segment_of (group_at groups.now p) p) prefixes.now.keys) }
{
    let mut segments = Vec::new(alloc);
    for prefix in prefixes.iter() {
        segments.push(segment_of(alloc, groups, prefix)?)?;
    }
    Ok(segments)
}

/// A segment for each prefix that is named, other than "", ascending.
#[tactic(auto, using(crate::proofs::Ascending::segments_ascend))]
pub(crate) fn segments_of(alloc: Global, items: &TreeItems) -> Result<Vec<Segment>, OutOfMemory>
    ensures segments { IfOk result (λ segments. segments.items ≡ databases.segments_of items.now) }
    ensures ascending { IsAscending (databases.segments_of items.now) }
{
    let groups = groups_of(alloc, items)?;
    let prefixes = segment_prefixes(alloc, items)?;
    segments_at(alloc, &groups, &prefixes)
}
