//! The items of a database by prefix.
ghost use Rattle.std.specs.Prelude.{◌≡◌, ℕ, false, List, [], ◌∷◌, IfOk, OnOk, bytes_eq, if◌then◌else◌};
ghost use Rattle.std.specs.List.{filter};
ghost use Rattle.slate_script_databases.specs.Databases.{is_l0_of, is_run_of, is_marker_of};
ghost use Rattle.slate_script_databases.specs.PrefixGroups.{group_at, items_of, with_l0, with_runs, with_markers};

use crate::tree_items::{L0Item, MarkerItem, RunItem, TreeItems};
use bytes::Bytes;
use slate_ids::{Listed, OutOfMemory};
use std::alloc::Global;
use std::collections::BTreeMap;

/// Items by the prefix of their tree.
pub(crate) type Groups = BTreeMap<Bytes, TreeItems>;

// Takes the items of a prefix out.
#[tactic(auto, using(crate::proofs::Grouped::taken_at))]
fn take_group(alloc: Global, groups: &mut Groups, prefix: &Bytes) -> TreeItems
    ensures group { result ≡ group_at groups.old prefix.now }
    ensures others { (q : List ℕ) → bytes_eq prefix.now q ≡ false → group_at groups.new q
        ≡ group_at groups.old q }
{
    match groups.remove(prefix) {
        Some(group) => group,
        None => TreeItems {
            l0: Listed::new(alloc),
            runs: Listed::new(alloc),
            markers: Listed::new(alloc),
        },
    }
}

// Puts the items of a prefix in the place of those that it has.
#[tactic(auto, using(crate::proofs::Grouped::put_at))]
fn put_group(groups: &mut Groups, prefix: Bytes, group: TreeItems) -> Result<(), OutOfMemory>
    ensures { OnOk result ((q : List ℕ) → group_at groups.new q
        ≡ (if bytes_eq prefix q then group else group_at groups.old q)) }
{
    let before = groups.insert(prefix, group)?;
    drop(before);
    Ok(())
}

// Adds an item of `l0` at the end of its prefix's.
fn add_l0(alloc: Global, groups: &mut Groups, item: &L0Item) -> Result<(), OutOfMemory>
    ensures { OnOk result ((q : List ℕ) → group_at groups.new q
        ≡ (if is_l0_of q item.now then with_l0 (group_at groups.old q) (item.now ∷ [])
        else group_at groups.old q)) }
{
    let mut group = take_group(alloc, groups, &item.prefix);
    group.l0.push(item.copy()?)?;
    put_group(groups, item.prefix.clone()?, group)
}

// Adds an item of `runs` at the end of its prefix's.
fn add_run(alloc: Global, groups: &mut Groups, item: &RunItem) -> Result<(), OutOfMemory>
    ensures { OnOk result ((q : List ℕ) → group_at groups.new q
        ≡ (if is_run_of q item.now then with_runs (group_at groups.old q) (item.now ∷ [])
        else group_at groups.old q)) }
{
    let mut group = take_group(alloc, groups, &item.prefix);
    group.runs.push(item.copy(alloc)?)?;
    put_group(groups, item.prefix.clone()?, group)
}

// Adds an item of `markers` at the end of its prefix's.
fn add_marker(alloc: Global, groups: &mut Groups, item: &MarkerItem) -> Result<(), OutOfMemory>
    ensures { OnOk result ((q : List ℕ) → group_at groups.new q
        ≡ (if is_marker_of q item.now then with_markers (group_at groups.old q) (item.now ∷ [])
        else group_at groups.old q)) }
{
    let mut group = take_group(alloc, groups, &item.prefix);
    group.markers.push(item.copy()?)?;
    put_group(groups, item.prefix.clone()?, group)
}

// Adds items of `l0`.
fn add_all_l0(alloc: Global, groups: &mut Groups, items: &[L0Item]) -> Result<(), OutOfMemory>
    ensures { OnOk result ((q : List ℕ) → group_at groups.new q
        ≡ with_l0 (group_at groups.old q) (filter (is_l0_of q) items.now)) }
{
    for item in items {
        add_l0(alloc, groups, item)?;
    }
    Ok(())
}

// Adds items of `runs`.
fn add_runs(alloc: Global, groups: &mut Groups, items: &[RunItem]) -> Result<(), OutOfMemory>
    ensures { OnOk result ((q : List ℕ) → group_at groups.new q
        ≡ with_runs (group_at groups.old q) (filter (is_run_of q) items.now)) }
{
    for item in items {
        add_run(alloc, groups, item)?;
    }
    Ok(())
}

// Adds items of `markers`.
fn add_markers(alloc: Global, groups: &mut Groups, items: &[MarkerItem]) -> Result<(), OutOfMemory>
    ensures { OnOk result ((q : List ℕ) → group_at groups.new q
        ≡ with_markers (group_at groups.old q) (filter (is_marker_of q) items.now)) }
{
    for item in items {
        add_marker(alloc, groups, item)?;
    }
    Ok(())
}

/// The items by prefix, in the order of the script.
pub(crate) fn groups_of(alloc: Global, items: &TreeItems) -> Result<Groups, OutOfMemory>
    ensures { IfOk result (λ groups. (q : List ℕ) → group_at groups q ≡ items_of q items.now) }
{
    let mut groups = BTreeMap::new(alloc);
    add_all_l0(alloc, &mut groups, items.l0.as_slice())?;
    add_runs(alloc, &mut groups, items.runs.as_slice())?;
    add_markers(alloc, &mut groups, items.markers.as_slice())?;
    Ok(groups)
}
