//! Entries of other databases, from one version of a manifest to the next.
ghost use Rattle.std.specs.Prelude.{◌≡◌, ◌∷◌, ◌++◌, ◌||◌, List, [], not, IfOk, OnOk};
ghost use Rattle.std.specs.List.{list_any, list_all};
ghost use Rattle.slate_model_tables.specs.declared.ss_table_id.SsTableId.{SsTableId as Table};
ghost use Rattle.slate_state_updates.specs.ExternalEntries as entries;
ghost use Rattle.slate_model.specs.Trees.{tables_of};
ghost use Rattle.slate_state_updates.specs.TableSets.{has_table, IsTableSet};

use crate::tables::{TableSet, known_set, set_of};
use slate_ids::{CheckpointId, Listed, OutOfMemory};
use slate_model::{ExternalDb, Manifest, SsTableId};
use std::alloc::Global;

// Whether two pins are one.
fn same_pin(a: &Option<CheckpointId>, b: &Option<CheckpointId>) -> bool
    ensures { result ≡ entries.same_pin a.now b.now }
{
    match (a, b) {
        (Some(a), Some(b)) => a.is(b),
        (None, None) => true,
        _ => false,
    }
}

// Whether two entries are of one path and pin.
fn same_entry(a: &ExternalDb, b: &ExternalDb) -> bool
    ensures { result ≡ entries.same_entry a.now b.now }
{
    a.path.as_str() == b.path.as_str() && same_pin(&a.final_checkpoint_id, &b.final_checkpoint_id)
}

// What is left of the tables that are to be found, after one.
fn left_after<'a>(kept: &'a [SsTableId], id: &SsTableId) -> &'a [SsTableId]
    ensures { (ids : List Table)
        → entries.are_sublist result.now ids ≡ entries.are_sublist kept.now (id.now ∷ ids) }
{
    match kept.split_first() {
        Some((first, others)) if first == id => others,
        _ => kept,
    }
}

// Whether nothing is left to be found.
fn are_found(left: &[SsTableId]) -> bool
    ensures { result ≡ entries.are_sublist left.now [] }
{
    match left.split_first() {
        Some(_) => false,
        None => true,
    }
}

// Whether the first tables stand among the second ones in their order.
fn are_sublist(kept: &[SsTableId], ids: &[SsTableId]) -> bool
    ensures { result ≡ entries.are_sublist kept.now ids.now }
{
    let mut left = kept;
    for id in ids {
        left = left_after(left, id);
    }
    are_found(left)
}

// Whether an entry is an old one, with some of its tables.
fn is_kept(entry: &ExternalDb, old: &ExternalDb) -> bool
    ensures { result ≡ entries.is_kept entry.now old.now }
{
    same_entry(entry, old) && are_sublist(entry.sst_ids.as_slice(), old.sst_ids.as_slice())
}

// Whether an entry is one of the old ones.
fn is_known(entry: &ExternalDb, old: &[ExternalDb]) -> bool
    ensures { result ≡ list_any (entries.is_kept entry.now) old.now }
{
    old.iter().any(|other| is_kept(entry, other))
}

// Whether each entry is one of the old ones.
fn entries_known(old: &[ExternalDb], new: &[ExternalDb]) -> bool
    ensures { result ≡ entries.entries_known old.now new.now }
{
    new.iter().all(|entry| is_known(entry, old))
}

// Adds the tables of an entry.
fn push_ids(ids: &mut Listed<SsTableId>, entry: &ExternalDb) -> Result<(), OutOfMemory>
    ensures { OnOk result (ids.new ≡ ids.old ++ entry.now.sst_ids) }
{
    for id in entry.sst_ids.as_slice() {
        ids.push(*id)?;
    }
    Ok(())
}

// The tables that the entries of an old one's path and pin list.
fn tables_with(
    alloc: Global,
    old: &ExternalDb,
    new: &[ExternalDb],
) -> Result<Listed<SsTableId>, OutOfMemory>
    ensures { IfOk result (λ ids. ids ≡ entries.tables_with old.now new.now) }
{
    let mut ids = Listed::new(alloc);
    for entry in new {
        if same_entry(entry, old) {
            push_ids(&mut ids, entry)?;
        }
    }
    Ok(ids)
}

// The same, as a set.
fn set_with(alloc: Global, old: &ExternalDb, new: &[ExternalDb]) -> Result<TableSet, OutOfMemory>
    ensures { IfOk result (λ set. IsTableSet set (entries.tables_with old.now new.now)) }
{
    let ids = tables_with(alloc, old, new)?;
    let set = set_of(alloc, ids.as_slice());
    drop(ids);
    set
}

// Whether each of these tables that is used is kept.
fn are_kept(ids: &[SsTableId], used: &TableSet, kept: &TableSet) -> bool
    ensures { result ≡ list_all (λ id. not (has_table used.now id) || has_table kept.now id) ids.now }
{
    ids.iter().all(|id| !used.contains(id) || kept.contains(id))
}

// Whether each used table of an old entry is listed by an entry of its path and pin.
fn used_stay(
    alloc: Global,
    used: &TableSet,
    new: &[ExternalDb],
    old: &ExternalDb,
) -> Result<bool, OutOfMemory>
    ensures { (ids : List Table) → IsTableSet used.now ids
        → IfOk result (λ stay. stay ≡ entries.used_stay ids new.now old.now) }
{
    let kept = set_with(alloc, old, new)?;
    let stay = are_kept(old.sst_ids.as_slice(), used, &kept);
    drop(kept);
    Ok(stay)
}

// Whether each of these used tables that an old entry lists is listed by an entry of that one's path and pin.
fn each_stays(
    alloc: Global,
    used: &TableSet,
    old: &[ExternalDb],
    new: &Manifest,
) -> Result<bool, OutOfMemory>
    requires used { IsTableSet used.now (tables_of new.now.core) }
    ensures { IfOk result (λ stay.
        stay ≡ list_all (entries.used_stay (tables_of new.now.core) new.now.external_dbs) old.now) }
{
    for entry in old {
        if !used_stay(alloc, used, new.external_dbs.as_slice(), entry)? {
            return Ok(false);
        }
    }
    Ok(true)
}

// Whether each table of each old entry that a view of the new manifest uses is listed by an entry of that one's path and pin.
fn all_used_stay(alloc: Global, old: &[ExternalDb], new: &Manifest) -> Result<bool, OutOfMemory>
    ensures { IfOk result (λ stay.
        stay ≡ list_all (entries.used_stay (tables_of new.now.core) new.now.external_dbs) old.now) }
{
    if old.is_empty() {
        return Ok(true);
    }
    let used = known_set(alloc, &new.core)?;
    let stay = each_stays(alloc, &used, old, new);
    drop(used);
    stay
}

/// Whether no entry is new, none gains a table, and none loses one that a view of the new manifest uses. Entries are one by path and
/// pin; where some are of one path and pin, any of them will do.
pub(crate) fn entries_kept(
    alloc: Global,
    old: &Manifest,
    new: &Manifest,
) -> Result<bool, OutOfMemory>
    ensures { IfOk result (λ kept. kept ≡ entries.entries_kept old.now new.now) }
{
    if !entries_known(old.external_dbs.as_slice(), new.external_dbs.as_slice()) {
        return Ok(false);
    }
    Ok(all_used_stay(alloc, old.external_dbs.as_slice(), new)?)
}
