//! The rules on a new version.
ghost use Rattle.std.specs.Prelude.{◌≡◌, ◌==◌, ◌+◌, ◌||◌, IfOk, not};
ghost use Rattle.std.specs.BTreeSet.{contains};
ghost use Rattle.std.specs.List.{list_all};
ghost use Rattle.std.specs.Ordering.{nat_cmp};
ghost use Rattle.slate_ids.specs.Answers.{Gives, refused};
ghost use Rattle.slate_ids.specs.declared.error.UpdateRule.TheVariants as rule;
ghost use Rattle.slate_state_updates.specs.ExternalEntries as entries;
ghost use Rattle.slate_state_updates.specs.RunTables as runs;
ghost use Rattle.slate_state_updates.specs.Rules as rules;
ghost use Rattle.slate_state_updates.specs.Rules.{unless_kept, manifest_refusal};

use crate::entries::entries_kept;
use crate::flushed_tables::l0_ulid_cutoff;
use crate::named::named_versions;
use crate::prefixes::check_prefixes;
use crate::run_tables::runs_known;
use slate_ids::{OutOfMemory, SlateDBError, UpdateRule};
use slate_model::Manifest;
use slate_txn_log::{Right, Rules};
use std::alloc::Global;
use std::collections::BTreeSet;

fn falls(old: &Manifest, new: &Manifest) -> bool
    ensures { result ≡ rules.falls old.now new.now }
{
    new.writer_epoch < old.writer_epoch
        || new.compactor_epoch < old.compactor_epoch
        || new.core.replay_after_wal_id < old.core.replay_after_wal_id
        || new.core.floor < old.core.floor
}

fn follows(n: u64, old_id: u64) -> bool
    ensures { result ≡ (n == old_id + 1) }
{
    n > 0 && n - 1 == old_id
}

// Whether each checkpoint names the version after the old one, or one of the set.
fn are_known(old_id: u64, named: &BTreeSet<u64>, new: &Manifest) -> bool
    ensures { result ≡ list_all
        (λ c. c.manifest_id == old_id + 1 || contains nat_cmp named.now c.manifest_id) new.now.core.checkpoints }
{
    let checkpoints = new.core.checkpoints.as_slice();
    checkpoints.iter().all(|c| follows(c.manifest_id, old_id) || named.contains(&c.manifest_id))
}

fn names_known(
    alloc: Global,
    old_id: u64,
    old: &Manifest,
    new: &Manifest,
) -> Result<bool, OutOfMemory>
    ensures { IfOk result (λ known. known ≡ rules.names_known old_id old.now new.now) }
{
    let named = named_versions(alloc, old.core.checkpoints.as_slice())?;
    let known = are_known(old_id, &named, new);
    drop(named);
    Ok(known)
}

// The refusal that names a rule, where it isn't kept.
fn unless_kept(rule: UpdateRule, kept: bool) -> Result<(), SlateDBError>
    ensures { result ≡ refused (rules.unless_kept rule kept) }
{
    if kept {
        Ok(())
    } else {
        Err(SlateDBError::UpdateRefused(rule))
    }
}

/// Whether neither epoch falls, nor the last file of the write-ahead log that needs no replay, nor the floor; else UpdateRefused(U1).
/// Takes no memory.
pub fn check_numbers(old: &Manifest, new: &Manifest) -> Result<(), SlateDBError>
    ensures { result ≡ refused (unless_kept rule.U1 (not (rules.falls old.now new.now))) }
{
    unless_kept(UpdateRule::U1, !falls(old, new))
}

/// Whether each checkpoint names the version after the old one, whose number is `old_id`, or a version that a checkpoint of the old one
/// names; else UpdateRefused(U2).
pub fn check_names(
    alloc: Global,
    old_id: u64,
    old: &Manifest,
    new: &Manifest,
) -> Result<(), SlateDBError>
    ensures { Gives result (refused (unless_kept rule.U2 (rules.names_known old_id old.now new.now))) }
{
    unless_kept(UpdateRule::U2, names_known(alloc, old_id, old, new)?)
}

/// Whether each entry of another database is an old one, by path and pin, with some of its tables in their order, and each table of an old
/// entry that a view of the new manifest uses is still listed under that path and pin; else UpdateRefused(U3).
pub fn check_entries(alloc: Global, old: &Manifest, new: &Manifest) -> Result<(), SlateDBError>
    ensures { Gives result (refused (unless_kept rule.U3 (entries.entries_kept old.now new.now))) }
{
    unless_kept(UpdateRule::U3, entries_kept(alloc, old, new)?)
}

/// Whether each table of a sorted run was in a tree of the old manifest, or was made by the compactor whose right it is; else
/// UpdateRefused(U5). Under the right that attaches another database any table may come.
pub fn check_runs(
    alloc: Global,
    old: &Manifest,
    new: &Manifest,
    right: &Right,
) -> Result<(), SlateDBError>
    ensures { Gives result (refused (unless_kept rule.U5 (runs.runs_known old.now new.now right.now))) }
{
    unless_kept(UpdateRule::U5, runs_known(alloc, old, new, right)?)
}

/// Which manifests may follow which, by six rules, of which the first that is broken is answered: `check_numbers`, `check_names`,
/// `check_entries`, `l0_ulid_cutoff`, `check_runs`, `check_prefixes`.
#[derive(Clone, Copy, Debug)]
pub struct ManifestRules;

impl Rules<Manifest> for ManifestRules {
    ghost refusal = { λ _ id old new right. manifest_refusal id old new right };

    fn check(
        &self,
        alloc: Global,
        old_id: u64,
        old: &Manifest,
        new: &Manifest,
        right: &Right,
    ) -> Result<(), SlateDBError> {
        check_numbers(old, new)?;
        check_names(alloc, old_id, old, new)?;
        check_entries(alloc, old, new)?;
        l0_ulid_cutoff(alloc, new, old)?;
        check_runs(alloc, old, new, right)?;
        check_prefixes(alloc, new)
    }
}
