//! What a compaction takes, as sets.
ghost use Rattle.std.specs.Prelude.{◌≡◌, IfOk};
ghost use Rattle.std.specs.BTreeMap.{is_at};
ghost use Rattle.std.specs.BTreeSet.{contains};
ghost use Rattle.std.specs.List.{list_any};
ghost use Rattle.std.specs.Ordering.{nat_cmp};
ghost use Rattle.slate_state_compactor.specs.Sources as named;
ghost use Rattle.slate_state_compactor.specs.Sources.{has_number, run_ids, view_ids};
ghost use Rattle.slate_ids.specs.Ulids.{id_cmp};
ghost use Rattle.slate_model_records.specs.Retaining.{has_id};

use slate_ids::{Listed, OutOfMemory, Ulid};
use slate_model::{LsmTreeState, SortedRun, SourceId, SsTableView};
use std::alloc::Global;
use std::collections::{BTreeSet, VecDeque};

// These keys, in order.
fn set_of<K: Ord + Copy + Drop>(alloc: Global, all: &[K]) -> Result<BTreeSet<K>, OutOfMemory>
    ensures { IfOk result (λ set. (key : K) → contains K.cmp set key ≡ list_any (is_at (K.cmp key)) all.now) }
{
    let mut set = BTreeSet::new(alloc);
    for key in all {
        set.insert(*key)?;
    }
    Ok(set)
}

// The views that sources name.
fn source_views(alloc: Global, sources: &[SourceId]) -> Result<Listed<Ulid>, OutOfMemory>
    ensures { IfOk result (λ ids. ids ≡ named.source_views sources.now) }
{
    let mut ids = Listed::new(alloc);
    for source in sources {
        if let SourceId::SstView(id) = source {
            ids.push(*id)?;
        }
    }
    Ok(ids)
}

// The runs that sources name.
fn source_runs(alloc: Global, sources: &[SourceId]) -> Result<Listed<u32>, OutOfMemory>
    ensures { IfOk result (λ numbers. numbers ≡ named.source_runs sources.now) }
{
    let mut numbers = Listed::new(alloc);
    for source in sources {
        if let SourceId::SortedRun(n) = source {
            numbers.push(*n)?;
        }
    }
    Ok(numbers)
}

/// The views that sources name, as a set.
#[tactic(auto, using(crate::proofs::Sets::same_ids))]
pub(crate) fn views_of(alloc: Global, sources: &[SourceId]) -> Result<BTreeSet<Ulid>, OutOfMemory>
    ensures { IfOk result (λ set. contains id_cmp set ≡ has_id (named.source_views sources.now)) }
{
    let ids = source_views(alloc, sources)?;
    let set = set_of(alloc, ids.as_slice());
    drop(ids);
    set
}

/// The runs that sources name, as a set.
#[tactic(auto, using(crate::proofs::Sets::same_numbers))]
pub(crate) fn runs_of(alloc: Global, sources: &[SourceId]) -> Result<BTreeSet<u32>, OutOfMemory>
    ensures { IfOk result (λ set. contains nat_cmp set ≡ has_number (named.source_runs sources.now)) }
{
    let numbers = source_runs(alloc, sources)?;
    let set = set_of(alloc, numbers.as_slice());
    drop(numbers);
    set
}

// The ids of views.
fn view_ids(alloc: Global, views: &VecDeque<SsTableView>) -> Result<Listed<Ulid>, OutOfMemory>
    ensures { IfOk result (λ ids. ids ≡ view_ids views.now.items) }
{
    let mut ids = Listed::new(alloc);
    for view in views.iter() {
        ids.push(view.id)?;
    }
    Ok(ids)
}

// The numbers of runs.
fn run_ids(alloc: Global, runs: &[SortedRun]) -> Result<Listed<u32>, OutOfMemory>
    ensures { IfOk result (λ numbers. numbers ≡ run_ids runs.now) }
{
    let mut numbers = Listed::new(alloc);
    for run in runs {
        numbers.push(run.id)?;
    }
    Ok(numbers)
}

// Whether a tree has all the views that sources name.
#[tactic(auto, using(crate::proofs::Sets::same_ids))]
fn views_stand(
    alloc: Global,
    sources: &[SourceId],
    tree: &LsmTreeState,
) -> Result<bool, OutOfMemory>
    ensures { IfOk result (λ stand. stand ≡ named.views_stand sources.now tree.now) }
{
    let named = source_views(alloc, sources)?;
    let ids = view_ids(alloc, tree.l0.as_deque())?;
    let set = set_of(alloc, ids.as_slice())?;
    Ok(named.as_slice().iter().all(|id| set.contains(id)))
}

// Whether a tree has all the runs that sources name.
#[tactic(auto, using(crate::proofs::Sets::same_numbers))]
fn runs_stand(alloc: Global, sources: &[SourceId], tree: &LsmTreeState) -> Result<bool, OutOfMemory>
    ensures { IfOk result (λ stand. stand ≡ named.runs_stand sources.now tree.now) }
{
    let named = source_runs(alloc, sources)?;
    let numbers = run_ids(alloc, tree.compacted.as_slice())?;
    let set = set_of(alloc, numbers.as_slice())?;
    Ok(named.as_slice().iter().all(|n| set.contains(n)))
}

/// Whether a tree has all that sources name.
pub(crate) fn all_stand(
    alloc: Global,
    sources: &[SourceId],
    tree: &LsmTreeState,
) -> Result<bool, OutOfMemory>
    ensures { IfOk result (λ stand. stand ≡ named.all_stand sources.now tree.now) }
{
    if !views_stand(alloc, sources, tree)? {
        return Ok(false);
    }
    runs_stand(alloc, sources, tree)
}
