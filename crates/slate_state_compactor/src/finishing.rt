//! What the end of a compaction makes of a tree.
ghost use Rattle.std.specs.Prelude.{◌≡◌, ◌≤◌, ◌==◌, length, nat_lt, not, IfOk, OnOk};
ghost use Rattle.std.specs.BTreeSet.{contains};
ghost use Rattle.std.specs.List.{list_any, prefix_len};
ghost use Rattle.std.specs.Ordering.{nat_cmp};
ghost use Rattle.slate_state_compactor.specs.Finishing as ends;
ghost use Rattle.slate_state_compactor.specs.Sources as sources;
ghost use Rattle.slate_ids.specs.Ulids.{id_cmp};

use crate::taken::{all_stand, runs_of, views_of};
use slate_ids::{Listed, OutOfMemory, Ulid};
use slate_model::{
    CompactionSpec, LsmTreeState, Plain, Queue, SortedRun, SsTableHandle, SsTableId, SsTableView,
};
use std::alloc::Global;
use std::collections::{BTreeSet, VecDeque};

// ---- what stays

// Whether a view is taken.
fn is_taken(taken: &BTreeSet<Ulid>, view: &SsTableView) -> bool
    ensures { result ≡ contains id_cmp taken.now view.now.id }
{
    taken.contains(&view.id)
}

// Whether the views that are taken are a suffix.
fn is_suffix(taken: &BTreeSet<Ulid>, views: &VecDeque<SsTableView>) -> bool
    ensures { result ≡ sources.is_suffix (contains id_cmp taken.now) views.now.items }
{
    let mut begun = false;
    for view in views.iter() {
        let takes = is_taken(taken, view);
        if begun && !takes {
            return false;
        }
        begun = begun || takes;
    }
    true
}

// The newest view that is taken.
fn newest_taken(taken: &BTreeSet<Ulid>, views: &VecDeque<SsTableView>) -> Option<Ulid>
    ensures { result ≡ ends.newest_taken (contains id_cmp taken.now) views.now.items }
{
    for view in views.iter() {
        if is_taken(taken, view) {
            return Some(view.id);
        }
    }
    None
}

// Equal views, without those that are taken.
fn views_left(
    alloc: Global,
    taken: &BTreeSet<Ulid>,
    views: &VecDeque<SsTableView>,
) -> Result<Queue<SsTableView>, OutOfMemory>
    ensures { IfOk result (λ left. left ≡ ends.views_left (contains id_cmp taken.now) views.now.items) }
{
    let mut left = Queue::new(alloc);
    for view in views.iter() {
        if !is_taken(taken, view) {
            left.push_back(Plain::clone(view, alloc)?)?;
        }
    }
    Ok(left)
}

// Equal runs, without those that are taken.
fn runs_left(
    alloc: Global,
    taken: &BTreeSet<u32>,
    runs: &[SortedRun],
) -> Result<Vec<SortedRun>, OutOfMemory>
    ensures { IfOk result (λ left. left.items ≡ ends.runs_left (contains nat_cmp taken.now) runs.now) }
{
    let mut left = Vec::new(alloc);
    for run in runs {
        if !taken.contains(&run.id) {
            left.push(Plain::clone(run, alloc)?)?;
        }
    }
    Ok(left)
}

// Whether one of the runs has this number.
fn has_run(n: u32, runs: &[SortedRun]) -> bool
    ensures { result ≡ list_any (λ r. r.id == n) runs.now }
{
    for run in runs {
        if run.id == n {
            return true;
        }
    }
    false
}

// Whether a run has the number of the run that a compaction writes.
fn collides(spec: &CompactionSpec, left: &[SortedRun]) -> bool
    ensures { result ≡ ends.collides spec.now left.now }
{
    match spec {
        CompactionSpec::Tiered { destination, .. } => has_run(*destination, left),
        CompactionSpec::DrainSegment { .. } => false,
    }
}

// ---- the run that is written

// The id of an output's own view.
fn output_id(id: SsTableId) -> Ulid
    ensures { result ≡ ends.output_id id }
{
    match id {
        SsTableId::Compacted(id) => id,
        SsTableId::Wal(_) => Ulid::from_parts(0, 0),
    }
}

// An output's own view.
fn output_view(alloc: Global, output: &SsTableHandle) -> Result<SsTableView, OutOfMemory>
    ensures { IfOk result (λ view. view ≡ ends.output_view output.now) }
{
    let sst = Plain::clone(output, alloc)?;
    Ok(SsTableView::new(output_id(output.id), sst))
}

// The run of a number that has these outputs.
fn output_run(alloc: Global, n: u32, outputs: &[SsTableHandle]) -> Result<SortedRun, OutOfMemory>
    ensures { IfOk result (λ run. run ≡ ends.output_run n outputs.now) }
{
    let mut views = Vec::new(alloc);
    for output in outputs {
        views.push(output_view(alloc, output)?)?;
    }
    Ok(SortedRun::new(n, views))
}

// How many runs stand before this one.
fn place_of(run: &SortedRun, runs: &[SortedRun]) -> usize
    ensures place { result ≡ prefix_len (λ r. not (nat_lt r.id run.now.id)) runs.now }
    ensures within { result ≤ length runs.now }
{
    let mut place = 0;
    for other in runs {
        if other.id < run.id {
            return place;
        }
        place += 1;
    }
    place
}

// Puts a run at its place: the numbers descend.
#[tactic(auto, using(crate::proofs::Placing::run_inserted))]
fn put_run(runs: &mut Vec<SortedRun>, run: SortedRun) -> Result<(), OutOfMemory>
    ensures { OnOk result (runs.new.items ≡ ends.with_run run runs.old.items) }
{
    let place = place_of(&run, runs.as_slice());
    Ok(runs.insert(place, run)?)
}

// These runs, with one more at its place.
fn with_run(run: SortedRun, left: Vec<SortedRun>) -> Result<Vec<SortedRun>, OutOfMemory>
    ensures { IfOk result (λ runs. runs.items ≡ ends.with_run run left.items) }
{
    let mut runs = left;
    match put_run(&mut runs, run) {
        Ok(()) => Ok(runs),
        Err(e) => {
            drop(runs);
            Err(e)
        }
    }
}

// The runs that stay, with what a compaction writes.
fn with_written(
    alloc: Global,
    spec: &CompactionSpec,
    outputs: &[SsTableHandle],
    left: Vec<SortedRun>,
) -> Result<Vec<SortedRun>, OutOfMemory>
    ensures { IfOk result (λ runs. runs.items ≡ ends.with_written spec.now outputs.now left.items) }
{
    match spec {
        CompactionSpec::DrainSegment { .. } => Ok(left),
        CompactionSpec::Tiered { destination, .. } => {
            match output_run(alloc, *destination, outputs) {
                Ok(run) => with_run(run, left),
                Err(e) => {
                    drop(left);
                    Err(e)
                }
            }
        }
    }
}

// ---- the tree

// The tree without what is taken, and with what the compaction writes beside the runs that stay.
fn tree_without(
    alloc: Global,
    taken: &BTreeSet<Ulid>,
    runs: Vec<SortedRun>,
    tree: &LsmTreeState,
) -> Result<LsmTreeState, OutOfMemory>
    ensures { IfOk result (λ made. made ≡ ends.tree_with (contains id_cmp taken.now) runs.items tree.now) }
{
    let newest = newest_taken(taken, tree.l0.as_deque());
    let l0 = match views_left(alloc, taken, tree.l0.as_deque()) {
        Ok(l0) => l0,
        Err(e) => {
            drop(runs);
            return Err(e);
        }
    };
    let marker = match newest {
        Some(id) => Some(id),
        None => tree.last_compacted_l0_sst_view_id,
    };
    Ok(LsmTreeState {
        last_compacted_l0_sst_view_id: marker,
        last_compacted_l0_sst_id: tree.last_compacted_l0_sst_id,
        l0,
        compacted: Listed::from_vec(runs),
    })
}

// The tree once a compaction is finished that takes these views and runs; none where its sources are bad.
fn finished_by(
    alloc: Global,
    views: &BTreeSet<Ulid>,
    runs: &BTreeSet<u32>,
    spec: &CompactionSpec,
    outputs: &[SsTableHandle],
    tree: &LsmTreeState,
) -> Result<Option<LsmTreeState>, OutOfMemory>
    ensures { IfOk result (λ made. made ≡ ends.finished_by (contains id_cmp views.now) (contains nat_cmp runs.now)
        spec.now outputs.now tree.now) }
{
    if !all_stand(alloc, spec.sources(), tree)? {
        return Ok(None);
    }
    if !is_suffix(views, tree.l0.as_deque()) {
        return Ok(None);
    }
    let left = runs_left(alloc, runs, tree.compacted.as_slice())?;
    if collides(spec, left.as_slice()) {
        drop(left);
        return Ok(None);
    }
    let written = with_written(alloc, spec, outputs, left)?;
    Ok(Some(tree_without(alloc, views, written, tree)?))
}

/// The tree once a compaction is finished with these outputs; none where its sources are bad: where the tree lacks one, where the views
/// among them aren't the oldest of its L0, or where a run that stays has the number of the run that is written.
pub(crate) fn finished_tree(
    alloc: Global,
    spec: &CompactionSpec,
    outputs: &[SsTableHandle],
    tree: &LsmTreeState,
) -> Result<Option<LsmTreeState>, OutOfMemory>
    ensures { IfOk result (λ made. made ≡ ends.finished_tree spec.now outputs.now tree.now) }
{
    let views = views_of(alloc, spec.sources())?;
    let made = match runs_of(alloc, spec.sources()) {
        Ok(runs) => {
            let made = finished_by(alloc, &views, &runs, spec, outputs, tree);
            drop(runs);
            made
        }
        Err(e) => Err(e),
    };
    drop(views);
    made
}
