//! A writer's tree and a compactor's, merged.
ghost use Rattle.std.specs.Prelude.{◌≡◌, ◌++◌, ◌∷◌, [], IfOk, OnOk};
ghost use Rattle.slate_state_merges.specs.Merging as merging;
ghost use Rattle.slate_state_merges.specs.Merging.{IsFront, merged};

use slate_ids::{OutOfMemory, Ulid};
use slate_model::{LsmTreeState, Plain, Queue, SsTableId, SsTableView};
use std::alloc::Global;

// Whether a marker is this id.
fn marks(marker: Option<Ulid>, id: Ulid) -> bool
    ensures { result ≡ merging.marks marker id }
{
    match marker {
        None => false,
        Some(marker) => marker == id,
    }
}

// Whether a marker is the id of this table.
fn marks_table(marker: Option<Ulid>, table: &SsTableId) -> bool
    ensures { result ≡ merging.marks_table marker table.now }
{
    match table {
        SsTableId::Wal(_) => false,
        SsTableId::Compacted(id) => marks(marker, *id),
    }
}

// Whether a view is at a compactor's marker.
fn is_at_marker(compactor: &LsmTreeState, view: &SsTableView) -> bool
    ensures { result ≡ merging.is_at_marker compactor.now view.now }
{
    marks(compactor.last_compacted_l0_sst_view_id, view.id)
        || marks_table(compactor.last_compacted_l0_sst_id, &view.sst.id)
}

// Adds an equal view at the end.
fn keep(alloc: Global, kept: &mut Queue<SsTableView>, view: &SsTableView) -> Result<(), OutOfMemory>
    ensures { OnOk result (kept.new ≡ kept.old ++ view.now ∷ []) }
{
    let view = Plain::clone(view, alloc)?;
    kept.push_back(view)
}

// Equal views, up to the first that is at a compactor's marker.
fn front(
    alloc: Global,
    compactor: &LsmTreeState,
    views: &Queue<SsTableView>,
) -> Result<Queue<SsTableView>, OutOfMemory>
    ensures { IfOk result (λ kept. kept ≡ merging.front compactor.now views.now) }
{
    let mut kept = Queue::new(alloc);
    for view in views.as_deque().iter() {
        if is_at_marker(compactor, view) {
            return Ok(kept);
        }
        match keep(alloc, &mut kept, view) {
            Ok(()) => {}
            Err(e) => {
                drop(kept);
                return Err(e);
            }
        }
    }
    Ok(kept)
}

/// A writer's tree merged with a compactor's. Its L0 is the writer's up to the first view whose id is the compactor's view marker or
/// whose table is the compactor's table marker, and all of it where there is none; a file of the write-ahead log is no marker's. Its
/// runs and markers are the compactor's.
pub fn merge_writer_and_compactor(
    alloc: Global,
    writer: &LsmTreeState,
    compactor: &LsmTreeState,
) -> Result<LsmTreeState, OutOfMemory>
    ensures tree { IfOk result (λ tree. tree ≡ merged writer.now compactor.now) }
    ensures front { IfOk result (λ tree. IsFront compactor.now writer.now.l0 tree.l0) }
{
    let mut l0 = front(alloc, compactor, &writer.l0)?;
    l0.shrink_to_fit();
    match Plain::clone(&compactor.compacted, alloc) {
        Ok(compacted) => Ok(LsmTreeState {
            last_compacted_l0_sst_view_id: compactor.last_compacted_l0_sst_view_id,
            last_compacted_l0_sst_id: compactor.last_compacted_l0_sst_id,
            l0,
            compacted,
        }),
        Err(e) => {
            drop(l0);
            Err(e)
        }
    }
}

/// The merge as a method of either side. Both directions give the same tree.
pub trait TreeMerge {
    /// The merge of a writer's and a compactor's.
    ghost merge: { Self → Self → Self };

    /// The merge of a writer's tree with this one, a compactor's.
    fn merge_from_writer(&self, alloc: Global, writer: &Self) -> Result<Self, OutOfMemory>
        ensures { IfOk result (λ tree. tree ≡ merge writer.now self.now) };

    /// The merge of this tree, a writer's, with a compactor's.
    fn merge_from_compactor(&self, alloc: Global, compactor: &Self) -> Result<Self, OutOfMemory>
        ensures { IfOk result (λ tree. tree ≡ merge self.now compactor.now) };
}

impl TreeMerge for LsmTreeState {
    ghost merge = { λ writer compactor. merged writer compactor };

    fn merge_from_writer(
        &self,
        alloc: Global,
        writer: &LsmTreeState,
    ) -> Result<LsmTreeState, OutOfMemory> {
        merge_writer_and_compactor(alloc, writer, self)
    }

    fn merge_from_compactor(
        &self,
        alloc: Global,
        compactor: &LsmTreeState,
    ) -> Result<LsmTreeState, OutOfMemory> {
        merge_writer_and_compactor(alloc, self, compactor)
    }
}
