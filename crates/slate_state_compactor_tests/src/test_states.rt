//! Trees, records and what a compactor holds of them, for tests.

use bytes::Bytes;
use slate_ids::{Listed, Ulid};
use slate_model::{
    Compaction, CompactionSpec, CompactionStatus, Compactions, LsmTreeState, ManifestCore, Queue,
    Segment, SortedRun, SourceId, SsTableHandle, SsTableId, SsTableInfo, SsTableView,
};
use slate_state_compactor::LocalState;
use std::alloc::Global;
use std::mem;
use std::process::Abort;

/// A source: a view by its tail, or a run by its number.
#[derive(Clone, Copy)]
pub(crate) enum Source {
    View(u8),
    Run(u32),
}

/// An id by its tail.
pub(crate) fn id(tail: u8) -> Ulid {
    Ulid::from_parts(300, u128::from(tail))
}

fn table(tail: u8) -> SsTableHandle {
    SsTableHandle {
        id: SsTableId::Compacted(id(tail)),
        format_version: 1,
        info: SsTableInfo::default(),
    }
}

/// The views of these tails, the first the newest.
fn views(rt: &impl Abort, alloc: Global, tails: &[u8]) -> Vec<SsTableView> {
    let mut made = Vec::new(alloc);
    for tail in tails {
        made.push(SsTableView::new(id(*tail), table(*tail)))
            .expect(rt, "memory");
    }
    made
}

/// The runs of these numbers, a view each.
fn runs(rt: &impl Abort, alloc: Global, numbers: &[u32]) -> Vec<SortedRun> {
    let mut made = Vec::new(alloc);
    for n in numbers {
        let run = SortedRun::new(*n, views(rt, alloc, &[9]));
        made.push(run).expect(rt, "memory");
    }
    made
}

/// A tree: the tails of its L0, the newest first, and the numbers of its runs.
pub(crate) fn tree(rt: &impl Abort, alloc: Global, l0: &[u8], numbers: &[u32]) -> LsmTreeState {
    let mut made = LsmTreeState::new(alloc);
    made.last_compacted_l0_sst_view_id = Some(id(7));
    made.last_compacted_l0_sst_id = Some(id(8));
    let l0 = Queue::from_vec(views(rt, alloc, l0));
    drop(mem::replace(&mut made.l0, l0));
    let compacted = Listed::from_vec(runs(rt, alloc, numbers));
    drop(mem::replace(&mut made.compacted, compacted));
    made
}

/// The core of a manifest with this root and a segment of the prefix `p` whose tree is the other.
pub(crate) fn core(
    rt: &impl Abort,
    alloc: Global,
    root: LsmTreeState,
    segment: Option<LsmTreeState>,
) -> ManifestCore {
    let mut made = ManifestCore::new(alloc);
    drop(mem::replace(&mut made.tree, root));
    match segment {
        None => made,
        Some(tree) => with_segment(rt, alloc, made, tree),
    }
}

fn with_segment(
    rt: &impl Abort,
    alloc: Global,
    core: ManifestCore,
    tree: LsmTreeState,
) -> ManifestCore {
    let mut made = core;
    let place = made
        .maybe_insert_tree(alloc, &Bytes::from("p"))
        .expect(rt, "memory");
    drop(mem::replace(place, tree));
    made
}

fn sources(rt: &impl Abort, alloc: Global, named: &[Source]) -> Listed<SourceId> {
    let mut made = Listed::new(alloc);
    for source in named {
        made.push(source_id(*source)).expect(rt, "memory");
    }
    made
}

fn source_id(source: Source) -> SourceId {
    match source {
        Source::View(tail) => SourceId::SstView(id(tail)),
        Source::Run(n) => SourceId::SortedRun(n),
    }
}

/// What a compaction of a segment is to do: a merge into a run, or a drain.
pub(crate) fn spec(
    rt: &impl Abort,
    alloc: Global,
    segment: &'static str,
    named: &[Source],
    into: Option<u32>,
) -> CompactionSpec {
    let sources = sources(rt, alloc, named);
    match into {
        Some(destination) => CompactionSpec::Tiered {
            segment: Bytes::from(segment),
            sources,
            destination,
        },
        None => CompactionSpec::DrainSegment {
            segment: Bytes::from(segment),
            sources,
        },
    }
}

/// A compaction of this tail and status, with so many outputs.
pub(crate) fn compaction(
    rt: &impl Abort,
    alloc: Global,
    tail: u8,
    status: CompactionStatus,
    spec: CompactionSpec,
    outputs: u8,
) -> Compaction {
    let mut made = Listed::new(alloc);
    for output in 0..outputs {
        made.push(table(output)).expect(rt, "memory");
    }
    Compaction {
        id: id(tail),
        spec,
        status,
        worker: None,
        output_ssts: made,
        ctx: None,
    }
}

/// A record with a drain of nothing for each of these, by its tail and status.
pub(crate) fn record(
    rt: &impl Abort,
    alloc: Global,
    epoch: u64,
    held: &[(u8, CompactionStatus)],
) -> Compactions {
    let mut made = Compactions::new(alloc, epoch);
    for (tail, status) in held {
        let spec = spec(rt, alloc, "", &[], None);
        let one = compaction(rt, alloc, *tail, *status, spec, 0);
        made.insert(one).expect(rt, "memory");
    }
    made
}

/// What is held after an open. The manifest's core is used up.
pub(crate) fn opened(
    rt: &impl Abort,
    alloc: Global,
    core: ManifestCore,
    record: Compactions,
) -> LocalState {
    let local = LocalState::opened(alloc, &core, record);
    drop(core);
    local.expect(rt, "memory")
}

/// A tree as digits: the tails of its L0, and the numbers of its runs.
pub(crate) fn shown(tree: &LsmTreeState) -> (u64, u64) {
    let mut l0 = 0u64;
    for view in tree.l0.as_deque().iter() {
        l0 = l0
            .wrapping_mul(10)
            .wrapping_add((view.id.tail() % 10) as u64);
    }
    let mut runs = 0u64;
    for run in tree.compacted.as_slice() {
        runs = runs.wrapping_mul(10).wrapping_add(u64::from(run.id));
    }
    (l0, runs)
}

/// The tail of a tree's view marker.
pub(crate) fn marker(tree: &LsmTreeState) -> u128 {
    match tree.last_compacted_l0_sst_view_id {
        Some(id) => id.tail(),
        None => 0,
    }
}

/// The tree of the segment of the prefix `p`, or the root's.
pub(crate) fn tree_at<'a>(
    rt: &impl Abort,
    local: &'a LocalState,
    segment: &str,
) -> &'a LsmTreeState {
    local.trees.tree_at(segment.as_bytes()).expect(rt, "a tree")
}

/// The status of a compaction, where the record has it.
pub(crate) fn status(record: &Compactions, tail: u8) -> Option<CompactionStatus> {
    match record.get(id(tail)) {
        Some(compaction) => Some(compaction.status),
        None => None,
    }
}

/// Whether there are just so many segments.
pub(crate) fn has_segments(segments: &[Segment], count: usize) -> bool {
    segments.len() == count
}
