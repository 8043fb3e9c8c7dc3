//! Values of manifests, for tests.

use bytes::Bytes;
use slate_ids::{CheckpointId, DbPath, Listed, Ulid};
use slate_model::{
    ExternalDb, LsmTreeState, ManifestCore, Segment, SortedRun, SsTableHandle, SsTableId,
    SsTableInfo, SsTableView,
};
use std::alloc::Global;
use std::process::Abort;

/// The compacted table of this moment.
pub(crate) fn table(moment: u32) -> SsTableId {
    SsTableId::Compacted(Ulid::from_parts(moment as u64, 0))
}

/// The ids of these moments, as a list.
pub(crate) fn tables(rt: &impl Abort, alloc: Global, moments: &[u32]) -> Vec<SsTableId> {
    let mut ids = Vec::new(alloc);
    for moment in moments {
        ids.push(table(*moment)).expect(rt, "memory");
    }
    ids
}

/// A view of all of a table.
pub(crate) fn view_of(id: SsTableId) -> SsTableView {
    let sst = SsTableHandle {
        id,
        format_version: 2,
        info: SsTableInfo::default(),
    };
    SsTableView::new(Ulid::from_parts(1, 7), sst)
}

/// A run of views of these tables.
fn run_of(rt: &impl Abort, alloc: Global, ids: &[SsTableId]) -> SortedRun {
    let mut views = Vec::new(alloc);
    for id in ids {
        views.push(view_of(*id)).expect(rt, "memory");
    }
    SortedRun::new(3, views)
}

/// A tree with views of these tables, the newest first, and a run of others.
pub(crate) fn tree_of(
    rt: &impl Abort,
    alloc: Global,
    l0: &[SsTableId],
    run: &[SsTableId],
) -> LsmTreeState {
    let mut tree = LsmTreeState::new(alloc);
    for id in l0 {
        tree.l0.push_back(view_of(*id)).expect(rt, "memory");
    }
    let run = run_of(rt, alloc, run);
    tree.compacted.push(run).expect(rt, "memory");
    tree
}

/// A segment with a tree of these tables.
pub(crate) fn segment_of(
    rt: &impl Abort,
    alloc: Global,
    prefix: &'static str,
    l0: &[SsTableId],
    run: &[SsTableId],
) -> Segment {
    Segment::new(Bytes::from(prefix), tree_of(rt, alloc, l0, run))
}

/// An entry for this path that lists these tables.
pub(crate) fn entry_of(rt: &impl Abort, path: &str, ids: Vec<SsTableId>) -> ExternalDb {
    ExternalDb {
        path: DbPath::from_text(path)
            .expect(rt, "memory")
            .expect(rt, "a path of a database"),
        source_checkpoint_id: CheckpointId::from_u64(1),
        final_checkpoint_id: None,
        sst_ids: Listed::from_vec(ids),
    }
}

/// What a database says that has these segments, in the order of their prefixes.
pub(crate) fn core_with(rt: &impl Abort, alloc: Global, segments: Vec<Segment>) -> ManifestCore {
    assert!(rt; Segment::are_ascending(segments.as_slice()));
    let mut core = ManifestCore::new(alloc);
    core.set_segments(segments);
    core
}

/// What a database says whose segments have these prefixes, and no tables.
pub(crate) fn core_of(rt: &impl Abort, alloc: Global, prefixes: &[&'static str]) -> ManifestCore {
    let mut segments = Vec::new(alloc);
    for prefix in prefixes {
        let segment = Segment::new(Bytes::from(*prefix), LsmTreeState::new(alloc));
        segments.push(segment).expect(rt, "memory");
    }
    core_with(rt, alloc, segments)
}

/// Whether segments have these prefixes, each ended by a comma.
pub(crate) fn have_prefixes(
    rt: &impl Abort,
    alloc: Global,
    segments: &[Segment],
    expected: &str,
) -> bool {
    let mut prefixes = Vec::new(alloc);
    for segment in segments {
        prefixes
            .extend_from_slice(segment.prefix().as_slice())
            .expect(rt, "memory");
        prefixes.push(b',').expect(rt, "memory");
    }
    let are_so = prefixes.as_slice() == expected.as_bytes();
    drop(prefixes);
    are_so
}
