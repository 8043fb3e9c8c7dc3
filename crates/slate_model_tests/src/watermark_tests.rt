//! The watermark: the greatest moment of a flushed table.

use crate::test_values::{core_with, table, tree_of};
use bytes::Bytes;
use slate_ids::Ulid;
use slate_model::{LsmTreeState, ManifestCore, Segment, SsTableId};
use std::alloc::Global;
use std::mem;
use std::process::Abort;

/// A table of a tree: one of the log, or the one of this moment and tail.
#[derive(Clone, Copy)]
enum Flushed {
    Log(u64),
    Table(u32, u32),
}

type Trees = (&'static [Flushed], &'static [Flushed], Option<(u32, u32)>);

/// The tables of a root, those of a segment and the segment's marker, and the greatest id.
const LATEST: &[(Trees, Option<(u32, u32)>)] = &[
    ((&[], &[], None), None),
    (
        (&[Flushed::Table(5, 0)], &[Flushed::Table(6, 0)], None),
        Some((6, 0)),
    ),
    ((&[Flushed::Table(5, 0)], &[], Some((8, 3))), Some((8, 3))),
    (
        (
            &[Flushed::Table(5, 0)],
            &[Flushed::Table(2, 0)],
            Some((8, 3)),
        ),
        Some((5, 0)),
    ),
    ((&[Flushed::Log(900)], &[Flushed::Log(900)], None), None),
    (
        (&[Flushed::Table(5, 0)], &[Flushed::Log(900)], Some((8, 3))),
        Some((5, 0)),
    ),
    (
        (
            &[Flushed::Table(1, 0), Flushed::Table(7, 1)],
            &[Flushed::Table(7, 9)],
            None,
        ),
        Some((7, 9)),
    ),
    (
        (
            &[
                Flushed::Table(7, 1),
                Flushed::Table(7, 9),
                Flushed::Table(7, 4),
            ],
            &[Flushed::Table(6, 20)],
            None,
        ),
        Some((7, 9)),
    ),
    ((&[Flushed::Table(7, 1)], &[], Some((7, 5))), Some((7, 5))),
    ((&[Flushed::Table(7, 6)], &[], Some((7, 5))), Some((7, 6))),
];

// The table as a slice: a function that names a table has all of it written out.
fn latest_rows() -> &'static [(Trees, Option<(u32, u32)>)] {
    LATEST
}

/// The id of this moment and tail.
fn id(parts: (u32, u32)) -> Ulid {
    Ulid::from_parts(parts.0 as u64, parts.1 as u128)
}

/// The ids of these tables.
fn ids(rt: &impl Abort, alloc: Global, tables: &[Flushed]) -> Vec<SsTableId> {
    let mut ids = Vec::new(alloc);
    for table in tables {
        ids.push(table_id(*table)).expect(rt, "memory");
    }
    ids
}

fn table_id(table: Flushed) -> SsTableId {
    match table {
        Flushed::Log(number) => SsTableId::Wal(number),
        Flushed::Table(moment, tail) => SsTableId::Compacted(id((moment, tail))),
    }
}

/// A tree of these tables, and of others in a run.
fn tree(rt: &impl Abort, alloc: Global, l0: &[Flushed], run: &[SsTableId]) -> LsmTreeState {
    let ids = ids(rt, alloc, l0);
    let tree = tree_of(rt, alloc, ids.as_slice(), run);
    drop(ids);
    tree
}

/// The segment of these tables, with this marker.
fn segment(rt: &impl Abort, alloc: Global, l0: &[Flushed], marker: Option<(u32, u32)>) -> Segment {
    let mut tree = tree(rt, alloc, l0, &[]);
    tree.last_compacted_l0_sst_view_id = marker.map(id);
    Segment::new(Bytes::from("s"), tree)
}

/// What a database of these trees says. Its root has a later table in a run.
fn core_of(rt: &impl Abort, alloc: Global, trees: Trees) -> ManifestCore {
    let (root, l0, marker) = trees;
    let mut segments = Vec::new(alloc);
    segments
        .push(segment(rt, alloc, l0, marker))
        .expect(rt, "memory");
    let mut core = core_with(rt, alloc, segments);
    let root = tree(rt, alloc, root, &[table(1000)]);
    drop(mem::replace(&mut core.tree, root));
    core
}

/// Whether these trees have this latest id, and its moment as the watermark.
fn has_latest(rt: &impl Abort, alloc: Global, trees: Trees, latest: Option<(u32, u32)>) -> bool {
    let core = core_of(rt, alloc, trees);
    let moment = match latest {
        Some((moment, _)) => moment as u64,
        None => 0,
    };
    let found = (core.max_l0_ulid_timestamp_across_trees(), core.watermark());
    drop(core);
    found.0 == latest.map(id) && found.1 == moment
}

#[test]
fn is_the_latest_of_all_trees(rt: HostRuntime) {
    for (trees, latest) in latest_rows() {
        assert!(rt;
            has_latest(&rt, rt.alloc(), *trees, *latest),
            "where {latest:?} is expected"
        );
    }
}
