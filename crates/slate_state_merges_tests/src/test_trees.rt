//! Trees and segments for tests, and their texts.

use bytes::Bytes;
use slate_ids::Ulid;
use slate_model::{
    LsmTreeState, Segment, SortedRun, SsTableHandle, SsTableId, SsTableInfo, SsTableView,
};
use std::alloc::Global;
use std::process::Abort;

/// A view of L0 by its id's moment: over the table of a moment, or over a file of the write-ahead log.
#[derive(Clone, Copy)]
pub(crate) enum Seen {
    Table(u32, u32),
    Log(u32, u64),
}

/// A tree: its L0, the newest first, the ids of its runs, which have no views, its view marker and its table marker.
pub(crate) type TreeRow = (&'static [Seen], &'static [u32], Option<u32>, Option<u32>);

/// A segment: its prefix and its tree.
pub(crate) type SegmentRow = (&'static str, TreeRow);

/// The id of a moment.
fn id(moment: u32) -> Ulid {
    Ulid::from_parts(moment as u64, 0)
}

/// The view of a row.
fn view(seen: Seen) -> SsTableView {
    let (view, table) = match seen {
        Seen::Table(view, moment) => (view, SsTableId::Compacted(id(moment))),
        Seen::Log(view, number) => (view, SsTableId::Wal(number)),
    };
    let sst = SsTableHandle {
        id: table,
        format_version: 1,
        info: SsTableInfo::default(),
    };
    SsTableView::new(id(view), sst)
}

/// The tree of a row.
pub(crate) fn tree(rt: &impl Abort, alloc: Global, row: &TreeRow) -> LsmTreeState {
    let (l0, runs, view_marker, table_marker) = row;
    let mut tree = LsmTreeState::new(alloc);
    for seen in *l0 {
        tree.l0.push_back(view(*seen)).expect(rt, "memory");
    }
    for run in *runs {
        tree.compacted
            .push(SortedRun::new(*run, Vec::new(alloc)))
            .expect(rt, "memory");
    }
    tree.last_compacted_l0_sst_view_id = view_marker.map(id);
    tree.last_compacted_l0_sst_id = table_marker.map(id);
    tree
}

/// The segments of rows.
pub(crate) fn segments(rt: &impl Abort, alloc: Global, rows: &[SegmentRow]) -> Vec<Segment> {
    let mut segments = Vec::new(alloc);
    for row in rows {
        let (prefix, of) = row;
        let segment = Segment::new(Bytes::from(*prefix), tree(rt, alloc, of));
        segments.push(segment).expect(rt, "memory");
    }
    segments
}

/// Adds a number and a blank.
fn push_number(rt: &impl Abort, text: &mut String, number: u64) {
    write!(text, "{number} ").expect(rt, "memory");
}

/// Adds a letter and the moment of a marker, where there is one.
fn push_marker(rt: &impl Abort, text: &mut String, letter: &str, marker: Option<Ulid>) {
    if let Some(marker) = marker {
        text.push_str(letter).expect(rt, "memory");
        push_number(rt, text, marker.timestamp_ms());
    }
}

/// Adds a tree: the moments of its views, `/`, the ids of its runs, and `v` and `t` with the moments of its markers.
pub(crate) fn push_tree(rt: &impl Abort, text: &mut String, tree: &LsmTreeState) {
    for view in tree.l0.as_deque().iter() {
        push_number(rt, text, view.id.timestamp_ms());
    }
    text.push_str("/ ").expect(rt, "memory");
    for run in tree.compacted.as_slice() {
        push_number(rt, text, run.id as u64);
    }
    push_marker(rt, text, "v", tree.last_compacted_l0_sst_view_id);
    push_marker(rt, text, "t", tree.last_compacted_l0_sst_id);
}

/// Adds a segment: its prefix, `:`, its tree and `;`.
fn push_segment(rt: &impl Abort, text: &mut String, segment: &Segment) {
    let prefix = str::from_utf8(segment.prefix().as_slice()).expect(rt, "letters");
    text.push_str(prefix).expect(rt, "memory");
    text.push_str(": ").expect(rt, "memory");
    push_tree(rt, text, segment.tree());
    text.push_str("; ").expect(rt, "memory");
}

/// Whether segments have this text.
pub(crate) fn have_text(
    rt: &impl Abort,
    alloc: Global,
    segments: &[Segment],
    expected: &str,
) -> bool {
    let mut text = String::new(alloc);
    for segment in segments {
        push_segment(rt, &mut text, segment);
    }
    let is_so = text.as_str() == expected;
    drop(text);
    is_so
}

/// Whether a tree has this text.
pub(crate) fn is_text(rt: &impl Abort, alloc: Global, tree: &LsmTreeState, expected: &str) -> bool {
    let mut text = String::new(alloc);
    push_tree(rt, &mut text, tree);
    let is_so = text.as_str() == expected;
    drop(text);
    is_so
}
