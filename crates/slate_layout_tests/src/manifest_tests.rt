//! Manifests, as bytes and back.

use crate::manifest_test_rows::{Changes, NEW, OF_OLD, OLD, WHOLE, read};
use crate::test_texts::{are_equal, are_same, bytes_of, changed, length_of};
use bytes::Bytes;
use slate_ids::{CheckpointId, ObjectCodec, Text, Ulid};
use slate_layout::{ManifestCodec, encode_manifest};
use slate_model::{
    Checkpoint, ExternalDb, LsmTreeState, Manifest, ManifestCore, Plain, Segment, SortedRun,
    SsTableHandle, SsTableId, SsTableInfo, SsTableView,
};
use std::alloc::Global;
use std::process::Abort;

/// Rows and their changes; the rows of what is written of them, and their changes.
const WRITTEN: &[(&[&str], Changes, &[&str], Changes)] = &[
    (&NEW, &[], &NEW, &[]),
    (&WHOLE, &[], &WHOLE, &[]),
    (&OLD, &[], &WHOLE, OF_OLD),
];

// The table as a slice: a function that names a table has all of it written out.
fn written_rows() -> &'static [(
    &'static [&'static str],
    Changes,
    &'static [&'static str],
    Changes,
)] {
    WRITTEN
}

/// Whether the bytes of the second row are written of the manifest of the first.
fn is_written(
    rt: &impl Abort,
    alloc: Global,
    (row, changes): (&[&str], Changes),
    (written, others): (&[&str], Changes),
) -> bool {
    let manifest = read(rt, alloc, row, changes);
    let bytes = encode_manifest(alloc, &manifest).expect(rt, "bytes");
    drop(manifest);
    are_equal(bytes, changed(rt, alloc, written, others))
}

#[test]
fn manifests_are_written(rt: HostRuntime) {
    for (row, changes, written, others) in written_rows() {
        assert!(rt;
            is_written(&rt, rt.alloc(), (row, changes), (written, others)),
            "with {others:?}"
        );
    }
}

#[test]
fn a_new_manifest_has_97_bytes(rt: HostRuntime) {
    assert!(rt; length_of(&rt, rt.alloc(), &NEW) == 97);
    let new = Manifest::initial(rt.alloc(), ManifestCore::new(rt.alloc()));
    let is_so = are_same(read(&rt, rt.alloc(), &NEW, &[]), new);
    assert!(rt; is_so);
}

/// The numbers of a manifest.
fn numbers(manifest: &Manifest) -> [u64; 7] {
    let core = &manifest.core;
    [
        manifest.writer_epoch,
        manifest.compactor_epoch,
        core.replay_after_wal_id,
        core.next_wal_sst_id,
        core.last_l0_seq,
        core.recent_snapshot_min_seq,
        core.floor,
    ]
}

/// Whether a text is there, and has these letters.
fn is_text(text: &Option<Text>, letters: &str) -> bool {
    match text {
        Some(text) => text.as_str() == letters,
        None => false,
    }
}

/// Whether the numbers and texts of a manifest are those of the whole row.
fn has_numbers(manifest: &Manifest) -> bool {
    let core = &manifest.core;
    numbers(manifest) == [3, 4, 5, 7, 10, 11, 9]
        && core.initialized
        && core.last_l0_clock_tick == -8
        && is_text(&core.segment_extractor_name, "ext")
        && core.wal_object_store_uri.is_none()
        && core.sequence_tracker.pairs() == [(10, -7), (20, 5)].as_slice()
}

/// Whether a checkpoint is that of the rows.
fn is_checkpoint(checkpoint: &Checkpoint) -> bool {
    checkpoint.id.as_bytes() == &[0, 1, 2, 3, 4, 5, 6, 7, 8, 9, 10, 11, 12, 13, 14, 15]
        && checkpoint.manifest_id == 3
        && checkpoint.expire_time == Some(1000)
        && checkpoint.create_time == 2000
        && is_text(&checkpoint.name, "pin")
}

/// Whether the pin of an entry is that of the rows.
fn is_pin(pin: &Option<CheckpointId>) -> bool {
    match pin {
        Some(pin) => pin.as_u128() == 0x202122232425262728292a2b2c2d2e2f,
        None => false,
    }
}

/// Whether an entry is that of the rows.
fn is_entry(entry: &ExternalDb) -> bool {
    let tables = [SsTableId::Compacted(Ulid::from_parts(5, 6))];
    entry.path.as_str() == "p"
        && entry.source_checkpoint_id.as_u128() == 0x101112131415161718191a1b1c1d1e1f
        && is_pin(&entry.final_checkpoint_id)
        && entry.sst_ids.as_slice() == tables.as_slice()
}

/// Whether the checkpoints and entries of a manifest are those of the whole row.
fn has_items(manifest: &Manifest) -> bool {
    let is_checkpointed = match manifest.core.checkpoints.as_slice() {
        [checkpoint] => is_checkpoint(checkpoint),
        _ => false,
    };
    let has_entry = match manifest.external_dbs.as_slice() {
        [entry] => is_entry(entry),
        _ => false,
    };
    is_checkpointed && has_entry
}

/// A view's number, its table's, and whether `a`, `b` and `c` are visible, where not all of the table is.
type Shown = (u32, u32, Option<[bool; 3]>);

/// A tree's marker, flushed views, and runs by their numbers.
type Shape = (bool, &'static [Shown], &'static [(u32, &'static [Shown])]);

/// A segment's prefix and tree.
type Prefixed = (&'static [u8], Shape);

/// The root tree of the row.
const ROOT: Shape = (
    true,
    &[(4, 3, None)],
    &[(
        9,
        &[
            (5, 1, Some([false, true, false])),
            (6, 3, Some([true, true, false])),
        ],
    )],
);

/// The trees of its segments.
const SEGMENTS: [Prefixed; 2] = [
    (b"p", (false, &[], &[(8, &[(7, 1, None)])])),
    (b"q", (false, &[], &[])),
];

/// The root tree of the row of version 1.
const OLD_ROOT: Shape = (
    true,
    &[(3, 3, None)],
    &[(
        9,
        &[
            (1, 1, Some([false, true, false])),
            (3, 3, Some([true, true, false])),
        ],
    )],
);

/// The id of this number.
fn id(number: u32) -> Ulid {
    Ulid::from_parts(number as u64, 0)
}

/// The table of this number, with the keys from `a` to `c`.
fn table(number: u32) -> SsTableHandle {
    let mut info = SsTableInfo::default();
    info.first_entry = Some(Bytes::from("a"));
    info.last_entry = Some(Bytes::from("c"));
    SsTableHandle {
        id: SsTableId::Compacted(id(number)),
        format_version: 258,
        info,
    }
}

fn is_table(found: &SsTableHandle, number: u32) -> bool {
    let table = table(number);
    let is_so = found.is(&table);
    drop(table);
    is_so
}

/// Which of these keys are visible.
fn visible(view: &SsTableView) -> Option<[bool; 3]> {
    match view.visible_range() {
        Some(range) => Some([
            range.contains(b"a"),
            range.contains(b"b"),
            range.contains(b"c"),
        ]),
        None => None,
    }
}

/// Whether a view is this one.
fn is_view(view: &SsTableView, shown: Shown) -> bool {
    view.id == id(shown.0) && is_table(&view.sst, shown.1) && visible(view) == shown.2
}

/// Whether views are these.
fn are_views(views: &[SsTableView], shown: &[Shown]) -> bool {
    let mut pairs = views.iter().zip(shown.iter());
    views.len() == shown.len() && pairs.all(|(view, shown)| is_view(view, *shown))
}

/// Whether runs are these.
fn are_runs(runs: &[SortedRun], shown: &[(u32, &[Shown])]) -> bool {
    let mut pairs = runs.iter().zip(shown.iter());
    runs.len() == shown.len()
        && pairs.all(|(run, (number, views))| {
            run.id == *number && are_views(run.sst_views(), views)
        })
}

/// Whether a marker is that of the rows, or there is none.
fn is_marker(marker: Option<Ulid>, is_there: bool) -> bool {
    match marker {
        Some(marker) => is_there && marker == Ulid::from_parts(2, 2),
        None => !is_there,
    }
}

/// Whether a tree is this one, but for the marker of tables.
fn is_tree(tree: &LsmTreeState, (is_marked, flushed, runs): Shape) -> bool {
    let (front, back) = tree.l0.as_slices();
    is_marker(tree.last_compacted_l0_sst_view_id, is_marked)
        && back.is_empty()
        && are_views(front, flushed)
        && are_runs(tree.compacted.as_slice(), runs)
}

/// Whether a segment is this one.
fn is_segment(segment: &Segment, prefix: &[u8], shape: Shape) -> bool {
    segment.prefix().as_slice() == prefix && is_tree(segment.tree(), shape)
}

/// Whether segments are these.
fn are_segments(segments: &[Segment], expected: &[Prefixed]) -> bool {
    for (segment, (prefix, shape)) in segments.iter().zip(expected.iter()) {
        if !is_segment(segment, prefix, *shape) {
            return false;
        }
    }
    segments.len() == expected.len()
}

/// Whether the trees of a database are those of the whole row.
fn has_trees(core: &ManifestCore) -> bool {
    is_tree(&core.tree, ROOT)
        && core.tree.last_compacted_l0_sst_id.is_none()
        && are_segments(core.segments(), &SEGMENTS)
}

#[test]
fn the_whole_row_is_read(rt: HostRuntime) {
    let manifest = read(&rt, rt.alloc(), &WHOLE, &[]);
    let (numbers, items, trees) = (
        has_numbers(&manifest),
        has_items(&manifest),
        has_trees(&manifest.core),
    );
    drop(manifest);
    assert!(rt; numbers, "its numbers");
    assert!(rt; items, "its checkpoint and its entry");
    assert!(rt; trees, "its trees");
}

/// Whether a database is that of the row of version 1.
fn is_old(core: &ManifestCore) -> bool {
    is_tree(&core.tree, OLD_ROOT)
        && core.tree.last_compacted_l0_sst_id == Some(Ulid::from_parts(2, 2))
        && core.segments().is_empty()
        && is_text(&core.wal_object_store_uri, "w")
}

#[test]
fn version_1_is_read(rt: HostRuntime) {
    let manifest = read(&rt, rt.alloc(), &OLD, &[]);
    let is_so = is_old(&manifest.core);
    drop(manifest);
    assert!(rt; is_so);
}

/// Whether the codec writes and reads the whole row.
fn is_coded(rt: &impl Abort, alloc: Global, manifest: &Manifest) -> bool {
    let bytes = bytes_of(rt, alloc, &WHOLE);
    let written = ManifestCodec.encode(alloc, manifest).expect(rt, "bytes");
    let read = ManifestCodec
        .decode(alloc, bytes.as_slice())
        .expect(rt, "a manifest");
    let is_read = read.is(manifest);
    drop(read);
    are_equal(written, bytes) && is_read
}

#[test]
fn the_codec_is_that_of_the_rows(rt: HostRuntime) {
    let manifest = read(&rt, rt.alloc(), &WHOLE, &[]);
    let is_coded = is_coded(&rt, rt.alloc(), &manifest);
    let copied = ManifestCodec
        .copy(rt.alloc(), &manifest)
        .expect(&rt, "memory");
    let is_copied = are_same(copied, manifest);
    assert!(rt; is_coded && is_copied);
}
