//! The bytes of manifests, as rows of texts.

use crate::test_texts::changed;
use slate_layout::decode_manifest;
use slate_model::Manifest;
use std::alloc::Global;
use std::process::Abort;

/// Texts in place of those of a row, by their places.
pub(crate) type Changes = &'static [(usize, &'static str)];

/// Ids of tables and views.
pub(crate) const ID_1: &str = "000000000001 00000000000000000000";

pub(crate) const ID_2: &str = "000000000002 00000000000000000000";

pub(crate) const ID_3: &str = "000000000003 00000000000000000000";

pub(crate) const ID_4: &str = "000000000004 00000000000000000000";

pub(crate) const ID_5: &str = "000000000005 00000000000000000000";

pub(crate) const ID_6: &str = "000000000006 00000000000000000000";

/// Table 1, with the keys from `a` to `c`.
pub(crate) const TABLE_1: &str =
    "000000000001 00000000000000000000 0102 01 00000001 61 01 00000001 63 0000000000000000 0000000000000000 0000000000000000 0000000000000000 00 00 0000000000000000 0000000000000000 01";

/// Table 3, with the same keys.
pub(crate) const TABLE_3: &str =
    "000000000003 00000000000000000000 0102 01 00000001 61 01 00000001 63 0000000000000000 0000000000000000 0000000000000000 0000000000000000 00 00 0000000000000000 0000000000000000 01";

/// Table 3 of another format.
pub(crate) const OTHER_3: &str =
    "000000000003 00000000000000000000 0103 01 00000001 61 01 00000001 63 0000000000000000 0000000000000000 0000000000000000 0000000000000000 00 00 0000000000000000 0000000000000000 01";

/// Table 3 without keys.
pub(crate) const EMPTY_3: &str =
    "000000000003 00000000000000000000 0102 00 00 0000000000000000 0000000000000000 0000000000000000 0000000000000000 00 00 0000000000000000 0000000000000000 01";

/// The tree of a segment: a run with a view of table 1.
const SEGMENT_TREE: &str =
    "00 00000000 00000001 00000008 00000001 000000000007 00000000000000000000 000000000001 00000000000000000000 00";

/// The same tree with a view of table 3.
pub(crate) const OTHER_TREE: &str =
    "00 00000000 00000001 00000008 00000001 000000000007 00000000000000000000 000000000003 00000000000000000000 00";

/// The range of the keys from `b` on, and below `c`.
const FROM_B: &str = "01 01 00000001 62 02 00000001 63";

/// The range of the keys up to `b`.
const TO_B: &str = "01 00 01 00000001 62";

/// Two pairs of a sequence number and a moment.
const TRACKER: &str =
    "00000002 000000000000000a fffffffffffffff9 0000000000000014 0000000000000005";

/// A checkpoint.
const CHECKPOINT: &str =
    "00000001 000102030405060708090a0b0c0d0e0f 0000000000000003 01 00000001 00000002 01 00000003 70696e";

/// An entry.
const ENTRY: &str =
    "00000001 00000001 70 101112131415161718191a1b1c1d1e1f 01 202122232425262728292a2b2c2d2e2f 00000001 000000000005 00000000000000000006";

/// A new manifest.
pub(crate) const NEW: [&str; 4] = [
    "0002 00000000 01 0000000000000000 0000000000000000 0000000000000000",
    "0000000000000000 00 00000000 00000000 00000000 00 8000000000000000",
    "0000000000000000 0000000000000000 00000000 00000000 00000000",
    "0000000000000000",
];

/// A manifest of version 2 with a value of its own in each field.
pub(crate) const WHOLE: [&str; 36] = [
    "0002",
    // Tables.
    "00000002",
    TABLE_1,
    TABLE_3,
    // 4: flag, epochs, files of the write-ahead log.
    "01",
    "0000000000000003",
    "0000000000000004",
    "0000000000000005",
    "0000000000000006",
    // 9: the root tree: marker, flushed tables, runs.
    "01 000000000002 00000000000000000002",
    "00000001",
    ID_4,
    ID_3,
    "00",
    "00000001",
    // 15: a run: number, two views.
    "00000009",
    "00000002",
    ID_5,
    ID_1,
    FROM_B,
    ID_6,
    ID_3,
    TO_B,
    // 23: segments.
    "00000002",
    "00000001 70",
    SEGMENT_TREE,
    "00000001 71",
    "00 00000000 00000000",
    // 28: the extractor, the tick, sequence numbers.
    "01 00000003 657874",
    "fffffffffffffff8",
    "000000000000000a",
    "000000000000000b",
    // 32: tracker, checkpoints, entries, floor.
    TRACKER,
    CHECKPOINT,
    ENTRY,
    "0000000000000009",
];

/// A manifest of version 1.
pub(crate) const OLD: [&str; 25] = [
    "0001",
    // Flag, epochs, files of the write-ahead log, marker.
    "01",
    "0000000000000003",
    "0000000000000004",
    "0000000000000005",
    "0000000000000006",
    "01 000000000002 00000000000000000002",
    // 7: flushed tables.
    "00000001",
    TABLE_3,
    "00",
    // 10: a run: number, two views.
    "00000001",
    "00000009",
    "00000002",
    TABLE_1,
    FROM_B,
    TABLE_3,
    TO_B,
    // 17: the tick, sequence numbers.
    "fffffffffffffff8",
    "000000000000000a",
    "000000000000000b",
    // 20: tracker, checkpoints, entries, the store of the write-ahead log.
    TRACKER,
    CHECKPOINT,
    ENTRY,
    "01",
    "00000001 77",
];

/// What the manifest of version 1 has in version 2 in place of the whole one's: its views have the ids of their tables, it has no segments
/// and no extractor, and its floor is the moment of its flushed table.
pub(crate) const OF_OLD: Changes = &[
    (11, ID_3),
    (17, ID_1),
    (20, ID_3),
    (23, "00000000"),
    (24, ""),
    (25, ""),
    (26, ""),
    (27, ""),
    (28, "00"),
    (35, "0000000000000003"),
];

/// The manifest of a row, some of whose texts are changed.
pub(crate) fn read(
    rt: &impl Abort,
    alloc: Global,
    row: &[&str],
    changes: &[(usize, &str)],
) -> Manifest {
    let bytes = changed(rt, alloc, row, changes);
    let read = decode_manifest(alloc, bytes.as_slice()).expect(rt, "a manifest");
    drop(bytes);
    read
}
