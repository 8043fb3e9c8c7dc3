//! Bytes of no manifest, no record, no info and no boundary.

use crate::manifest_test_rows::{
    Changes, EMPTY_3, ID_2, ID_3, NEW, OLD, OTHER_3, OTHER_TREE, TABLE_1, TABLE_3, WHOLE,
};
use crate::record_test_rows::{EMPTY, ID_8, ID_9, OLD as OLD_RECORD, WHOLE as WHOLE_RECORD};
use crate::test_texts::{add, bytes_of, changed, extend};
use slate_ids::FormatName::{self, Boundary, Info};
use slate_ids::SlateDBError;
use slate_layout::{decode_boundary, decode_compactions, decode_info, decode_manifest};
use std::alloc::Global;
use std::process::Abort;

/// An answer without its value.
fn without<T: Drop>(read: Result<T, SlateDBError>) -> Result<(), SlateDBError> {
    match read {
        Ok(value) => {
            drop(value);
            Ok(())
        }
        Err(e) => Err(e),
    }
}

/// What is said of the bytes of a format.
fn read(alloc: Global, format: FormatName, bytes: &[u8]) -> Result<(), SlateDBError> {
    match format {
        FormatName::Manifest => without(decode_manifest(alloc, bytes)),
        FormatName::Compactions => without(decode_compactions(alloc, bytes)),
        FormatName::Info => without(decode_info(alloc, bytes)),
        FormatName::Boundary => without(decode_boundary(bytes)),
    }
}

/// Whether bytes of a format may be refused so.
fn is_of(refusal: &SlateDBError, format: FormatName) -> bool {
    match refusal {
        SlateDBError::EmptyManifest => format == FormatName::Manifest,
        SlateDBError::InvalidCompaction => format == FormatName::Compactions,
        SlateDBError::Corrupt(named) => *named == format,
        SlateDBError::InvalidVersion { format: named, .. } => *named == format,
        _ => false,
    }
}

/// The number of a refusal, and the version that it names; 99 for one that is of no such bytes.
fn told(read: &Result<(), SlateDBError>, format: FormatName) -> (u8, Option<u16>) {
    match read {
        Ok(()) => (0, None),
        Err(e) => {
            if is_of(e, format) {
                (e.code(), version_of(e))
            } else {
                (99, None)
            }
        }
    }
}

fn version_of(refusal: &SlateDBError) -> Option<u16> {
    match refusal {
        SlateDBError::InvalidVersion { actual, .. } => Some(*actual),
        _ => None,
    }
}

/// The number of the refusal of bytes, 0 where they stand for a value; and the version that it names.
fn refusal(alloc: Global, format: FormatName, bytes: &[u8]) -> (u8, Option<u16>) {
    let read = read(alloc, format, bytes);
    let all = told(&read, format);
    drop(read);
    all
}

/// Bytes, the number of their refusal, and the version that it names.
const BEGUN: &[(FormatName, &[u8], u8, Option<u16>)] = &[
    (MANIFEST, &[], 10, None),
    (MANIFEST, &[0], 10, None),
    (MANIFEST, &[0, 3], 12, Some(3)),
    (MANIFEST, &[0, 9], 12, Some(9)),
    (MANIFEST, &[1, 2], 12, Some(258)),
    (MANIFEST, &[0, 0], 12, Some(0)),
    (MANIFEST, &[0, 1], 13, None),
    (MANIFEST, &[0, 2], 13, None),
    (RECORD, &[], 11, None),
    (RECORD, &[0], 11, None),
    (RECORD, &[0, 3], 12, Some(3)),
    (RECORD, &[0, 0], 12, Some(0)),
    (RECORD, &[0, 1], 13, None),
    (RECORD, &[0, 2], 13, None),
    (Info, &[0], 13, None),
    (Boundary, b"", 13, None),
    (Boundary, b"00", 13, None),
    (Boundary, b"02", 13, None),
    (Boundary, b"18446744073709551616", 13, None),
    (Boundary, b"a", 13, None),
    (Boundary, b"2a", 13, None),
];

// The table as a slice: a function that names a table has all of it written out.
fn begun() -> &'static [(FormatName, &'static [u8], u8, Option<u16>)] {
    BEGUN
}

const MANIFEST: FormatName = FormatName::Manifest;

const RECORD: FormatName = FormatName::Compactions;

#[test]
fn bytes_begin_with_versions_1_and_2(rt: HostRuntime) {
    for (row, (format, bytes, code, version)) in begun().iter().enumerate() {
        let found = refusal(rt.alloc(), *format, bytes);
        assert!(rt; found.0 == *code && found.1 == *version, "at row {row}");
    }
}

/// Whether each beginning of bytes is Corrupt, from their version on.
fn has_no_beginning(alloc: Global, format: FormatName, bytes: &[u8]) -> bool {
    for length in 2..bytes.len() {
        if refusal(alloc, format, &bytes[..length]).0 != 13 {
            return false;
        }
    }
    true
}

/// Whether the bytes of a row stand for a value, and neither a beginning of them nor one byte more does.
fn is_whole(rt: &impl Abort, alloc: Global, format: FormatName, row: &[&str]) -> bool {
    let mut bytes = bytes_of(rt, alloc, row);
    let is_read = refusal(alloc, format, bytes.as_slice()).0 == 0;
    let is_alone = has_no_beginning(alloc, format, bytes.as_slice());
    add(rt, alloc, &mut bytes, "00");
    let is_more = refusal(alloc, format, bytes.as_slice()).0 == 13;
    drop(bytes);
    is_read && is_alone && is_more
}

const ROWS: &[(FormatName, &[&str])] = &[
    (MANIFEST, &NEW),
    (MANIFEST, &WHOLE),
    (MANIFEST, &OLD),
    (RECORD, &EMPTY),
    (RECORD, &WHOLE_RECORD),
    (RECORD, &OLD_RECORD),
];

// The table as a slice: a function that names a table has all of it written out.
fn rows() -> &'static [(FormatName, &'static [&'static str])] {
    ROWS
}

#[test]
fn a_byte_less_or_more_is_corrupt(rt: HostRuntime) {
    for (place, (format, row)) in rows().iter().enumerate() {
        assert!(rt; is_whole(&rt, rt.alloc(), *format, row), "at row {place}");
    }
}

/// The number of the refusal of a row, some of whose texts are changed; 0 where its bytes stand for a value.
fn judged(
    rt: &impl Abort,
    alloc: Global,
    format: FormatName,
    row: &[&str],
    changes: Changes,
) -> u8 {
    let bytes = changed(rt, alloc, row, changes);
    let (code, _) = refusal(alloc, format, bytes.as_slice());
    drop(bytes);
    code
}

/// Changes of the whole row, and the number of their refusal.
const CHANGED: &[(Changes, u8)] = &[
    // Counts of tables.
    (&[(1, "00000001")], 13),
    (&[(1, "00000003")], 13),
    (&[(1, "ffffffff")], 13),
    // Tables that don't ascend, are there twice, aren't used, or aren't there.
    (&[(2, TABLE_3), (3, TABLE_1)], 13),
    (&[(2, TABLE_3), (18, ID_3), (25, OTHER_TREE)], 13),
    (&[(18, ID_3), (25, OTHER_TREE)], 13),
    (&[(18, ID_3)], 0),
    (&[(12, ID_2)], 13),
    // A view of a table without keys.
    (&[(3, EMPTY_3), (20, ID_3), (22, "00")], 13),
    // Bytes that are no flag.
    (&[(4, "02")], 13),
    (&[(9, "02 000000000002 00000000000000000002")], 13),
    (&[(13, "02")], 13),
    // The last file of the write-ahead log has a next one.
    (&[(8, "ffffffffffffffff")], 13),
    (&[(8, "fffffffffffffffe")], 0),
    // Visible ranges: no bound, no keys, not from a key on, none of the table's.
    (&[(19, "01 03 00000001 62 02 00000001 63")], 13),
    (&[(19, "01 01 00000001 62 02 00000001 62")], 13),
    (&[(19, "01 01 00000001 63 01 00000001 62")], 13),
    (&[(19, "01 02 00000001 61 02 00000001 63")], 13),
    (&[(19, "01 01 00000001 64 00")], 13),
    (&[(19, "01 01 00000001 63 00")], 0),
    (&[(19, "01 00 00")], 0),
    // Prefixes of segments: equal, not ascending, empty.
    (&[(26, "00000001 70")], 13),
    (&[(26, "00000001 6f")], 13),
    (&[(24, "00000000")], 13),
    (&[(26, "00000002 7000")], 0),
    // Texts that aren't UTF-8.
    (&[(28, "01 00000001 ff")], 13),
    (&[(28, "01 00000000")], 0),
    // Trackers: equal numbers, moments that fall, equal moments.
    (
        &[(
            32,
            "00000002 000000000000000a 0000000000000004 000000000000000a 0000000000000005",
        )],
        13,
    ),
    (
        &[(
            32,
            "00000002 000000000000000a 0000000000000005 0000000000000014 0000000000000004",
        )],
        13,
    ),
    (
        &[(
            32,
            "00000002 000000000000000a 0000000000000005 0000000000000014 0000000000000005",
        )],
        0,
    ),
    // Checkpoints: an expiry at second 0, the last second, no expiry and no name.
    (
        &[(
            33,
            "00000001 000102030405060708090a0b0c0d0e0f 0000000000000003 01 00000000 00000002 00",
        )],
        13,
    ),
    (
        &[(
            33,
            "00000001 000102030405060708090a0b0c0d0e0f 0000000000000003 01 ffffffff ffffffff 00",
        )],
        0,
    ),
    (
        &[(
            33,
            "00000001 000102030405060708090a0b0c0d0e0f 0000000000000003 00 00000000 00",
        )],
        0,
    ),
    (
        &[(
            33,
            "00000001 000102030405060708090a0b0c0d0e0f 0000000000000003 00 00000000 01 00000001 ff",
        )],
        13,
    ),
    // Paths of entries.
    (
        &[(
            34,
            "00000001 00000000 101112131415161718191a1b1c1d1e1f 00 00000000",
        )],
        13,
    ),
    (
        &[(
            34,
            "00000001 00000001 41 101112131415161718191a1b1c1d1e1f 00 00000000",
        )],
        13,
    ),
    (
        &[(
            34,
            "00000001 00000001 2f 101112131415161718191a1b1c1d1e1f 00 00000000",
        )],
        13,
    ),
    (
        &[(
            34,
            "00000001 00000001 ff 101112131415161718191a1b1c1d1e1f 00 00000000",
        )],
        13,
    ),
    (
        &[(
            34,
            "00000001 00000003 702d71 101112131415161718191a1b1c1d1e1f 00 00000000",
        )],
        0,
    ),
];

// The table as a slice: a function that names a table has all of it written out.
fn changed_rows() -> &'static [(Changes, u8)] {
    CHANGED
}

#[test]
fn changes_of_version_2_are_judged(rt: HostRuntime) {
    for (changes, code) in changed_rows() {
        let found = judged(&rt, rt.alloc(), MANIFEST, &WHOLE, changes);
        assert!(rt; found == *code, "with {changes:?}");
    }
}

/// Changes of the row of version 1, and the number of their refusal.
const OLD_CHANGED: &[(Changes, u8)] = &[
    (&[(1, "02")], 13),
    (&[(5, "ffffffffffffffff")], 13),
    (&[(5, "fffffffffffffffe")], 0),
    // Unequal handles of one table; a range without keys of its table; a table without keys.
    (&[(15, OTHER_3)], 13),
    (&[(14, "01 01 00000001 64 00")], 13),
    (&[(8, EMPTY_3), (15, EMPTY_3), (16, "00")], 13),
    (&[(23, ""), (24, "00")], 0),
];

// The table as a slice: a function that names a table has all of it written out.
fn old_changed() -> &'static [(Changes, u8)] {
    OLD_CHANGED
}

#[test]
fn changes_of_version_1_are_judged(rt: HostRuntime) {
    for (changes, code) in old_changed() {
        let found = judged(&rt, rt.alloc(), MANIFEST, &OLD, changes);
        assert!(rt; found == *code, "with {changes:?}");
    }
}

/// Rows of records and their changes, and the number of their refusal.
const RECORDS_CHANGED: &[(&[&str], Changes, u8)] = &[
    (&WHOLE_RECORD, &[(2, "00000001")], 13),
    (&WHOLE_RECORD, &[(2, "ffffffff")], 13),
    // Ids that don't ascend.
    (&WHOLE_RECORD, &[(19, ID_8)], 13),
    (&WHOLE_RECORD, &[(19, ID_9)], 13),
    (
        &WHOLE_RECORD,
        &[(19, "000000000009 00000000000000000001")],
        0,
    ),
    // Bytes of no kind, no status and no flag.
    (&WHOLE_RECORD, &[(4, "02")], 13),
    (&WHOLE_RECORD, &[(9, "06")], 13),
    (
        &WHOLE_RECORD,
        &[(10, "02 00000001 77 0000000000000102")],
        13,
    ),
    (&WHOLE_RECORD, &[(13, "02")], 13),
    // A worker's name that isn't UTF-8.
    (
        &WHOLE_RECORD,
        &[(10, "01 00000001 ff 0000000000000102")],
        13,
    ),
    // A range without keys; one not from a key on.
    (&WHOLE_RECORD, &[(15, "01 00000001 61 02 00000001 61")], 13),
    (&WHOLE_RECORD, &[(15, "02 00000001 61 02 00000001 62")], 0),
    (&WHOLE_RECORD, &[(15, "00 00")], 0),
    // Version 1 has no kinds and no destinations.
    (&OLD_RECORD, &[(0, "0002")], 13),
    (&WHOLE_RECORD, &[(0, "0001")], 13),
    (&OLD_RECORD, &[(12, ID_9)], 13),
];

// The table as a slice: a function that names a table has all of it written out.
fn records_changed() -> &'static [(&'static [&'static str], Changes, u8)] {
    RECORDS_CHANGED
}

#[test]
fn changes_of_records_are_judged(rt: HostRuntime) {
    for (row, changes, code) in records_changed() {
        let found = judged(&rt, rt.alloc(), RECORD, row, changes);
        assert!(rt; found == *code, "with {changes:?}");
    }
}

/// Adds the bytes of a number at the end.
fn add_number(rt: &impl Abort, bytes: &mut Vec<u8>, number: u64) {
    bytes
        .extend_from_slice(&number.to_be_bytes())
        .expect(rt, "memory");
}

/// The bytes of a tracker of this many pairs, all of one moment.
fn tracker(rt: &impl Abort, alloc: Global, count: u32) -> Vec<u8> {
    let mut bytes = Vec::new(alloc);
    bytes
        .extend_from_slice(&count.to_be_bytes())
        .expect(rt, "memory");
    for number in 0..count {
        add_number(rt, &mut bytes, number as u64);
        add_number(rt, &mut bytes, 0);
    }
    bytes
}

/// The number of the refusal of a new manifest with such a tracker; 0 where its bytes stand for a manifest.
fn judged_tracker(rt: &impl Abort, alloc: Global, count: u32) -> u8 {
    let mut bytes = bytes_of(rt, alloc, &NEW[..2]);
    add(rt, alloc, &mut bytes, "0000000000000000 0000000000000000");
    extend(rt, &mut bytes, tracker(rt, alloc, count));
    add(rt, alloc, &mut bytes, "00000000 00000000 0000000000000000");
    let (code, _) = refusal(alloc, MANIFEST, bytes.as_slice());
    drop(bytes);
    code
}

#[test]
fn a_tracker_has_at_most_4096_pairs(rt: HostRuntime) {
    assert!(rt; judged_tracker(&rt, rt.alloc(), 0) == 0);
    assert!(rt; judged_tracker(&rt, rt.alloc(), 4096) == 0);
    assert!(rt; judged_tracker(&rt, rt.alloc(), 4097) == 13);
}
