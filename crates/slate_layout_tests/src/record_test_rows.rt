//! The bytes of records, as rows of texts.

use crate::test_texts::changed;
use slate_layout::decode_compactions;
use slate_model_records::Compactions;
use std::alloc::Global;
use std::process::Abort;

/// Ids of compactions.
pub(crate) const ID_8: &str = "000000000008 00000000000000000000";

pub(crate) const ID_9: &str = "000000000009 00000000000000000000";

pub(crate) const ID_10: &str = "00000000000a 00000000000000000000";

/// Tables 11 and 13, of which nothing is known.
pub(crate) const TABLE_11: &str =
    "00000000000b 00000000000000000000 0102 00 00 0000000000000000 0000000000000000 0000000000000000 0000000000000000 00 00 0000000000000000 0000000000000000 01";

const TABLE_13: &str =
    "00000000000d 00000000000000000000 0102 00 00 0000000000000000 0000000000000000 0000000000000000 0000000000000000 00 00 0000000000000000 0000000000000000 01";

/// An empty record of epoch 0.
pub(crate) const EMPTY: [&str; 3] = ["0002", "0000000000000000", "00000000"];

/// A record of version 2 with a value of its own in each field.
pub(crate) const WHOLE: [&str; 27] = [
    "0002",
    "0000000000000004",
    "00000002",
    // 3: a merge: id, kind, segment, views, runs, destination.
    ID_9,
    "00",
    "00000003 736567",
    "00000002 000000000005 00000000000000000000 000000000002 00000000000000000006",
    "00000002 00000007 00000001",
    "00000003",
    // 9: status, worker, outputs.
    "03",
    "01 00000001 77 0000000000000102",
    "00000001",
    TABLE_11,
    // 13: what the worker goes on with: parts of a range and outputs, the retention.
    "01",
    "00000001",
    "01 00000001 61 02 00000001 62",
    "00000001",
    TABLE_13,
    "0000000000000006",
    // 19: a segment that goes.
    ID_10,
    "01",
    "00000000",
    "00000001 000000000006 00000000000000000000",
    "00000000",
    "05",
    "00 00000000",
    "00",
];

/// A record of version 1: a merge with two runs, and one with none.
pub(crate) const OLD: [&str; 15] = [
    "0001",
    "0000000000000007",
    "00000002",
    // 3: id, segment, views, runs.
    ID_9,
    "00000003 736567",
    "00000001 000000000005 00000000000000000000",
    "00000003 00000009 00000004 00000006",
    // 7: status, worker, outputs, what the worker goes on with.
    "03",
    "01 00000001 77 0000000000000102",
    "00000001",
    TABLE_11,
    "01 00000000 0000000000000006",
    ID_10,
    "00000000 00000000 00000000",
    "05 00 00000000 00",
];

/// The same record in version 2: each is a merge into its least run, or into 0.
pub(crate) const OF_OLD: [&str; 19] = [
    "0002",
    "0000000000000007",
    "00000002",
    ID_9,
    "00",
    "00000003 736567",
    "00000001 000000000005 00000000000000000000",
    "00000003 00000009 00000004 00000006",
    "00000004",
    "03",
    "01 00000001 77 0000000000000102",
    "00000001",
    TABLE_11,
    "01 00000000 0000000000000006",
    ID_10,
    "00",
    "00000000 00000000 00000000",
    "00000000",
    "05 00 00000000 00",
];

/// The record of a row, some of whose texts are changed.
pub(crate) fn read_record(
    rt: &impl Abort,
    alloc: Global,
    row: &[&str],
    changes: &[(usize, &str)],
) -> Compactions {
    let bytes = changed(rt, alloc, row, changes);
    let read = decode_compactions(alloc, bytes.as_slice()).expect(rt, "a record");
    drop(bytes);
    read
}
