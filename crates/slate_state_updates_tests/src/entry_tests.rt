//! Entries of other databases: none is new, none gains a table, and none loses one in use.

use crate::test_values::With::{Entry, Run, Segment, Table};
use crate::test_values::{With, broken};
use slate_txn_log::Right;

/// What the old manifest has, what the new one has, and whether it passes.
const ENTRIES: &[(&[With], &[With], bool)] = &[
    (
        &[Entry("src", Some(9), 1, &[5, 6])],
        &[Entry("src", Some(9), 1, &[5, 6])],
        true,
    ),
    // the checkpoint that it was made from counts for nothing
    (
        &[Entry("src", Some(9), 1, &[5, 6])],
        &[Entry("src", Some(9), 2, &[5, 6])],
        true,
    ),
    // some of its tables, in their order
    (
        &[Entry("src", Some(9), 1, &[5, 6, 7])],
        &[Entry("src", Some(9), 1, &[5, 7])],
        true,
    ),
    (
        &[Entry("src", Some(9), 1, &[5, 6, 7])],
        &[Entry("src", Some(9), 1, &[])],
        true,
    ),
    (&[Entry("src", Some(9), 1, &[5, 6])], &[], true),
    (
        &[Entry("src", Some(9), 1, &[5, 6])],
        &[Entry("src", Some(9), 1, &[6, 5])],
        false,
    ),
    (
        &[Entry("src", Some(9), 1, &[5, 6])],
        &[Entry("src", Some(9), 1, &[5, 5])],
        false,
    ),
    (
        &[Entry("src", Some(9), 1, &[5, 6])],
        &[Entry("src", Some(9), 1, &[5, 6, 7])],
        false,
    ),
    // another path, another pin, no pin
    (
        &[Entry("src", Some(9), 1, &[5])],
        &[Entry("dst", Some(9), 1, &[5])],
        false,
    ),
    (
        &[Entry("src", Some(9), 1, &[5])],
        &[Entry("src", Some(8), 1, &[5])],
        false,
    ),
    (
        &[Entry("src", Some(9), 1, &[5])],
        &[Entry("src", None, 1, &[5])],
        false,
    ),
    (
        &[Entry("src", None, 1, &[5])],
        &[Entry("src", None, 1, &[5])],
        true,
    ),
    // tables in use stay, in the root, in a run, in a segment
    (
        &[Table(5, 0), Entry("src", None, 1, &[5, 6])],
        &[Table(5, 0), Entry("src", None, 1, &[5])],
        true,
    ),
    (
        &[Table(5, 0), Entry("src", None, 1, &[5, 6])],
        &[Table(5, 0), Entry("src", None, 1, &[6])],
        false,
    ),
    (&[Run(5), Entry("src", None, 1, &[5, 6])], &[Run(5)], false),
    (
        &[Segment("a", &[5]), Entry("src", None, 1, &[5, 6])],
        &[Segment("a", &[5]), Entry("src", None, 1, &[])],
        false,
    ),
    // of two entries of one path and pin any will do, but none takes over the other's tables
    (
        &[
            Run(7),
            Entry("src", None, 1, &[5, 6]),
            Entry("src", None, 1, &[7]),
        ],
        &[
            Run(7),
            Entry("src", None, 1, &[7]),
            Entry("src", None, 1, &[6]),
        ],
        true,
    ),
    (
        &[
            Run(7),
            Entry("src", None, 1, &[5, 6]),
            Entry("src", None, 1, &[7]),
        ],
        &[Run(7), Entry("src", None, 1, &[6, 7])],
        false,
    ),
];

// The table as a slice: a function that names a table has all of it written out.
fn entries() -> &'static [(&'static [With], &'static [With], bool)] {
    ENTRIES
}

#[test]
fn entries_are_kept(rt: HostRuntime) {
    for (row, (old, new, passes)) in entries().iter().enumerate() {
        let rule = if *passes { 0 } else { 3 };
        let found = broken(&rt, rt.alloc(), &[*old], &[*new], &Right::Plain);
        assert!(rt; found == rule, "at row {row}");
    }
}

#[test]
fn an_entry_is_as_new_under_the_right_to_attach(rt: HostRuntime) {
    let found = broken(
        &rt,
        rt.alloc(),
        &[],
        &[&[Entry("src", None, 1, &[5])]],
        &Right::Attach,
    );
    assert!(rt; found == 3);
}
