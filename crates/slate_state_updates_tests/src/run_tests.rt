//! Tables of sorted runs: they come from the old trees, from a compactor, or with an attached database.

use crate::test_values::With::{Log, Run, Segment, Table};
use crate::test_values::{With, broken};
use slate_ids::{Listed, Ulid};
use slate_txn_log::Right;
use std::alloc::Global;
use std::process::Abort;

/// Which right.
#[derive(Clone, Copy)]
enum Under {
    Plain,
    Attach,
    Compactor,
    Holder,
}

/// The right, what the old manifest has, what the new one has, and whether it passes. A compactor made the table of the moment 500.
const RUNS: &[(Under, &[With], &[With], bool)] = &[
    (Under::Plain, &[Run(5)], &[Run(5), Run(5)], true),
    (Under::Plain, &[Table(5, 0)], &[Run(5)], true),
    (Under::Plain, &[Segment("a", &[5])], &[Run(5)], true),
    (Under::Plain, &[Log(5)], &[Run(5)], false),
    (Under::Plain, &[Table(5, 1)], &[Run(5)], false),
    (Under::Plain, &[], &[Run(500)], false),
    (Under::Compactor, &[], &[Run(500)], true),
    (Under::Compactor, &[Table(5, 0)], &[Run(500), Run(5)], true),
    (Under::Compactor, &[], &[Run(500), Run(501)], false),
    (Under::Holder, &[], &[Run(500)], false),
    (Under::Attach, &[], &[Run(500), Run(501)], true),
    (
        Under::Attach,
        &[Table(100, 0)],
        &[Table(100, 0), Run(1)],
        true,
    ),
];

// The table as a slice: a function that names a table has all of it written out.
fn runs() -> &'static [(Under, &'static [With], &'static [With], bool)] {
    RUNS
}

/// A list of the id of the moment 500.
fn made(rt: &impl Abort, alloc: Global) -> Listed<Ulid> {
    let mut ids = Listed::new(alloc);
    ids.push(Ulid::from_parts(500, 0)).expect(rt, "memory");
    ids
}

/// The right.
fn right_of(rt: &impl Abort, alloc: Global, under: Under) -> Right {
    match under {
        Under::Plain => Right::Plain,
        Under::Attach => Right::Attach,
        Under::Compactor => Right::Compactor {
            outputs: made(rt, alloc),
        },
        Under::Holder => Right::RecordHolder {
            pending: made(rt, alloc),
        },
    }
}

/// The rule that is broken.
fn broken_under(rt: &impl Abort, alloc: Global, under: Under, old: &[With], new: &[With]) -> u8 {
    let right = right_of(rt, alloc, under);
    let rule = broken(rt, alloc, &[old], &[new], &right);
    drop(right);
    rule
}

#[test]
fn runs_have_known_tables(rt: HostRuntime) {
    for (row, (under, old, new, passes)) in runs().iter().enumerate() {
        let rule = if *passes { 0 } else { 5 };
        assert!(rt;
            broken_under(&rt, rt.alloc(), *under, old, new) == rule,
            "at row {row}"
        );
    }
}
