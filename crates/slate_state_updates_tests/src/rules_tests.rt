//! The rules alone and in pairs: the first that is broken is answered.

use crate::flush_tests::is_nested;
use crate::test_values::With::{
    Compactor, Entry, Floor, Names, Replay, Run, Segment, Table, Writer,
};
use crate::test_values::{With, broken, manifest_of};
use slate_ids::SlateDBError;
use slate_state_updates::check_prefixes;
use slate_txn_log::Right;
use std::alloc::Global;
use std::process::Abort;

/// What version 7 has.
const OLD: [With; 8] = [
    Writer(2),
    Compactor(3),
    Replay(5),
    Floor(100),
    Names(3),
    Table(200, 0),
    Run(50),
    Entry("src", Some(9), 1, &[50, 60]),
];

/// Each rule, and what breaks it alone, where it is added to version 7.
const BREAKS: &[(u8, &[With])] = &[
    (1, &[Writer(1)]),
    (1, &[Compactor(2)]),
    (1, &[Replay(4)]),
    (1, &[Floor(99)]),
    (2, &[Names(7)]),
    (3, &[Entry("other", Some(8), 1, &[])]),
    (4, &[Table(199, 0)]),
    (5, &[Run(777)]),
    (10, &[Segment("a", &[]), Segment("ab", &[])]),
    (
        10,
        &[Segment("a", &[]), Segment("b", &[]), Segment("ba", &[])],
    ),
];

// The table as a slice: a function that names a table has all of it written out.
fn breaks_rows() -> &'static [(u8, &'static [With])] {
    BREAKS
}

/// What breaks no rule, where it is added to version 7.
const KEEPS: &[&[With]] = &[
    &[],
    &[Writer(3), Compactor(4), Replay(6), Floor(101)],
    &[Names(8), Names(3)],
    &[Table(200, 1), Table(201, 0)],
    &[Run(200), Run(50)],
    &[Segment("a", &[]), Segment("b", &[])],
    &[Segment("b", &[300]), Segment("c", &[200])],
];

// The table as a slice: a function that names a table has all of it written out.
fn keeps_rows() -> &'static [&'static [With]] {
    KEEPS
}

/// The prefixes of segments, and the pair that is refused.
const NESTED: &[(&[With], Option<(&str, &str)>)] = &[
    (&[], None),
    (&[Segment("a", &[])], None),
    (
        &[Segment("a", &[]), Segment("b", &[]), Segment("c", &[])],
        None,
    ),
    (
        &[Segment("a", &[]), Segment("ab", &[]), Segment("abc", &[])],
        Some(("ab", "a")),
    ),
    (
        &[Segment("a", &[]), Segment("b", &[]), Segment("bc", &[])],
        Some(("bc", "b")),
    ),
];

// The table as a slice: a function that names a table has all of it written out.
fn nested() -> &'static [(&'static [With], Option<(&'static str, &'static str)>)] {
    NESTED
}

/// The rule that version 7 with these breaks after version 7.
fn broken_by(rt: &impl Abort, alloc: Global, one: &[With], other: &[With]) -> u8 {
    broken(rt, alloc, &[&OLD], &[&OLD, one, other], &Right::Plain)
}

#[test]
fn what_keeps_the_rules_passes(rt: HostRuntime) {
    for (row, keeps) in keeps_rows().iter().enumerate() {
        assert!(rt; broken_by(&rt, rt.alloc(), keeps, &[]) == 0, "at row {row}");
    }
}

#[test]
fn a_rule_that_is_broken_alone_is_answered(rt: HostRuntime) {
    for (row, (rule, breaks)) in breaks_rows().iter().enumerate() {
        assert!(rt;
            broken_by(&rt, rt.alloc(), breaks, &[]) == *rule,
            "at row {row}"
        );
    }
}

/// Whether what breaks this rule and any later one is refused with this one.
fn first_is_answered(rt: &impl Abort, alloc: Global, rule: u8, breaks: &[With]) -> bool {
    for (other, others) in breaks_rows() {
        if *other > rule && broken_by(rt, alloc, breaks, others) != rule {
            return false;
        }
    }
    true
}

#[test]
fn of_two_broken_rules_the_first_is_answered(rt: HostRuntime) {
    for (row, (rule, breaks)) in breaks_rows().iter().enumerate() {
        assert!(rt;
            first_is_answered(&rt, rt.alloc(), *rule, breaks),
            "at row {row}"
        );
    }
}

/// Whether an answer refuses this pair of prefixes, or none.
fn tells(answer: &Result<(), SlateDBError>, pair: Option<(&str, &str)>) -> bool {
    match answer {
        Ok(()) => pair.is_none(),
        Err(e) => match pair {
            None => false,
            Some((longer, shorter)) => is_nested(e, longer, shorter),
        },
    }
}

/// Whether these segments are refused with this pair of prefixes, or pass without one.
fn is_refused(rt: &impl Abort, alloc: Global, parts: &[With], pair: Option<(&str, &str)>) -> bool {
    let manifest = manifest_of(rt, alloc, &[parts]);
    let answer = check_prefixes(alloc, &manifest);
    drop(manifest);
    let is_so = tells(&answer, pair);
    drop(answer);
    is_so
}

#[test]
fn the_first_prefix_that_begins_with_the_one_before_is_named(rt: HostRuntime) {
    for (row, (parts, pair)) in nested().iter().enumerate() {
        assert!(rt; is_refused(&rt, rt.alloc(), parts, *pair), "at row {row}");
    }
}
