//! A writer's tree and a compactor's, merged.

use crate::test_trees::{Seen, TreeRow, is_text, tree};
use slate_model::LsmTreeState;
use slate_state_merges::{TreeMerge, merge_writer_and_compactor};
use std::alloc::Global;
use std::process::Abort;

const THREE: &[Seen] = &[Seen::Table(3, 30), Seen::Table(2, 20), Seen::Table(1, 10)];

/// A writer's tree, a compactor's, and their merge.
const MERGES: &[(TreeRow, TreeRow, &str)] = &[
    (
        (THREE, &[], None, None),
        (&[], &[7], Some(2), None),
        "3 / 7 v2 ",
    ),
    (
        (THREE, &[], None, None),
        (&[], &[7], Some(9), None),
        "3 2 1 / 7 v9 ",
    ),
    (
        (THREE, &[], None, None),
        (&[], &[7], Some(3), None),
        "/ 7 v3 ",
    ),
    (
        (THREE, &[], None, None),
        (&[], &[7], Some(1), None),
        "3 2 / 7 v1 ",
    ),
    (
        (THREE, &[], None, None),
        (&[], &[], None, Some(20)),
        "3 / t20 ",
    ),
    (
        (THREE, &[], None, None),
        (&[], &[], Some(1), Some(20)),
        "3 / v1 t20 ",
    ),
    (
        (THREE, &[], None, None),
        (&[], &[], Some(3), Some(20)),
        "/ v3 t20 ",
    ),
    (
        (THREE, &[], None, None),
        (&[], &[], Some(20), Some(2)),
        "3 2 1 / v20 t2 ",
    ),
    ((&[], &[], None, None), (&[], &[], None, None), "/ "),
    ((&[], &[9], Some(4), Some(5)), (&[], &[], None, None), "/ "),
    (
        (THREE, &[9, 8], Some(2), None),
        (&[Seen::Table(5, 50)], &[7, 6], None, None),
        "3 2 1 / 7 6 ",
    ),
    (
        (&[Seen::Log(3, 20), Seen::Table(2, 20)], &[], None, None),
        (&[], &[], None, Some(20)),
        "3 / t20 ",
    ),
    (
        (
            &[Seen::Table(2, 30), Seen::Table(1, 20), Seen::Table(2, 10)],
            &[],
            None,
            None,
        ),
        (&[], &[], Some(2), None),
        "/ v2 ",
    ),
];

// The table as a slice: a function that names a table has all of it written out.
fn merges() -> &'static [(TreeRow, TreeRow, &'static str)] {
    MERGES
}

/// Whether the merge of two trees has this text.
fn merges_to(
    rt: &impl Abort,
    alloc: Global,
    writer: &TreeRow,
    compactor: &TreeRow,
    expected: &str,
) -> bool {
    let ours = tree(rt, alloc, writer);
    let theirs = tree(rt, alloc, compactor);
    let merged = merge_writer_and_compactor(alloc, &ours, &theirs);
    drop(theirs);
    drop(ours);
    has_text(rt, alloc, merged.expect(rt, "memory"), expected)
}

/// Whether a tree, which is used up, has this text.
fn has_text(rt: &impl Abort, alloc: Global, tree: LsmTreeState, expected: &str) -> bool {
    let is_so = is_text(rt, alloc, &tree, expected);
    drop(tree);
    is_so
}

/// Whether the method of each side gives this text.
fn methods_merge_to(
    rt: &impl Abort,
    alloc: Global,
    writer: &TreeRow,
    compactor: &TreeRow,
    expected: &str,
) -> bool {
    let ours = tree(rt, alloc, writer);
    let theirs = tree(rt, alloc, compactor);
    let one = theirs.merge_from_writer(alloc, &ours).expect(rt, "memory");
    let other = ours
        .merge_from_compactor(alloc, &theirs)
        .expect(rt, "memory");
    drop(theirs);
    drop(ours);
    has_text(rt, alloc, one, expected) & has_text(rt, alloc, other, expected)
}

#[test]
fn a_merge_keeps_the_writers_front_and_the_compactors_runs(rt: HostRuntime) {
    for (writer, compactor, expected) in merges() {
        assert!(rt;
            merges_to(&rt, rt.alloc(), writer, compactor, expected),
            "{expected}"
        );
    }
}

#[test]
fn both_methods_give_the_merge(rt: HostRuntime) {
    for (writer, compactor, expected) in merges() {
        assert!(rt;
            methods_merge_to(&rt, rt.alloc(), writer, compactor, expected),
            "{expected}"
        );
    }
}
