//! Trees by prefix, found and made, and prefixes that nest.

use crate::test_values::{core_of, have_prefixes};
use bytes::Bytes;
use slate_ids::{SlateDBError, Ulid};
use slate_model::ManifestCore;
use std::alloc::Global;
use std::process::Abort;

/// Prefixes, and which of them the segment `ab` refuses.
const CHECKS: [(&'static str, bool); 6] = [
    ("ab", false),
    ("b", false),
    ("a", true),
    ("abc", true),
    ("", true),
    ("aa", false),
];

/// Prefixes that get a tree beside the segment `ab`, and the segments afterwards; none where the prefix is refused.
const INSERTIONS: [(&'static str, Option<&'static str>); 5] = [
    ("b", Some("ab,b,")),
    ("aa", Some("aa,ab,")),
    ("ab", Some("ab,")),
    ("", Some("ab,")),
    ("abc", None),
];

/// Whether an answer refuses a prefix for this other one.
fn refuses(answer: &Result<(), SlateDBError>, refused: &str, other: &str) -> bool {
    match answer {
        Err(SlateDBError::InvalidSegmentPrefix { prefix, conflict }) => {
            prefix.as_slice() == refused.as_bytes() && conflict.as_slice() == other.as_bytes()
        }
        _ => false,
    }
}

/// What the segment `ab` says of a prefix.
fn check(rt: &impl Abort, alloc: Global, prefix: &str) -> Result<(), SlateDBError> {
    let core = core_of(rt, alloc, &["ab"]);
    let answer = core.check_segment_prefix_antichain(alloc, prefix.as_bytes());
    drop(core);
    answer
}

/// Whether an answer lets a prefix stand, or refuses it and names both.
fn judges(answer: &Result<(), SlateDBError>, prefix: &str, refused: bool) -> bool {
    if refused {
        refuses(answer, prefix, "ab")
    } else {
        answer.is_ok()
    }
}

/// Whether the segment `ab` lets a prefix stand, or refuses it and names both.
fn is_judged(rt: &impl Abort, alloc: Global, prefix: &str, refused: bool) -> bool {
    let answer = check(rt, alloc, prefix);
    let is_so = judges(&answer, prefix, refused);
    drop(answer);
    is_so
}

#[test]
fn prefixes_that_nest_are_refused(rt: HostRuntime) {
    for (prefix, refused) in &CHECKS {
        assert!(rt; is_judged(&rt, rt.alloc(), prefix, *refused), "at {prefix}");
    }
}

/// Marks the tree of a prefix, which is made where it isn't there.
fn mark(alloc: Global, core: &mut ManifestCore, prefix: &'static str) -> Result<(), SlateDBError> {
    let tree = core.maybe_insert_tree(alloc, &Bytes::from(prefix))?;
    tree.last_compacted_l0_sst_id = Some(Ulid::from_parts(7, 0));
    Ok(())
}

/// Whether the tree of a prefix is there, and marked.
fn is_marked(core: &ManifestCore, prefix: &str) -> bool {
    match core.tree_for_segment(prefix.as_bytes()) {
        Some(tree) => tree.last_compacted_l0_sst_id == Some(Ulid::from_parts(7, 0)),
        None => false,
    }
}

/// Whether a prefix got a tree that can be changed, among segments of these prefixes; or was refused, and changed nothing.
fn has_tree(
    rt: &impl Abort,
    alloc: Global,
    core: &ManifestCore,
    answer: &Result<(), SlateDBError>,
    prefix: &str,
    expected: Option<&str>,
) -> bool {
    match expected {
        Some(prefixes) => {
            answer.is_ok()
                && is_marked(core, prefix)
                && have_prefixes(rt, alloc, core.segments(), prefixes)
        }
        None => refuses(answer, prefix, "ab") && have_prefixes(rt, alloc, core.segments(), "ab,"),
    }
}

/// Whether a prefix gets a tree beside the segment `ab`, or is refused.
fn is_inserted(
    rt: &impl Abort,
    alloc: Global,
    prefix: &'static str,
    expected: Option<&str>,
) -> bool {
    let mut core = core_of(rt, alloc, &["ab"]);
    let answer = mark(alloc, &mut core, prefix);
    let is_so = has_tree(rt, alloc, &core, &answer, prefix, expected);
    drop(answer);
    drop(core);
    is_so
}

#[test]
fn a_prefix_gets_a_tree_at_its_place(rt: HostRuntime) {
    for (prefix, expected) in &INSERTIONS {
        assert!(rt;
            is_inserted(&rt, rt.alloc(), prefix, *expected),
            "at {prefix}"
        );
    }
}
