//! What a filter allows: the candidates that it returned, in their order, and nothing else that it returned.

use crate::test_filters::{Fixed, database, manifest_object};
use slate_gc_picks::{GcFilter, retain_allowed_by_gc_filter};
use slate_ids::{DbPath, Listed, ObjectPath};
use slate_store::ObjectMetadata;
use std::alloc::Global;
use std::process::Abort;

/// Objects by number and tag.
type Told = &'static [(u64, u64)];

/// Of candidates, what a filter returns, and what is retained.
const RETAINED: &[(Told, Told, Told)] = &[
    // a filter that returns what is no candidate, beside one that is
    (&[(1, 1), (2, 2)], &[(1, 1), (9, 9)], &[(1, 1)]),
    // in the order of the candidates
    (
        &[(1, 1), (2, 2), (3, 3)],
        &[(3, 3), (1, 1)],
        &[(1, 1), (3, 3)],
    ),
    // an object of another tag at the same path is no candidate
    (&[(1, 1), (2, 2)], &[(1, 5), (2, 2)], &[(2, 2)]),
    // twice is once
    (&[(1, 1)], &[(1, 1), (1, 1)], &[(1, 1)]),
    (&[(1, 1), (2, 2)], &[], &[]),
    (&[], &[(1, 1)], &[]),
    (&[(2, 2), (1, 1)], &[(1, 1), (2, 2)], &[(2, 2), (1, 1)]),
];

// The table as a slice: a function that names a table has all of it written out.
fn retained() -> &'static [(Told, Told, Told)] {
    RETAINED
}

fn objects(rt: &impl Abort, alloc: Global, db: DbPath, told: Told) -> Listed<ObjectMetadata> {
    let mut listed = Listed::new(alloc);
    for (number, tag) in told {
        listed
            .push(manifest_object(db, *number, *tag, 97))
            .expect(rt, "memory");
    }
    listed
}

fn are(found: &[ObjectMetadata], db: DbPath, told: Told) -> bool {
    if found.len() != told.len() {
        return false;
    }
    for (object, wanted) in found.iter().zip(told.iter()) {
        if object.location != ObjectPath::Manifest(db, wanted.0) || object.e_tag != wanted.1 {
            return false;
        }
    }
    true
}

fn retains<F: GcFilter>(
    rt: &impl Abort,
    alloc: Global,
    filter: Option<&F>,
    candidates: Told,
    wanted: Told,
) -> bool {
    let db = database(rt);
    let all = objects(rt, alloc, db, candidates).into_vec();
    let kept = retain_allowed_by_gc_filter(alloc, filter, all).expect(rt, "memory");
    let are_so = are(kept.as_slice(), db, wanted);
    drop(kept);
    are_so
}

fn fixed(rt: &impl Abort, alloc: Global, returned: Told) -> Fixed {
    Fixed {
        objects: objects(rt, alloc, database(rt), returned),
    }
}

fn retains_of(
    rt: &impl Abort,
    alloc: Global,
    candidates: Told,
    returned: Told,
    wanted: Told,
) -> bool {
    let filter = fixed(rt, alloc, returned);
    let are_so = retains(rt, alloc, Some(&filter), candidates, wanted);
    drop(filter);
    are_so
}

fn retains_boxed(rt: &impl Abort, alloc: Global) -> bool {
    let boxed: Box<dyn GcFilter> = Box::new(alloc, fixed(rt, alloc, &[(2, 2)])).expect(
        rt, "memory",
    );
    retains(rt, alloc, Some(&boxed), &[(1, 1), (2, 2)], &[(2, 2)])
}

#[test]
fn candidates_that_a_filter_returned_are_retained(rt: HostRuntime) {
    for (row, (candidates, returned, wanted)) in retained().iter().enumerate() {
        assert!(rt;
            retains_of(&rt, rt.alloc(), *candidates, *returned, *wanted),
            "at row {row}"
        );
    }
}

#[test]
fn a_boxed_filter_is_asked(rt: HostRuntime) {
    assert!(rt; retains_boxed(&rt, rt.alloc()));
}

#[test]
fn without_a_filter_all_candidates_are_retained(rt: HostRuntime) {
    let none: Option<&Fixed> = None;
    assert!(rt; retains(&rt, rt.alloc(), none, &[(2, 2), (1, 1)], &[(2, 2), (1, 1)]));
}
