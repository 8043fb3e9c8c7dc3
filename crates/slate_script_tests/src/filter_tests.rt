//! Filters of passes that scripts say, asked which of some candidates may go.

use crate::test_scripts::script_within;
use slate_gc_picks::GcFilter;
use slate_ids::{DbPath, ObjectPath};
use slate_script::{Call, Event};
use slate_store::ObjectMetadata;
use std::alloc::Global;
use std::process::Abort;

/// The numbers of the candidates, which are manifests of the database `db`.
const CANDIDATES: [u64; 4] = [2, 1, 3, 20];

/// Filters as scripts say them, and the numbers of the candidates that each returns.
const FILTERS: &[(&str, &[u64])] = &[
    (r#""all""#, &[2, 1, 3, 20]),
    (r#""none""#, &[]),
    ("[]", &[]),
    (r#"["db/manifest/00000000000000000001.manifest"]"#, &[1]),
    // in the order of the candidates, however often and in what order they are named
    (
        r#"["db/manifest/00000000000000000003.manifest","db/manifest/00000000000000000002.manifest","db/manifest/00000000000000000003.manifest"]"#,
        &[2, 3],
    ),
    // a slash may be written so in JSON
    (r#"["db\/manifest\/00000000000000000020.manifest"]"#, &[20]),
    // beside a path at which nothing lies, and one at which no candidate lies
    (
        r#"["db/manifest/00000000000000000009.manifest","","db/manifest/00000000000000000001.manifest","db/gc/manifest.boundary"]"#,
        &[1],
    ),
    // a manifest of another database, a record, and the same number written in another way
    (r#"["bd/manifest/00000000000000000001.manifest"]"#, &[]),
    (
        r#"["db/compactions/00000000000000000001.compactions"]"#,
        &[],
    ),
    (r#"["db/manifest/1.manifest"]"#, &[]),
    // neither what a path begins with nor more than it
    (
        r#"["db/manifest/0000000000000000000","db/manifest/","db/manifest/00000000000000000001.manifest "]"#,
        &[],
    ),
    // a word among paths is a path
    (r#"["all"]"#, &[]),
];

// The table as a slice: a function that names a table has all of it written out.
fn filters() -> &'static [(&'static str, &'static [u64])] {
    FILTERS
}

const BEFORE: &str =
    r#"{"databases":[],"events":[{"start":1,"call":"pass","pass":"manifest","filter":"#;

fn candidates(rt: &impl Abort, alloc: Global) -> Vec<ObjectMetadata> {
    let db = DbPath::from_text("db")
        .expect(rt, "memory")
        .expect(rt, "a path");
    let mut objects = Vec::new(alloc);
    for number in &CANDIDATES {
        let object = ObjectMetadata {
            location: ObjectPath::Manifest(db, *number),
            last_modified: 0,
            size: 1,
            e_tag: *number,
        };
        objects.push(object).expect(rt, "memory");
    }
    objects
}

// Whether an object is what a list told of the candidate of a number.
fn is_candidate(object: &ObjectMetadata, wanted: u64) -> bool {
    match &object.location {
        ObjectPath::Manifest(_, number) => *number == wanted && object.e_tag == wanted,
        _ => false,
    }
}

fn are(objects: &[ObjectMetadata], wanted: &[u64]) -> bool {
    objects.len() == wanted.len()
        && objects
            .iter()
            .zip(wanted)
            .all(|(object, number)| is_candidate(object, *number))
}

fn returns(rt: &impl Abort, alloc: Global, call: &Call, wanted: &[u64]) -> bool {
    match call {
        Call::Pass { filter, .. } => {
            let asked = candidates(rt, alloc);
            let returned = filter.filter(alloc, asked.as_slice()).expect(rt, "memory");
            drop(asked);
            let good = are(returned.as_slice(), wanted);
            drop(returned);
            good
        }
        _ => false,
    }
}

// Whether a filter, that of the one event of a script, a start of a pass, returns the candidates of these numbers.
fn says(rt: &impl Abort, alloc: Global, filter: &str, wanted: &[u64]) -> bool {
    let script = script_within(rt, alloc, BEFORE, filter, "}]}");
    let good = match script.events.as_slice().first() {
        Some(Event::Start { call, .. }) => returns(rt, alloc, call.get(), wanted),
        _ => false,
    };
    drop(script);
    good
}

#[test]
fn filters_of_scripts_return_candidates(rt: HostRuntime) {
    for (filter, wanted) in filters() {
        assert!(rt; says(&rt, rt.alloc(), filter, wanted), "at {filter}");
    }
}
