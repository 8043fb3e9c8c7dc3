//! Paths of objects.

use slate_ids::{ObjectPath, PathRest};
use std::alloc::Global;
use std::process::Abort;

/// Texts, the kind of their path, if they are one, and its number, if it has one.
const KINDS: &[(&str, &str, u64)] = &[
    ("db/manifest/00000000000000000003.manifest", "manifest", 3),
    (
        "db/compactions/18446744073709551615.compactions",
        "record",
        18446744073709551615,
    ),
    ("db/gc/manifest.boundary", "manifest boundary", 0),
    ("db/gc/compactions.boundary", "record boundary", 0),
    ("db/compacted/00000000340000000000000001.sst", "table", 100),
    ("db/wal/00000000000000000010.sst", "wal", 10),
    ("db/.deleting", "marker", 0),
    ("db/some/thing", "other", 0),
    ("db/manifest/3.manifest", "other", 0),
    ("db/manifest/18446744073709551616.manifest", "other", 0),
    ("db/manifest/00000000000000000003.manifest0", "other", 0),
    ("db/compacted/80000000340000000000000001.sst", "other", 0),
    ("db/wal/0000000000000000001a.sst", "other", 0),
    ("db//", "other", 0),
    ("", "none", 0),
    ("db", "none", 0),
    ("db/", "none", 0),
    ("/manifest", "none", 0),
    ("Db/x", "none", 0),
    (
        "aaaaaaaaaabbbbbbbbbbccccccccccddddddddddeeeeeeeeeeffffffffff01234/x",
        "none",
        0,
    ),
];

// The table as a slice: a function that names a table has all of it written out.
fn kinds() -> &'static [(&'static str, &'static str, u64)] {
    KINDS
}

/// The kind of a path and its number, of a table the milliseconds of its id.
fn kind_of(path: &ObjectPath) -> (&'static str, u64) {
    match path {
        ObjectPath::Manifest(_, number) => ("manifest", *number),
        ObjectPath::Record(_, number) => ("record", *number),
        ObjectPath::ManifestBoundary(_) => ("manifest boundary", 0),
        ObjectPath::RecordBoundary(_) => ("record boundary", 0),
        ObjectPath::Table(_, id) => ("table", id.timestamp_ms()),
        ObjectPath::Wal(_, number) => ("wal", *number),
        ObjectPath::Marker(_) => ("marker", 0),
        ObjectPath::Other(_, _) => ("other", 0),
    }
}

/// The text of a copy of a path.
fn text_of(rt: &impl Abort, alloc: Global, path: &ObjectPath) -> String {
    let copied = path.copy(alloc).expect(rt, "memory");
    let text = copied.to_text(alloc).expect(rt, "memory");
    drop(copied);
    text
}

/// Whether a path is of this kind and number, and a copy of it is written as a text.
fn is(rt: &impl Abort, alloc: Global, path: &ObjectPath, row: (&str, &str, u64)) -> bool {
    let (kind, number) = kind_of(path);
    let text = text_of(rt, alloc, path);
    let so = kind == row.1 && number == row.2 && text.as_str() == row.0;
    drop(text);
    so
}

/// Whether a text is a path of this kind and number, or none.
fn is_read(rt: &impl Abort, alloc: Global, row: (&str, &str, u64)) -> bool {
    match ObjectPath::from_text(alloc, row.0).expect(rt, "memory") {
        Some(path) => {
            let so = is(rt, alloc, &path, row);
            drop(path);
            so
        }
        None => row.1 == "none",
    }
}

#[test]
fn texts_are_paths_of_kinds(rt: HostRuntime) {
    for row in kinds() {
        assert!(rt; is_read(&rt, rt.alloc(), *row), "at {}", row.0);
    }
}

#[test]
fn rests_have_copies(rt: HostRuntime) {
    let rest = PathRest::from_text(rt.alloc(), "some/thing").expect(&rt, "memory");
    let rest = rest.expect(&rt, "a rest of no kind");
    let copied = rest.copy(rt.alloc()).expect(&rt, "memory");
    assert!(rt; copied.as_str() == "some/thing");
    drop(copied);
    drop(rest);
}
