//! Paths of databases.

use slate_ids::DbPath;
use std::process::Abort;

/// Texts, and whether they name a database. The longest name has 64 letters.
const NAMES: &[(&str, bool)] = &[
    ("a", true),
    ("a-b", true),
    ("z_9", true),
    (
        "aaaaaaaaaabbbbbbbbbbccccccccccddddddddddeeeeeeeeeeffffffffff0123",
        true,
    ),
    (
        "aaaaaaaaaabbbbbbbbbbccccccccccddddddddddeeeeeeeeeeffffffffff01234",
        false,
    ),
    ("", false),
    ("A", false),
    ("a/b", false),
    ("a.b", false),
];

// The table as a slice: a function that names a table has all of it written out.
fn names() -> &'static [(&'static str, bool)] {
    NAMES
}

/// Whether a text names a database, which is written as the text.
fn is_name(rt: &impl Abort, text: &str) -> bool {
    match DbPath::from_text(text).expect(rt, "memory") {
        Some(path) => path.as_str() == text,
        None => false,
    }
}

#[test]
fn databases_have_names(rt: HostRuntime) {
    for (text, named) in names() {
        assert!(rt; is_name(&rt, text) == *named, "at {text}");
    }
}
