//! Texts of ids.

use slate_ids::Ulid;
use std::alloc::Global;
use std::process::Abort;

/// Texts of another length, with letters that no id has, and with a first letter above 7.
const NO_IDS: &[&str] = &[
    "",
    "0000000034000000000000000",
    "000000003400000000000000001",
    "0000000034000000000000000a",
    "0000000034000000000000000I",
    "0000000034000000000000000L",
    "0000000034000000000000000O",
    "0000000034000000000000000U",
    "80000000340000000000000001",
];

// The table as a slice: a function that names a table has all of it written out.
fn no_ids() -> &'static [&'static str] {
    NO_IDS
}

/// Whether an id is written as a text, and read from it.
fn is_written(rt: &impl Abort, alloc: Global, id: Ulid, text: &str) -> bool {
    let written = id.to_text(alloc).expect(rt, "memory");
    let so = written.as_str() == text && Ulid::from_text(text) == Some(id);
    drop(written);
    so
}

#[test]
fn ids_have_texts(rt: HostRuntime) {
    let alloc = rt.alloc();
    let id = Ulid::from_parts(100, 1);
    assert!(rt; is_written(&rt, alloc, id, "00000000340000000000000001"));
    let last = Ulid::from_parts(0xffff_ffff_ffff, 0xffff_ffff_ffff_ffff_ffff);
    assert!(rt; is_written(&rt, alloc, last, "7ZZZZZZZZZZZZZZZZZZZZZZZZZ"));
}

#[test]
fn other_texts_are_no_ids(rt: HostRuntime) {
    for text in no_ids() {
        assert!(rt; Ulid::from_text(text).is_none(), "at {text}");
    }
}
