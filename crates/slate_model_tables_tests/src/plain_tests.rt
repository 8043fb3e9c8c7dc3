//! Copies of small values. Larger ones are copied in the tests of runs, views, queues and compactions.

use crate::test_values::{id, is_copied, range};
use slate_ids::{CheckpointId, DbPath, Text};
use slate_model_records::{CompactionStatus, SourceId};
use slate_model_tables::{SsTableId, are_same, copies};
use std::alloc::Global;
use std::ops::Bound;
use std::process::Abort;

const TABLES: [SsTableId; 2] = [SsTableId::Wal(1), SsTableId::Wal(2)];

#[test]
fn copies_of_ids_are_equal(rt: HostRuntime) {
    let alloc = rt.alloc();
    assert!(rt; is_copied(&rt, alloc, CheckpointId::from_u64(1)));
    let path = DbPath::from_text("a").expect(&rt, "memory");
    assert!(rt; is_copied(&rt, alloc, path));
    assert!(rt; is_copied(&rt, alloc, SourceId::SstView(id(3))));
    assert!(rt; is_copied(&rt, alloc, CompactionStatus::Scheduled));
}

#[test]
fn copies_of_texts_are_equal(rt: HostRuntime) {
    let text = Text::copy_of(rt.alloc(), "a").expect(&rt, "memory");
    assert!(rt; is_copied(&rt, rt.alloc(), text));
}

#[test]
fn copies_of_ranges_are_equal(rt: HostRuntime) {
    let range = range(&rt, Bound::Included("a"), Bound::Excluded("c"));
    assert!(rt; is_copied(&rt, rt.alloc(), range));
}

/// Whether tables have equal copies.
fn have_copies(rt: &impl Abort, alloc: Global) -> bool {
    let tables: &[SsTableId] = &TABLES;
    let copied = copies(alloc, tables.iter()).expect(rt, "memory");
    let are_so = are_same(copied.as_slice().iter(), tables.iter());
    drop(copied);
    are_so
}

#[test]
fn copies_of_lists_are_equal(rt: HostRuntime) {
    assert!(rt; have_copies(&rt, rt.alloc()));
}
