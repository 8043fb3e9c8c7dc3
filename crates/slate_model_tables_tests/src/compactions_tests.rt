//! Records of compactions.

use crate::test_values::{id, is_copied};
use bytes::Bytes;
use slate_ids::Listed;
use slate_model_records::{
    Compaction, CompactionSpec, CompactionStatus, Compactions, VersionedCompactions,
};
use std::alloc::Global;
use std::process::Abort;

/// The compactions that are inserted, one after the other.
const INSERTED: [(u8, CompactionStatus); 4] = [
    (5, CompactionStatus::Submitted),
    (2, CompactionStatus::Scheduled),
    (9, CompactionStatus::Running),
    (5, CompactionStatus::Failed),
];

/// The compactions that are there then.
const KEPT: [(u8, CompactionStatus); 3] = [
    (2, CompactionStatus::Scheduled),
    (5, CompactionStatus::Failed),
    (9, CompactionStatus::Running),
];

fn compaction(alloc: Global, number: u8, status: CompactionStatus) -> Compaction {
    Compaction {
        id: id(number),
        spec: CompactionSpec::DrainSegment {
            segment: Bytes::from("s"),
            sources: Listed::new(alloc),
        },
        status,
        worker: None,
        output_ssts: Listed::new(alloc),
        ctx: None,
    }
}

fn record(rt: &impl Abort, alloc: Global) -> Compactions {
    let mut record = Compactions::new(alloc, 5);
    for (number, status) in &INSERTED {
        record
            .insert(compaction(alloc, *number, *status))
            .expect(rt, "memory");
    }
    record
}

/// Whether the compaction of an id is there, and has this status.
fn has(record: &Compactions, number: u8, status: CompactionStatus) -> bool {
    match record.get(id(number)) {
        Some(compaction) => compaction.id == id(number) && compaction.status == status,
        None => false,
    }
}

fn has_kept(rt: &impl Abort, record: &Compactions) {
    assert!(rt; record.len() == 3);
    for (number, status) in &KEPT {
        assert!(rt; has(record, *number, *status), "at {number}");
    }
}

#[test]
fn the_last_inserted_of_an_id_is_kept(rt: HostRuntime) {
    let record = record(&rt, rt.alloc());
    has_kept(&rt, &record);
    drop(record);
}

#[test]
fn copies_of_versions_are_equal(rt: HostRuntime) {
    let version = VersionedCompactions::new(2, record(&rt, rt.alloc()));
    assert!(rt; is_copied(&rt, rt.alloc(), version));
}
