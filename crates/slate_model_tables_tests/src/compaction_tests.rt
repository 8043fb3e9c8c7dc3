//! Compactions, and copies of all that they have.

use crate::test_values::{id, is_copied, table};
use bytes::Bytes;
use slate_ids::{BytesRange, Listed, Text};
use slate_model_records::{
    Compaction, CompactionContext, CompactionSpec, CompactionStatus, SourceId, Subcompaction,
    WorkerSpec,
};
use std::alloc::Global;
use std::process::Abort;

fn merge(rt: &impl Abort, alloc: Global) -> CompactionSpec {
    let mut sources = Listed::new(alloc);
    sources.push(SourceId::SortedRun(3)).expect(rt, "memory");
    CompactionSpec::Tiered {
        segment: Bytes::from("s"),
        sources,
        destination: 7,
    }
}

fn worker(rt: &impl Abort, alloc: Global) -> WorkerSpec {
    WorkerSpec {
        worker_id: Text::copy_of(alloc, "w").expect(rt, "memory"),
        last_heartbeat_ms: 8,
    }
}

/// The keys that begin with a, with one table.
fn part(rt: &impl Abort, alloc: Global) -> Subcompaction {
    let range = BytesRange::from_prefix(alloc, b"a").expect(rt, "memory");
    let mut output_ssts = Listed::new(alloc);
    output_ssts.push(table(1, "a", "ab")).expect(rt, "memory");
    Subcompaction { range, output_ssts }
}

fn context(rt: &impl Abort, alloc: Global) -> CompactionContext {
    let mut subcompactions = Listed::new(alloc);
    subcompactions.push(part(rt, alloc)).expect(rt, "memory");
    CompactionContext {
        subcompactions,
        retention_min_seq: Some(9),
    }
}

/// A merge that a worker has, of one part.
fn compaction(rt: &impl Abort, alloc: Global) -> Compaction {
    Compaction {
        id: id(1),
        spec: merge(rt, alloc),
        status: CompactionStatus::Running,
        worker: Some(worker(rt, alloc)),
        output_ssts: Listed::new(alloc),
        ctx: Some(context(rt, alloc)),
    }
}

#[test]
fn copies_of_compactions_are_equal(rt: HostRuntime) {
    assert!(rt; is_copied(&rt, rt.alloc(), compaction(&rt, rt.alloc())));
}
