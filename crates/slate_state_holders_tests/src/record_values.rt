//! Records of compactions, by their milliseconds.

use bytes::Bytes;
use slate_ids::{Listed, Ulid};
use slate_model::{
    Compaction, CompactionSpec, CompactionStatus, Compactions, SsTableHandle, SsTableId,
    SsTableInfo,
};
use std::alloc::Global;
use std::process::Abort;

/// A table of these milliseconds.
fn table(ms: u64) -> SsTableHandle {
    SsTableHandle {
        id: SsTableId::Compacted(Ulid::from_parts(ms % (1 << 48), 1)),
        format_version: 1,
        info: SsTableInfo::default(),
    }
}

/// A compaction of these milliseconds with an output of others.
fn compaction(rt: &impl Abort, alloc: Global, ms: u64, output: u64) -> Compaction {
    let mut outputs = Listed::new(alloc);
    outputs.push(table(output)).expect(rt, "memory");
    Compaction {
        id: Ulid::from_parts(ms % (1 << 48), 1),
        spec: CompactionSpec::DrainSegment {
            segment: Bytes::from(""),
            sources: Listed::new(alloc),
        },
        status: CompactionStatus::Compacted,
        worker: None,
        output_ssts: outputs,
        ctx: None,
    }
}

/// The record of an epoch with a compaction at each of these milliseconds, whose output has others.
pub(crate) fn record(
    rt: &impl Abort,
    alloc: Global,
    epoch: u64,
    compactions: &[(u64, u64)],
) -> Compactions {
    let mut made = Compactions::new(alloc, epoch);
    for (ms, output) in compactions {
        made.insert(compaction(rt, alloc, *ms, *output))
            .expect(rt, "memory");
    }
    made
}
