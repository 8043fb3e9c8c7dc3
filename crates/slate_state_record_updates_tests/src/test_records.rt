//! Records of compactions for tests.

use bytes::Bytes;
use slate_ids::{Listed, Text, Ulid};
use slate_model::{
    Compaction, CompactionSpec, CompactionStatus, Compactions, SsTableHandle, SsTableId,
    SsTableInfo, WorkerSpec,
};
use std::alloc::Global;
use std::process::Abort;

/// An id: its milliseconds and its tail.
pub(crate) type Id = (u8, u8);

/// An output.
#[derive(Clone, Copy)]
pub(crate) enum Made {
    /// A file of the write-ahead log.
    File(u64),
    /// A compacted table.
    Table(Id),
}

/// A compaction and its outputs.
pub(crate) type Row = (Id, &'static [Made]);

pub(crate) fn id(parts: Id) -> Ulid {
    Ulid::from_parts(u64::from(parts.0), u128::from(parts.1))
}

/// Ids in order.
pub(crate) fn ids(rt: &impl Abort, alloc: Global, parts: &[Id]) -> Listed<Ulid> {
    let mut listed = Listed::new(alloc);
    for one in parts {
        listed.push(id(*one)).expect(rt, "memory");
    }
    listed
}

/// What lets the first segment go.
pub(crate) fn drain(alloc: Global) -> CompactionSpec {
    CompactionSpec::DrainSegment {
        segment: Bytes::from(""),
        sources: Listed::new(alloc),
    }
}

fn handle(made: Made) -> SsTableHandle {
    let id = match made {
        Made::File(number) => SsTableId::Wal(number),
        Made::Table(parts) => SsTableId::Compacted(id(parts)),
    };
    SsTableHandle {
        id,
        format_version: 1,
        info: SsTableInfo::default(),
    }
}

/// Tables in order.
pub(crate) fn tables(rt: &impl Abort, alloc: Global, made: &[Made]) -> Listed<SsTableHandle> {
    let mut listed = Listed::new(alloc);
    for one in made {
        listed.push(handle(*one)).expect(rt, "memory");
    }
    listed
}

/// The worker of this name, heard of at 8.
pub(crate) fn worker(rt: &impl Abort, alloc: Global, name: &str) -> WorkerSpec {
    WorkerSpec {
        worker_id: Text::copy_of(alloc, name).expect(rt, "memory"),
        last_heartbeat_ms: 8,
    }
}

fn compacted(rt: &impl Abort, alloc: Global, row: Row) -> Compaction {
    Compaction {
        id: id(row.0),
        spec: drain(alloc),
        status: CompactionStatus::Compacted,
        worker: None,
        output_ssts: tables(rt, alloc, row.1),
        ctx: None,
    }
}

/// The record of this epoch with these compactions, which are compacted.
pub(crate) fn rows(rt: &impl Abort, alloc: Global, epoch: u64, rows: &[Row]) -> Compactions {
    let mut made = Compactions::new(alloc, epoch);
    for row in rows {
        made.insert(compacted(rt, alloc, *row)).expect(rt, "memory");
    }
    made
}
