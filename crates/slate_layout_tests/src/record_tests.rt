//! Records, as bytes and back.

use crate::record_test_rows::{EMPTY, OF_OLD, OLD, WHOLE, read_record};
use crate::test_texts::{are_equal, are_same, bytes_of, length_of};
use slate_ids::{ObjectCodec, Ulid};
use slate_layout::{CompactionsCodec, encode_compactions};
use slate_model::{Plain, SsTableHandle, SsTableId, SsTableInfo};
use slate_model_records::{
    Compaction, CompactionContext, CompactionSpec, CompactionStatus, Compactions, SourceId,
    Subcompaction, WorkerSpec,
};
use std::alloc::Global;
use std::process::Abort;

/// Rows, and the rows of what is written of them.
const WRITTEN: &[(&[&str], &[&str])] = &[(&EMPTY, &EMPTY), (&WHOLE, &WHOLE), (&OLD, &OF_OLD)];

// The table as a slice: a function that names a table has all of it written out.
fn written_rows() -> &'static [(&'static [&'static str], &'static [&'static str])] {
    WRITTEN
}

/// Whether the bytes of a row are written of a record, which is used up.
fn has_bytes(rt: &impl Abort, alloc: Global, record: Compactions, row: &[&str]) -> bool {
    let bytes = encode_compactions(alloc, &record).expect(rt, "bytes");
    drop(record);
    are_equal(bytes, bytes_of(rt, alloc, row))
}

/// Whether the bytes of the second row are written of the record of the first.
fn is_written(rt: &impl Abort, alloc: Global, row: &[&str], written: &[&str]) -> bool {
    has_bytes(rt, alloc, read_record(rt, alloc, row, &[]), written)
}

#[test]
fn records_are_written(rt: HostRuntime) {
    for (row, written) in written_rows() {
        assert!(rt;
            is_written(&rt, rt.alloc(), row, written),
            "with {written:?}"
        );
    }
}

#[test]
fn an_empty_record_has_14_bytes(rt: HostRuntime) {
    assert!(rt; length_of(&rt, rt.alloc(), &EMPTY) == 14);
    assert!(rt; has_bytes(&rt, rt.alloc(), Compactions::new(rt.alloc(), 0), &EMPTY));
    let empty = Compactions::new(rt.alloc(), 0);
    let is_so = are_same(read_record(&rt, rt.alloc(), &EMPTY, &[]), empty);
    assert!(rt; is_so);
}

/// The id of this number.
fn id(number: u32) -> Ulid {
    Ulid::from_parts(number as u64, 0)
}

/// Whether nothing is known of a table.
fn is_unknown(info: &SsTableInfo) -> bool {
    let unknown = SsTableInfo::default();
    let is_so = info.is(&unknown);
    drop(unknown);
    is_so
}

/// Whether a table is the one of this number, of which nothing is known.
fn is_table(table: &SsTableHandle, number: u32) -> bool {
    table.id == SsTableId::Compacted(id(number))
        && table.format_version == 258
        && is_unknown(&table.info)
}

/// Whether tables are the one of this number.
fn are_table(tables: &[SsTableHandle], number: u32) -> bool {
    match tables {
        [table] => is_table(table, number),
        _ => false,
    }
}

/// Whether a spec is the merge of the row.
fn is_merge(spec: &CompactionSpec) -> bool {
    let sources = [
        SourceId::SstView(id(5)),
        SourceId::SstView(Ulid::from_parts(2, 6)),
        SourceId::SortedRun(7),
        SourceId::SortedRun(1),
    ];
    matches!(spec, CompactionSpec::Tiered { destination: 3, .. })
        && spec.segment().as_slice() == b"seg".as_slice()
        && spec.sources() == sources.as_slice()
}

/// Whether a worker is that of the row.
fn is_worker(worker: &WorkerSpec) -> bool {
    worker.worker_id.as_str() == "w" && worker.last_heartbeat_ms == 258
}

/// Whether what a worker goes on with is that of the row.
fn is_context(context: &CompactionContext) -> bool {
    let is_so = match context.subcompactions.as_slice() {
        [part] => is_part(part),
        _ => false,
    };
    is_so && context.retention_min_seq == Some(6)
}

/// Whether a part is that of the row.
fn is_part(part: &Subcompaction) -> bool {
    part.range.contains(b"a")
        && !part.range.contains(b"b")
        && are_table(part.output_ssts.as_slice(), 13)
}

/// Whether a compaction is the merge of the row.
fn is_merging(compaction: &Compaction) -> bool {
    is_merge(&compaction.spec)
        && compaction.status == CompactionStatus::Compacted
        && compaction.worker.as_ref().is_some_and(|it| is_worker(it))
        && are_table(compaction.output_ssts.as_slice(), 11)
        && compaction.ctx.as_ref().is_some_and(|it| is_context(it))
}

/// Whether a compaction is the segment of the row that goes.
fn is_draining(compaction: &Compaction) -> bool {
    matches!(compaction.spec, CompactionSpec::DrainSegment { .. })
        && compaction.spec.segment().is_empty()
        && compaction.spec.sources() == [SourceId::SstView(id(6))].as_slice()
        && compaction.status == CompactionStatus::Failed
        && compaction.worker.is_none()
        && compaction.output_ssts.as_slice().is_empty()
        && compaction.ctx.is_none()
}

#[test]
fn compactions_are_read(rt: HostRuntime) {
    let record = read_record(&rt, rt.alloc(), &WHOLE, &[]);
    let numbers = (record.compactor_epoch, record.len());
    let is_merging = record.get(id(9)).is_some_and(|it| is_merging(it));
    let is_draining = record.get(id(10)).is_some_and(|it| is_draining(it));
    drop(record);
    assert!(rt; numbers == (4, 2));
    assert!(rt; is_merging && is_draining);
}

/// Statuses, their bytes, and how many outputs of one are kept.
const STATUSES: [(&str, CompactionStatus, usize); 6] = [
    ("00", CompactionStatus::Submitted, 0),
    ("01", CompactionStatus::Scheduled, 0),
    ("02", CompactionStatus::Running, 0),
    ("03", CompactionStatus::Compacted, 1),
    ("04", CompactionStatus::Completed, 1),
    ("05", CompactionStatus::Failed, 1),
];

/// The status of compaction 9 of a record, and how many outputs it has.
fn progress(record: &Compactions) -> Option<(CompactionStatus, usize)> {
    match record.get(id(9)) {
        Some(it) => Some((it.status, it.output_ssts.as_slice().len())),
        None => None,
    }
}

/// The same of the row with this byte of a status.
fn read_status(rt: &impl Abort, alloc: Global, byte: &str) -> Option<(CompactionStatus, usize)> {
    let record = read_record(rt, alloc, &WHOLE, &[(9, byte)]);
    let progress = progress(&record);
    drop(record);
    progress
}

#[test]
fn outputs_are_kept_once_compacted(rt: HostRuntime) {
    for (byte, read, count) in &STATUSES {
        assert!(rt;
            read_status(&rt, rt.alloc(), byte) == Some((*read, *count)),
            "at {byte}"
        );
    }
}

/// Whether the codec writes and reads the whole row.
fn is_coded(rt: &impl Abort, alloc: Global, record: &Compactions) -> bool {
    let bytes = bytes_of(rt, alloc, &WHOLE);
    let written = CompactionsCodec.encode(alloc, record).expect(rt, "bytes");
    let read = CompactionsCodec
        .decode(alloc, bytes.as_slice())
        .expect(rt, "a record");
    let is_read = read.is(record);
    drop(read);
    are_equal(written, bytes) && is_read
}

#[test]
fn the_codec_is_that_of_the_rows(rt: HostRuntime) {
    let record = read_record(&rt, rt.alloc(), &WHOLE, &[]);
    let is_coded = is_coded(&rt, rt.alloc(), &record);
    let copied = CompactionsCodec
        .copy(rt.alloc(), &record)
        .expect(&rt, "memory");
    let is_copied = are_same(copied, record);
    assert!(rt; is_coded && is_copied);
}
