//! What is read back of a record, and fields of records that have no bytes.

use crate::record_test_rows::read_record;
use crate::test_texts::{are_equal, are_same, bytes_of, refused};
use bytes::Bytes;
use slate_ids::{BytesRange, FieldName, Listed, Ulid};
use slate_layout::{encode_compactions, normal_form_compactions};
use slate_layout_records::is_normal_record;
use slate_model::{SsTableHandle, SsTableId, SsTableInfo};
use slate_model_records::{
    Compaction, CompactionContext, CompactionSpec, CompactionStatus, Compactions, SourceId,
    Subcompaction,
};
use std::alloc::Global;
use std::process::Abort;

/// A list of one item.
fn one<T: Drop>(rt: &impl Abort, alloc: Global, item: T) -> Listed<T> {
    let mut items = Listed::new(alloc);
    items.push(item).expect(rt, "memory");
    items
}

/// The id of this number.
fn id(number: u32) -> Ulid {
    Ulid::from_parts(number as u64, 0)
}

/// View 5, or run 7.
fn source(is_view: bool) -> SourceId {
    if is_view {
        SourceId::SstView(id(5))
    } else {
        SourceId::SortedRun(7)
    }
}

/// A merge of view 5 and run 7, in this order or the other one.
fn merge(rt: &impl Abort, alloc: Global, views_first: bool) -> CompactionSpec {
    let mut sources = one(rt, alloc, source(views_first));
    sources.push(source(!views_first)).expect(rt, "memory");
    CompactionSpec::Tiered {
        segment: Bytes::from("seg"),
        sources,
        destination: 3,
    }
}

/// One output: table 11, or a file of the write-ahead log.
fn outputs(rt: &impl Abort, alloc: Global, is_compacted: bool) -> Listed<SsTableHandle> {
    let table = SsTableHandle {
        id: if is_compacted {
            SsTableId::Compacted(id(11))
        } else {
            SsTableId::Wal(1)
        },
        format_version: 2,
        info: SsTableInfo::default(),
    };
    one(rt, alloc, table)
}

/// A record of a merge with one output, and with these parts to go on with.
fn record_of(
    rt: &impl Abort,
    alloc: Global,
    spec: CompactionSpec,
    status: CompactionStatus,
    output_ssts: Listed<SsTableHandle>,
    ctx: CompactionContext,
) -> Compactions {
    let compaction = Compaction {
        id: id(9),
        spec,
        status,
        worker: None,
        output_ssts,
        ctx: Some(ctx),
    };
    let mut record = Compactions::new(alloc, 4);
    record.insert(compaction).expect(rt, "memory");
    record
}

/// A record of the merge with its run first, submitted, with one output and these parts.
fn record(
    rt: &impl Abort,
    alloc: Global,
    is_compacted: bool,
    parts: Listed<Subcompaction>,
) -> Compactions {
    let ctx = CompactionContext {
        subcompactions: parts,
        retention_min_seq: None,
    };
    record_of(
        rt,
        alloc,
        merge(rt, alloc, false),
        CompactionStatus::Submitted,
        outputs(rt, alloc, is_compacted),
        ctx,
    )
}

/// The bytes of that record without parts: views before runs, no outputs, retention 0.
const NORMAL: [&str; 9] = [
    "0002",
    "0000000000000004",
    "00000001",
    "000000000009 00000000000000000000",
    "00 00000003 736567",
    "00000001 000000000005 00000000000000000000",
    "00000001 00000007",
    "00000003",
    "00 00 00000000 01 00000000 0000000000000000",
];

/// How many outputs compaction 9 of a record has.
fn output_count(record: &Compactions) -> Option<usize> {
    match record.get(id(9)) {
        Some(compaction) => Some(compaction.output_ssts.as_slice().len()),
        None => None,
    }
}

/// A submitted compaction has no outputs in the normal form.
#[test]
fn the_normal_form_is_what_is_read_back(rt: HostRuntime) {
    let record = record(&rt, rt.alloc(), true, Listed::new(rt.alloc()));
    let bytes = encode_compactions(rt.alloc(), &record).expect(&rt, "bytes");
    let normal = normal_form_compactions(rt.alloc(), &record).expect(&rt, "memory");
    let counts = (output_count(&record), output_count(&normal));
    drop(record);
    let is_normal = are_same(normal, read_record(&rt, rt.alloc(), &NORMAL, &[]));
    let has_bytes = are_equal(bytes, bytes_of(&rt, rt.alloc(), &NORMAL));
    assert!(rt; counts == (Some(1), Some(0)));
    assert!(rt; is_normal && has_bytes);
}

/// Parts: none, or one of no keys.
fn parts(rt: &impl Abort, alloc: Global, has_keys: bool) -> Listed<Subcompaction> {
    if has_keys {
        return Listed::new(alloc);
    }
    let part = Subcompaction {
        range: BytesRange::new_empty(),
        output_ssts: Listed::new(alloc),
    };
    one(rt, alloc, part)
}

/// Whether outputs are compacted tables, whether parts have keys, and the field that has no bytes.
const FIELDS: [(bool, bool, Option<FieldName>); 4] = [
    (true, true, None),
    (true, false, Some(FieldName::NoKeys)),
    (false, true, Some(FieldName::WalId)),
    (false, false, Some(FieldName::WalId)),
];

/// The field of such a record that has no bytes.
fn refused_of(
    rt: &impl Abort,
    alloc: Global,
    is_compacted: bool,
    has_keys: bool,
) -> Option<FieldName> {
    let record = record(rt, alloc, is_compacted, parts(rt, alloc, has_keys));
    let encoded = encode_compactions(alloc, &record);
    drop(record);
    refused(encoded)
}

#[test]
fn outputs_of_the_log_and_ranges_without_keys_have_no_bytes(rt: HostRuntime) {
    for (is_compacted, has_keys, field) in &FIELDS {
        assert!(rt;
            refused_of(&rt, rt.alloc(), *is_compacted, *has_keys) == *field,
            "at {field:?}"
        );
    }
}

/// Whether a record of one compaction is told as normal: by the order of its sources, whether it is over, and what it goes on with.
fn told_normal(
    rt: &impl Abort,
    alloc: Global,
    views_first: bool,
    is_over: bool,
    retention_min_seq: Option<u64>,
) -> bool {
    let status = if is_over {
        CompactionStatus::Failed
    } else {
        CompactionStatus::Running
    };
    let ctx = CompactionContext {
        subcompactions: Listed::new(alloc),
        retention_min_seq,
    };
    let spec = merge(rt, alloc, views_first);
    is_normal(record_of(rt, alloc, spec, status, outputs(rt, alloc, true), ctx))
}

/// Whether a record, which is used up, is told as normal.
fn is_normal(record: Compactions) -> bool {
    let is_so = is_normal_record(&record);
    drop(record);
    is_so
}

/// Whether views come first, the compaction is over, its retention is known; and whether the record is normal: outputs stay where it is over.
const TOLD: [(bool, bool, Option<u64>, bool); 4] = [
    (true, true, Some(0), true),
    (false, true, Some(0), false),
    (true, false, Some(0), false),
    (true, true, None, false),
];

#[test]
fn a_record_that_would_be_read_back_otherwise_is_told(rt: HostRuntime) {
    for (views_first, is_over, retention, normal) in &TOLD {
        assert!(rt;
            told_normal(&rt, rt.alloc(), *views_first, *is_over, *retention) == *normal,
            "at {views_first} {is_over} {retention:?}"
        );
    }
    assert!(rt; is_normal(Compactions::new(rt.alloc(), 7)));
}
