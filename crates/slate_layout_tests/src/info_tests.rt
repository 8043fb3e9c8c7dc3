//! What is known of tables, as bytes and back.

use crate::test_texts::{are_equal, are_same, bytes_of, length_of, refused};
use bytes::Bytes;
use slate_ids::FieldName;
use slate_layout::{decode_info, encode_info};
use slate_model::{CompressionTag, FilterFormat, SsTableInfo, SstType};
use std::alloc::Global;
use std::process::Abort;

/// The bytes of what is known of a new table.
const NEW: [&str; 4] = [
    "00 00",
    "0000000000000000 0000000000000000 0000000000000000 0000000000000000",
    "00 00 0000000000000000 0000000000000000",
    "01",
];

/// The bytes of the sample.
const SAMPLE: [&str; 5] = [
    "01 00000001 61 01 00000002 6263",
    "0000000000000001 0000000000000002 0000000000000003 0000000000000004",
    "03 01",
    "0000010000000000 ffffffffffffffff",
    "00",
];

/// A table with a value of its own in each field.
fn sample() -> SsTableInfo {
    SsTableInfo {
        first_entry: Some(Bytes::from("a")),
        last_entry: Some(Bytes::from("bc")),
        index_offset: 1,
        index_len: 2,
        filter_offset: 3,
        filter_len: 4,
        compression_codec: CompressionTag::Zlib,
        sst_type: SstType::Wal,
        stats_offset: 1 << 40,
        stats_len: u64::MAX,
        filter_format: FilterFormat::Legacy,
    }
}

/// Whether the bytes of a row are those of an info, which is used up, and are read back.
fn is_written(rt: &impl Abort, alloc: Global, info: SsTableInfo, row: &[&str]) -> bool {
    let bytes = bytes_of(rt, alloc, row);
    let written = encode_info(alloc, &info).expect(rt, "bytes");
    let read = decode_info(alloc, bytes.as_slice()).expect(rt, "an info");
    are_equal(written, bytes) & are_same(read, info)
}

#[test]
fn infos_have_their_bytes(rt: HostRuntime) {
    assert!(rt; is_written(&rt, rt.alloc(), sample(), &SAMPLE));
    assert!(rt; is_written(&rt, rt.alloc(), SsTableInfo::default(), &NEW));
    assert!(rt; length_of(&rt, rt.alloc(), &NEW) == 53);
}

/// Tags and their bytes.
const TAGS: [(CompressionTag, SstType, FilterFormat, [u8; 3]); 5] = [
    (
        CompressionTag::None,
        SstType::Compacted,
        FilterFormat::Legacy,
        [0, 0, 0],
    ),
    (
        CompressionTag::Snappy,
        SstType::Wal,
        FilterFormat::Composite,
        [1, 1, 1],
    ),
    (
        CompressionTag::Lz4,
        SstType::Compacted,
        FilterFormat::Composite,
        [2, 0, 1],
    ),
    (
        CompressionTag::Zlib,
        SstType::Wal,
        FilterFormat::Legacy,
        [3, 1, 0],
    ),
    (
        CompressionTag::Zstd,
        SstType::Compacted,
        FilterFormat::Legacy,
        [4, 0, 0],
    ),
];

/// The bytes of the tags of a table without keys.
fn tag_bytes(
    rt: &impl Abort,
    alloc: Global,
    codec: CompressionTag,
    kind: SstType,
    format: FilterFormat,
) -> [u8; 3] {
    let mut info = SsTableInfo::default();
    info.compression_codec = codec;
    info.sst_type = kind;
    info.filter_format = format;
    let bytes = encode_info(alloc, &info).expect(rt, "bytes");
    drop(info);
    assert!(rt; bytes.len() == 53);
    let tags = [bytes[34], bytes[35], bytes[52]];
    drop(bytes);
    tags
}

#[test]
fn tags_have_their_bytes(rt: HostRuntime) {
    for (codec, kind, format, bytes) in &TAGS {
        assert!(rt;
            tag_bytes(&rt, rt.alloc(), *codec, *kind, *format) == *bytes,
            "at {codec:?}"
        );
    }
}

/// The first and the last key of a table, and the field that has no bytes.
const KEYS: [(Option<&str>, Option<&str>, Option<FieldName>); 4] = [
    (Some("b"), Some("a"), Some(FieldName::NoKeys)),
    (None, Some("a"), Some(FieldName::NoKeys)),
    (Some("a"), Some("a"), None),
    (Some("a"), None, None),
];

/// The key of these letters.
fn key(letters: Option<&'static str>) -> Option<Bytes> {
    match letters {
        Some(letters) => Some(Bytes::from(letters)),
        None => None,
    }
}

/// The field that has no bytes, of what is known of a table with these keys.
fn refused_of(
    alloc: Global,
    first: Option<&'static str>,
    last: Option<&'static str>,
) -> Option<FieldName> {
    let mut info = SsTableInfo::default();
    info.first_entry = key(first);
    info.last_entry = key(last);
    let encoded = encode_info(alloc, &info);
    drop(info);
    refused(encoded)
}

#[test]
fn keys_in_no_order_have_no_bytes(rt: HostRuntime) {
    for (first, last, field) in &KEYS {
        assert!(rt;
            refused_of(rt.alloc(), *first, *last) == *field,
            "at {last:?}"
        );
    }
}
