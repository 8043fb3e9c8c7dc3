//! Tables: their ids, and what is known of them.

use slate_ids::Ulid;
use slate_model_tables::{CompressionTag, FilterFormat, SsTableId, SsTableInfo, SstType};

#[test]
fn files_of_the_log_order_before_tables(rt: HostRuntime) {
    assert!(rt; SsTableId::Wal(9) < SsTableId::Compacted(Ulid::from_parts(0, 0)));
}

/// Whether a table has no entries, all its numbers are 0, and its kinds are those of a new one.
fn is_unknown(info: &SsTableInfo) -> bool {
    info.first_entry.is_none()
        && info.last_entry.is_none()
        && info.index_offset == 0
        && info.index_len == 0
        && info.filter_offset == 0
        && info.filter_len == 0
        && info.stats_offset == 0
        && info.stats_len == 0
        && info.compression_codec == CompressionTag::None
        && info.sst_type == SstType::Compacted
        && info.filter_format == FilterFormat::Composite
}

#[test]
fn nothing_is_known_of_a_new_table(rt: HostRuntime) {
    let info = SsTableInfo::default();
    let is_so = is_unknown(&info);
    drop(info);
    assert!(rt; is_so);
}
