//! Collectors, and what they report, for tests.

use crate::test_filters::database;
use crate::test_stores::told;
use slate_gc::{
    GarbageCollector, GarbageCollectorDirectoryOptions, GarbageCollectorOptions, GcMessage,
    GcReport, GcStats, PassCounts,
};
use slate_ids::SlateDBError;
use std::process::Abort;

fn directory_of(
    passes: &[GcMessage],
    min_age: u64,
    pass: GcMessage,
) -> Option<GarbageCollectorDirectoryOptions> {
    if !passes.contains(&pass) {
        return None;
    }
    Some(GarbageCollectorDirectoryOptions {
        min_age,
        interval: None,
        dry_run: false,
    })
}

/// A collector whose passes are these, each with this least age.
pub(crate) fn collector(rt: &impl Abort, passes: &[GcMessage], min_age: u64) -> GarbageCollector {
    let options = GarbageCollectorOptions {
        manifest_options: directory_of(passes, min_age, GcMessage::Manifest),
        wal_options: directory_of(passes, min_age, GcMessage::Wal),
        wal_fence_options: directory_of(passes, min_age, GcMessage::WalFence),
        compacted_options: directory_of(passes, min_age, GcMessage::Compacted),
        compactions_options: directory_of(passes, min_age, GcMessage::Compactions),
        detach_options: None,
        boundary_files_enabled: true,
    };
    GarbageCollector::new(database(rt), options, None, None)
}

/// What a report says of a pass: how many were picked, deleted and faulted, and how many versions are left; or the refusal's number.
pub(crate) type Told = (GcMessage, (u64, u64, u64, u64), u8);

fn is_entry(entry: &(GcMessage, Result<PassCounts, SlateDBError>), wanted: &Told) -> bool {
    let (counts, code) = told(&entry.1);
    entry.0 == wanted.0 && counts == wanted.1 && code == wanted.2
}

fn says(report: &GcReport, wanted: &[Told]) -> bool {
    let passes = report.passes.as_slice();
    if passes.len() != wanted.len() {
        return false;
    }
    for (entry, told) in passes.iter().zip(wanted.iter()) {
        if !is_entry(entry, told) {
            return false;
        }
    }
    true
}

/// Whether a report, which is used up, says just this.
pub(crate) fn told_so(report: GcReport, wanted: &[Told]) -> bool {
    let is_so = says(&report, wanted);
    drop(report);
    is_so
}

/// The nine numbers, in the order of the fields.
pub(crate) fn numbers(stats: &GcStats) -> [u64; 9] {
    [
        stats.gc_manifest_count,
        stats.gc_wal_count,
        stats.gc_wal_fence_count,
        stats.gc_compacted_count,
        stats.gc_compactions_count,
        stats.gc_detach_count,
        stats.gc_count,
        stats.gc_manifest_versions,
        stats.gc_compactions_versions,
    ]
}
