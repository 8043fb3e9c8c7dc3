//! Files of the write-ahead log: the ranges that versions keep, and what the plain collector picks.

use crate::test_filters::{database, wal_object};
use slate_gc_picks::{PlainWalGc, WalFileRange, WalGc, WalGcMode, referenced_wal_ranges};
use slate_ids::{DbPath, ObjectPath};
use slate_model::{Manifest, ManifestCore};
use slate_store::ObjectMetadata;
use std::alloc::Global;
use std::collections::BTreeMap;
use std::ops::Bound;
use std::process::Abort;

/// Versions by number, each with the last file that needs no replay and the next one.
type Versions = &'static [(u64, u64, u64)];

/// A range of numbers.
type Range = (Bound<u64>, Bound<u64>);

/// Of versions, of which this is the latest, the ranges that they keep.
const RANGES: &[(u64, Versions, &[Range])] = &[
    (
        2,
        &[(1, 2, 6), (2, 5, 8)],
        &[
            (Bound::Excluded(2), Bound::Excluded(6)),
            (Bound::Included(5), Bound::Unbounded),
        ],
    ),
    (1, &[(1, 0, 1)], &[(Bound::Included(0), Bound::Unbounded)]),
    (9, &[], &[]),
];

// The table as a slice: a function that names a table has all of it written out.
fn ranges_rows() -> &'static [(u64, Versions, &'static [Range])] {
    RANGES
}

fn version(alloc: Global, replay: u64, next: u64) -> Manifest {
    let mut core = ManifestCore::new(alloc);
    core.replay_after_wal_id = replay;
    core.next_wal_sst_id = next;
    Manifest::initial(alloc, core)
}

fn add(rt: &impl Abort, active: &mut BTreeMap<u64, Manifest>, number: u64, manifest: Manifest) {
    let kept: Result<_, _> = active.insert(number, manifest);
    drop(kept.expect(rt, "memory"));
}

fn versions(rt: &impl Abort, alloc: Global, told: Versions) -> BTreeMap<u64, Manifest> {
    let mut active = BTreeMap::new(alloc);
    for (number, replay, next) in told {
        add(rt, &mut active, *number, version(alloc, *replay, *next));
    }
    active
}

fn are_ranges(found: &[WalFileRange], wanted: &[Range]) -> bool {
    if found.len() != wanted.len() {
        return false;
    }
    for (range, sides) in found.iter().zip(wanted.iter()) {
        if range.start != sides.0 || range.end != sides.1 {
            return false;
        }
    }
    true
}

fn keeps_so(rt: &impl Abort, alloc: Global, latest: u64, told: Versions, wanted: &[Range]) -> bool {
    let active = versions(rt, alloc, told);
    let found = referenced_wal_ranges(alloc, latest, &active).expect(rt, "memory");
    drop(active);
    let are_so = are_ranges(found.as_slice(), wanted);
    drop(found);
    are_so
}

#[test]
fn versions_keep_their_ranges(rt: HostRuntime) {
    for (latest, told, wanted) in ranges_rows() {
        assert!(rt;
            keeps_so(&rt, rt.alloc(), *latest, *told, *wanted),
            "at {latest}"
        );
    }
}

/// Files by number and size, all written at 0, of which those at and after 5 are kept.
const FILES: [(u64, u64); 3] = [(1, 4), (2, 0), (6, 0)];

/// Under a mode and a least age, at the moment 1000, the numbers of the files that are picked.
const PICKS: &[(WalGcMode, u64, &[u64])] = &[
    (WalGcMode::Regular, 999, &[1, 2]),
    (WalGcMode::Fence, 999, &[2]),
    // a file is to be older than the least age
    (WalGcMode::Regular, 1000, &[]),
    (WalGcMode::Fence, 1000, &[]),
];

// The table as a slice: a function that names a table has all of it written out.
fn picks_rows() -> &'static [(WalGcMode, u64, &'static [u64])] {
    PICKS
}

fn listed(rt: &impl Abort, alloc: Global, db: DbPath) -> Vec<ObjectMetadata> {
    let mut files = Vec::new(alloc);
    for (number, size) in &FILES {
        files
            .push(wal_object(db, *number, *size, 0))
            .expect(rt, "memory");
    }
    files
}

fn are_files(found: &[ObjectMetadata], db: DbPath, wanted: &[u64]) -> bool {
    if found.len() != wanted.len() {
        return false;
    }
    for (object, number) in found.iter().zip(wanted.iter()) {
        if object.location != ObjectPath::Wal(db, *number) {
            return false;
        }
    }
    true
}

fn picks_so(rt: &impl Abort, alloc: Global, mode: WalGcMode, min_age: u64, wanted: &[u64]) -> bool {
    let db = database(rt);
    let ranges = [WalFileRange {
        start: Bound::Included(5),
        end: Bound::Unbounded,
    }];
    let files = listed(rt, alloc, db);
    let found = PlainWalGc { mode }
        .picks(alloc, &ranges, files.as_slice(), min_age, 1000)
        .expect(rt, "memory");
    drop(files);
    let are_so = are_files(found.as_slice(), db, wanted);
    drop(found);
    are_so
}

#[test]
fn aged_files_in_no_range_are_picked(rt: HostRuntime) {
    for (row, (mode, min_age, wanted)) in picks_rows().iter().enumerate() {
        assert!(rt;
            picks_so(&rt, rt.alloc(), *mode, *min_age, *wanted),
            "at row {row}"
        );
    }
}
