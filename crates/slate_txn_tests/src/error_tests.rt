//! Refusals.

use bytes::Bytes;
use slate_ids::{CheckpointId, FieldName, FormatName, SlateDBError, StateCause, Text, UpdateRule};
use std::alloc::Global;
use std::process::Abort;

/// The texts of the refusals, in the order of their numbers, of which the first is 1.
const TEXTS: &[&str] = &[
    "TransactionalObjectVersionExists",
    "Fenced",
    "Data error: failed to find latest transactional object (e.g. manifest) version",
    "ManifestMissing",
    "Data error: checkpoint missing. checkpoint_id=`00000000-0000-0000-0000-000000000007`",
    "InvalidClockTick",
    "UpdateRefused",
    "Data error: invalid DB state error",
    "InvalidDeletion",
    "EmptyManifest",
    "InvalidCompaction",
    "InvalidVersion",
    "Corrupt",
    "Unencodable",
    "SegmentWithoutWriter",
    "InvalidSegmentPrefix",
    "SegmentExtractorMismatch",
    "SegmentPrefixNotRecognized",
    "WalStoreReconfigurationError",
    "StoreFault",
    "Contended",
    "Exhausted",
    "OutOfMemory",
];

// The table as a slice: a function that names a table has all of it written out.
fn texts() -> &'static [&'static str] {
    TEXTS
}

/// The refusal of a number up to 14.
fn refusal_of_state(number: usize) -> SlateDBError {
    match number {
        1 => SlateDBError::TransactionalObjectVersionExists {
            number: 1,
            boundary: None,
        },
        2 => SlateDBError::Fenced { own: 1, read: 2 },
        3 => SlateDBError::LatestTransactionalObjectVersionMissing,
        4 => SlateDBError::ManifestMissing(1),
        5 => SlateDBError::CheckpointMissing(CheckpointId::from_u64(7)),
        6 => SlateDBError::InvalidClockTick {
            last_tick: 2,
            next_tick: 1,
        },
        7 => SlateDBError::UpdateRefused(UpdateRule::U1),
        8 => SlateDBError::InvalidDBState(StateCause::NotOpen),
        9 => SlateDBError::InvalidDeletion(1),
        10 => SlateDBError::EmptyManifest,
        11 => SlateDBError::InvalidCompaction,
        12 => SlateDBError::InvalidVersion {
            format: FormatName::Manifest,
            actual: 9,
        },
        13 => SlateDBError::Corrupt(FormatName::Manifest),
        _ => SlateDBError::Unencodable(FieldName::WalId),
    }
}

/// The refusal of a number above 14.
fn refusal_of_rest(rt: &impl Abort, alloc: Global, number: usize) -> SlateDBError {
    match number {
        15 => SlateDBError::SegmentWithoutWriter(Bytes::from("a")),
        16 => SlateDBError::InvalidSegmentPrefix {
            prefix: Bytes::from("a"),
            conflict: Bytes::from("ab"),
        },
        17 => SlateDBError::SegmentExtractorMismatch {
            persisted: Some(Text::copy_of(alloc, "x").expect(rt, "memory")),
            configured: None,
        },
        18 => SlateDBError::SegmentPrefixNotRecognized {
            prefix: Bytes::from("a"),
            extractor: Text::copy_of(alloc, "x").expect(rt, "memory"),
        },
        19 => SlateDBError::WalStoreReconfigurationError,
        20 => SlateDBError::StoreFault,
        21 => SlateDBError::Contended,
        22 => SlateDBError::Exhausted(1),
        _ => SlateDBError::OutOfMemory,
    }
}

fn refusal(rt: &impl Abort, alloc: Global, number: usize) -> SlateDBError {
    if number < 15 {
        refusal_of_state(number)
    } else {
        refusal_of_rest(rt, alloc, number)
    }
}

/// The copy of the refusal of a number.
fn copied(rt: &impl Abort, alloc: Global, number: usize) -> SlateDBError {
    let refusal = refusal(rt, alloc, number);
    let copied = refusal.copy(alloc).expect(rt, "memory");
    drop(refusal);
    copied
}

/// Whether a refusal has this text.
fn is_shown(rt: &impl Abort, alloc: Global, refusal: &SlateDBError, text: &str) -> bool {
    let mut shown = String::new(alloc);
    write!(shown, "{refusal}").expect(rt, "memory");
    let so = shown.as_str() == text;
    drop(shown);
    so
}

/// Whether the copy of the refusal of a number has this text.
fn is_copied(rt: &impl Abort, alloc: Global, number: usize, text: &str) -> bool {
    let copied = copied(rt, alloc, number);
    let so = is_shown(rt, alloc, &copied, text);
    drop(copied);
    so
}

#[test]
fn copies_of_refusals_have_their_texts(rt: HostRuntime) {
    for (place, text) in texts().iter().enumerate() {
        assert!(rt; is_copied(&rt, rt.alloc(), place + 1, text), "at {text}");
    }
}
