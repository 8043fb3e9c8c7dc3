//! What the checkpoint calls and a pass make of a manifest.

use crate::test_values::With::{Expires, Names};
use crate::test_values::manifest_of;
use slate_ids::{CheckpointId, Millis, SlateDBError, Text};
use slate_model::{Checkpoint, CheckpointOptions, Manifest, ManifestCore};
use slate_state_updates::{
    delete_checkpoint, expire_checkpoints, refresh_checkpoint, replace_checkpoint, write_checkpoint,
};
use std::alloc::Global;
use std::process::Abort;

/// A call on version 7 at moment 1000, with the numbers of the checkpoints that it names. The new one is 9.
#[derive(Clone, Copy)]
enum Call {
    /// A write, with a source.
    Write(Option<u64>),
    /// A replacement, with a source.
    Replace(u64, Option<u64>),
    /// A refresh, with a lifetime.
    Refresh(u64, Option<u64>),
    Delete(u64),
    /// A pass at another moment.
    Expire(Millis),
}

/// How many checkpoints there are, and the version of the first, its expiry, and the version of the last.
type Ends = (usize, u64, Option<Millis>, u64);

/// What each call makes of checkpoint 3, which expires at moment 100, and checkpoint 5, which never does, or its refusal's number.
const MADE: &[(Call, Option<Ends>, u8)] = &[
    (Call::Write(None), Some((3, 3, Some(100), 8)), 0),
    (Call::Write(Some(5)), Some((3, 3, Some(100), 5)), 0),
    (Call::Write(Some(4)), None, 5),
    (Call::Replace(3, Some(3)), Some((2, 5, None, 3)), 0),
    (Call::Replace(5, None), Some((2, 3, Some(100), 8)), 0),
    (Call::Replace(4, None), Some((3, 3, Some(100), 8)), 0),
    (Call::Replace(3, Some(4)), None, 5),
    (Call::Refresh(3, None), Some((2, 3, None, 5)), 0),
    (Call::Refresh(3, Some(5)), Some((2, 3, Some(1005), 5)), 0),
    (
        Call::Refresh(3, Some(u64::MAX)),
        Some((2, 3, Some(i64::MAX), 5)),
        0,
    ),
    (Call::Refresh(4, None), None, 5),
    (Call::Delete(3), Some((1, 5, None, 5)), 0),
    (Call::Delete(5), Some((1, 3, Some(100), 3)), 0),
    (Call::Delete(4), None, 0),
    (Call::Expire(99), None, 0),
    (Call::Expire(100), Some((1, 5, None, 5)), 0),
    (Call::Expire(101), Some((1, 5, None, 5)), 0),
];

// The table as a slice: a function that names a table has all of it written out.
fn made_rows() -> &'static [(Call, Option<Ends>, u8)] {
    MADE
}

/// A manifest with checkpoints 3 and 5, of which 3 expires at moment 100.
fn with_two(rt: &impl Abort, alloc: Global) -> Manifest {
    manifest_of(rt, alloc, &[&[Expires(3, 100), Names(5)]])
}

/// Options with this source.
fn of_source(source: Option<u64>) -> CheckpointOptions {
    CheckpointOptions {
        lifetime: None,
        source: source.map(CheckpointId::from_u64),
        name: None,
    }
}

fn makes(alloc: Global, call: Call, manifest: &Manifest) -> Result<Option<Manifest>, SlateDBError> {
    let id = CheckpointId::from_u64(9);
    match call {
        Call::Write(source) => write_checkpoint(alloc, id, &of_source(source), 1000, 7, manifest),
        Call::Replace(old, source) => {
            let old = CheckpointId::from_u64(old);
            replace_checkpoint(alloc, &old, id, &of_source(source), 1000, 7, manifest)
        }
        Call::Refresh(number, lifetime) => {
            refresh_checkpoint(
                alloc,
                CheckpointId::from_u64(number),
                lifetime,
                1000,
                manifest,
            )
        }
        Call::Delete(number) => delete_checkpoint(alloc, &CheckpointId::from_u64(number), manifest),
        Call::Expire(now) => expire_checkpoints(alloc, now, manifest),
    }
}

fn ends(checkpoints: &[Checkpoint]) -> Option<Ends> {
    match (checkpoints.first(), checkpoints.last()) {
        (Some(first), Some(last)) => {
            Some((
                checkpoints.len(),
                first.manifest_id,
                first.expire_time,
                last.manifest_id,
            ))
        }
        _ => None,
    }
}

fn told(made: &Result<Option<Manifest>, SlateDBError>) -> (Option<Ends>, u8) {
    match made {
        Ok(Some(manifest)) => (ends(manifest.core.checkpoints.as_slice()), 0),
        Ok(None) => (None, 0),
        Err(e) => (None, e.code()),
    }
}

/// What a call tells, which is used up.
fn told_by(made: Result<Option<Manifest>, SlateDBError>) -> (Option<Ends>, u8) {
    let all = told(&made);
    drop(made);
    all
}

/// What a call on the manifest with two checkpoints makes.
fn made(rt: &impl Abort, alloc: Global, call: Call) -> (Option<Ends>, u8) {
    let manifest = with_two(rt, alloc);
    let made = makes(alloc, call, &manifest);
    drop(manifest);
    told_by(made)
}

#[test]
fn calls_make_these_checkpoints(rt: HostRuntime) {
    for (row, (call, ends, refusal)) in made_rows().iter().enumerate() {
        let made = made(&rt, rt.alloc(), *call);
        assert!(rt; made.0 == *ends && made.1 == *refusal, "at row {row}");
    }
}

/// A manifest without checkpoints.
fn without(alloc: Global, initialized: bool) -> Manifest {
    let mut manifest = Manifest::initial(alloc, ManifestCore::new(alloc));
    manifest.core.initialized = initialized;
    manifest
}

/// The refusal's number of a write of checkpoint 9 into a manifest without checkpoints.
fn write_into(alloc: Global, initialized: bool, n: u64) -> u8 {
    let manifest = without(alloc, initialized);
    let id = CheckpointId::from_u64(9);
    let made = write_checkpoint(alloc, id, &of_source(None), 1000, n, &manifest);
    drop(manifest);
    told_by(made).1
}

#[test]
fn a_version_to_name_has_to_come(rt: HostRuntime) {
    for (initialized, n, refusal) in &[
        (false, 7, 8),
        (true, u64::MAX, 22),
        (true, u64::MAX - 1, 0),
    ] {
        assert!(rt; write_into(rt.alloc(), *initialized, *n) == *refusal);
    }
}

/// The options of a checkpoint with a name and a lifetime.
fn named(rt: &impl Abort, alloc: Global, name: &str) -> CheckpointOptions {
    CheckpointOptions {
        lifetime: Some(5),
        source: None,
        name: Some(Text::copy_of(alloc, name).expect(rt, "memory")),
    }
}

fn is_that(checkpoint: &Checkpoint, name: &str) -> bool {
    match &checkpoint.name {
        None => false,
        Some(text) => {
            text.as_str() == name
                && checkpoint.id.as_u128() == 9
                && checkpoint.create_time == 1000
                && checkpoint.expire_time == Some(1005)
        }
    }
}

/// Whether the last checkpoint is the one that was written.
fn ends_with_that(made: &Result<Option<Manifest>, SlateDBError>, name: &str) -> bool {
    match made {
        Ok(Some(manifest)) => {
            match manifest.core.checkpoints.as_slice().last() {
                None => false,
                Some(checkpoint) => is_that(checkpoint, name),
            }
        }
        _ => false,
    }
}

/// Whether a checkpoint with a name and a lifetime is written.
fn is_pinned(rt: &impl Abort, alloc: Global) -> bool {
    let manifest = with_two(rt, alloc);
    let id = CheckpointId::from_u64(9);
    let options = named(rt, alloc, "pin");
    let made = write_checkpoint(alloc, id, &options, 1000, 7, &manifest);
    drop(options);
    drop(manifest);
    let is_so = ends_with_that(&made, "pin");
    drop(made);
    is_so
}

#[test]
fn a_written_checkpoint_has_its_options(rt: HostRuntime) {
    assert!(rt; is_pinned(&rt, rt.alloc()));
}
