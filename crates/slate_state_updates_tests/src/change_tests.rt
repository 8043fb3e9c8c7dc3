//! Changes of a manifest: their floors, their fences and their rights.

use crate::number_tests::no_tables;
use crate::test_values::With::{Compactor, Expires, Floor, Marker, Writer};
use crate::test_values::manifest_of;
use slate_ids::{CheckpointId, Listed, SlateDBError};
use slate_layout::ManifestCodec;
use slate_model::{CheckpointOptions, Manifest};
use slate_state_merges::LocalTrees;
use slate_state_updates::{ManifestChange, ManifestRules};
use slate_txn_changes::{Change, commit_change};
use slate_txn_log::{CommitPhase, Right};
use std::alloc::Global;
use std::process::Abort;

/// A change of a manifest that has checkpoint 3.
#[derive(Clone, Copy)]
enum Put {
    Raise,
    RaiseCompactor,
    /// By the writer of this epoch.
    Flush(Option<u64>),
    Write,
    Replace,
    Refresh,
    Delete,
    /// At moment 1000, at which checkpoint 3 is expired.
    Expire,
    /// By the compactor of this epoch.
    Keep(Option<u64>),
    /// The same trees, by the compactor of this epoch.
    Merge(Option<u64>),
}

/// A change, the old floor, and that of the new manifest, whose watermark is 5.
const FLOORS: &[(Put, u64, u64)] = &[
    (Put::Raise, 0, 0),
    (Put::Raise, 7, 7),
    (Put::RaiseCompactor, 0, 0),
    (Put::Flush(Some(2)), 0, 5),
    (Put::Flush(Some(2)), 4, 5),
    (Put::Flush(Some(2)), 5, 5),
    (Put::Flush(Some(2)), 7, 7),
    (Put::Write, 0, 5),
    (Put::Replace, 0, 5),
    (Put::Refresh, 0, 5),
    (Put::Delete, 7, 7),
    (Put::Expire, 0, 5),
    (Put::Keep(Some(2)), 0, 5),
    (Put::Merge(Some(2)), 0, 5),
    (Put::Merge(Some(2)), 7, 7),
];

// The table as a slice: a function that names a table has all of it written out.
fn floors() -> &'static [(Put, u64, u64)] {
    FLOORS
}

/// An epoch, and the number of the refusal of its holder where the version read has epoch 2.
const FENCED: [(Option<u64>, u8); 4] = [(None, 8), (Some(1), 2), (Some(2), 0), (Some(3), 0)];

/// Changes without a fence.
const OPEN: [Put; 4] = [Put::Raise, Put::RaiseCompactor, Put::Write, Put::Expire];

/// Changes whose holder's epoch is below that of the version read.
const STALE: [Put; 3] = [Put::Flush(Some(1)), Put::Keep(Some(1)), Put::Merge(Some(1))];

/// Changes with the plain right.
const PLAIN: [Put; 3] = [Put::RaiseCompactor, Put::Write, Put::Keep(Some(2))];

fn plain() -> CheckpointOptions {
    CheckpointOptions {
        lifetime: None,
        source: None,
        name: None,
    }
}

/// The trees of the manifest that is changed.
fn trees(rt: &impl Abort, alloc: Global) -> LocalTrees {
    let manifest = marked(rt, alloc, 0);
    let trees = LocalTrees::of(alloc, &manifest.core).expect(rt, "memory");
    drop(manifest);
    trees
}

fn change(rt: &impl Abort, alloc: Global, put: Put) -> ManifestChange {
    let three = CheckpointId::from_u64(3);
    let nine = CheckpointId::from_u64(9);
    match put {
        Put::Raise => ManifestChange::RaiseWriter,
        Put::RaiseCompactor => ManifestChange::RaiseCompactor,
        Put::Flush(writer) => ManifestChange::Flush {
            writer,
            batch: no_tables(alloc, 6, 50),
        },
        Put::Write => ManifestChange::WriteCheckpoint {
            id: nine,
            options: plain(),
        },
        Put::Replace => ManifestChange::ReplaceCheckpoint {
            old: three,
            id: nine,
            options: plain(),
        },
        Put::Refresh => ManifestChange::RefreshCheckpoint {
            id: three,
            lifetime: None,
        },
        Put::Delete => ManifestChange::DeleteCheckpoint { id: three },
        Put::Expire => ManifestChange::DropExpired,
        Put::Keep(compactor) => ManifestChange::KeepTrees {
            compactor,
            checkpoint: nine,
        },
        Put::Merge(compactor) => ManifestChange::MergeTrees {
            compactor,
            trees: trees(rt, alloc),
            outputs: Listed::new(alloc),
        },
    }
}

/// A manifest with both epochs 2, this floor, watermark 5, and checkpoint 3.
fn marked(rt: &impl Abort, alloc: Global, floor: u64) -> Manifest {
    let parts = [
        Writer(2),
        Compactor(2),
        Floor(floor),
        Marker(5),
        Expires(3, 1000),
    ];
    manifest_of(rt, alloc, &[&parts])
}

fn floor_of(made: &Result<Option<Manifest>, SlateDBError>) -> Option<u64> {
    match made {
        Ok(Some(manifest)) => Some(manifest.core.floor),
        _ => None,
    }
}

/// The floor of what a change makes of version 7.
fn floor_after(rt: &impl Abort, alloc: Global, put: Put, floor: u64) -> Option<u64> {
    let manifest = marked(rt, alloc, floor);
    let change = change(rt, alloc, put);
    let made = change.make(alloc, 1000, 7, &manifest);
    drop(change);
    drop(manifest);
    let floor = floor_of(&made);
    drop(made);
    floor
}

#[test]
fn changes_raise_the_floor(rt: HostRuntime) {
    for (row, (put, floor, wanted)) in floors().iter().enumerate() {
        let made = floor_after(&rt, rt.alloc(), *put, *floor);
        assert!(rt; made == Some(*wanted), "at row {row}");
    }
}

/// Whether a commit puts version 8.
fn puts_eight(commit: &Option<CommitPhase<Manifest>>) -> bool {
    match commit {
        None => false,
        Some(phase) => matches!(phase, CommitPhase::Putting(8, _, _)),
    }
}

/// The number of the refusal of a commit of version 8; 99 where another is put.
fn told(commit: &Result<Option<CommitPhase<Manifest>>, SlateDBError>) -> u8 {
    match commit {
        Ok(commit) => { if puts_eight(commit) { 0 } else { 99 } }
        Err(e) => e.code(),
    }
}

/// The number of the refusal of a change's commit after version 7.
fn refusal_of(rt: &impl Abort, alloc: Global, put: Put) -> u8 {
    let manifest = marked(rt, alloc, 0);
    let change = change(rt, alloc, put);
    let commit = commit_change(
        alloc,
        &change,
        &ManifestCodec,
        &ManifestRules,
        1000,
        7,
        &manifest,
    );
    drop(change);
    drop(manifest);
    let code = told(&commit);
    drop(commit);
    code
}

#[test]
fn stale_holders_are_refused(rt: HostRuntime) {
    for (own, refusal) in &FENCED {
        assert!(rt;
            refusal_of(&rt, rt.alloc(), Put::Flush(*own)) == *refusal,
            "{own:?}"
        );
        assert!(rt;
            refusal_of(&rt, rt.alloc(), Put::Keep(*own)) == *refusal,
            "{own:?}"
        );
        assert!(rt;
            refusal_of(&rt, rt.alloc(), Put::Merge(*own)) == *refusal,
            "{own:?}"
        );
    }
}

/// Whether a version with both epochs 2 has no fence for a change.
fn passes(rt: &impl Abort, alloc: Global, put: Put) -> bool {
    let change = change(rt, alloc, put);
    let manifest = marked(rt, alloc, 0);
    let refusal = change.refusal_at(&manifest);
    drop(manifest);
    drop(change);
    let is_none = refusal.is_none();
    drop(refusal);
    is_none
}

#[test]
fn some_changes_have_a_fence(rt: HostRuntime) {
    for put in &OPEN {
        assert!(rt; passes(&rt, rt.alloc(), *put));
    }
    for put in &STALE {
        assert!(rt; !passes(&rt, rt.alloc(), *put));
    }
}

fn is_plain(rt: &impl Abort, alloc: Global, put: Put) -> bool {
    let change = change(rt, alloc, put);
    let right = change.right(alloc);
    drop(change);
    let is_so = matches!(&right, Ok(Right::Plain));
    drop(right);
    is_so
}

#[test]
fn trees_alone_have_a_right(rt: HostRuntime) {
    for put in &PLAIN {
        assert!(rt; is_plain(&rt, rt.alloc(), *put));
    }
    assert!(rt; !is_plain(&rt, rt.alloc(), Put::Merge(Some(2))));
}
