//! Copies are equal.

use crate::test_values::{core_with, entry_of, segment_of, table, tables, tree_of};
use slate_ids::{CheckpointId, Text};
use slate_model::{
    Checkpoint, CheckpointCreateResult, FindOption, LsmTreeState, Manifest, ManifestCore, Plain,
    Segment, SequenceTracker, VersionedManifest,
};
use std::alloc::Global;
use std::mem;
use std::process::Abort;

/// Whether a copy of a value is equal to it.
fn copies<T: Plain + Drop>(rt: &impl Abort, alloc: Global, value: T) -> bool {
    let copied = value.clone(alloc).expect(rt, "memory");
    let is_so = value.is(&copied);
    drop(copied);
    drop(value);
    is_so
}

/// A checkpoint with a name.
fn checkpoint(rt: &impl Abort, alloc: Global) -> Checkpoint {
    Checkpoint {
        id: CheckpointId::from_u64(8),
        manifest_id: 3,
        expire_time: Some(50),
        create_time: 40,
        name: Some(Text::copy_of(alloc, "pin").expect(rt, "memory")),
    }
}

/// A tree with a table in a run.
fn tree(rt: &impl Abort, alloc: Global) -> LsmTreeState {
    tree_of(rt, alloc, &[table(5), table(3)], &[table(4)])
}

/// A segment with a table.
fn segment(rt: &impl Abort, alloc: Global) -> Segment {
    segment_of(rt, alloc, "a", &[table(2)], &[])
}

/// A tracker of one pair.
fn tracker(rt: &impl Abort, alloc: Global) -> SequenceTracker {
    let mut tracker = SequenceTracker::new(alloc);
    tracker.insert(10, 1000).expect(rt, "memory");
    tracker
}

/// What a database says that has each of them.
fn core(rt: &impl Abort, alloc: Global) -> ManifestCore {
    let mut segments = Vec::new(alloc);
    segments.push(segment(rt, alloc)).expect(rt, "memory");
    let mut core = core_with(rt, alloc, segments);
    drop(mem::replace(&mut core.tree, tree(rt, alloc)));
    drop(mem::replace(&mut core.sequence_tracker, tracker(rt, alloc)));
    core.checkpoints
        .push(checkpoint(rt, alloc))
        .expect(rt, "memory");
    core
}

/// A manifest of it, with an entry.
fn manifest(rt: &impl Abort, alloc: Global) -> Manifest {
    let mut manifest = Manifest::initial(alloc, core(rt, alloc));
    let entry = entry_of(rt, "p", tables(rt, alloc, &[1, 2]));
    manifest.external_dbs.push(entry).expect(rt, "memory");
    manifest
}

#[test]
fn parts_are_copied(rt: HostRuntime) {
    let alloc = rt.alloc();
    assert!(rt; copies(&rt, alloc, checkpoint(&rt, alloc)));
    assert!(rt; copies(&rt, alloc, entry_of(&rt, "p", tables(&rt, alloc, &[1, 2]))));
    assert!(rt; copies(&rt, alloc, tree(&rt, alloc)));
    assert!(rt; copies(&rt, alloc, segment(&rt, alloc)));
    assert!(rt; copies(&rt, alloc, tracker(&rt, alloc)));
}

#[test]
fn manifests_are_copied(rt: HostRuntime) {
    let alloc = rt.alloc();
    assert!(rt; copies(&rt, alloc, core(&rt, alloc)));
    assert!(rt; copies(&rt, alloc, manifest(&rt, alloc)));
    assert!(rt; copies(&rt, alloc, VersionedManifest::new(9, manifest(&rt, alloc))));
}

#[test]
fn small_values_are_cloned(rt: HostRuntime) {
    let made = CheckpointCreateResult {
        id: CheckpointId::from_u64(8),
        manifest_id: 3,
    };
    let copied = made.clone().expect(&rt, "memory");
    assert!(rt; copied.id == CheckpointId::from_u64(8) && copied.manifest_id == 3);
    let option = FindOption::RoundUp.clone().expect(&rt, "memory");
    assert!(rt; option == FindOption::RoundUp);
}
