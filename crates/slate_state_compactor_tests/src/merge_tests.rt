//! What is held after an open, a refresh, a schedule and the commits.

use crate::test_states::{
    compaction, core, has_segments, id, opened, record, shown, spec, status, tree, tree_at,
};
use slate_ids::{SlateDBError, Ulid};
use slate_model::CompactionStatus::{Completed, Failed, Running, Scheduled, Submitted};
use slate_model::{Compaction, CompactionStatus, Compactions, Manifest, ManifestCore};
use slate_state_compactor::LocalState;
use std::alloc::Global;
use std::process::Abort;

/// The manifest with the views 3, 2 and 1 and the run 5, in the root and in a segment.
fn first(rt: &impl Abort, alloc: Global) -> ManifestCore {
    let root = tree(rt, alloc, &[3, 2, 1], &[5]);
    let other = tree(rt, alloc, &[3, 2, 1], &[5]);
    core(rt, alloc, root, Some(other))
}

/// The manifest with these views and runs in the root alone.
fn root(rt: &impl Abort, alloc: Global, l0: &[u8], runs: &[u32]) -> ManifestCore {
    core(rt, alloc, tree(rt, alloc, l0, runs), None)
}

/// What is held of the first one, with compactions that are over, one that failed, and one that runs.
fn held(rt: &impl Abort, alloc: Global) -> LocalState {
    let own = record(
        rt,
        alloc,
        4,
        &[(1, Completed), (2, Failed), (3, Running), (4, Completed)],
    );
    opened(rt, alloc, first(rt, alloc), own)
}

#[test]
fn an_open_holds_what_it_committed(rt: HostRuntime) {
    let local = held(&rt, rt.alloc());
    assert!(rt; shown(local.trees.root()) == (321, 5));
    assert!(rt; has_segments(local.trees.segments(), 1));
    assert!(rt; shown(tree_at(&rt, &local, "p")) == (321, 5));
    assert!(rt; local.trees.tree_at(b"q").is_none() && local.pending.as_slice().is_empty());
    drop(local);
}

// ---- the record

/// The compactions of the record that is read, and the statuses that are held of them then.
const READ: [(u8, CompactionStatus, Option<CompactionStatus>); 5] = [
    (1, Submitted, Some(Completed)),
    (2, Running, Some(Failed)),
    (3, Scheduled, Some(Scheduled)),
    (4, Submitted, Some(Completed)),
    (5, Submitted, Some(Submitted)),
];

fn read(rt: &impl Abort, alloc: Global) -> Compactions {
    record(
        rt,
        alloc,
        6,
        &[
            (1, Submitted),
            (2, Running),
            (3, Scheduled),
            (4, Submitted),
            (5, Submitted),
        ],
    )
}

/// The record that is held after a refresh.
fn refreshed(rt: &impl Abort, alloc: Global) -> Compactions {
    let after = refreshed_by(alloc, held(rt, alloc), read(rt, alloc), first(rt, alloc));
    record_in(after.expect(rt, "refreshed"))
}

/// What is held after a refresh by a record and a manifest. All are used up.
fn refreshed_by(
    alloc: Global,
    local: LocalState,
    record: Compactions,
    core: ManifestCore,
) -> Result<LocalState, SlateDBError> {
    let after = local.refreshed(alloc, &record, &core);
    drop(core);
    drop(record);
    drop(local);
    after
}

/// The record alone.
fn record_in(local: LocalState) -> Compactions {
    let LocalState {
        compactions,
        trees,
        pending,
    } = local;
    drop(pending);
    drop(trees);
    compactions
}

/// The record that is held after a schedule.
fn scheduled(rt: &impl Abort, alloc: Global, committed: &Compactions) -> Compactions {
    let mut local = held(rt, alloc);
    local.take_scheduled(alloc, committed).expect(rt, "memory");
    record_in(local)
}

#[test]
fn a_refresh_puts_statuses(rt: HostRuntime) {
    let after = refreshed(&rt, rt.alloc());
    for (tail, _, wanted) in &READ {
        assert!(rt; status(&after, *tail) == *wanted, "{tail}");
    }
    assert!(rt; after.compactor_epoch == 6 && after.len() == 5);
    drop(after);
}

#[test]
fn a_schedule_puts_statuses(rt: HostRuntime) {
    let committed = read(&rt, rt.alloc());
    let after = scheduled(&rt, rt.alloc(), &committed);
    for (tail, _, wanted) in &READ {
        assert!(rt; status(&after, *tail) == *wanted, "{tail}");
    }
    drop(after);
    drop(committed);
}

#[test]
fn no_compaction_is_added(rt: HostRuntime) {
    let committed = record(&rt, rt.alloc(), 6, &[(3, Scheduled)]);
    let after = scheduled(&rt, rt.alloc(), &committed);
    assert!(rt; after.len() == 1 && status(&after, 1).is_none());
    drop(after);
    drop(committed);
}

// ---- the trees

/// What is held where the two oldest views were compacted into the run 6: the marker is the view 2.
fn compacted(rt: &impl Abort, alloc: Global) -> LocalState {
    let mut own = tree(rt, alloc, &[3], &[6, 5]);
    own.last_compacted_l0_sst_view_id = Some(id(2));
    let core = core(rt, alloc, own, None);
    opened(rt, alloc, core, record(rt, alloc, 4, &[]))
}

/// The root after a refresh by the manifest of a writer that has two newer views.
fn root_merged(rt: &impl Abort, alloc: Global) -> (u64, u64) {
    let writer = root(rt, alloc, &[5, 4, 3, 2, 1], &[5]);
    let after = refreshed_by(
        alloc,
        compacted(rt, alloc),
        record(rt, alloc, 4, &[]),
        writer,
    );
    root_in(after.expect(rt, "refreshed"))
}

/// The root's views and runs.
fn root_in(local: LocalState) -> (u64, u64) {
    let shown = shown(local.trees.root());
    drop(local);
    shown
}

#[test]
fn a_refresh_merges_the_trees(rt: HostRuntime) {
    assert!(rt; root_merged(&rt, rt.alloc()) == (543, 65));
}

/// The number of the refusal, or 0.
fn code(reply: &Result<LocalState, SlateDBError>) -> u8 {
    match reply {
        Ok(_) => 0,
        Err(e) => e.code(),
    }
}

/// What a refresh by a manifest without the segment answers.
fn without_segment(rt: &impl Abort, alloc: Global) -> u8 {
    let local = held(rt, alloc);
    let writer = root(rt, alloc, &[3], &[]);
    let after = refreshed_by(alloc, local, record(rt, alloc, 4, &[]), writer);
    let code = code(&after);
    drop(after);
    code
}

#[test]
fn a_segment_without_a_writer_is_refused(rt: HostRuntime) {
    assert!(rt; without_segment(&rt, rt.alloc()) == 15);
}

// ---- the commits

/// What is held after the commit of a manifest, where a compaction was pending.
fn manifest_committed(rt: &impl Abort, alloc: Global) -> LocalState {
    let mut local = held(rt, alloc);
    local.pending.push(id(1)).expect(rt, "memory");
    let committed = root(rt, alloc, &[6], &[8, 7]);
    let taken = local.take_manifest(alloc, &committed);
    drop(committed);
    taken.expect(rt, "memory");
    local
}

#[test]
fn a_committed_manifest_is_held(rt: HostRuntime) {
    let after = manifest_committed(&rt, rt.alloc());
    assert!(rt; shown(after.trees.root()) == (6, 87));
    assert!(rt; has_segments(after.trees.segments(), 0) && after.pending.as_slice().is_empty());
    assert!(rt; after.compactions.len() == 4);
    drop(after);
}

#[test]
fn a_committed_record_is_held(rt: HostRuntime) {
    let committed = record(&rt, rt.alloc(), 9, &[(4, Completed)]);
    let mut after = held(&rt, rt.alloc());
    after.take_record(committed);
    assert!(rt; after.compactions.compactor_epoch == 9 && after.compactions.len() == 1);
    assert!(rt; shown(after.trees.root()) == (321, 5));
    drop(after);
}

/// The manifest of the views 5 to 1 and of this floor.
fn with_floor(rt: &impl Abort, alloc: Global, floor: u64) -> Manifest {
    let mut manifest = Manifest::initial(alloc, root(rt, alloc, &[5, 4, 3, 2, 1], &[5]));
    manifest.core.floor = floor;
    manifest.writer_epoch = 7;
    manifest
}

/// The root, the floor and the writer's epoch of that manifest once the trees are merged into it.
fn merged_into(rt: &impl Abort, alloc: Global, floor: u64) -> ((u64, u64), u64, u64) {
    let manifest = with_floor(rt, alloc, floor);
    let local = compacted(rt, alloc);
    let made = local.trees.merged_manifest(alloc, &manifest);
    drop(local);
    drop(manifest);
    numbers_in(made.expect(rt, "merged"))
}

/// The root, the floor and the writer's epoch of a manifest, which is used up.
fn numbers_in(manifest: Manifest) -> ((u64, u64), u64, u64) {
    let numbers = (
        shown(&manifest.core.tree),
        manifest.core.floor,
        manifest.writer_epoch,
    );
    drop(manifest);
    numbers
}

/// The tables of the trees are all of 300 ms, and so is the watermark: an old floor, and the new one.
const FLOORS: [(u64, u64); 3] = [(0, 300), (299, 300), (301, 301)];

#[test]
fn a_manifest_gets_the_trees(rt: HostRuntime) {
    for (floor, wanted) in &FLOORS {
        let made = merged_into(&rt, rt.alloc(), *floor);
        assert!(rt; made == ((543, 65), *wanted, 7), "{floor}");
    }
}

// ---- what is pending

/// A record with three compactions that are over: of 2, 1 and 3 outputs.
fn with_outputs(rt: &impl Abort, alloc: Global) -> Compactions {
    let mut made = record(rt, alloc, 4, &[(1, Completed)]);
    for (tail, outputs) in &[(2u8, 2u8), (3, 1), (4, 3)] {
        made.insert(completed(rt, alloc, *tail, *outputs))
            .expect(rt, "memory");
    }
    made
}

fn completed(rt: &impl Abort, alloc: Global, tail: u8, outputs: u8) -> Compaction {
    let spec = spec(rt, alloc, "", &[], None);
    compaction(rt, alloc, tail, Completed, spec, outputs)
}

/// The tails of the outputs that are pending with these compactions, as digits.
fn outputs(rt: &impl Abort, alloc: Global, pending: &[u8]) -> u64 {
    let mut local = opened(rt, alloc, first(rt, alloc), with_outputs(rt, alloc));
    for tail in pending {
        local.pending.push(id(*tail)).expect(rt, "memory");
    }
    let ids = local.pending_outputs(alloc);
    drop(local);
    let ids = ids.expect(rt, "memory");
    let digits = digits(ids.as_slice());
    drop(ids);
    digits
}

fn digits(ids: &[Ulid]) -> u64 {
    let mut digits = 1u64;
    for id in ids {
        digits = digits
            .wrapping_mul(10)
            .wrapping_add((id.tail() % 10) as u64);
    }
    digits
}

#[test]
fn outputs_of_what_is_pending_are_told(rt: HostRuntime) {
    assert!(rt; outputs(&rt, rt.alloc(), &[]) == 1);
    assert!(rt; outputs(&rt, rt.alloc(), &[3]) == 10);
    assert!(rt; outputs(&rt, rt.alloc(), &[4, 2, 9]) == 101012);
}
