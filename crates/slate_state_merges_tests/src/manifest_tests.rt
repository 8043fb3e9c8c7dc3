//! A writer's core merged with a manifest that was read.

use crate::test_trees::{Seen, SegmentRow, TreeRow, have_text, is_text, segments, tree};
use slate_ids::{CheckpointId, DbPath, Listed, Ulid};
use slate_model::{Checkpoint, ExternalDb, Manifest, ManifestCore, Segment, SsTableId};
use slate_state_merges::merge_remote_manifest;
use std::alloc::Global;
use std::mem;
use std::process::Abort;

const WRITER: TreeRow = (&[Seen::Table(3, 30), Seen::Table(2, 20)], &[9], None, None);

const COMPACTOR: TreeRow = (&[], &[7], Some(2), None);

const WRITER_SEGMENTS: &[SegmentRow] = &[("a", (&[Seen::Table(4, 40)], &[], None, None))];

const COMPACTOR_SEGMENTS: &[SegmentRow] = &[
    ("a", (&[], &[], Some(4), None)),
    ("b", (&[], &[1], None, None)),
];

/// A core with this tree and these segments.
fn core(rt: &impl Abort, alloc: Global, root: &TreeRow, rows: &[SegmentRow]) -> ManifestCore {
    let of = segments(rt, alloc, rows);
    assert!(rt; Segment::are_ascending(of.as_slice()));
    let mut core = ManifestCore::new(alloc);
    drop(mem::replace(&mut core.tree, tree(rt, alloc, root)));
    core.set_segments(of);
    core
}

/// A checkpoint of this id, of the first version.
fn checkpoint(id: u64) -> Checkpoint {
    Checkpoint {
        id: CheckpointId::from_u64(id),
        manifest_id: 1,
        expire_time: None,
        create_time: 0,
        name: None,
    }
}

/// The compacted table of a moment.
fn table(moment: u32) -> SsTableId {
    SsTableId::Compacted(Ulid::from_parts(moment as u64, 0))
}

/// An entry that lists the tables of the moments 30 and 20.
fn entry(rt: &impl Abort, alloc: Global) -> ExternalDb {
    let mut ids = Listed::new(alloc);
    ids.push(table(30)).expect(rt, "memory");
    ids.push(table(20)).expect(rt, "memory");
    ExternalDb {
        path: DbPath::from_text("parent")
            .expect(rt, "memory")
            .expect(rt, "a path of a database"),
        source_checkpoint_id: CheckpointId::from_u64(1),
        final_checkpoint_id: None,
        sst_ids: ids,
    }
}

/// A writer's core: its next file of the log is 5, its floor 12, its checkpoint 1.
fn local(rt: &impl Abort, alloc: Global) -> ManifestCore {
    let mut local = core(rt, alloc, &WRITER, WRITER_SEGMENTS);
    local.next_wal_sst_id = 5;
    local.replay_after_wal_id = 3;
    local.floor = 12;
    local.last_l0_seq = 17;
    local.last_l0_clock_tick = 18;
    local.sequence_tracker.insert(17, 18).expect(rt, "memory");
    local.checkpoints.push(checkpoint(1)).expect(rt, "memory");
    local
}

/// The manifest that was read: epochs 2 and 6, checkpoint 8, and an entry.
fn remote(rt: &impl Abort, alloc: Global) -> Manifest {
    let mut remote = Manifest::initial(alloc, core(rt, alloc, &COMPACTOR, COMPACTOR_SEGMENTS));
    remote.writer_epoch = 2;
    remote.compactor_epoch = 6;
    remote
        .core
        .checkpoints
        .push(checkpoint(8))
        .expect(rt, "memory");
    remote
        .external_dbs
        .push(entry(rt, alloc))
        .expect(rt, "memory");
    remote
}

/// Whether the numbers and the tracker are the writer's.
fn has_local_numbers(core: &ManifestCore) -> bool {
    core.next_wal_sst_id == 5
        && core.replay_after_wal_id == 3
        && core.floor == 12
        && core.last_l0_seq == 17
        && core.last_l0_clock_tick == 18
        && core.sequence_tracker.pairs().len() == 1
}

/// Whether the trees are the merges.
fn has_merged_trees(rt: &impl Abort, alloc: Global, core: &ManifestCore) -> bool {
    is_text(rt, alloc, &core.tree, "3 / 7 v2 ")
        && have_text(rt, alloc, core.segments(), "b: / 1 ; ")
}

/// Whether epochs, checkpoints and entries are those that were read, with the used table alone.
fn has_remote_rest(merged: &Manifest) -> bool {
    let checkpoints = merged.core.checkpoints.as_slice();
    let entries = merged.external_dbs.as_slice();
    merged.writer_epoch == 2
        && merged.compactor_epoch == 6
        && checkpoints.len() == 1
        && checkpoints[0].id == CheckpointId::from_u64(8)
        && entries.len() == 1
        && entries[0].sst_ids.as_slice().len() == 1
        && entries[0].lists(&table(30))
}

/// Their merge.
fn merged(rt: &impl Abort, alloc: Global) -> Manifest {
    let local = local(rt, alloc);
    let remote = remote(rt, alloc);
    let merged = merge_remote_manifest(alloc, &local, &remote);
    drop(remote);
    drop(local);
    merged.expect(rt, "memory")
}

#[test]
fn a_merge_keeps_local_numbers_and_what_was_read_of_others(rt: HostRuntime) {
    let merged = merged(&rt, rt.alloc());
    let (numbers, rest) = (has_local_numbers(&merged.core), has_remote_rest(&merged));
    let trees = has_merged_trees(&rt, rt.alloc(), &merged.core);
    drop(merged);
    assert!(rt; numbers, "the writer's numbers");
    assert!(rt; trees, "the merged trees");
    assert!(rt; rest, "what was read");
}
