//! Manifests, for tests of the rules on new versions.

use bytes::Bytes;
use slate_ids::{CheckpointId, DbPath, Listed, Millis, SlateDBError, Ulid, UpdateRule};
use slate_model::{
    Checkpoint, ExternalDb, LsmTreeState, Manifest, ManifestCore, Segment, SortedRun,
    SsTableHandle, SsTableId, SsTableInfo, SsTableView,
};
use slate_state_updates::ManifestRules;
use slate_txn_log::{Right, Rules};
use std::alloc::Global;
use std::process::Abort;

/// What a manifest has beside what a new one has.
#[derive(Clone, Copy)]
pub(crate) enum With {
    /// The epoch of the writer.
    Writer(u64),
    /// The epoch of the compactor.
    Compactor(u64),
    /// The last file of the write-ahead log that needs no replay.
    Replay(u64),
    /// The floor.
    Floor(u64),
    /// One checkpoint more, of this version.
    Names(u64),
    /// The same, which expires then.
    Expires(u64, Millis),
    /// One older view in the root's L0, of the table of this moment and tail.
    Table(u32, u32),
    /// The same of a file of the write-ahead log.
    Log(u64),
    /// One run more in the root, of the table of this moment.
    Run(u32),
    /// The moment of the view that was compacted last of the root's L0.
    Marker(u32),
    /// One segment more, with these tables in its L0.
    Segment(&'static str, &'static [u32]),
    /// One entry more of another database: its path, its pin, the checkpoint that it was made from, and its tables.
    Entry(&'static str, Option<u64>, u64, &'static [u32]),
}

/// The table of this moment and tail.
pub(crate) fn table(moment: u32, tail: u32) -> SsTableId {
    SsTableId::Compacted(Ulid::from_parts(moment as u64, tail as u128))
}

/// A view of a table, whose id says nothing of it: it is from the moment 999.
fn view_of(id: SsTableId) -> SsTableView {
    let sst = SsTableHandle {
        id,
        format_version: 2,
        info: SsTableInfo::default(),
    };
    SsTableView::new(Ulid::from_parts(999, 7), sst)
}

/// A run of one table.
fn run_of(rt: &impl Abort, alloc: Global, moment: u32) -> SortedRun {
    let mut views = Vec::new(alloc);
    views.push(view_of(table(moment, 0))).expect(rt, "memory");
    SortedRun::new(3, views)
}

/// A checkpoint of a version, whose id is its number.
fn checkpoint_of(version: u64, expire_time: Option<Millis>) -> Checkpoint {
    Checkpoint {
        id: CheckpointId::from_u64(version),
        manifest_id: version,
        expire_time,
        create_time: 0,
        name: None,
    }
}

/// Adds a checkpoint that names the version of its number.
fn add_checkpoint(
    rt: &impl Abort,
    manifest: &mut Manifest,
    version: u64,
    expire_time: Option<Millis>,
) {
    manifest
        .core
        .checkpoints
        .push(checkpoint_of(version, expire_time))
        .expect(rt, "memory");
}

/// A segment with these tables in its L0.
fn segment_of(rt: &impl Abort, alloc: Global, prefix: &'static str, l0: &[u32]) -> Segment {
    let mut tree = LsmTreeState::new(alloc);
    for moment in l0 {
        tree.l0
            .push_back(view_of(table(*moment, 0)))
            .expect(rt, "memory");
    }
    Segment::new(Bytes::from(prefix), tree)
}

/// The tables of these moments.
fn tables(rt: &impl Abort, alloc: Global, moments: &[u32]) -> Listed<SsTableId> {
    let mut ids = Listed::new(alloc);
    for moment in moments {
        ids.push(table(*moment, 0)).expect(rt, "memory");
    }
    ids
}

/// An entry of another database.
fn entry_of(
    rt: &impl Abort,
    path: &str,
    pin: Option<u64>,
    source: u64,
    ids: Listed<SsTableId>,
) -> ExternalDb {
    ExternalDb {
        path: DbPath::from_text(path)
            .expect(rt, "memory")
            .expect(rt, "a path of a database"),
        source_checkpoint_id: CheckpointId::from_u64(source),
        final_checkpoint_id: pin.map(CheckpointId::from_u64),
        sst_ids: ids,
    }
}

/// Sets a number, where it is one.
fn set_number(manifest: &mut Manifest, with: With) {
    match with {
        With::Writer(epoch) => manifest.writer_epoch = epoch,
        With::Compactor(epoch) => manifest.compactor_epoch = epoch,
        With::Replay(number) => manifest.core.replay_after_wal_id = number,
        With::Floor(moment) => manifest.core.floor = moment,
        With::Marker(moment) => {
            manifest.core.tree.last_compacted_l0_sst_view_id = Some(Ulid::from_parts(
                moment as u64,
                0,
            ));
        }
        _ => {}
    }
}

/// Adds a view to the root's L0, or a run, where it is one.
fn add_table(rt: &impl Abort, alloc: Global, tree: &mut LsmTreeState, with: With) {
    match with {
        With::Table(moment, tail) => {
            tree.l0
                .push_back(view_of(table(moment, tail)))
                .expect(rt, "memory");
        }
        With::Log(number) => {
            tree.l0
                .push_back(view_of(SsTableId::Wal(number)))
                .expect(rt, "memory");
        }
        With::Run(moment) => {
            let run = run_of(rt, alloc, moment);
            tree.compacted.push(run).expect(rt, "memory");
        }
        _ => {}
    }
}

/// Adds a checkpoint or an entry, where it is one.
fn add_item(rt: &impl Abort, alloc: Global, manifest: &mut Manifest, with: With) {
    match with {
        With::Names(version) => add_checkpoint(rt, manifest, version, None),
        With::Expires(version, moment) => add_checkpoint(rt, manifest, version, Some(moment)),
        With::Entry(path, pin, source, moments) => {
            let entry = entry_of(rt, path, pin, source, tables(rt, alloc, moments));
            manifest.external_dbs.push(entry).expect(rt, "memory");
        }
        _ => {}
    }
}

/// The segments among these, whose prefixes ascend.
fn segments_of(rt: &impl Abort, alloc: Global, parts: &[&[With]]) -> Vec<Segment> {
    let mut segments = Vec::new(alloc);
    for part in parts {
        add_segments(rt, alloc, &mut segments, part);
    }
    segments
}

fn add_segments(rt: &impl Abort, alloc: Global, segments: &mut Vec<Segment>, part: &[With]) {
    for with in part {
        if let With::Segment(prefix, l0) = with {
            let segment = segment_of(rt, alloc, prefix, l0);
            segments.push(segment).expect(rt, "memory");
        }
    }
}

/// Adds all but segments.
fn add_part(rt: &impl Abort, alloc: Global, manifest: &mut Manifest, part: &[With]) {
    for with in part {
        set_number(manifest, *with);
        add_table(rt, alloc, &mut manifest.core.tree, *with);
        add_item(rt, alloc, manifest, *with);
    }
}

/// A manifest with these, part by part.
pub(crate) fn manifest_of(rt: &impl Abort, alloc: Global, parts: &[&[With]]) -> Manifest {
    let mut manifest = Manifest::initial(alloc, ManifestCore::new(alloc));
    for part in parts {
        add_part(rt, alloc, &mut manifest, part);
    }
    let segments = segments_of(rt, alloc, parts);
    assert!(rt; Segment::are_ascending(segments.as_slice()));
    manifest.core.set_segments(segments);
    manifest
}

/// The number of the rule that was broken, 0 where none was, and 99 for another refusal.
fn rule_in(checked: &Result<(), SlateDBError>) -> u8 {
    match checked {
        Ok(()) => 0,
        Err(SlateDBError::UpdateRefused(UpdateRule::U1)) => 1,
        Err(SlateDBError::UpdateRefused(UpdateRule::U2)) => 2,
        Err(SlateDBError::UpdateRefused(UpdateRule::U3)) => 3,
        Err(SlateDBError::InvalidClockTick { .. }) => 4,
        Err(SlateDBError::UpdateRefused(UpdateRule::U5)) => 5,
        Err(SlateDBError::InvalidSegmentPrefix { .. }) => 10,
        Err(_) => 99,
    }
}

/// The number of the rule that a manifest with these breaks after version 7 with those.
pub(crate) fn broken(
    rt: &impl Abort,
    alloc: Global,
    old: &[&[With]],
    new: &[&[With]],
    right: &Right,
) -> u8 {
    let old = manifest_of(rt, alloc, old);
    let new = manifest_of(rt, alloc, new);
    let checked = ManifestRules.check(alloc, 7, &old, &new, right);
    drop(new);
    drop(old);
    let rule = rule_in(&checked);
    drop(checked);
    rule
}
