//! Manifests of version 2 of the layout.
ghost use Rattle.std.specs.Prelude.{◌≡◌, IfOk, Some, None, if◌then◌else◌};
ghost use Rattle.slate_layout_parts.specs.TablesOfViews.{ascend};
ghost use Rattle.slate_layout_parts.specs.Reading.{whole};
ghost use Rattle.slate_layout_manifests.specs.ManifestParts as parts;

use slate_ids::{Listed, OutOfMemory, Text};
use slate_layout_manifests::{
    CheckpointForm, EntryForm, SegmentForm, TrackerForm, TreeForm, are_all_used,
};
use slate_layout_parts::{Form, Itself, ListOf, Part, Reader, Tables};
use slate_model::{
    Checkpoint, ExternalDb, LsmTreeState, Manifest, ManifestCore, Segment, SequenceTracker,
    SsTableHandle,
};
use std::alloc::Global;

// Whether the database is ready; the epochs; the last replayed file of the write-ahead log and the last one seen.
type Head = (bool, ((u64, u64), (u64, u64)));

// The extractor's name; the last clock tick; the last sequence number and the least that a snapshot needs.
type Middle = (Option<Text>, (i64, (u64, u64)));

// The tracker, the checkpoints, the entries, and the floor.
type Tail = (
    SequenceTracker,
    (Listed<Checkpoint>, (Listed<ExternalDb>, u64)),
);

// Head, root tree, segments, middle, tail.
type Body = (Head, (LsmTreeState, (Listed<Segment>, (Middle, Tail))));

// How the tail and the body stand in bytes.
type TailForm = (
    TrackerForm,
    (ListOf<CheckpointForm>, (ListOf<EntryForm>, Itself)),
);

type BodyForm = (
    Itself,
    (TreeForm, (ListOf<SegmentForm>, (Itself, TailForm))),
);

// The parts of all these bytes, among these tables.
fn read_body(alloc: Global, tables: &Tables, from: Reader<'_>) -> Result<Option<Body>, OutOfMemory>
    ensures { IfOk result (λ read. read ≡ whole (parts.body_in tables.now from.entry)) }
{
    match <BodyForm as Form<Body>>::read(alloc, tables, from)? {
        Some((body, rest)) if rest.len() == 0 => Ok(Some(body)),
        _ => Ok(None),
    }
}

// The manifest of its parts, where a next file of the write-ahead log has a number, and the segments ascend.
fn manifest_of(alloc: Global, body: Body) -> Option<Manifest>
    ensures { result ≡ parts.manifest_of body }
{
    let (head, (tree, (segments, (middle, tail)))) = body;
    let (initialized, ((writer_epoch, compactor_epoch), (replay, last_wal))) = head;
    if last_wal == u64::MAX || !Segment::are_ascending(segments.as_slice()) {
        return None;
    }
    let (extractor, (tick, (seq, snapshot))) = middle;
    let (tracker, (checkpoints, (entries, floor))) = tail;
    let mut core = ManifestCore::new(alloc);
    core.initialized = initialized;
    core.tree = tree;
    core.set_segments(segments.into_vec());
    core.segment_extractor_name = extractor;
    core.next_wal_sst_id = last_wal + 1;
    core.replay_after_wal_id = replay;
    core.last_l0_seq = seq;
    core.recent_snapshot_min_seq = snapshot;
    core.floor = floor;
    core.last_l0_clock_tick = tick;
    core.sequence_tracker = tracker;
    core.checkpoints = checkpoints;
    Some(Manifest {
        external_dbs: entries,
        core,
        writer_epoch,
        compactor_epoch,
    })
}

// The manifest of parts that were read.
fn made_of(alloc: Global, body: Option<Body>) -> Option<Manifest>
    ensures { result ≡ parts.made_of body }
{
    match body {
        Some(body) => manifest_of(alloc, body),
        None => None,
    }
}

// A manifest, where it uses all of these tables.
fn using_all(
    alloc: Global,
    tables: &Tables,
    manifest: Manifest,
) -> Result<Option<Manifest>, OutOfMemory>
    ensures { IfOk result (λ read. read ≡ parts.using_all tables.now manifest) }
{
    if are_all_used(alloc, tables.as_slice(), &manifest)? {
        Ok(Some(manifest))
    } else {
        Ok(None)
    }
}

// The manifest of all these bytes, among these tables.
fn manifest_among(
    alloc: Global,
    tables: &Tables,
    from: Reader<'_>,
) -> Result<Option<Manifest>, OutOfMemory>
    ensures { IfOk result (λ read. read ≡ parts.manifest_among tables.now from.entry) }
{
    match made_of(alloc, read_body(alloc, tables, from)?) {
        Some(manifest) => using_all(alloc, tables, manifest),
        None => Ok(None),
    }
}

// The manifest of all these bytes, where the tables before them ascend by id.
fn manifest_after(
    alloc: Global,
    handles: Vec<SsTableHandle>,
    from: Reader<'_>,
) -> Result<Option<Manifest>, OutOfMemory>
    ensures { IfOk result (λ read.
        read ≡ (if ascend handles.items then parts.manifest_among handles.items from.entry else None)) }
{
    match Tables::from_vec(handles) {
        Some(tables) => Ok(manifest_among(alloc, &tables, from)?),
        None => Ok(None),
    }
}

/// The manifest of all the bytes after those of the version.
pub(crate) fn read_second_version(
    alloc: Global,
    from: Reader<'_>,
) -> Result<Option<Manifest>, OutOfMemory>
    ensures { IfOk result (λ read. read ≡ parts.second_version from.entry) }
{
    let none = Tables::none(alloc);
    match Listed::<SsTableHandle>::read(alloc, &none, from)? {
        Some((handles, from)) => Ok(manifest_after(alloc, handles.into_vec(), from)?),
        None => Ok(None),
    }
}
