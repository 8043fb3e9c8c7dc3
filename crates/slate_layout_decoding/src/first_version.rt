//! Manifests of version 1 of the layout, which are read alone.
ghost use Rattle.std.specs.Prelude.{◌≡◌, IfOk, Some, None, if◌then◌else◌};
ghost use Rattle.slate_layout_parts.specs.Reading.{whole, items_in, list_in};
ghost use Rattle.slate_layout_manifests.specs.OldManifests as old;

use slate_ids::{BytesRange, Listed, OutOfMemory, Text, Ulid};
use slate_layout_manifests::{CheckpointForm, EntryForm, Gathered, TrackerForm};
use slate_layout_parts::{
    Form, Itself, ListOf, Part, Reader, Tables, has_room, may_show, table_id,
};
use slate_model::{
    Checkpoint, ExternalDb, LsmTreeState, Manifest, ManifestCore, Queue, SequenceTracker,
    SortedRun, SsTableHandle, SsTableView,
};
use std::alloc::Global;

// The view of a table of its own handle, with the table's id.
fn view_of(sst: SsTableHandle, visible: Option<BytesRange>) -> Option<SsTableView>
    ensures { result ≡ old.old_view_of (sst, visible) }
{
    if may_show(&sst, &visible) {
        let id = table_id(sst.id);
        Some(SsTableView::new_projected(id, sst, visible))
    } else {
        None
    }
}

// A view, where bytes begin with one.
fn read_view<'a>(
    alloc: Global,
    none: &Tables,
    from: Reader<'a>,
) -> Result<Option<(SsTableView, Reader<'a>)>, OutOfMemory>
    ensures { IfOk result (λ read. read ≡ old.old_view_in from.entry) }
{
    let Some(((sst, visible), from)) = <(SsTableHandle, Option<BytesRange>)>::read(
        alloc, none, from,
    )?
    else {
        return Ok(None);
    };
    match view_of(sst, visible) {
        Some(view) => Ok(Some((view, from))),
        None => Ok(None),
    }
}

// So many views, one after the other.
fn read_items<'a>(
    alloc: Global,
    none: &Tables,
    count: usize,
    from: Reader<'a>,
) -> Result<Option<(Listed<SsTableView>, Reader<'a>)>, OutOfMemory>
    ensures { IfOk result (λ read. read ≡ items_in old.old_view_in count from.entry) }
{
    let mut items = Listed::new(alloc);
    let mut left = from;
    for _ in 0..count {
        match read_view(alloc, none, left)? {
            Some((item, rest)) => {
                items.push(item)?;
                left = rest;
            }
            None => return Ok(None),
        }
    }
    Ok(Some((items, left)))
}

// A list of views, where bytes begin with one.
fn read_views<'a>(
    alloc: Global,
    none: &Tables,
    from: Reader<'a>,
) -> Result<Option<(Listed<SsTableView>, Reader<'a>)>, OutOfMemory>
    ensures { IfOk result (λ read. read ≡ old.old_views_in from.entry) }
{
    let Some((count, from)) = from.u32() else {
        return Ok(None);
    };
    if !has_room(count, 8, &from) {
        return Ok(None);
    }
    read_items(alloc, none, count as usize, from)
}

// A run, where bytes begin with one.
fn read_run<'a>(
    alloc: Global,
    none: &Tables,
    from: Reader<'a>,
) -> Result<Option<(SortedRun, Reader<'a>)>, OutOfMemory>
    ensures { IfOk result (λ read. read ≡ old.old_run_in from.entry) }
{
    let Some((id, from)) = from.u32() else {
        return Ok(None);
    };
    match read_views(alloc, none, from)? {
        Some((views, from)) => Ok(Some((SortedRun::new(id, views.into_vec()), from))),
        None => Ok(None),
    }
}

// So many runs, one after the other.
fn read_run_items<'a>(
    alloc: Global,
    none: &Tables,
    count: usize,
    from: Reader<'a>,
) -> Result<Option<(Listed<SortedRun>, Reader<'a>)>, OutOfMemory>
    ensures { IfOk result (λ read. read ≡ items_in old.old_run_in count from.entry) }
{
    let mut items = Listed::new(alloc);
    let mut left = from;
    for _ in 0..count {
        match read_run(alloc, none, left)? {
            Some((item, rest)) => {
                items.push(item)?;
                left = rest;
            }
            None => return Ok(None),
        }
    }
    Ok(Some((items, left)))
}

// A list of runs, where bytes begin with one.
fn read_runs<'a>(
    alloc: Global,
    none: &Tables,
    from: Reader<'a>,
) -> Result<Option<(Listed<SortedRun>, Reader<'a>)>, OutOfMemory>
    ensures { IfOk result (λ read. read ≡ list_in old.old_run_in 4 from.entry) }
{
    let Some((count, from)) = from.u32() else {
        return Ok(None);
    };
    if !has_room(count, 4, &from) {
        return Ok(None);
    }
    read_run_items(alloc, none, count as usize, from)
}

// Flushed tables' views, and runs.
fn read_lists<'a>(
    alloc: Global,
    none: &Tables,
    from: Reader<'a>,
) -> Result<Option<((Listed<SsTableView>, Listed<SortedRun>), Reader<'a>)>, OutOfMemory>
    ensures { IfOk result (λ read. read ≡ old.lists_in from.entry) }
{
    let Some((views, from)) = read_views(alloc, none, from)? else {
        return Ok(None);
    };
    match read_runs(alloc, none, from)? {
        Some((runs, from)) => Ok(Some(((views, runs), from))),
        None => Ok(None),
    }
}

// Whether the database is ready, epochs, files of the write-ahead log; and the marker.
type Start = ((bool, ((u64, u64), (u64, u64))), Option<Ulid>);

// Tick, last sequence number and the least that a snapshot needs; tracker, checkpoints, entries, the store of the write-ahead log.
type End = (
    (i64, (u64, u64)),
    (
        SequenceTracker,
        (Listed<Checkpoint>, (Listed<ExternalDb>, Option<Text>)),
    ),
);

// How the end stands in bytes.
type EndForm = (
    Itself,
    (
        TrackerForm,
        (ListOf<CheckpointForm>, (ListOf<EntryForm>, Itself)),
    ),
);

// All parts.
type OldBody = (Start, ((Listed<SsTableView>, Listed<SortedRun>), End));

// The parts of all these bytes.
fn read_body(alloc: Global, from: Reader<'_>) -> Result<Option<OldBody>, OutOfMemory>
    ensures { IfOk result (λ read. read ≡ whole (old.old_body_in from.entry)) }
{
    let none = Tables::none(alloc);
    let Some((start, from)) = Start::read(alloc, &none, from)? else {
        return Ok(None);
    };
    let Some((lists, from)) = read_lists(alloc, &none, from)? else {
        return Ok(None);
    };
    match <EndForm as Form<End>>::read(alloc, &none, from)? {
        Some((end, rest)) if rest.len() == 0 => Ok(Some((start, (lists, end)))),
        _ => Ok(None),
    }
}

// The manifest of its parts, with floor 0, where a next file of the write-ahead log has a number.
fn joined(alloc: Global, body: OldBody) -> Option<Manifest>
    ensures { result ≡ old.with_next_wal body }
{
    let ((head, marker), ((l0, compacted), end)) = body;
    let (initialized, ((writer_epoch, compactor_epoch), (replay, last_wal))) = head;
    if last_wal == u64::MAX {
        return None;
    }
    let ((tick, (seq, snapshot)), (tracker, (checkpoints, (entries, uri)))) = end;
    let table_marker = marker;
    let mut core = ManifestCore::new(alloc);
    core.initialized = initialized;
    core.tree = LsmTreeState {
        last_compacted_l0_sst_view_id: marker,
        last_compacted_l0_sst_id: table_marker,
        l0: Queue::from_vec(l0.into_vec()),
        compacted,
    };
    core.wal_object_store_uri = uri;
    core.next_wal_sst_id = last_wal + 1;
    core.replay_after_wal_id = replay;
    core.last_l0_seq = seq;
    core.recent_snapshot_min_seq = snapshot;
    core.last_l0_clock_tick = tick;
    core.sequence_tracker = tracker;
    core.checkpoints = checkpoints;
    Some(Manifest {
        external_dbs: entries,
        core,
        writer_epoch,
        compactor_epoch,
    })
}

// The manifest, whose floor is its watermark.
fn with_floor(manifest: Manifest) -> Manifest
    ensures { result ≡ old.with_floor manifest }
{
    let mut manifest = manifest;
    let floor = manifest.core.watermark();
    manifest.core.floor = floor;
    manifest
}

// Whether no table has two unequal handles.
fn is_consistent(alloc: Global, manifest: &Manifest) -> Result<bool, OutOfMemory>
    ensures { IfOk result (λ alone. alone ≡ old.is_consistent manifest.now.core) }
{
    Ok(Gathered::of_core(alloc, &manifest.core)?.is_some())
}

// The manifest, where no table has two unequal handles.
fn consistent(alloc: Global, manifest: Manifest) -> Result<Option<Manifest>, OutOfMemory>
    ensures { IfOk result (λ read. read ≡ old.consistent manifest) }
{
    if is_consistent(alloc, &manifest)? {
        Ok(Some(with_floor(manifest)))
    } else {
        Ok(None)
    }
}

// The manifest of parts that were read.
fn made_of(alloc: Global, body: Option<OldBody>) -> Option<Manifest>
    ensures { result ≡ old.read_numbered body }
{
    match body {
        Some(body) => joined(alloc, body),
        None => None,
    }
}

/// The manifest of all the bytes after those of the version.
pub(crate) fn read_first_version(
    alloc: Global,
    from: Reader<'_>,
) -> Result<Option<Manifest>, OutOfMemory>
    ensures { IfOk result (λ read. read ≡ old.first_version from.entry) }
{
    match made_of(alloc, read_body(alloc, from)?) {
        Some(manifest) => Ok(consistent(alloc, manifest)?),
        None => Ok(None),
    }
}
