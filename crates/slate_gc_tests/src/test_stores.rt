//! Stores of one database, and passes over them, for tests.

use slate_gc_passes::{GcPhase, Logs, PassCounts, PassSettings};
use slate_gc_picks::{GcFilter, PlainWalGc};
use slate_ids::{ByteList, CheckpointId, DbPath, Listed, Millis, ObjectPath, SlateDBError, Ulid};
use slate_layout::{
    CompactionsCodec, ManifestCodec, encode_boundary, encode_compactions, encode_manifest,
};
use slate_model::{
    Checkpoint, Compaction, CompactionSpec, CompactionStatus, Compactions, Manifest, ManifestCore,
    SsTableHandle, SsTableId, SsTableInfo, SsTableView,
};
use slate_store::{Mark, MemoryStore, ObjectStore, Step};
use std::alloc::Global;
use std::process::Abort;

/// The moment of the passes.
pub(crate) const NOW: Millis = 3_601_000;

/// What stands in a store, each written at 0 but for one.
#[derive(Clone, Copy)]
pub(crate) enum Put {
    /// A new manifest of this number.
    Plain(u64),
    /// The same, written at 1,000.
    Later(u64),
    /// A manifest of this number with a checkpoint of this version, which expires then.
    Naming(u64, u64, Option<Millis>),
    /// A manifest of this number with these tables in L0, newest first, by their milliseconds, and a checkpoint of this version.
    Holding(u64, &'static [u64], Option<u64>),
    /// A manifest of this number with the last file of the write-ahead log that needs no replay, the next one, and a checkpoint of this
    /// version.
    Replaying(u64, u64, u64, Option<u64>),
    /// A record of this number with a compaction of these milliseconds.
    Record(u64, Option<u64>),
    /// A table of these milliseconds.
    Table(u64),
    /// A file of the write-ahead log, with rows or empty.
    Wal(u64, bool),
    /// The boundary of the manifests at this number.
    Boundary(u64),
}

pub(crate) fn table_id(ms: u64) -> Ulid {
    Ulid::from_parts(ms & 0xffff_ffff, 4)
}

/// Where it stands.
pub(crate) fn path_of(db: DbPath, put: Put) -> ObjectPath {
    match put {
        Put::Plain(n) | Put::Later(n) => ObjectPath::Manifest(db, n),
        Put::Naming(n, _, _) | Put::Holding(n, _, _) => ObjectPath::Manifest(db, n),
        Put::Replaying(n, _, _, _) => ObjectPath::Manifest(db, n),
        Put::Record(n, _) => ObjectPath::Record(db, n),
        Put::Table(ms) => ObjectPath::Table(db, table_id(ms)),
        Put::Wal(n, _) => ObjectPath::Wal(db, n),
        Put::Boundary(_) => ObjectPath::ManifestBoundary(db),
    }
}

fn moment_of(put: Put) -> Millis {
    match put {
        Put::Later(_) => 1000,
        _ => 0,
    }
}

fn name(rt: &impl Abort, core: &mut ManifestCore, version: u64, expire_time: Option<Millis>) {
    let checkpoint = Checkpoint {
        id: CheckpointId::from_u64(version),
        manifest_id: version,
        expire_time,
        create_time: 0,
        name: None,
    };
    core.checkpoints.push(checkpoint).expect(rt, "memory");
}

fn name_if(rt: &impl Abort, core: &mut ManifestCore, version: Option<u64>) {
    if let Some(version) = version {
        name(rt, core, version, None);
    }
}

fn table_info() -> SsTableInfo {
    SsTableInfo {
        first_entry: Some(bytes::Bytes::from("a")),
        last_entry: Some(bytes::Bytes::from("z")),
        ..SsTableInfo::default()
    }
}

fn table_view(ms: u64) -> SsTableView {
    let handle = SsTableHandle {
        id: SsTableId::Compacted(table_id(ms)),
        format_version: 1,
        info: table_info(),
    };
    SsTableView::new(table_id(ms), handle)
}

fn hold(rt: &impl Abort, core: &mut ManifestCore, tables: &[u64]) {
    for ms in tables {
        core.tree.l0.push_back(table_view(*ms)).expect(rt, "memory");
    }
}

fn manifest_bytes(rt: &impl Abort, alloc: Global, core: ManifestCore) -> ByteList {
    let manifest = Manifest::initial(alloc, core);
    let bytes = encode_manifest(alloc, &manifest).expect(rt, "bytes");
    drop(manifest);
    ByteList::new(bytes)
}

fn naming(rt: &impl Abort, alloc: Global, version: u64, expire_time: Option<Millis>) -> ByteList {
    let mut core = ManifestCore::new(alloc);
    name(rt, &mut core, version, expire_time);
    manifest_bytes(rt, alloc, core)
}

fn holding(rt: &impl Abort, alloc: Global, tables: &[u64], version: Option<u64>) -> ByteList {
    let mut core = ManifestCore::new(alloc);
    hold(rt, &mut core, tables);
    name_if(rt, &mut core, version);
    manifest_bytes(rt, alloc, core)
}

fn replaying(
    rt: &impl Abort,
    alloc: Global,
    replay: u64,
    next: u64,
    version: Option<u64>,
) -> ByteList {
    let mut core = ManifestCore::new(alloc);
    core.replay_after_wal_id = replay;
    core.next_wal_sst_id = next;
    name_if(rt, &mut core, version);
    manifest_bytes(rt, alloc, core)
}

fn compaction(alloc: Global, ms: u64) -> Compaction {
    Compaction {
        id: table_id(ms),
        spec: CompactionSpec::DrainSegment {
            segment: bytes::Bytes::new(),
            sources: Listed::new(alloc),
        },
        status: CompactionStatus::Submitted,
        worker: None,
        output_ssts: Listed::new(alloc),
        ctx: None,
    }
}

fn add_if(rt: &impl Abort, alloc: Global, record: &mut Compactions, ms: Option<u64>) {
    if let Some(ms) = ms {
        record.insert(compaction(alloc, ms)).expect(rt, "memory");
    }
}

fn record_bytes(rt: &impl Abort, alloc: Global, ms: Option<u64>) -> ByteList {
    let mut record = Compactions::new(alloc, 0);
    add_if(rt, alloc, &mut record, ms);
    let bytes = encode_compactions(alloc, &record).expect(rt, "bytes");
    drop(record);
    ByteList::new(bytes)
}

fn file_bytes(rt: &impl Abort, alloc: Global, has_rows: bool) -> ByteList {
    let rows: &[u8] = if has_rows { b"rows" } else { b"" };
    ByteList::new(Vec::from_slice(alloc, rows).expect(rt, "memory"))
}

fn boundary_bytes(rt: &impl Abort, alloc: Global, number: u64) -> ByteList {
    ByteList::new(encode_boundary(alloc, number).expect(rt, "bytes"))
}

fn bytes_of(rt: &impl Abort, alloc: Global, put: Put) -> ByteList {
    match put {
        Put::Plain(_) | Put::Later(_) => manifest_bytes(rt, alloc, ManifestCore::new(alloc)),
        Put::Naming(_, version, expire_time) => naming(rt, alloc, version, expire_time),
        Put::Holding(_, tables, version) => holding(rt, alloc, tables, version),
        Put::Replaying(_, replay, next, version) => replaying(rt, alloc, replay, next, version),
        Put::Record(_, ms) => record_bytes(rt, alloc, ms),
        Put::Table(_) => file_bytes(rt, alloc, true),
        Put::Wal(_, has_rows) => file_bytes(rt, alloc, has_rows),
        Put::Boundary(number) => boundary_bytes(rt, alloc, number),
    }
}

fn put_one(rt: &impl Abort, alloc: Global, db: DbPath, store: &mut MemoryStore, put: Put) {
    let bytes = bytes_of(rt, alloc, put);
    let path = path_of(db, put);
    store
        .put(alloc, &path, bytes.as_slice(), moment_of(put))
        .expect(rt, "memory");
    drop(path);
    drop(bytes);
}

fn write(rt: &impl Abort, alloc: Global, db: DbPath, store: &mut MemoryStore, puts: &[Put]) {
    for put in puts {
        put_one(rt, alloc, db, store, *put);
    }
}

/// A store with these objects.
pub(crate) fn store_of(rt: &impl Abort, alloc: Global, db: DbPath, puts: &[Put]) -> MemoryStore {
    let mut store = MemoryStore::new(alloc, Vec::new(alloc));
    write(rt, alloc, db, &mut store, puts);
    store
}

/// So many calls that are good, and one that fails.
fn marks_of(rt: &impl Abort, alloc: Global, good: usize) -> Vec<Mark> {
    let mut marks = Vec::new(alloc);
    for _ in 0..good {
        marks.push(Mark::Good).expect(rt, "memory");
    }
    marks.push(Mark::Fail).expect(rt, "memory");
    marks
}

/// A store with these objects, of which the call after so many fails.
pub(crate) fn store_failing(
    rt: &impl Abort,
    alloc: Global,
    db: DbPath,
    puts: &[Put],
    good: usize,
) -> MemoryStore {
    let marks = marks_of(rt, alloc, puts.len().saturating_add(good));
    let mut store = MemoryStore::new(alloc, marks);
    write(rt, alloc, db, &mut store, puts);
    store
}

/// How a pass ended: after so many steps, how many were picked, deleted and faulted, how many versions are left, and the refusal's
/// number.
pub(crate) type End = (u8, (u64, u64, u64, u64), u8);

/// A reply: how many were picked, deleted and faulted, how many versions are left, and the refusal's number.
pub(crate) type Told = ((u64, u64, u64, u64), u8);

/// What a reply tells.
pub(crate) fn told(reply: &Result<PassCounts, SlateDBError>) -> Told {
    match reply {
        Ok(counts) => (
            (
                counts.picked,
                counts.deleted,
                counts.failed,
                counts.versions,
            ),
            0,
        ),
        Err(e) => ((0, 0, 0, 0), e.code()),
    }
}

/// What a reply tells, which is used up.
pub(crate) fn told_by(reply: Result<PassCounts, SlateDBError>) -> Told {
    let all = told(&reply);
    drop(reply);
    all
}

/// The logs of the database.
fn logs_of(db: DbPath) -> Logs<ManifestCodec, CompactionsCodec> {
    Logs {
        db,
        manifests: ManifestCodec,
        records: CompactionsCodec,
    }
}

/// One more step of a pass: what it replies, where it ends.
fn step_of<F: GcFilter>(
    rt: &impl Abort,
    alloc: Global,
    db: DbPath,
    pass: &mut GcPhase,
    store: &mut MemoryStore,
    settings: &PassSettings,
    filter: Option<&F>,
    moment: Millis,
) -> Option<Told> {
    let wal: Option<&PlainWalGc> = None;
    assert!(rt; pass.due());
    match pass.next(alloc, &logs_of(db), filter, wal, settings, store, moment) {
        Step::Again => None,
        Step::Done(reply) => Some(told_by(reply)),
    }
}

/// The end of a pass, which is at its start, of which a step faults, the first one being 0. Each step is a millisecond later.
pub(crate) fn end_of<F: GcFilter>(
    rt: &impl Abort,
    alloc: Global,
    db: DbPath,
    pass: &mut GcPhase,
    store: &mut MemoryStore,
    settings: &PassSettings,
    filter: Option<&F>,
    faulty: Option<u8>,
) -> End {
    for steps in 0..30u8 {
        if faulty == Some(steps) {
            store.set_mark(Mark::Fail);
        }
        let moment = NOW + steps as i64;
        if let Some((counts, code)) = step_of(
            rt, alloc, db, pass, store, settings, filter, moment,
        ) {
            return (steps + 1, counts, code);
        }
    }
    (30, (0, 0, 0, 0), 0)
}

fn stands(db: DbPath, store: &MemoryStore, put: Put) -> bool {
    let path = path_of(db, put);
    let is_there = store.object(&path).is_some();
    drop(path);
    is_there
}

/// Whether just these of the objects are left.
pub(crate) fn are_left(db: DbPath, store: &MemoryStore, puts: &[Put], left: &[bool]) -> bool {
    for (put, is_left) in puts.iter().zip(left.iter()) {
        if stands(db, store, *put) != *is_left {
            return false;
        }
    }
    true
}
