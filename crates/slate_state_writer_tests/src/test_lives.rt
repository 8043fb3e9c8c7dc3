//! A database, its compactor and the hands of others, for tests.

use bytes::Bytes;
use slate_ids::{CheckpointId, DbPath, Listed, SlateDBError, Ulid};
use slate_model::{
    CompactionSpec, CompactionStatus, Compactions, ManifestCore, Plain, Queue, SourceId,
    SsTableHandle, SsTableId, SsTableInfo, SsTableView,
};
use slate_state_holders::{StoredCompactions, StoredManifest};
use slate_state_record_updates::{claim, report, submit};
use slate_state_writer::CompactorStateWriter;
use slate_store::{Mark, MemoryStore, ObjectStore};
use slate_txn_log::Right;
use std::alloc::Global;
use std::mem;
use std::process::Abort;

/// The path of the database.
pub(crate) fn db(rt: &impl Abort) -> DbPath {
    DbPath::from_text("db")
        .expect(rt, "memory")
        .expect(rt, "a path of a database")
}

/// An id by its tail.
pub(crate) fn id(tail: u8) -> Ulid {
    Ulid::from_parts(300, u128::from(tail))
}

/// A table of the keys from `a` to `b`.
fn table(tail: u8) -> SsTableHandle {
    let mut info = SsTableInfo::default();
    drop(mem::replace(&mut info.first_entry, Some(Bytes::from("a"))));
    drop(mem::replace(&mut info.last_entry, Some(Bytes::from("b"))));
    SsTableHandle {
        id: SsTableId::Compacted(id(tail)),
        format_version: 1,
        info,
    }
}

/// The number of a refusal, and 0 where there is none.
pub(crate) fn code<T: Drop>(reply: Result<T, SlateDBError>) -> u8 {
    match reply {
        Ok(value) => {
            drop(value);
            0
        }
        Err(e) => {
            let number = e.code();
            drop(e);
            number
        }
    }
}

/// The core of a manifest whose root has the views 5 to 1 in L0, the first the newest.
fn core(rt: &impl Abort, alloc: Global) -> ManifestCore {
    let mut views = Vec::new(alloc);
    for tail in &[5u8, 4, 3, 2, 1] {
        views
            .push(SsTableView::new(id(*tail), table(*tail)))
            .expect(rt, "memory");
    }
    let mut made = ManifestCore::new(alloc);
    drop(mem::replace(&mut made.tree.l0, Queue::from_vec(views)));
    made
}

// The first manifest of the database.
pub(crate) fn created<S: ObjectStore>(rt: &impl Abort, alloc: Global, store: &mut S) {
    let core = core(rt, alloc);
    let holder = StoredManifest::create_new_db(alloc, store, db(rt), core, 5).expect(rt, "memory");
    drop(holder);
}

/// A store with the first manifest of a database.
pub(crate) fn with_manifest(rt: &impl Abort, alloc: Global) -> MemoryStore {
    let mut store = MemoryStore::new(alloc, Vec::new(alloc));
    created(rt, alloc, &mut store);
    store
}

/// The same, where the call after so many goes under this mark.
pub(crate) fn with_marks(rt: &impl Abort, alloc: Global, good: usize, mark: Mark) -> MemoryStore {
    let mut marks = Vec::new(alloc);
    for _ in 0..good {
        marks.push(Mark::Good).expect(rt, "memory");
    }
    marks.push(mark).expect(rt, "memory");
    let mut store = MemoryStore::new(alloc, marks);
    created(rt, alloc, &mut store);
    store
}

/// The compactor that opens it, in one try.
pub(crate) fn opened<S: ObjectStore>(
    rt: &impl Abort,
    alloc: Global,
    store: &mut S,
) -> CompactorStateWriter {
    CompactorStateWriter::new(alloc, store, db(rt), 1000, 1).expect(rt, "an open")
}

/// What the compaction 20 is to do: the views 2 and 1 of the root into the run 7.
fn spec(rt: &impl Abort, alloc: Global) -> CompactionSpec {
    let mut sources = Listed::new(alloc);
    sources.push(SourceId::SstView(id(2))).expect(rt, "memory");
    sources.push(SourceId::SstView(id(1))).expect(rt, "memory");
    CompactionSpec::Tiered {
        segment: Bytes::from(""),
        sources,
        destination: 7,
    }
}

/// Its output.
fn outputs(alloc: Global) -> Result<Listed<SsTableHandle>, SlateDBError> {
    let mut made = Listed::new(alloc);
    made.push(table(50))?;
    Ok(made)
}

// Commits what is made of the record by a holder's hand, and answers the number of its refusal.
fn by_hand<F: Fn(u64, &Compactions) -> Result<Option<Compactions>, SlateDBError>, S: ObjectStore>(
    rt: &impl Abort,
    alloc: Global,
    store: &mut S,
    f: F,
) -> u8
    requires callable { F.IsAlwaysCallable f }
{
    let mut holder = StoredCompactions::load(alloc, store, db(rt), 1).expect(rt, "a record");
    let reply = holder.maybe_apply_update(alloc, store, f, &Right::Plain, 2000, 1);
    drop(holder);
    code(reply)
}

/// An admin submits the compaction 20.
pub(crate) fn submitted<S: ObjectStore>(rt: &impl Abort, alloc: Global, store: &mut S) -> u8 {
    let spec = spec(rt, alloc);
    let f = |_n: u64, record: &Compactions| {
        submit(alloc, id(20), Plain::clone(&spec, alloc)?, record)
    };
    let answer = by_hand(rt, alloc, store, f);
    drop(spec);
    answer
}

/// The worker 3 claims it.
pub(crate) fn claimed<S: ObjectStore>(rt: &impl Abort, alloc: Global, store: &mut S) -> u8 {
    let f = |_n: u64, record: &Compactions| claim(alloc, id(20), 3, 2500, record);
    by_hand(rt, alloc, store, f)
}

/// And reports its output, the table 50.
pub(crate) fn reported<S: ObjectStore>(rt: &impl Abort, alloc: Global, store: &mut S) -> u8 {
    let f = |_n: u64, record: &Compactions| report(alloc, id(20), 3, outputs(alloc)?, record);
    by_hand(rt, alloc, store, f)
}

/// A compaction's status, where a record has it.
pub(crate) fn status(record: &Compactions) -> Option<CompactionStatus> {
    match record.get(id(20)) {
        Some(compaction) => Some(compaction.status),
        None => None,
    }
}

/// The checkpoint that is written before the trees.
pub(crate) fn checkpoint() -> CheckpointId {
    CheckpointId::from_u64(9)
}

/// A compactor that opened the database, and whose compaction waits for its end.
pub(crate) fn compacted<S: ObjectStore>(
    rt: &impl Abort,
    alloc: Global,
    store: &mut S,
) -> CompactorStateWriter {
    let mut writer = opened(rt, alloc, store);
    assert!(rt; submitted(rt, alloc, store) == 0);
    assert!(rt; code(writer.schedule(alloc, store, id(20), 2000, 1)) == 0);
    assert!(rt; claimed(rt, alloc, store) == 0 && reported(rt, alloc, store) == 0);
    assert!(rt; code(writer.refresh(alloc, store, 1)) == 0);
    writer
}

/// And who finished it.
pub(crate) fn finished<S: ObjectStore>(
    rt: &impl Abort,
    alloc: Global,
    store: &mut S,
) -> CompactorStateWriter {
    let mut writer = compacted(rt, alloc, store);
    assert!(rt; code(writer.finish(alloc, id(20))) == 0);
    writer
}

/// The greatest numbers of the manifest and of the record.
pub(crate) fn latest<S: ObjectStore>(rt: &impl Abort, alloc: Global, store: &mut S) -> (u64, u64) {
    let manifest = StoredManifest::load(alloc, store, db(rt), 1).expect(rt, "a manifest");
    let record = StoredCompactions::load(alloc, store, db(rt), 1).expect(rt, "a record");
    let numbers = (manifest.id(), record.id());
    drop(record);
    drop(manifest);
    numbers
}

/// The lengths of the root's L0 and of its runs.
pub(crate) fn shape(core: &ManifestCore) -> (usize, usize) {
    (
        core.tree.l0.as_deque().len(),
        core.tree.compacted.as_slice().len(),
    )
}
