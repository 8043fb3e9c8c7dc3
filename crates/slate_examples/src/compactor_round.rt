//! A compactor's round over a store in memory: two tables of L0 become a sorted run.

use bytes::Bytes;
use slate_ids::{CheckpointId, DbPath, Listed, Millis, SlateDBError, Ulid};
use slate_model::{
    CompactionSpec, Compactions, ManifestCore, SourceId, SsTableHandle, SsTableId, SsTableInfo,
    SsTableView,
};
use slate_state::{
    CompactorStateReader, CompactorStateView, CompactorStateWriter, StoredCompactions,
    StoredManifest, claim, report, submit,
};
use slate_store::MemoryStore;
use slate_txn_log::Right;
use std::alloc::Global;

/// A table of the keys from `a` to `b`.
fn table(id: Ulid) -> SsTableHandle {
    let mut info = SsTableInfo::default();
    info.first_entry = Some(Bytes::from("a"));
    info.last_entry = Some(Bytes::from("b"));
    SsTableHandle {
        id: SsTableId::Compacted(id),
        format_version: 1,
        info,
    }
}

/// The core of a manifest with the tables 2 and 1 in L0.
fn two_tables(alloc: Global) -> Result<ManifestCore, SlateDBError> {
    let mut core = ManifestCore::new(alloc);
    for tail in 1..3u32 {
        let id = Ulid::from_parts(1000, u128::from(tail));
        core.tree.l0.push_front(SsTableView::new(id, table(id)))?;
    }
    Ok(core)
}

/// A merge of both into the run 0.
fn merge(alloc: Global) -> Result<CompactionSpec, SlateDBError> {
    let mut sources = Listed::new(alloc);
    sources.push(SourceId::SstView(Ulid::from_parts(1000, 2)))?;
    sources.push(SourceId::SstView(Ulid::from_parts(1000, 1)))?;
    Ok(CompactionSpec::Tiered {
        segment: Bytes::from(""),
        sources,
        destination: 0,
    })
}

/// The table that it gives.
fn output(alloc: Global) -> Result<Listed<SsTableHandle>, SlateDBError> {
    let mut tables = Listed::new(alloc);
    tables.push(table(Ulid::from_parts(4000, 3)))?;
    Ok(tables)
}

/// Commits what an admin or a worker makes of the record.
fn by_hand<F: Fn(u64, &Compactions) -> Result<Option<Compactions>, SlateDBError>>(
    alloc: Global,
    store: &mut MemoryStore,
    db: DbPath,
    moment: Millis,
    f: F,
) -> Result<(), SlateDBError>
    requires callable { F.IsAlwaysCallable f }
{
    let mut record = StoredCompactions::load(alloc, store, db, 3)?;
    record.maybe_apply_update(alloc, store, f, &Right::Plain, moment, 3)
}

/// One round of a compactor, from the submission of a compaction to the record of its end.
fn round(
    alloc: Global,
    store: &mut MemoryStore,
    db: DbPath,
    compactor: &mut CompactorStateWriter,
) -> Result<(), SlateDBError> {
    let id = Ulid::from_parts(3000, 0);
    by_hand(alloc, store, db, 3000, |_, record| {
        submit(alloc, id, merge(alloc)?, record)
    })?;
    compactor.schedule(alloc, store, id, 3500, 3)?;
    by_hand(alloc, store, db, 4000, |_, record| {
        claim(alloc, id, 1, 4000, record)
    })?;
    by_hand(alloc, store, db, 5000, |_, record| {
        report(alloc, id, 1, output(alloc)?, record)
    })?;
    compactor.refresh(alloc, store, 3)?;
    compactor.finish(alloc, id)?;
    compactor.write_state_safely(alloc, store, CheckpointId::from_u64(7), 6000, 3)
}

/// An open, and a round.
fn opened(alloc: Global, store: &mut MemoryStore, db: DbPath) -> Result<(), SlateDBError> {
    let mut compactor = CompactorStateWriter::new(alloc, store, db, 2000, 3)?;
    let reply = round(alloc, store, db, &mut compactor);
    drop(compactor);
    reply
}

/// A new database with two tables in L0.
fn create(alloc: Global, store: &mut MemoryStore, db: DbPath) -> Result<(), SlateDBError> {
    let core = two_tables(alloc)?;
    drop(StoredManifest::create_new_db(alloc, store, db, core, 1000)?);
    Ok(())
}

/// What is read of a compactor's state.
fn print(rt: &HostRuntime, view: &CompactorStateView) {
    let manifest = view.manifest();
    let _ = println!(rt;
        "manifest {}: {} tables in L0, {} sorted run",
        manifest.id(),
        manifest.core().tree.l0.as_deque().len(),
        manifest.core().tree.compacted.as_slice().len()
    );
    if let Some(record) = view.compactions() {
        for compaction in record.compactions().iter() {
            let _ = println!(rt; "record {}: {:?}", record.id(), compaction.status);
        }
    }
}

/// The database, the round, and what is read then.
pub(crate) fn show_round(
    rt: &HostRuntime,
    store: &mut MemoryStore,
    db: DbPath,
) -> Result<(), SlateDBError> {
    let alloc = rt.alloc();
    create(alloc, store, db)?;
    opened(alloc, store, db)?;
    let view = CompactorStateReader::new(db).read_view(alloc, store, 3)?;
    print(rt, &view);
    drop(view);
    Ok(())
}
