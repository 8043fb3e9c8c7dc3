//! A collector over a store in memory, and its report as a table.

use slate_gc::{GarbageCollector, GarbageCollectorOptions, GcReport};
use slate_ids::{CheckpointId, DbPath, SlateDBError};
use slate_model::{CheckpointOptions, ManifestCore};
use slate_state::StoredManifest;
use slate_store::MemoryStore;
use std::alloc::Global;

/// A checkpoint that lives for half a second.
fn pin(
    alloc: Global,
    store: &mut MemoryStore,
    holder: &mut StoredManifest,
    n: u64,
) -> Result<(), SlateDBError> {
    let options = CheckpointOptions {
        lifetime: Some(500),
        source: None,
        name: None,
    };
    let id = CheckpointId::from_u64(n);
    let written = holder.write_checkpoint(alloc, store, 2000, 3, id, &options);
    drop(options);
    drop(written?);
    Ok(())
}

/// Two checkpoints, one after the other.
fn pin_both(
    alloc: Global,
    store: &mut MemoryStore,
    holder: &mut StoredManifest,
) -> Result<(), SlateDBError> {
    pin(alloc, store, holder, 7)?;
    pin(alloc, store, holder, 8)
}

/// A new database with two checkpoints: three versions of its manifest.
fn use_database(alloc: Global, store: &mut MemoryStore, db: DbPath) -> Result<(), SlateDBError> {
    let core = ManifestCore::new(alloc);
    let mut holder = StoredManifest::create_new_db(alloc, store, db, core, 1000)?;
    let pinned = pin_both(alloc, store, &mut holder);
    drop(holder);
    pinned
}

/// What each pass of a report counted, as a row of a table.
fn print(rt: &HostRuntime, report: &GcReport) {
    let _ = println!(rt; "| pass | picked | deleted | failed | versions |");
    let _ = println!(rt; "|---|---|---|---|---|");
    for (pass, reply) in report.passes.as_slice() {
        match reply {
            Ok(counts) => {
                let _ = println!(rt;
                    "| {pass:?} | {} | {} | {} | {} |",
                    counts.picked, counts.deleted, counts.failed, counts.versions
                );
            }
            Err(e) => {
                let _ = println!(rt; "| {pass:?} | refused: {e} |");
            }
        }
    }
}

/// The passes of a collector, once.
fn collect(rt: &HostRuntime, store: &mut MemoryStore, db: DbPath) -> Result<(), SlateDBError> {
    let mut collector = GarbageCollector::new(db, GarbageCollectorOptions::default(), None, None);
    let report = collector.run_gc_once(rt.alloc(), store, 3_600_000, 3);
    drop(collector);
    print(rt, &report?);
    Ok(())
}

/// The database, and its collection.
pub(crate) fn show_collection(
    rt: &HostRuntime,
    store: &mut MemoryStore,
    db: DbPath,
) -> Result<(), SlateDBError> {
    use_database(rt.alloc(), store, db)?;
    collect(rt, store, db)
}
