//! Creates a database in memory, writes a checkpoint, and lists the versions of its manifest.

use slate_ids::{CheckpointId, DbPath, NumberRange, SlateDBError};
use slate_model::{CheckpointOptions, ManifestCore};
use slate_state::{ManifestStore, StoredManifest};
use slate_store::MemoryStore;
use std::ops::Bound;

const ALL: NumberRange = NumberRange {
    start: Bound::Unbounded,
    end: Bound::Unbounded,
};

/// A checkpoint that lives for half a second.
fn pin(
    rt: &HostRuntime,
    store: &mut MemoryStore,
    holder: &mut StoredManifest,
) -> Result<(), SlateDBError> {
    let options = CheckpointOptions {
        lifetime: Some(500),
        source: None,
        name: None,
    };
    let id = CheckpointId::from_u64(7);
    let checkpoint = holder.write_checkpoint(rt.alloc(), store, 2000, 3, id, &options)?;
    let _ = println!(rt; "a checkpoint names version {}", checkpoint.manifest_id);
    Ok(())
}

/// A new database, and a checkpoint in it.
fn create(rt: &HostRuntime, store: &mut MemoryStore, db: DbPath) -> Result<(), SlateDBError> {
    let core = ManifestCore::new(rt.alloc());
    let mut holder = StoredManifest::create_new_db(rt.alloc(), store, db, core, 1000)?;
    let _ = println!(rt; "created version {}", holder.id());
    pin(rt, store, &mut holder)
}

/// The versions of its manifest.
fn list(rt: &HostRuntime, store: &mut MemoryStore, db: DbPath) -> Result<(), SlateDBError> {
    let versions = ManifestStore::new(db).list_manifests(rt.alloc(), store, ALL)?;
    for version in versions.as_slice() {
        let _ = println!(rt;
            "version {} was written at {}",
            version.0, version.1.last_modified
        );
    }
    Ok(())
}

/// Both, over a store in memory.
pub(crate) fn show_checkpoints(
    rt: &HostRuntime,
    store: &mut MemoryStore,
    db: DbPath,
) -> Result<(), SlateDBError> {
    create(rt, store, db)?;
    list(rt, store, db)
}
