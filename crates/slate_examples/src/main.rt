//! The library in use, each part over a store in memory of its own: checkpoints, a compactor's round, a collection.
#![tactic(auto)]

mod checkpoints;
mod collection;
mod compactor_round;

use checkpoints::show_checkpoints;
use collection::show_collection;
use compactor_round::show_round;
use slate_ids::{DbPath, SlateDBError};
use slate_store::MemoryStore;

/// A store without objects.
fn empty(rt: &HostRuntime) -> MemoryStore {
    MemoryStore::new(rt.alloc(), Vec::new(rt.alloc()))
}

/// All parts, one after the other.
fn show_all(rt: &HostRuntime, db: DbPath) -> Result<(), SlateDBError> {
    show_checkpoints(rt, &mut empty(rt), db)?;
    show_round(rt, &mut empty(rt), db)?;
    show_collection(rt, &mut empty(rt), db)
}

fn main(rt: HostRuntime) {
    if let Ok(Some(db)) = DbPath::from_text("db") {
        if let Err(e) = show_all(&rt, db) {
            let _ = println!(rt; "refused: {e}");
        }
    }
}
