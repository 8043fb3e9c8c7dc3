//! Which databases of a script begin no run, and what they share or lack.

use crate::hint::{Fault, Hint};
use crate::name::Name;
use crate::records::{epoch_fault, outputs_fault, unkept_fault};
use crate::repeats::{checkpoint_fault, compaction_fault, database_spot, path_fault, table_fault};
use crate::scripts::{items_of, value_of};
use crate::spot::Spot;
use crate::trees::{run_fault, segment_fault, view_fault};
use serde_json::Value;
use slate_ids::OutOfMemory;
use slate_script_databases::read_database;
use slate_script_events::ClusterCause;
use slate_script_json::JsonError;
use std::alloc::Global;

// The last second that an expiry has room for.
const LAST_SECOND: i64 = (1 << 32) - 1;

// Whether a moment is a whole second that an expiry has room for.
fn is_expiry(moment: i64) -> bool {
    moment % 1000 == 0 && 1 <= moment / 1000 && moment / 1000 <= LAST_SECOND
}

// A checkpoint of a database whose expiry has no bytes.
fn expiry_fault(spot: Spot, database: &Value) -> Option<Hint> {
    for (i, item) in items_of(database, Name::Checkpoints).iter().enumerate() {
        if let Some(moment) = item.get("expire").and_then(Value::as_i64) {
            if !is_expiry(moment) {
                let here = spot.item(Name::Checkpoints, i).at(Name::Expire);
                let words = "a multiple of 1000 from 1000 to (2^32 - 1) * 1000";
                return Some(Hint::at(here, Fault::HasToBe(words)));
            }
        }
    }
    None
}

// The value of a database that has no bytes, or isn't read back of them.
fn value_fault(spot: Spot, database: &Value) -> Option<Hint> {
    match database.get("next_wal").and_then(Value::as_u64) {
        Some(0) => Some(Hint::at(
            spot.at(Name::NextWal),
            Fault::HasToBe("a whole number from 1 to 2^64 - 1"),
        )),
        _ => match expiry_fault(spot, database) {
            Some(hint) => Some(hint),
            None => unkept_fault(spot, database),
        },
    }
}

// A floor that is below the watermark.
fn floor_fault(alloc: Global, spot: Spot, database: &Value) -> Result<Option<Hint>, OutOfMemory> {
    match read_database(alloc, database) {
        Ok(read) => {
            let watermark = read.manifest.core.watermark();
            let floor = read.manifest.core.floor;
            drop(read);
            if floor < watermark {
                Ok(Some(Hint::at(spot.at(Name::Floor), Fault::FloorBelow(watermark))))
            } else {
                Ok(None)
            }
        }
        Err(JsonError::Malformed) => Ok(None),
        Err(JsonError::OutOfMemory) => Err(OutOfMemory),
    }
}

// What is wrong with the trees of a database.
fn tree_fault(alloc: Global, spot: Spot, database: &Value) -> Result<Option<Hint>, OutOfMemory> {
    match view_fault(alloc, spot, database)? {
        Some(hint) => Ok(Some(hint)),
        None => run_fault(alloc, spot, database),
    }
}

// What a cause finds in one database.
fn own_fault(
    alloc: Global,
    cause: ClusterCause,
    spot: Spot,
    database: &Value,
) -> Result<Option<Hint>, OutOfMemory> {
    match cause {
        ClusterCause::Ids => tree_fault(alloc, spot, database),
        ClusterCause::Value => Ok(value_fault(spot, database)),
        ClusterCause::Segments => segment_fault(alloc, spot, database),
        ClusterCause::Epoch => Ok(epoch_fault(spot, database)),
        ClusterCause::Outputs => outputs_fault(alloc, spot, database),
        ClusterCause::Floor => floor_fault(alloc, spot, database),
        ClusterCause::Path | ClusterCause::Checkpoints | ClusterCause::Tables => Ok(None),
    }
}

// An id of a checkpoint, of a table or of a compaction that comes twice.
fn id_fault(alloc: Global, databases: &[Value]) -> Result<Option<Hint>, OutOfMemory> {
    if let Some(hint) = checkpoint_fault(alloc, databases)? {
        return Ok(Some(hint));
    }
    if let Some(hint) = table_fault(alloc, databases)? {
        return Ok(Some(hint));
    }
    compaction_fault(alloc, databases)
}

// What a cause finds in two databases, or in the whole of them.
fn shared_fault(
    alloc: Global,
    cause: ClusterCause,
    databases: &[Value],
) -> Result<Option<Hint>, OutOfMemory> {
    match cause {
        ClusterCause::Path => path_fault(alloc, databases),
        ClusterCause::Ids => id_fault(alloc, databases),
        _ => Ok(None),
    }
}

// What is wrong with these databases.
fn databases_fault(
    alloc: Global,
    cause: ClusterCause,
    databases: &[Value],
) -> Result<Option<Hint>, OutOfMemory> {
    if let Some(hint) = shared_fault(alloc, cause, databases)? {
        return Ok(Some(hint));
    }
    for (i, database) in databases.iter().enumerate() {
        if let Some(hint) = own_fault(alloc, cause, database_spot(i), database)? {
            return Ok(Some(hint));
        }
    }
    Ok(None)
}

/// What is wrong with a script whose databases begin no run, for this cause.
pub fn cluster_hint(alloc: Global, bytes: &[u8], cause: ClusterCause) -> Option<Hint> {
    let script = value_of(alloc, bytes)?;
    let found = databases_fault(alloc, cause, items_of(&script, Name::Databases));
    drop(script);
    match found {
        Ok(hint) => hint,
        Err(_) => None,
    }
}
