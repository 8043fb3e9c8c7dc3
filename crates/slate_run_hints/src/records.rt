//! What is wrong with the first record of a database, beside its fields.

use crate::hint::{Fault, Hint};
use crate::name::Name;
use crate::scripts::items_of;
use crate::spot::Spot;
use crate::trees::{IdParts, id_of, same_id};
use serde_json::Value;
use slate_ids::OutOfMemory;
use std::alloc::Global;
use std::collections::BTreeMap;

/// The compactions of a database's record.
pub(crate) fn compactions_of(database: &Value) -> &[Value] {
    match database.get("record") {
        Some(record) => items_of(record, Name::Compactions),
        None => &[],
    }
}

/// Where a compaction of a database stands.
pub(crate) fn compaction_spot(database: Spot, i: usize) -> Spot {
    database.at(Name::Record).item(Name::Compactions, i)
}

// A compaction that writes a run and drains, or does neither.
fn destination_fault(spot: Spot, database: &Value) -> Option<Hint> {
    for (i, item) in compactions_of(database).iter().enumerate() {
        if item.get("destination").is_some() == item.get("drain").is_some() {
            return Some(Hint::at(
                compaction_spot(spot, i),
                Fault::OneOf(Name::Destination, Name::Drain),
            ));
        }
    }
    None
}

/// Compactions by id, each with where it stands.
pub(crate) type Compactions = BTreeMap<IdParts, Spot>;

/// Notes the compactions of a database. One whose id came before is told.
pub(crate) fn note_compactions(
    alloc: Global,
    seen: &mut Compactions,
    spot: Spot,
    database: &Value,
) -> Result<Option<Hint>, OutOfMemory> {
    for (i, item) in compactions_of(database).iter().enumerate() {
        let here = compaction_spot(spot, i).at(Name::Id);
        if let Some(id) = own_id(alloc, item)? {
            if let Some(other) = seen.insert(id, here)? {
                return Ok(Some(same_id(here, id, other)));
            }
        }
    }
    Ok(None)
}

// The id of a compaction.
fn own_id(alloc: Global, item: &Value) -> Result<Option<IdParts>, OutOfMemory> {
    match item.get("id") {
        Some(id) => id_of(alloc, id),
        None => Ok(None),
    }
}

/// What is wrong with a record whose fields are right, each alone.
pub(crate) fn record_fault(
    alloc: Global,
    spot: Spot,
    database: &Value,
) -> Result<Option<Hint>, OutOfMemory> {
    if let Some(hint) = destination_fault(spot, database) {
        return Ok(Some(hint));
    }
    let mut seen = Compactions::new(alloc);
    note_compactions(alloc, &mut seen, spot, database)
}

/// An epoch that is above the compactor epoch of the manifest.
pub(crate) fn epoch_fault(spot: Spot, database: &Value) -> Option<Hint> {
    let epoch = database
        .get("record")?
        .get("epoch")
        .and_then(Value::as_u64)?;
    let own = match database.get("compactor_epoch").and_then(Value::as_u64) {
        Some(own) => own,
        None => 0,
    };
    if epoch > own {
        let here = spot.at(Name::Record).at(Name::Epoch);
        let words = "at most the compactor_epoch of its database";
        Some(Hint::at(here, Fault::HasToBe(words)))
    } else {
        None
    }
}

// An output that is older than these milliseconds.
fn older_output(
    alloc: Global,
    spot: Spot,
    ms: u64,
    item: &Value,
) -> Result<Option<Hint>, OutOfMemory> {
    for (i, table) in items_of(item, Name::Outputs).iter().enumerate() {
        if let Some((table_ms, _)) = id_of(alloc, table)? {
            if table_ms < ms {
                let words = "an id of at least the milliseconds of its compaction";
                return Ok(Some(Hint::at(spot.item(Name::Outputs, i), Fault::HasToBe(words))));
            }
        }
    }
    Ok(None)
}

/// An output that is older than its compaction.
pub(crate) fn outputs_fault(
    alloc: Global,
    spot: Spot,
    database: &Value,
) -> Result<Option<Hint>, OutOfMemory> {
    for (i, item) in compactions_of(database).iter().enumerate() {
        if let Some((ms, _)) = own_id(alloc, item)? {
            if let Some(hint) = older_output(alloc, compaction_spot(spot, i), ms, item)? {
                return Ok(Some(hint));
            }
        }
    }
    Ok(None)
}

// Whether a compaction of this status has no outputs.
fn is_without_outputs(status: &str) -> bool {
    status == "submitted" || status == "scheduled" || status == "running"
}

/// Outputs of a compaction that can have none yet.
pub(crate) fn unkept_fault(spot: Spot, database: &Value) -> Option<Hint> {
    for (i, item) in compactions_of(database).iter().enumerate() {
        let status = item.get("status").and_then(Value::as_str);
        let outputs = items_of(item, Name::Outputs);
        if !outputs.is_empty() && status.is_some_and(is_without_outputs) {
            let words = "empty, unless the status is compacted, completed or failed";
            return Some(Hint::at(
                compaction_spot(spot, i).at(Name::Outputs),
                Fault::HasToBe(words),
            ));
        }
    }
    None
}
