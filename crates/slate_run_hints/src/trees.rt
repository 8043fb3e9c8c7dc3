//! What the objects of a database's trees share that may not be shared.

use crate::hint::{Fault, Hint, Shared};
use crate::name::Name;
use crate::scripts::items_of;
use crate::spot::Spot;
use bytes::Bytes;
use serde_json::Value;
use slate_ids::{OutOfMemory, Ulid};
use slate_script_json::{FromJson, JsonError};
use std::alloc::Global;
use std::collections::BTreeMap;

/// The milliseconds and the tail of an id.
pub(crate) type IdParts = (u64, u128);

// The bytes of an object's prefix.
fn prefix_of(alloc: Global, item: &Value) -> Result<Bytes, OutOfMemory> {
    match item.get("prefix").and_then(Value::as_str) {
        Some(text) => Ok(Bytes::copy_from_slice(alloc, text.as_bytes())?),
        None => Ok(Bytes::new()),
    }
}

/// The id that a value is, where it is one.
pub(crate) fn id_of(alloc: Global, value: &Value) -> Result<Option<IdParts>, OutOfMemory> {
    match Ulid::from_json(alloc, value) {
        Ok(id) => Ok(Some((id.timestamp_ms(), id.tail()))),
        Err(JsonError::Malformed) => Ok(None),
        Err(JsonError::OutOfMemory) => Err(OutOfMemory),
    }
}

/// Two places have one id.
pub(crate) fn same_id(spot: Spot, id: IdParts, other: Spot) -> Hint {
    let (ms, tail) = id;
    Hint::at(spot, Fault::Same(Shared::Id { ms, tail }, other))
}

/// A second marker of one prefix.
pub(crate) fn marker_fault(
    alloc: Global,
    spot: Spot,
    database: &Value,
) -> Result<Option<Hint>, OutOfMemory> {
    let mut seen: BTreeMap<Bytes, Spot> = BTreeMap::new(alloc);
    for (i, item) in items_of(database, Name::Markers).iter().enumerate() {
        let here = spot.item(Name::Markers, i).at(Name::Prefix);
        if let Some(other) = seen.insert(prefix_of(alloc, item)?, here)? {
            return Ok(Some(Hint::at(here, Fault::Same(Shared::Prefix, other))));
        }
    }
    Ok(None)
}

// The places of the views of one prefix, by id.
type Views = BTreeMap<IdParts, Spot>;

// Notes a view in its tree, and answers the one of its id that is there.
fn note_view(
    alloc: Global,
    trees: &mut BTreeMap<Bytes, Views>,
    prefix: Bytes,
    id: IdParts,
    spot: Spot,
) -> Result<Option<Spot>, OutOfMemory> {
    let mut views = match trees.remove(&prefix) {
        Some(views) => views,
        None => BTreeMap::new(alloc),
    };
    match views.insert(id, spot) {
        Ok(other) => {
            drop(trees.insert(prefix, views)?);
            Ok(other)
        }
        Err(e) => {
            drop(prefix);
            drop(views);
            Err(OutOfMemory::from(e))
        }
    }
}

/// A second view of one id in one tree.
pub(crate) fn view_fault(
    alloc: Global,
    spot: Spot,
    database: &Value,
) -> Result<Option<Hint>, OutOfMemory> {
    let mut trees = BTreeMap::new(alloc);
    for (i, item) in items_of(database, Name::L0).iter().enumerate() {
        let here = spot.item(Name::L0, i).at(Name::View);
        let Some(view) = item.get("view") else {
            return Ok(None);
        };
        let Some(id) = id_of(alloc, view)? else {
            return Ok(None);
        };
        if let Some(other) = note_view(alloc, &mut trees, prefix_of(alloc, item)?, id, here)? {
            return Ok(Some(same_id(here, id, other)));
        }
    }
    Ok(None)
}

/// A run whose id isn't below that of the one before it in its tree.
pub(crate) fn run_fault(
    alloc: Global,
    spot: Spot,
    database: &Value,
) -> Result<Option<Hint>, OutOfMemory> {
    let mut last: BTreeMap<Bytes, (u64, Spot)> = BTreeMap::new(alloc);
    for (i, item) in items_of(database, Name::Runs).iter().enumerate() {
        let here = spot.item(Name::Runs, i).at(Name::Id);
        let Some(id) = item.get("id").and_then(Value::as_u64) else {
            return Ok(None);
        };
        match last.insert(prefix_of(alloc, item)?, (id, here))? {
            Some((before, other)) if before <= id => {
                return Ok(Some(Hint::at(here, Fault::NotBelow(other))));
            }
            _ => {}
        }
    }
    Ok(None)
}

// Notes where the prefixes of a list's objects stand, the first of each.
fn note_prefixes(
    alloc: Global,
    prefixes: &mut BTreeMap<Bytes, Spot>,
    spot: Spot,
    database: &Value,
    list: Name,
) -> Result<(), OutOfMemory> {
    for (i, item) in items_of(database, list).iter().enumerate() {
        let prefix = prefix_of(alloc, item)?;
        if !prefix.is_empty() && !prefixes.contains_key(&prefix) {
            prefixes.insert(prefix, spot.item(list, i).at(Name::Prefix))?;
        }
    }
    Ok(())
}

/// A segment's prefix that begins with another's.
pub(crate) fn segment_fault(
    alloc: Global,
    spot: Spot,
    database: &Value,
) -> Result<Option<Hint>, OutOfMemory> {
    let mut prefixes: BTreeMap<Bytes, Spot> = BTreeMap::new(alloc);
    note_prefixes(alloc, &mut prefixes, spot, database, Name::L0)?;
    note_prefixes(alloc, &mut prefixes, spot, database, Name::Runs)?;
    note_prefixes(alloc, &mut prefixes, spot, database, Name::Markers)?;
    let mut before: Option<(&Bytes, Spot)> = None;
    for (prefix, here) in &prefixes {
        if let Some((front, other)) = before {
            if prefix.as_slice().starts_with(front.as_slice()) {
                return Ok(Some(Hint::at(*here, Fault::BeginsWith(other))));
            }
        }
        before = Some((prefix, *here));
    }
    Ok(None)
}
