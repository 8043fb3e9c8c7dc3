//! What is wrong with an input that is no script.

use crate::events::{event_fault, event_spot_at, item_at};
use crate::fields::Object;
use crate::hint::{Fault, Hint};
use crate::items::{object_fault, whole_fault};
use crate::name::Name;
use crate::records::record_fault;
use crate::spot::Spot;
use crate::trees::marker_fault;
use serde_json::Value;
use slate_ids::OutOfMemory;
use slate_script_events::ScriptPlace;
use std::alloc::Global;
use std::str;

// The place above which no event of a script stands.
const EVENT_LIMIT: u64 = 1_000_000;

// The line and the column of a place in an input, counted from 1, the columns in bytes.
fn line_and_column(bytes: &[u8]) -> (usize, usize) {
    let mut line = 1usize;
    let mut column = 1usize;
    for byte in bytes {
        if *byte == b'\n' {
            line = line.saturating_add(1);
            column = 1;
        } else {
            column = column.saturating_add(1);
        }
    }
    (line, column)
}

// Where a text is no JSON.
fn text_fault(alloc: Global, text: &str) -> Option<Hint> {
    match Value::from_str(alloc, text) {
        Ok(value) => {
            drop(value);
            None
        }
        Err(e) => {
            let ran_out = e.is_memory();
            let (line, column, ends) = (e.line(), e.column(), e.is_eof());
            drop(e);
            if ran_out {
                None
            } else {
                Some(Hint::NoJson { line, column, ends })
            }
        }
    }
}

// Where an input is no JSON.
fn json_fault(alloc: Global, bytes: &[u8]) -> Option<Hint> {
    match str::from_utf8(bytes) {
        Ok(text) => text_fault(alloc, text),
        Err(e) => {
            let (line, column) = line_and_column(&bytes[..e.valid_up_to().min(bytes.len())]);
            Some(Hint::NoJson {
                line,
                column,
                ends: false,
            })
        }
    }
}

/// The JSON value of an input, where it is one and memory suffices.
pub(crate) fn value_of(alloc: Global, bytes: &[u8]) -> Option<Value> {
    match str::from_utf8(bytes) {
        Ok(text) => match Value::from_str(alloc, text) {
            Ok(value) => Some(value),
            Err(e) => {
                drop(e);
                None
            }
        },
        Err(_) => None,
    }
}

/// The items of one of the two arrays of a script.
pub(crate) fn items_of<'a>(script: &'a Value, list: Name) -> &'a [Value] {
    match script.get(list.text()).and_then(Value::as_array) {
        Some(items) => items.as_slice(),
        None => &[],
    }
}

// What is wrong with a database whose fields are right, each alone.
fn beside_fields(alloc: Global, spot: Spot, item: &Value) -> Result<Option<Hint>, OutOfMemory> {
    match marker_fault(alloc, spot, item)? {
        Some(hint) => Ok(Some(hint)),
        None => record_fault(alloc, spot, item),
    }
}

// What is wrong with the database at a place.
fn database_fault(alloc: Global, items: &[Value], place: u64) -> Result<Option<Hint>, OutOfMemory> {
    for (i, item) in items.iter().enumerate() {
        if i as u64 == place {
            let spot = Spot::WHOLE.item(Name::Databases, i);
            return match whole_fault(alloc, spot, Object::Database, item)? {
                Some(hint) => Ok(Some(hint)),
                None => beside_fields(alloc, spot, item),
            };
        }
    }
    Ok(None)
}

// What is wrong with the event at a place.
fn fault_at(alloc: Global, items: &[Value], place: u64) -> Result<Option<Hint>, OutOfMemory> {
    let Some(i) = item_at(alloc, items, place)? else {
        return Ok(None);
    };
    let Some(item) = items.get(i) else {
        return Ok(None);
    };
    let spot = event_spot_at(i);
    match event_fault(alloc, spot, item)? {
        Some(hint) => Ok(Some(hint)),
        None if place == EVENT_LIMIT => Ok(Some(Hint::at(spot, Fault::TooMany))),
        None => Ok(None),
    }
}

// What is wrong at a place of a JSON value.
fn fault_in(
    alloc: Global,
    script: &Value,
    place: ScriptPlace,
) -> Result<Option<Hint>, OutOfMemory> {
    match place {
        ScriptPlace::Json => Ok(None),
        ScriptPlace::Top => object_fault(alloc, Spot::WHOLE, Object::Whole, script),
        ScriptPlace::Database(i) => database_fault(alloc, items_of(script, Name::Databases), i),
        ScriptPlace::Event(i) => fault_at(alloc, items_of(script, Name::Events), i),
    }
}

/// What is wrong with an input that is no script, whose first place that is none is this one.
pub fn script_hint(alloc: Global, bytes: &[u8], place: ScriptPlace) -> Option<Hint> {
    if place == ScriptPlace::Json {
        return json_fault(alloc, bytes);
    }
    let script = value_of(alloc, bytes)?;
    let found = fault_in(alloc, &script, place);
    drop(script);
    match found {
        Ok(hint) => hint,
        Err(_) => None,
    }
}

/// Where the event of a place, counted with times written out, stands in an input that is a script.
pub fn event_spot(alloc: Global, bytes: &[u8], place: u64) -> Option<Spot> {
    let script = value_of(alloc, bytes)?;
    let found = item_at(alloc, items_of(&script, Name::Events), place);
    drop(script);
    match found {
        Ok(Some(i)) => Some(event_spot_at(i)),
        _ => None,
    }
}
