//! Why an event is bad: which of the rules on events it breaks, by what is written before it.

use crate::carried::id_fault;
use crate::events::{event_spot_at, item_at};
use crate::fields::has_call;
use crate::hint::{Fault, Hint};
use crate::name::Name;
use crate::scripts::{items_of, value_of};
use crate::spot::Spot;
use serde_json::Value;
use slate_ids::{DbPath, OutOfMemory, Text};
use slate_script_events::PartyKind;
use slate_script_json::{FromJson, JsonError};
use std::alloc::Global;

// The number of a party in a field of an event.
fn party_in(event: &Value, field: Name) -> Option<u64> {
    event.get(field.text()).and_then(Value::as_u64)
}

// The place among events of the open of a party.
fn opened_at(events: &[Value], party: u64) -> Option<usize> {
    for (i, event) in events.iter().enumerate() {
        if party_in(event, Name::Open) == Some(party) {
            return Some(i);
        }
    }
    None
}

// The text in a field of an object.
fn text_in(object: &Value, field: Name) -> Option<&str> {
    object.get(field.text()).and_then(Value::as_str)
}

// Whether there is a database at a path.
fn is_database(databases: &[Value], path: &str) -> bool {
    databases
        .iter()
        .any(|database| text_in(database, Name::Path) == Some(path))
}

// A database that isn't there.
fn database_fault(
    databases: &[Value],
    spot: Spot,
    event: &Value,
) -> Result<Option<Hint>, OutOfMemory> {
    let Some(text) = text_in(event, Name::Db) else {
        return Ok(None);
    };
    if is_database(databases, text) {
        return Ok(None);
    }
    match DbPath::from_text(text)? {
        Some(path) => Ok(Some(Hint::at(spot.at(Name::Db), Fault::NoDatabase(path)))),
        None => Ok(None),
    }
}

// Why an open of a party is bad: the party came before, or its database isn't there.
fn open_fault(
    databases: &[Value],
    before: &[Value],
    spot: Spot,
    event: &Value,
    party: u64,
) -> Result<Option<Hint>, OutOfMemory> {
    match opened_at(before, party) {
        Some(i) => {
            let other = event_spot_at(i).at(Name::Open);
            Ok(Some(Hint::at(spot.at(Name::Open), Fault::OpenedBefore(party, other))))
        }
        None => database_fault(databases, spot, event),
    }
}

// The kind that an open gives its party.
fn kind_of(alloc: Global, open: &Value) -> Result<Option<PartyKind>, OutOfMemory> {
    let Some(kind) = open.get("kind") else {
        return Ok(None);
    };
    match PartyKind::from_json(alloc, kind) {
        Ok(kind) => Ok(Some(kind)),
        Err(JsonError::Malformed) => Ok(None),
        Err(JsonError::OutOfMemory) => Err(OutOfMemory),
    }
}

// A call that its party's kind lacks, or of which it lacks a form.
fn call_fault(
    alloc: Global,
    spot: Spot,
    open: &Value,
    event: &Value,
) -> Result<Option<Hint>, OutOfMemory> {
    let Some(kind) = kind_of(alloc, open)? else {
        return Ok(None);
    };
    match text_in(event, Name::Call) {
        Some(call) if !has_call(kind, call) => {
            let call = Text::copy_of(alloc, call)?;
            Ok(Some(Hint::at(spot.at(Name::Call), Fault::NoCall(kind, call))))
        }
        Some("refresh_checkpoint") if event.get("lifetime").is_none() => {
            Ok(Some(Hint::at(spot, Fault::Lacks(Name::Lifetime))))
        }
        _ => Ok(None),
    }
}

// Why a start of a party that came is bad.
fn start_fault(
    alloc: Global,
    databases: &[Value],
    before: &[Value],
    spot: Spot,
    event: &Value,
    open: &Value,
) -> Result<Option<Hint>, OutOfMemory> {
    match call_fault(alloc, spot, open, event)? {
        Some(hint) => Ok(Some(hint)),
        None => id_fault(alloc, databases, before, spot, event),
    }
}

// Why an event whose party is in this field is bad, where the party never came; and else the event that opened it.
fn open_before(before: &[Value], spot: Spot, field: Name, party: u64) -> Result<&Value, Hint> {
    match opened_at(before, party).and_then(|i| before.get(i)) {
        Some(open) => Ok(open),
        None => Err(Hint::at(spot.at(field), Fault::NotOpened(party))),
    }
}

// Why an event is bad after these.
fn reason(
    alloc: Global,
    databases: &[Value],
    before: &[Value],
    spot: Spot,
    event: &Value,
) -> Result<Option<Hint>, OutOfMemory> {
    if let Some(party) = party_in(event, Name::Open) {
        return open_fault(databases, before, spot, event, party);
    }
    if let Some(party) = party_in(event, Name::Start) {
        return match open_before(before, spot, Name::Start, party) {
            Ok(open) => start_fault(alloc, databases, before, spot, event, open),
            Err(hint) => Ok(Some(hint)),
        };
    }
    for field in [Name::Step, Name::Stop] {
        if let Some(party) = party_in(event, field) {
            return match open_before(before, spot, field, party) {
                Ok(_) => Ok(None),
                Err(hint) => Ok(Some(hint)),
            };
        }
    }
    Ok(None)
}

// Why the event of a place is bad.
fn reason_at(alloc: Global, script: &Value, place: u64) -> Result<Option<Hint>, OutOfMemory> {
    let events = items_of(script, Name::Events);
    let Some(i) = item_at(alloc, events, place)? else {
        return Ok(None);
    };
    let Some(event) = events.get(i) else {
        return Ok(None);
    };
    let databases = items_of(script, Name::Databases);
    reason(
        alloc,
        databases,
        &events[..i.min(events.len())],
        event_spot_at(i),
        event,
    )
}

/// Why the event of a place, counted with times written out, is bad in an input that is a script.
pub fn bad_event_hint(alloc: Global, bytes: &[u8], place: u64) -> Option<Hint> {
    let script = value_of(alloc, bytes)?;
    let found = reason_at(alloc, &script, place);
    drop(script);
    match found {
        Ok(hint) => hint,
        Err(_) => None,
    }
}
