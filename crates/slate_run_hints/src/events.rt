//! What is wrong with an event, and where it stands as it is written.

use crate::fields::Object;
use crate::hint::{Fault, Hint};
use crate::items::whole_fault;
use crate::name::Name;
use crate::plain::Plain;
use crate::spot::Spot;
use serde_json::Value;
use slate_ids::OutOfMemory;
use slate_script_calls::{EventItem, read_event};
use slate_script_json::JsonError;
use std::alloc::Global;

// What is wrong with a start whose call has no table of fields.
fn call_fault(spot: Spot, call: Option<&Value>) -> Hint {
    match call {
        None => Hint::at(spot, Fault::Lacks(Name::Call)),
        Some(_) => Hint::at(spot.at(Name::Call), Fault::HasToBe(Plain::CallName.words())),
    }
}

// What is wrong with a start.
fn start_fault(alloc: Global, spot: Spot, value: &Value) -> Result<Option<Hint>, OutOfMemory> {
    let call = value.get("call");
    match call.and_then(Value::as_str).and_then(Object::of_call) {
        Some(kind) => whole_fault(alloc, spot, kind, value),
        None => Ok(Some(call_fault(spot, call))),
    }
}

/// What is wrong with an event.
pub(crate) fn event_fault(
    alloc: Global,
    spot: Spot,
    value: &Value,
) -> Result<Option<Hint>, OutOfMemory> {
    if value.as_object().is_none() {
        Ok(Some(Hint::at(spot, Fault::NoObject)))
    } else if value.get("open").is_some() {
        whole_fault(alloc, spot, Object::Open, value)
    } else if value.get("start").is_some() {
        start_fault(alloc, spot, value)
    } else if value.get("step").is_some() {
        whole_fault(alloc, spot, Object::Step, value)
    } else if value.get("stop").is_some() {
        whole_fault(alloc, spot, Object::Stop, value)
    } else {
        Ok(Some(Hint::at(spot, Fault::NoEvent)))
    }
}

// How many events an item stands for; none where it stands for nothing.
fn count_of(alloc: Global, value: &Value) -> Result<u64, OutOfMemory> {
    match read_event(alloc, value) {
        Ok(EventItem::Once(event)) => {
            drop(event);
            Ok(1)
        }
        Ok(EventItem::Steps { times, .. }) => Ok(times as u64),
        Err(JsonError::Malformed) => Ok(0),
        Err(JsonError::OutOfMemory) => Err(OutOfMemory),
    }
}

/// Where the event at this item stands.
pub(crate) fn event_spot_at(i: usize) -> Spot {
    Spot::WHOLE.item(Name::Events, i)
}

/// The item at which the event of a place stands, with times written out, or the first one before it that is no event.
pub(crate) fn item_at(
    alloc: Global,
    items: &[Value],
    place: u64,
) -> Result<Option<usize>, OutOfMemory> {
    let mut left = place;
    for (i, item) in items.iter().enumerate() {
        let count = count_of(alloc, item)?;
        if count == 0 || left < count {
            return Ok(Some(i));
        }
        left -= count;
    }
    Ok(None)
}
