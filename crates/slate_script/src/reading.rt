//! The script that bytes stand for.
ghost use Rattle.std.specs.Prelude.{◌≡◌, ◌≤◌, ◌<◌, ◌+◌, ◌++◌, IfOk, OnOk, List, Option, Some, None, Ok, Err, Result, option_map};
ghost use Rattle.serde_json.specs.Read.{read};
ghost use Rattle.serde_json.specs.View.{view, items_view};
ghost use Rattle.slate_script_json.specs.Fields.{Gives, array_in};
ghost use Rattle.slate_script_calls.specs.ReadEvents.{expand, count_of};
ghost use Rattle.slate_script_databases.specs.DatabaseFields.{database_in};
ghost use Rattle.slate_script.specs.Scripts.{Reads, and_then, at_place, databases_from, event_item_at, events_from, event_limit, top_in, script_in, json_of, script_of};
ghost use Rattle.slate_script_events.specs.declared.db_spec.DbSpec.{DbSpec};
ghost use Rattle.slate_script_events.specs.declared.event.Event.{Event};
ghost use Rattle.slate_script_events.specs.declared.script.ScriptPlace.{ScriptPlace};
ghost use Rattle.slate_script_events.specs.declared.script.ScriptPlace.TheVariants.{Database};

use serde_json::Value;
use slate_ids::{Listed, OutOfMemory};
use slate_script_calls::{EventItem, read_event};
use slate_script_databases::read_database;
use slate_script_events::{DbSpec, Event, Script, ScriptError, ScriptPlace};
use slate_script_json::{JsonError, array_of, only};
use std::alloc::Global;
use std::str;

const EVENT_LIMIT: u64 = 1_000_000;

// What was read of an item, or its place.
fn at<X: Drop>(place: ScriptPlace, read: Result<X, JsonError>) -> Result<X, ScriptError>
    ensures { (o : Option X) → Gives read o → Reads result (at_place place o) }
{
    match read {
        Ok(x) => Ok(x),
        Err(JsonError::Malformed) => Err(ScriptError::BadScript(place)),
        Err(JsonError::OutOfMemory) => Err(ScriptError::OutOfMemory),
    }
}

// The database at a place, whose value is let go.
fn database(alloc: Global, i: u64, value: Value) -> Result<DbSpec, ScriptError>
    ensures { Reads result (at_place (Database i) (database_in (view value))) }
{
    let read = at(ScriptPlace::Database(i), read_database(alloc, &value));
    drop(value);
    read
}

// Each value is let go as soon as it is read, so that never all of them stand beside all databases.
fn databases(alloc: Global, values: Vec<Value>) -> Result<Listed<DbSpec>, ScriptError>
    ensures { Reads result (databases_from 0 (items_view values.items)) }
{
    let mut databases = Listed::new(alloc);
    for value in values {
        let place = databases.as_slice().len() as u64;
        let db = database(alloc, place, value)?;
        databases.push(db)?;
    }
    Ok(databases)
}

fn event_item(alloc: Global, i: u64, value: &Value) -> Result<EventItem, ScriptError>
    requires { i ≤ event_limit }
    ensures value { Reads result (event_item_at i (view value.now)) }
    ensures fits { IfOk result (λ w. i + count_of w ≤ event_limit) }
{
    let item = at(ScriptPlace::Event(i), read_event(alloc, value))?;
    let count = match &item {
        EventItem::Once(_) => 1,
        EventItem::Steps { times, .. } => *times as u64,
    };
    if i + count > EVENT_LIMIT {
        drop(item);
        return Err(ScriptError::BadScript(ScriptPlace::Event(EVENT_LIMIT)));
    }
    Ok(item)
}

fn push_events(events: &mut Listed<Event>, item: EventItem) -> Result<(), OutOfMemory>
    ensures { OnOk result (events.new ≡ events.old ++ expand item) }
{
    match item {
        EventItem::Once(event) => events.push(event),
        EventItem::Steps {
            party,
            moment,
            mark,
            times,
        } => {
            for _ in 0..times {
                events.push(Event::Step {
                    party,
                    moment,
                    mark,
                })?;
            }
            Ok(())
        }
    }
}

fn events(alloc: Global, values: &[Value]) -> Result<Listed<Event>, ScriptError>
    ensures { Reads result (events_from 0 (items_view values.now)) }
{
    let mut events = Listed::new(alloc);
    for value in values {
        let place = events.as_slice().len() as u64;
        let item = event_item(alloc, place, value)?;
        push_events(&mut events, item)?;
    }
    Ok(events)
}

// The items of an array, which are taken out of their object.
fn items_taken(d: &mut Value, name: &str) -> Option<Vec<Value>>
    ensures { option_map (λ v. items_view v.items) result ≡ array_in name.now (view d.old) }
{
    match d.get_mut(name)?.take() {
        Value::Array(values) => Some(values),
        other => {
            drop(other);
            None
        }
    }
}

// What was read of both parts: a database that is none comes before any event.
fn both(
    databases: Result<Listed<DbSpec>, ScriptError>,
    events: Result<Listed<Event>, ScriptError>,
) -> Result<Script, ScriptError>
    ensures { (ds : Result (List DbSpec) ScriptPlace) (es : Result (List Event) ScriptPlace) → Reads databases ds → Reads events es
        → Reads result (and_then ds (λ d. and_then es (λ e. Ok (record { databases = d; events = e })))) }
{
    match databases {
        Ok(databases) => match events {
            Ok(events) => Ok(Script { databases, events }),
            Err(e) => {
                drop(databases);
                Err(e)
            }
        },
        Err(e) => {
            drop(events);
            Err(e)
        }
    }
}

// The events are read first, of the whole value; then the values of the databases are taken out of it, and let go one by one.
#[tactic(auto, unfolding(crate::specs::Scripts::top_in, crate::specs::Scripts::script_in))]
fn parts(alloc: Global, d: &mut Value) -> Result<Script, ScriptError>
    ensures { Reads result (script_in (view d.old)) }
{
    at(ScriptPlace::Top, only(d, &["databases", "events"]))?;
    let Some(event_values) = array_of(d, "events") else {
        return Err(ScriptError::BadScript(ScriptPlace::Top));
    };
    let events = events(alloc, event_values);
    let Some(database_values) = items_taken(d, "databases") else {
        drop(events);
        return Err(ScriptError::BadScript(ScriptPlace::Top));
    };
    both(databases(alloc, database_values), events)
}

fn script(alloc: Global, mut d: Value) -> Result<Script, ScriptError>
    ensures { Reads result (script_in (view d)) }
{
    let read = parts(alloc, &mut d);
    drop(d);
    read
}

// The JSON value of the text.
fn json_text(alloc: Global, text: &str) -> Result<Value, JsonError>
    ensures ok { IfOk result (λ v. read text.now ≡ Some (view v)) }
    ensures malformed { result ≡ Err JsonError.Malformed → read text.now ≡ None }
{
    match Value::from_str(alloc, text) {
        Ok(value) => Ok(value),
        Err(e) => {
            let ran_out = e.is_memory();
            drop(e);
            if ran_out {
                Err(JsonError::OutOfMemory)
            } else {
                Err(JsonError::Malformed)
            }
        }
    }
}

// The JSON value of the bytes.
fn json(alloc: Global, bytes: &[u8]) -> Result<Value, JsonError>
    ensures ok { IfOk result (λ v. json_of bytes.now ≡ Some (view v)) }
    ensures malformed { result ≡ Err JsonError.Malformed → json_of bytes.now ≡ None }
{
    match str::from_utf8(bytes) {
        Ok(text) => json_text(alloc, text),
        Err(_) => Err(JsonError::Malformed),
    }
}

/// The script of the bytes, or the first place at which they are none.
#[tactic(auto, unfolding(crate::specs::Scripts::script_of))]
pub fn read_script(alloc: Global, bytes: &[u8]) -> Result<Script, ScriptError>
    ensures script { Reads result (script_of bytes.now) }
{
    let value = match json(alloc, bytes) {
        Ok(value) => value,
        Err(JsonError::Malformed) => return Err(ScriptError::BadScript(ScriptPlace::Json)),
        Err(JsonError::OutOfMemory) => return Err(ScriptError::OutOfMemory),
    };
    script(alloc, value)
}
