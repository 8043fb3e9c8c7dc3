//! The events that an item of a script stands for.
ghost use Rattle.serde_json.specs.View.{view};
ghost use Rattle.slate_script_json.specs.Fields.{Gives};
ghost use Rattle.slate_script_calls.specs.ReadEvents.{open_in, start_in, step_in, stop_in, event_item_in};

use crate::read_call::read_call;
use serde_json::Value;
use slate_ids::Millis;
use slate_script_events::Event;
use slate_script_json::{JsonError, defaulted, only, required};
use slate_store::Mark;
use std::alloc::Global;

/// An item of a script: a step may stand for several.
#[derive(Debug, Drop)]
pub enum EventItem {
    /// One event.
    Once(Event),
    /// As many equal steps as `times` says, from 1 to 1,000.
    Steps {
        party: u32,
        moment: Millis,
        mark: Mark,
        times: u32,
    },
}

#[tactic(auto, unfolding(crate::specs::ReadEvents::open_in))]
fn open(alloc: Global, d: &Value) -> Result<EventItem, JsonError>
    ensures { Gives result (open_in (view d.now)) }
{
    only(d, &["open", "kind", "db"])?;
    let party = required(alloc, d, "open")?;
    let kind = required(alloc, d, "kind")?;
    let db = required(alloc, d, "db")?;
    Ok(EventItem::Once(Event::open(alloc, party, kind, db)?))
}

#[tactic(auto, unfolding(crate::specs::ReadEvents::start_in))]
fn start(alloc: Global, d: &Value) -> Result<EventItem, JsonError>
    ensures { Gives result (start_in (view d.now)) }
{
    let party = required(alloc, d, "start")?;
    let call = read_call(alloc, d)?;
    Ok(EventItem::Once(Event::start(alloc, party, call)?))
}

#[tactic(auto, unfolding(crate::specs::ReadEvents::step_in))]
fn step(alloc: Global, d: &Value) -> Result<EventItem, JsonError>
    ensures { Gives result (step_in (view d.now)) }
{
    only(d, &["step", "at", "mark", "times"])?;
    let party = required(alloc, d, "step")?;
    let moment = required(alloc, d, "at")?;
    let mark = defaulted(alloc, d, "mark", Mark::Good)?;
    let times: u32 = defaulted(alloc, d, "times", 1)?;
    if times < 1 || times > 1000 {
        return Err(JsonError::Malformed);
    }
    Ok(EventItem::Steps {
        party,
        moment,
        mark,
        times,
    })
}

#[tactic(auto, unfolding(crate::specs::ReadEvents::stop_in))]
fn stop(alloc: Global, d: &Value) -> Result<EventItem, JsonError>
    ensures { Gives result (stop_in (view d.now)) }
{
    only(d, &["stop"])?;
    let party = required(alloc, d, "stop")?;
    Ok(EventItem::Once(Event::Stop { party }))
}

/// The events that an item of a script stands for.
#[tactic(auto, unfolding(crate::specs::ReadEvents::event_item_in))]
pub fn read_event(alloc: Global, d: &Value) -> Result<EventItem, JsonError>
    ensures { Gives result (event_item_in (view d.now)) }
{
    if d.get("open").is_some() {
        open(alloc, d)
    } else if d.get("start").is_some() {
        start(alloc, d)
    } else if d.get("step").is_some() {
        step(alloc, d)
    } else {
        stop(alloc, d)
    }
}
