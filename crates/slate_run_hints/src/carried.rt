//! Ids that an event brings anew although they were carried before, or stand in it twice.

use crate::events::event_spot_at;
use crate::fields::{Field, Holds, Object, Presence};
use crate::hint::{Fault, Hint, Shared};
use crate::name::Name;
use crate::plain::Plain;
use crate::repeats::database_spot;
use crate::spot::Spot;
use crate::trees::id_of;
use serde_json::Value;
use slate_ids::OutOfMemory;
use std::alloc::Global;
use std::collections::BTreeMap;

// An id of a checkpoint, or one of the pool of tables, views and compactions.
#[derive(Clone, Copy, Debug, Drop, PartialEq, Eq, PartialOrd, Ord)]
enum Id {
    Checkpoint(u64),
    Other(u64, u128),
}

// What is looked for: first what the event names, then what it brings anew, and then what was carried before it.
#[derive(Clone, Copy, Debug, Drop)]
enum Stage {
    Named,
    New,
    Before,
}

// The ids of an event, each with where it stands and whether the event brings it anew.
#[derive(Drop)]
struct Look {
    stage: Stage,
    ids: BTreeMap<Id, (Spot, bool)>,
}

fn shared(id: Id) -> Shared {
    match id {
        Id::Checkpoint(id) => Shared::Checkpoint(id),
        Id::Other(ms, tail) => Shared::Id { ms, tail },
    }
}

// The id that a value is, where one has to stand there.
fn id_in(alloc: Global, plain: Plain, value: &Value) -> Result<Option<Id>, OutOfMemory> {
    match plain {
        Plain::Checkpoint => match value.as_u64() {
            Some(id) => Ok(Some(Id::Checkpoint(id))),
            None => Ok(None),
        },
        Plain::Id => match id_of(alloc, value)? {
            Some((ms, tail)) => Ok(Some(Id::Other(ms, tail))),
            None => Ok(None),
        },
        _ => Ok(None),
    }
}

impl Look {
    // An id that the event has anew stands in it already.
    fn note(&mut self, id: Id, spot: Spot, is_new: bool) -> Result<Option<Hint>, OutOfMemory> {
        match self.ids.insert(id, (spot, is_new))? {
            Some((other, _)) if is_new => {
                Ok(Some(Hint::at(spot, Fault::Same(shared(id), other))))
            }
            _ => Ok(None),
        }
    }

    // The event has an id anew that stands here.
    fn find(&self, id: Id, spot: Spot) -> Option<Hint> {
        match self.ids.get(&id) {
            Some((here, true)) => Some(Hint::at(*here, Fault::CarriedBefore(shared(id), spot))),
            _ => None,
        }
    }

    // What is wrong with an id that stands here.
    fn meet(&mut self, id: Id, spot: Spot, is_new: bool) -> Result<Option<Hint>, OutOfMemory> {
        match self.stage {
            Stage::Named if !is_new => self.note(id, spot, false),
            Stage::New if is_new => self.note(id, spot, true),
            Stage::Before => Ok(self.find(id, spot)),
            _ => Ok(None),
        }
    }

    // What is wrong with the id that a plain value is.
    fn plain(
        &mut self,
        alloc: Global,
        spot: Spot,
        is_new: bool,
        plain: Plain,
        value: &Value,
    ) -> Result<Option<Hint>, OutOfMemory> {
        match id_in(alloc, plain, value)? {
            Some(id) => self.meet(id, spot, is_new),
            None => Ok(None),
        }
    }

    // What is wrong with the ids in an array of plain values.
    fn each(
        &mut self,
        alloc: Global,
        spot: Spot,
        field: &Field,
        is_new: bool,
        plain: Plain,
        value: &Value,
    ) -> Result<Option<Hint>, OutOfMemory> {
        let Some(items) = value.as_array() else {
            return Ok(None);
        };
        for (i, item) in items.iter().enumerate() {
            if let Some(hint) = self.plain(alloc, spot.item(field.0, i), is_new, plain, item)? {
                return Ok(Some(hint));
            }
        }
        Ok(None)
    }

    // What is wrong with the ids that a field holds, beside those of objects.
    fn held(
        &mut self,
        alloc: Global,
        spot: Spot,
        field: &Field,
        value: &Value,
    ) -> Result<Option<Hint>, OutOfMemory> {
        let is_new = field.1 == Presence::Fresh;
        match field.2 {
            Holds::One(plain) => self.plain(alloc, spot.at(field.0), is_new, plain, value),
            Holds::Each(plain) => self.each(alloc, spot, field, is_new, plain, value),
            Holds::Objects(_) | Holds::Nested(_) => Ok(None),
        }
    }

    // What is wrong with the ids of an object, beside those of the objects in it.
    fn object(
        &mut self,
        alloc: Global,
        spot: Spot,
        kind: Object,
        object: &Value,
    ) -> Result<Option<Hint>, OutOfMemory> {
        for field in kind.fields() {
            if let Some(value) = object.get(field.0.text()) {
                if let Some(hint) = self.held(alloc, spot, field, value)? {
                    return Ok(Some(hint));
                }
            }
        }
        Ok(None)
    }

    // What is wrong with the ids of the objects of an array.
    fn objects(
        &mut self,
        alloc: Global,
        spot: Spot,
        name: Name,
        kind: Object,
        value: &Value,
    ) -> Result<Option<Hint>, OutOfMemory> {
        let Some(items) = value.as_array() else {
            return Ok(None);
        };
        for (i, item) in items.iter().enumerate() {
            if let Some(hint) = self.object(alloc, spot.item(name, i), kind, item)? {
                return Ok(Some(hint));
            }
        }
        Ok(None)
    }

    // What is wrong with the ids of the objects of the array that stands in a field, where one does.
    fn array(
        &mut self,
        alloc: Global,
        spot: Spot,
        field: &Field,
        object: &Value,
    ) -> Result<Option<Hint>, OutOfMemory> {
        match (field.2, object.get(field.0.text())) {
            (Holds::Objects(kind), Some(value)) => self.objects(alloc, spot, field.0, kind, value),
            _ => Ok(None),
        }
    }

    // What is wrong with the ids of an object that stands in a field, and of those in its arrays.
    fn nested(
        &mut self,
        alloc: Global,
        spot: Spot,
        kind: Object,
        value: &Value,
    ) -> Result<Option<Hint>, OutOfMemory> {
        if let Some(hint) = self.object(alloc, spot, kind, value)? {
            return Ok(Some(hint));
        }
        for field in kind.fields() {
            if let Some(hint) = self.array(alloc, spot, field, value)? {
                return Ok(Some(hint));
            }
        }
        Ok(None)
    }

    // What is wrong with the ids of the objects that stand in a field, where some do.
    fn inner(
        &mut self,
        alloc: Global,
        spot: Spot,
        field: &Field,
        object: &Value,
    ) -> Result<Option<Hint>, OutOfMemory> {
        match (field.2, object.get(field.0.text())) {
            (Holds::Nested(kind), Some(value)) => {
                self.nested(alloc, spot.at(field.0), kind, value)
            }
            _ => self.array(alloc, spot, field, object),
        }
    }

    // What is wrong with the ids of an object and of those in it.
    fn whole(
        &mut self,
        alloc: Global,
        spot: Spot,
        kind: Object,
        value: &Value,
    ) -> Result<Option<Hint>, OutOfMemory> {
        if let Some(hint) = self.object(alloc, spot, kind, value)? {
            return Ok(Some(hint));
        }
        for field in kind.fields() {
            if let Some(hint) = self.inner(alloc, spot, field, value)? {
                return Ok(Some(hint));
            }
        }
        Ok(None)
    }

    // What is wrong with the ids of a start. Other events carry none.
    fn start(
        &mut self,
        alloc: Global,
        spot: Spot,
        event: &Value,
    ) -> Result<Option<Hint>, OutOfMemory> {
        match event
            .get("call")
            .and_then(Value::as_str)
            .and_then(Object::of_call)
        {
            Some(kind) => self.whole(alloc, spot, kind, event),
            None => Ok(None),
        }
    }

    // An id that stands in the event twice.
    fn own(
        &mut self,
        alloc: Global,
        spot: Spot,
        event: &Value,
    ) -> Result<Option<Hint>, OutOfMemory> {
        self.stage = Stage::Named;
        if let Some(hint) = self.start(alloc, spot, event)? {
            return Ok(Some(hint));
        }
        self.stage = Stage::New;
        self.start(alloc, spot, event)
    }

    // An id of the event that a database or an event before it carried.
    fn before(
        &mut self,
        alloc: Global,
        databases: &[Value],
        events: &[Value],
    ) -> Result<Option<Hint>, OutOfMemory> {
        self.stage = Stage::Before;
        for (i, database) in databases.iter().enumerate() {
            if let Some(hint) = self.whole(alloc, database_spot(i), Object::Database, database)? {
                return Ok(Some(hint));
            }
        }
        for (i, event) in events.iter().enumerate() {
            if let Some(hint) = self.start(alloc, event_spot_at(i), event)? {
                return Ok(Some(hint));
            }
        }
        Ok(None)
    }
}

/// An id that a start brings anew, and that a database or an event before carried, or that stands twice in it.
pub(crate) fn id_fault(
    alloc: Global,
    databases: &[Value],
    before: &[Value],
    spot: Spot,
    event: &Value,
) -> Result<Option<Hint>, OutOfMemory> {
    let mut look = Look {
        stage: Stage::Named,
        ids: BTreeMap::new(alloc),
    };
    match look.own(alloc, spot, event)? {
        Some(hint) => Ok(Some(hint)),
        None => look.before(alloc, databases, before),
    }
}
