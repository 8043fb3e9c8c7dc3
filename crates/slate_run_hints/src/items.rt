//! The first thing that is wrong with an object, by the table of its fields.

use crate::fields::{Field, Holds, Object, Presence};
use crate::hint::{Fault, Hint};
use crate::name::Name;
use crate::plain::Plain;
use crate::spot::Spot;
use serde_json::Value;
use slate_ids::{OutOfMemory, Text};
use std::alloc::Global;

/// The longest name of a field that is written out, in bytes.
const LONGEST_NAME: usize = 40;

// Whether a name can stand in a line: it is short, and its characters are printed as they are.
fn is_printable(name: &str) -> bool {
    name.len() <= LONGEST_NAME && name.as_bytes().iter().all(|c| *c >= b' ' && *c < 127)
}

// The name, where it can stand in a line.
fn printable(alloc: Global, name: &str) -> Result<Option<Text>, OutOfMemory> {
    if is_printable(name) {
        Ok(Some(Text::copy_of(alloc, name)?))
    } else {
        Ok(None)
    }
}

fn is_known(fields: &[Field], name: &str) -> bool {
    fields.iter().any(|field| name == field.0.text())
}

// A field that isn't known.
fn unknown_field(
    alloc: Global,
    spot: Spot,
    fields: &[Field],
    value: &Value,
) -> Result<Option<Hint>, OutOfMemory> {
    let Some(members) = value.as_object() else {
        return Ok(Some(Hint::at(spot, Fault::NoObject)));
    };
    for (name, _) in members {
        if !is_known(fields, name.as_str()) {
            let name = printable(alloc, name.as_str())?;
            return Ok(Some(Hint::at(spot, Fault::Unknown(name))));
        }
    }
    Ok(None)
}

// A field that has to be there and isn't.
fn lacking_field(spot: Spot, fields: &[Field], value: &Value) -> Option<Hint> {
    for field in fields {
        if field.1 != Presence::Optional && value.get(field.0.text()).is_none() {
            return Some(Hint::at(spot, Fault::Lacks(field.0)));
        }
    }
    None
}

// What is wrong where a plain value has to stand.
fn plain_fault(
    alloc: Global,
    spot: Spot,
    plain: Plain,
    value: &Value,
) -> Result<Option<Hint>, OutOfMemory> {
    if plain.fits(alloc, value)? {
        Ok(None)
    } else {
        Ok(Some(Hint::at(spot, Fault::HasToBe(plain.words()))))
    }
}

// What is wrong in an array of plain values.
fn each_fault(
    alloc: Global,
    spot: Spot,
    name: Name,
    plain: Plain,
    value: &Value,
) -> Result<Option<Hint>, OutOfMemory> {
    let Some(items) = value.as_array() else {
        return Ok(Some(Hint::at(spot.at(name), Fault::HasToBe("an array"))));
    };
    for (i, item) in items.iter().enumerate() {
        if let Some(hint) = plain_fault(alloc, spot.item(name, i), plain, item)? {
            return Ok(Some(hint));
        }
    }
    Ok(None)
}

// What is wrong with what a field holds, beside objects.
fn held_fault(
    alloc: Global,
    spot: Spot,
    field: &Field,
    value: &Value,
) -> Result<Option<Hint>, OutOfMemory> {
    match field.2 {
        Holds::One(plain) => plain_fault(alloc, spot.at(field.0), plain, value),
        Holds::Each(plain) => each_fault(alloc, spot, field.0, plain, value),
        Holds::Objects(_) => plain_fault(alloc, spot.at(field.0), Plain::List, value),
        Holds::Nested(_) => Ok(None),
    }
}

// What is wrong with what the fields hold, beside objects.
fn values_fault(
    alloc: Global,
    spot: Spot,
    fields: &[Field],
    object: &Value,
) -> Result<Option<Hint>, OutOfMemory> {
    for field in fields {
        if let Some(value) = object.get(field.0.text()) {
            if let Some(hint) = held_fault(alloc, spot, field, value)? {
                return Ok(Some(hint));
            }
        }
    }
    Ok(None)
}

/// What is wrong with an object, beside the objects in it.
pub(crate) fn object_fault(
    alloc: Global,
    spot: Spot,
    kind: Object,
    value: &Value,
) -> Result<Option<Hint>, OutOfMemory> {
    let fields = kind.fields();
    if let Some(hint) = unknown_field(alloc, spot, fields, value)? {
        return Ok(Some(hint));
    }
    if let Some(hint) = lacking_field(spot, fields, value) {
        return Ok(Some(hint));
    }
    values_fault(alloc, spot, fields, value)
}

// What is wrong with the objects of an array.
fn inner_fault(
    alloc: Global,
    spot: Spot,
    name: Name,
    kind: Object,
    value: &Value,
) -> Result<Option<Hint>, OutOfMemory> {
    let Some(items) = value.as_array() else {
        return Ok(None);
    };
    for (i, item) in items.iter().enumerate() {
        if let Some(hint) = object_fault(alloc, spot.item(name, i), kind, item)? {
            return Ok(Some(hint));
        }
    }
    Ok(None)
}

// What is wrong with the objects of the array that stands in a field, where one does.
fn array_fault(
    alloc: Global,
    spot: Spot,
    field: &Field,
    object: &Value,
) -> Result<Option<Hint>, OutOfMemory> {
    match (field.2, object.get(field.0.text())) {
        (Holds::Objects(kind), Some(value)) => inner_fault(alloc, spot, field.0, kind, value),
        _ => Ok(None),
    }
}

// What is wrong with an object that stands in a field, or with those in its arrays.
fn nested_fault(
    alloc: Global,
    spot: Spot,
    kind: Object,
    value: &Value,
) -> Result<Option<Hint>, OutOfMemory> {
    if let Some(hint) = object_fault(alloc, spot, kind, value)? {
        return Ok(Some(hint));
    }
    for field in kind.fields() {
        if let Some(hint) = array_fault(alloc, spot, field, value)? {
            return Ok(Some(hint));
        }
    }
    Ok(None)
}

// What is wrong with the objects that stand in a field, where some do.
fn objects_fault(
    alloc: Global,
    spot: Spot,
    field: &Field,
    object: &Value,
) -> Result<Option<Hint>, OutOfMemory> {
    match (field.2, object.get(field.0.text())) {
        (Holds::Nested(kind), Some(value)) => nested_fault(alloc, spot.at(field.0), kind, value),
        _ => array_fault(alloc, spot, field, object),
    }
}

/// What is wrong with an object or an object in it.
pub(crate) fn whole_fault(
    alloc: Global,
    spot: Spot,
    kind: Object,
    value: &Value,
) -> Result<Option<Hint>, OutOfMemory> {
    if let Some(hint) = object_fault(alloc, spot, kind, value)? {
        return Ok(Some(hint));
    }
    for field in kind.fields() {
        if let Some(hint) = objects_fault(alloc, spot, field, value)? {
            return Ok(Some(hint));
        }
    }
    Ok(None)
}
