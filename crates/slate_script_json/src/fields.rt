//! Fields of JSON objects.
ghost use Rattle.std.specs.Prelude.{◌≡◌, Option, Some, None, map, option_map, bytes_eq, string_bytes};
ghost use Rattle.std.specs.List.{list_any, list_all};
ghost use Rattle.serde_json.specs.View.{view, items_view, members_view};
ghost use Rattle.slate_script_json.specs.Fields.{Gives, only_among, only as only_in, required as required_in, array_in, defaulted as defaulted_in, optional as optional_in};

use crate::json_error::JsonError;
use crate::values::FromJson;
use serde_json::{Map, Value};
use std::alloc::Global;

fn is_name_among(name: &str, names: &[&str]) -> bool
    ensures { result ≡ list_any (λ n. bytes_eq name.now n.now) names.now }
{
    names.iter().any(|n| name == *n)
}

fn are_among(members: &Map<String, Value>, names: &[&str]) -> bool
    ensures { result ≡ list_all (λ e. list_any (λ n. bytes_eq (string_bytes e.0) n.now) names.now)
        members.now.entries }
{
    members.iter().all(|e| is_name_among(e.0.as_str(), names))
}

fn has_only(members: &Map<String, Value>, names: &[&str]) -> bool
    ensures { result ≡ only_among (map (λ n. n.now) names.now) (members_view members.now.entries) }
{
    are_among(members, names)
}

/// Whether the value is an object with no field beside these.
pub fn only(value: &Value, names: &[&str]) -> Result<(), JsonError>
    ensures { Gives result (only_in (map (λ n. n.now) names.now) (view value.now)) }
{
    match value.as_object() {
        Some(members) if has_only(members, names) => Ok(()),
        _ => Err(JsonError::Malformed),
    }
}

/// A field that has to be there.
pub fn required<T: FromJson>(alloc: Global, object: &Value, name: &str) -> Result<T, JsonError>
    ensures { Gives result (required_in T.reads name.now (view object.now)) }
{
    match object.get(name) {
        Some(value) => T::from_json(alloc, value),
        None => Err(JsonError::Malformed),
    }
}

/// The items of an array that has to be there.
pub fn array_of<'a>(d: &'a Value, name: &str) -> Option<&'a Vec<Value>>
    ensures { option_map (λ v. items_view v.now.items) result
        ≡ array_in name.now (view d.now) }
{
    d.get(name)?.as_array()
}

/// A field that may be missing, which then means `default`.
pub fn defaulted<T: FromJson>(
    alloc: Global,
    object: &Value,
    name: &str,
    default: T,
) -> Result<T, JsonError>
    ensures { Gives result (defaulted_in default T.reads name.now (view object.now)) }
{
    match object.get(name) {
        Some(value) => T::from_json(alloc, value),
        None => Ok(default),
    }
}

/// A field that may be missing.
pub fn optional<T: FromJson>(
    alloc: Global,
    object: &Value,
    name: &str,
) -> Result<Option<T>, JsonError>
    ensures { Gives result (optional_in T.reads name.now (view object.now)) }
{
    match object.get(name) {
        Some(value) => Ok(Some(T::from_json(alloc, value)?)),
        None => Ok(None),
    }
}
