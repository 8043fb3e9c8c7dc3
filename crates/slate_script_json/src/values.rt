//! JSON values that stand for plain values.
ghost use Rattle.std.specs.Prelude.{◌≡◌, Option, IfOk};
ghost use Rattle.serde_json.specs.Data.{Data};
ghost use Rattle.serde_json.specs.Find.{as_str};
ghost use Rattle.serde_json.specs.View.{view, items_view};
ghost use Rattle.slate_script_json.specs.WrittenIds.{id_in};
ghost use Rattle.slate_script_json.specs.Fields.{Gives, u64_in, u32_in, i64_in, bool_in, db_path_in, checkpoint_id_in, items_in, list_in};

use crate::json_error::JsonError;
use crate::written_id::written_id;
use bytes::Bytes;
use serde_json::Value;
use slate_ids::{CheckpointId, DbPath, Listed, OutOfMemory, Text, Ulid};
use std::alloc::Global;

/// What a JSON value may stand for.
pub trait FromJson: Drop {
    /// What it stands for, where it does.
    ghost reads: { Data → Option Self };

    /// Reads it.
    fn from_json(alloc: Global, value: &Value) -> Result<Self, JsonError>
    where
        Self: Sized,
        ensures { Gives result (reads (view value.now)) };
}

/// What was found, or that the value stands for nothing.
pub fn or_malformed<X: Drop>(found: Option<X>) -> Result<X, JsonError>
    ensures { Gives result found }
{
    match found {
        Some(x) => Ok(x),
        None => Err(JsonError::Malformed),
    }
}

// The bytes of a text.
fn copied(alloc: Global, text: &str) -> Result<Bytes, OutOfMemory>
    ensures { IfOk result (λ bytes. bytes ≡ text.now) }
{
    Ok(Bytes::copy_from_slice(alloc, text.as_bytes())?)
}

impl FromJson for u64 {
    ghost reads = { u64_in };

    fn from_json(_alloc: Global, value: &Value) -> Result<u64, JsonError> {
        match value.as_u64() {
            Some(n) => Ok(n),
            None => Err(JsonError::Malformed),
        }
    }
}

impl FromJson for u32 {
    ghost reads = { u32_in };

    fn from_json(_alloc: Global, value: &Value) -> Result<u32, JsonError> {
        match value.as_u64() {
            Some(n) if n < 1 << 32 => Ok(n as u32),
            _ => Err(JsonError::Malformed),
        }
    }
}

impl FromJson for i64 {
    ghost reads = { i64_in };

    fn from_json(_alloc: Global, value: &Value) -> Result<i64, JsonError> {
        match value.as_i64() {
            Some(n) => Ok(n),
            None => Err(JsonError::Malformed),
        }
    }
}

impl FromJson for bool {
    ghost reads = { bool_in };

    fn from_json(_alloc: Global, value: &Value) -> Result<bool, JsonError> {
        match value.as_bool() {
            Some(b) => Ok(b),
            None => Err(JsonError::Malformed),
        }
    }
}

impl FromJson for DbPath {
    ghost reads = { db_path_in };

    fn from_json(_alloc: Global, value: &Value) -> Result<DbPath, JsonError> {
        match value.as_str() {
            Some(text) => or_malformed(DbPath::from_text(text)?),
            None => Err(JsonError::Malformed),
        }
    }
}

impl FromJson for Text {
    ghost reads = { as_str };

    fn from_json(alloc: Global, value: &Value) -> Result<Text, JsonError> {
        match value.as_str() {
            Some(text) => Ok(Text::copy_of(alloc, text)?),
            None => Err(JsonError::Malformed),
        }
    }
}

impl FromJson for Bytes {
    ghost reads = { as_str };

    fn from_json(alloc: Global, value: &Value) -> Result<Bytes, JsonError> {
        match value.as_str() {
            Some(text) => Ok(copied(alloc, text)?),
            None => Err(JsonError::Malformed),
        }
    }
}

impl FromJson for Ulid {
    ghost reads = { id_in };

    fn from_json(_alloc: Global, value: &Value) -> Result<Ulid, JsonError> {
        match value.as_str() {
            Some(text) => or_malformed(written_id(text.as_bytes())),
            None => Err(JsonError::Malformed),
        }
    }
}

impl FromJson for CheckpointId {
    ghost reads = { checkpoint_id_in };

    fn from_json(_alloc: Global, value: &Value) -> Result<CheckpointId, JsonError> {
        match value.as_u64() {
            Some(n) => Ok(CheckpointId::from_u64(n)),
            None => Err(JsonError::Malformed),
        }
    }
}

impl<T: FromJson> FromJson for Listed<T> {
    ghost reads = { list_in T.reads };

    fn from_json(alloc: Global, value: &Value) -> Result<Listed<T>, JsonError> {
        match value.as_array() {
            Some(values) => all(alloc, values),
            None => Err(JsonError::Malformed),
        }
    }
}

// Each of the values.
fn all<T: FromJson>(alloc: Global, values: &[Value]) -> Result<Listed<T>, JsonError>
    ensures { Gives result (items_in T.reads (items_view values.now)) }
{
    let mut items = Listed::new(alloc);
    for value in values {
        items.push(T::from_json(alloc, value)?)?;
    }
    Ok(items)
}
