//! Plain values of a script: what has to stand in a field, and whether it does.

use crate::fields::Object;
use serde_json::Value;
use slate_ids::{CheckpointId, DbPath, GcMessage, OutOfMemory, Text, Ulid};
use slate_model::CompactionStatus;
use slate_script_events::{FilterWord, PartyKind};
use slate_script_json::{FromJson, JsonError};
use slate_store::Mark;
use std::alloc::Global;

/// What has to stand in a field.
#[derive(Clone, Copy, Debug, Drop)]
pub(crate) enum Plain {
    List,
    Whole64,
    Whole32,
    Moment,
    Times,
    Flag,
    Text,
    Path,
    Id,
    Checkpoint,
    Kind,
    Status,
    Drain,
    Mark,
    Pass,
    Filter,
    CallName,
}

// Whether a value was read.
fn was_read<T: Drop>(read: Result<T, JsonError>) -> Result<bool, OutOfMemory> {
    match read {
        Ok(value) => {
            drop(value);
            Ok(true)
        }
        Err(JsonError::Malformed) => Ok(false),
        Err(JsonError::OutOfMemory) => Err(OutOfMemory),
    }
}

// Whether it says how often a step is taken.
fn is_times(value: &Value) -> bool {
    match value.as_u64() {
        Some(times) => 1 <= times && times <= 1000,
        None => false,
    }
}

// Whether it is the name of a call.
fn is_call(value: &Value) -> bool {
    value.as_str().and_then(Object::of_call).is_some()
}

impl Plain {
    /// Whether a value is one of these.
    pub(crate) fn fits(self, alloc: Global, value: &Value) -> Result<bool, OutOfMemory> {
        match self {
            Plain::List => Ok(value.as_array().is_some()),
            Plain::Whole64 => was_read(u64::from_json(alloc, value)),
            Plain::Whole32 => was_read(u32::from_json(alloc, value)),
            Plain::Moment => was_read(i64::from_json(alloc, value)),
            Plain::Times => Ok(is_times(value)),
            Plain::Flag => was_read(bool::from_json(alloc, value)),
            Plain::Text => was_read(Text::from_json(alloc, value)),
            Plain::Path => was_read(DbPath::from_json(alloc, value)),
            Plain::Id => was_read(Ulid::from_json(alloc, value)),
            Plain::Checkpoint => was_read(CheckpointId::from_json(alloc, value)),
            Plain::Kind => was_read(PartyKind::from_json(alloc, value)),
            Plain::Status => was_read(CompactionStatus::from_json(alloc, value)),
            Plain::Drain => Ok(value.as_bool() == Some(true)),
            Plain::Mark => was_read(Mark::from_json(alloc, value)),
            Plain::Pass => was_read(GcMessage::from_json(alloc, value)),
            Plain::Filter => was_read(FilterWord::from_json(alloc, value)),
            Plain::CallName => Ok(is_call(value)),
        }
    }

    /// What is right, in words.
    pub(crate) fn words(self) -> &'static str {
        match self {
            Plain::List => "an array",
            Plain::Whole64 | Plain::Checkpoint => "a whole number from 0 to 2^64 - 1",
            Plain::Whole32 => "a whole number from 0 to 2^32 - 1",
            Plain::Moment => "a whole number from -2^63 to 2^63 - 1",
            Plain::Times => "a whole number from 1 to 1000",
            Plain::Flag => "true or false",
            Plain::Text => "a text",
            Plain::Path => "a text of 1 to 64 characters of a to z, 0 to 9, _ and -",
            Plain::Id =>
                "a text \"ms:tail\" of two whole numbers, the first below 2^48, the second below 2^80",
            Plain::Kind => "\"writer\", \"compactor\", \"worker\", \"holder\" or \"collector\"",
            Plain::Status =>
                "\"submitted\", \"scheduled\", \"running\", \"compacted\", \"completed\" or \"failed\"",
            Plain::Drain => "true",
            Plain::Mark => "\"fail\" or \"lost\"",
            Plain::Pass => "\"manifest\", \"compactions\" or \"compacted\"",
            Plain::Filter => "\"all\", \"none\" or an array of texts",
            Plain::CallName => "the name of a call, which slate run --help lists",
        }
    }
}
