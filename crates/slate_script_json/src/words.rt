//! Words of a script.
ghost use Rattle.std.specs.Prelude.{◌≡◌};
ghost use Rattle.slate_script_json.specs.Words.{kind_word, mark_word, pass_word, filter_word, status_word};

use crate::json_error::JsonError;
use crate::values::{FromJson, or_malformed};
use serde_json::Value;
use slate_ids::GcMessage;
use slate_model::CompactionStatus;
use slate_script_events::{FilterWord, PartyKind};
use slate_store::Mark;
use std::alloc::Global;

#[tactic(auto, unfolding(crate::specs::Words::kind_word))]
fn kind_of(text: &str) -> Option<PartyKind>
    ensures { result ≡ kind_word text.now }
{
    match text {
        "writer" => Some(PartyKind::Writer),
        "compactor" => Some(PartyKind::Compactor),
        "worker" => Some(PartyKind::Worker),
        "holder" => Some(PartyKind::Holder),
        "collector" => Some(PartyKind::Collector),
        _ => None,
    }
}

impl FromJson for PartyKind {
    ghost use Rattle.slate_script_json.specs.Words.{kind_in};

    ghost reads = { kind_in };

    fn from_json(_alloc: Global, d: &Value) -> Result<PartyKind, JsonError> {
        match d.as_str() {
            Some(text) => or_malformed(kind_of(text)),
            None => Err(JsonError::Malformed),
        }
    }
}

#[tactic(auto, unfolding(crate::specs::Words::mark_word))]
fn mark_of(text: &str) -> Option<Mark>
    ensures { result ≡ mark_word text.now }
{
    match text {
        "fail" => Some(Mark::Fail),
        "lost" => Some(Mark::Lost),
        _ => None,
    }
}

impl FromJson for Mark {
    ghost use Rattle.slate_script_json.specs.Words.{mark_in};

    ghost reads = { mark_in };

    fn from_json(_alloc: Global, d: &Value) -> Result<Mark, JsonError> {
        match d.as_str() {
            Some(text) => or_malformed(mark_of(text)),
            None => Err(JsonError::Malformed),
        }
    }
}

#[tactic(auto, unfolding(crate::specs::Words::pass_word))]
fn pass_of(text: &str) -> Option<GcMessage>
    ensures { result ≡ pass_word text.now }
{
    match text {
        "manifest" => Some(GcMessage::Manifest),
        "compactions" => Some(GcMessage::Compactions),
        "compacted" => Some(GcMessage::Compacted),
        _ => None,
    }
}

impl FromJson for GcMessage {
    ghost use Rattle.slate_script_json.specs.Words.{pass_in};

    ghost reads = { pass_in };

    fn from_json(_alloc: Global, d: &Value) -> Result<GcMessage, JsonError> {
        match d.as_str() {
            Some(text) => or_malformed(pass_of(text)),
            None => Err(JsonError::Malformed),
        }
    }
}

#[tactic(auto, unfolding(crate::specs::Words::filter_word))]
fn filter_of(text: &str) -> Option<FilterWord>
    ensures { result ≡ filter_word text.now }
{
    match text {
        "all" => Some(FilterWord::All),
        "none" => Some(FilterWord::Nothing),
        _ => None,
    }
}

impl FromJson for FilterWord {
    ghost use Rattle.slate_script_json.specs.Words.{filter_in};

    ghost reads = { filter_in };

    fn from_json(alloc: Global, d: &Value) -> Result<FilterWord, JsonError> {
        match d.as_str() {
            Some(text) => or_malformed(filter_of(text)),
            None => Ok(FilterWord::Paths(FromJson::from_json(alloc, d)?)),
        }
    }
}

#[tactic(auto, unfolding(crate::specs::Words::status_word))]
fn status_of(text: &str) -> Option<CompactionStatus>
    ensures { result ≡ status_word text.now }
{
    match text {
        "submitted" => Some(CompactionStatus::Submitted),
        "scheduled" => Some(CompactionStatus::Scheduled),
        "running" => Some(CompactionStatus::Running),
        "compacted" => Some(CompactionStatus::Compacted),
        "completed" => Some(CompactionStatus::Completed),
        "failed" => Some(CompactionStatus::Failed),
        _ => None,
    }
}

impl FromJson for CompactionStatus {
    ghost use Rattle.slate_script_json.specs.Words.{status_in};

    ghost reads = { status_in };

    fn from_json(_alloc: Global, d: &Value) -> Result<CompactionStatus, JsonError> {
        match d.as_str() {
            Some(text) => or_malformed(status_of(text)),
            None => Err(JsonError::Malformed),
        }
    }
}
