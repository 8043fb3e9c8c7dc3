//! The lines of a report.
ghost use Rattle.std.specs.Prelude.{◌≡◌, ◌++◌, IfOk, OnOk, string_bytes};
ghost use Rattle.std.specs.List.{flat_map};
ghost use Rattle.slate_script_lines.specs.Lines.{rule_text, name_text, detail_text, refusal_text, reply_text, reply_part, entry_text, entries_text, left_line, place_text, cause_text};

use crate::store_lines::{push_answer, push_call};
use slate_ids::{ObjectPath, OutOfMemory, SlateDBError, UpdateRule};
use slate_script_events::{ClusterCause, Entry, Reply, ScriptPlace};
use std::alloc::{AllocError, Global};

fn push_rule(out: &mut String, rule: UpdateRule) -> Result<(), AllocError>
    ensures { OnOk result (string_bytes out.new ≡ string_bytes out.old ++ rule_text rule) }
{
    match rule {
        UpdateRule::U1 => out.push_str("U1"),
        UpdateRule::U2 => out.push_str("U2"),
        UpdateRule::U3 => out.push_str("U3"),
        UpdateRule::U5 => out.push_str("U5"),
        UpdateRule::U8 => out.push_str("U8"),
        UpdateRule::U9 => out.push_str("U9"),
    }
}

// The name of a refusal.
fn name_of(refusal: &SlateDBError) -> &'static str
    ensures { result.now ≡ name_text refusal.now }
{
    match refusal {
        SlateDBError::TransactionalObjectVersionExists { .. } => "TransactionalObjectVersionExists",
        SlateDBError::Fenced { .. } => "Fenced",
        SlateDBError::LatestTransactionalObjectVersionMissing =>
            "LatestTransactionalObjectVersionMissing",
        SlateDBError::ManifestMissing(_) => "ManifestMissing",
        SlateDBError::CheckpointMissing(_) => "CheckpointMissing",
        SlateDBError::InvalidClockTick { .. } => "InvalidClockTick",
        SlateDBError::UpdateRefused(_) => "UpdateRefused",
        SlateDBError::InvalidDBState(_) => "InvalidDBState",
        SlateDBError::InvalidDeletion(_) => "InvalidDeletion",
        SlateDBError::EmptyManifest => "EmptyManifest",
        SlateDBError::InvalidCompaction => "InvalidCompaction",
        SlateDBError::InvalidVersion { .. } => "InvalidVersion",
        SlateDBError::Corrupt(_) => "Corrupt",
        SlateDBError::Unencodable(_) => "Unencodable",
        SlateDBError::SegmentWithoutWriter(_) => "SegmentWithoutWriter",
        SlateDBError::InvalidSegmentPrefix { .. } => "InvalidSegmentPrefix",
        SlateDBError::SegmentExtractorMismatch { .. } => "SegmentExtractorMismatch",
        SlateDBError::SegmentPrefixNotRecognized { .. } => "SegmentPrefixNotRecognized",
        SlateDBError::WalStoreReconfigurationError => "WalStoreReconfigurationError",
        SlateDBError::StoreFault => "StoreFault",
        SlateDBError::Contended => "Contended",
        SlateDBError::Exhausted(_) => "Exhausted",
        SlateDBError::OutOfMemory => "OutOfMemory",
    }
}

// Adds what tells a refusal from others of its name.
fn push_detail(out: &mut String, refusal: &SlateDBError) -> Result<(), AllocError>
    ensures { OnOk result (string_bytes out.new ≡ string_bytes out.old ++ detail_text refusal.now) }
{
    match refusal {
        SlateDBError::TransactionalObjectVersionExists { number, .. } => write!(out, " {number}"),
        SlateDBError::Fenced { own, read } => write!(out, " {own} {read}"),
        SlateDBError::ManifestMissing(n) => write!(out, " {n}"),
        SlateDBError::CheckpointMissing(id) => write!(out, " {id}"),
        SlateDBError::InvalidClockTick {
            last_tick,
            next_tick,
        } => write!(out, " {last_tick} {next_tick}"),
        SlateDBError::UpdateRefused(rule) => {
            out.push_str(" ")?;
            push_rule(out, *rule)
        }
        SlateDBError::InvalidDeletion(n) => write!(out, " {n}"),
        SlateDBError::Exhausted(n) => write!(out, " {n}"),
        _ => Ok(()),
    }
}

fn push_refusal(out: &mut String, refusal: &SlateDBError) -> Result<(), AllocError>
    ensures { OnOk result (string_bytes out.new ≡ string_bytes out.old ++ refusal_text refusal.now) }
{
    let code = refusal.code();
    let name = name_of(refusal);
    write!(out, "{code} {name}")?;
    push_detail(out, refusal)
}

fn push_reply(out: &mut String, reply: &Reply) -> Result<(), AllocError>
    ensures { OnOk result (string_bytes out.new ≡ string_bytes out.old ++ reply_text reply.now) }
{
    match reply {
        Reply::Done => out.push_str("done"),
        Reply::Epoch(n) => write!(out, "epoch {n}"),
        Reply::Checkpoint(id, version) => write!(out, "checkpoint {id} {version}"),
        Reply::Pass {
            picked,
            deleted,
            failed,
        } => write!(out, "pass {picked} {deleted} {failed}"),
        Reply::Refused(refusal) => {
            out.push_str("refused ")?;
            push_refusal(out, refusal)
        }
    }
}

fn push_reply_part(out: &mut String, reply: &Option<Reply>) -> Result<(), AllocError>
    ensures { OnOk result (string_bytes out.new ≡ string_bytes out.old ++ reply_part reply.now) }
{
    match reply {
        None => Ok(()),
        Some(reply) => {
            out.push_str(" reply ")?;
            push_reply(out, reply)
        }
    }
}

/// Adds the line of the event at a place.
#[tactic(auto, unfolding(crate::specs::Lines::entry_text))]
pub fn push_entry(out: &mut String, place: u64, entry: &Entry) -> Result<(), AllocError>
    ensures { OnOk result (string_bytes out.new ≡ string_bytes out.old ++ entry_text place entry.now) }
{
    match entry {
        Entry::Opened { party } => writeln!(out, "{place} open {party}"),
        Entry::Started { party, reply } => {
            write!(out, "{place} start {party}")?;
            push_reply_part(out, reply)?;
            out.push_str("\n")
        }
        Entry::Called {
            party,
            call,
            answer,
            reply,
            ..
        } => {
            write!(out, "{place} call {party} ")?;
            push_call(out, call)?;
            out.push_str(" -> ")?;
            push_answer(out, answer)?;
            push_reply_part(out, reply)?;
            out.push_str("\n")
        }
        Entry::Stopped { party } => writeln!(out, "{place} stop {party}"),
        Entry::Idle { party } => writeln!(out, "{place} idle {party}"),
    }
}

/// The line of the event at a place, with its line feed.
pub fn entry_line(alloc: Global, place: u64, entry: &Entry) -> Result<String, OutOfMemory>
    ensures { IfOk result (λ line. string_bytes line ≡ entry_text place entry.now) }
{
    let mut line = String::new(alloc);
    push_entry(&mut line, place, entry)?;
    Ok(line)
}

/// Adds the lines of all events.
pub fn push_entries(out: &mut String, entries: &[Entry]) -> Result<(), AllocError>
    ensures { OnOk result (string_bytes out.new ≡ string_bytes out.old ++ entries_text 0 entries.now) }
{
    for (i, entry) in entries.iter().enumerate() {
        push_entry(out, i as u64, entry)?;
    }
    Ok(())
}

/// Adds a line for each object that is left.
pub fn push_left(out: &mut String, paths: &[ObjectPath]) -> Result<(), AllocError>
    ensures { OnOk result (string_bytes out.new ≡ string_bytes out.old ++ flat_map left_line paths.now) }
{
    for path in paths {
        writeln!(out, "left {path}")?;
    }
    Ok(())
}

/// Adds the place at which bytes are no script, as it stands in a report.
pub fn push_place(out: &mut String, place: ScriptPlace) -> Result<(), AllocError>
    ensures { OnOk result (string_bytes out.new ≡ string_bytes out.old ++ place_text place) }
{
    match place {
        ScriptPlace::Json => out.push_str("json"),
        ScriptPlace::Top => out.push_str("top"),
        ScriptPlace::Database(i) => write!(out, "database {i}"),
        ScriptPlace::Event(i) => write!(out, "event {i}"),
    }
}

/// Adds the cause why databases can't be the beginning of a run, as it stands in a report.
pub fn push_cause(out: &mut String, cause: ClusterCause) -> Result<(), AllocError>
    ensures { OnOk result (string_bytes out.new ≡ string_bytes out.old ++ cause_text cause) }
{
    match cause {
        ClusterCause::Path => out.push_str("path"),
        ClusterCause::Ids => out.push_str("ids"),
        ClusterCause::Value => out.push_str("value"),
        ClusterCause::Segments => out.push_str("segments"),
        ClusterCause::Epoch => out.push_str("epoch"),
        ClusterCause::Outputs => out.push_str("outputs"),
        ClusterCause::Checkpoints => out.push_str("checkpoints"),
        ClusterCause::Tables => out.push_str("tables"),
        ClusterCause::Floor => out.push_str("floor"),
    }
}
