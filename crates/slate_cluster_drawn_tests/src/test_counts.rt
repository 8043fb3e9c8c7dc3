//! What audited runs had in them.

use slate_ids::{GcMessage, SlateDBError};
use slate_script::{Call, Reply};
use std::process::Abort;

/// What audited runs had in them.
#[derive(Clone, Copy)]
pub(crate) struct Counts {
    /// Passes over manifests that ended after deletes.
    pub passes: u64,
    /// Passes over records that ended after deletes.
    pub record_passes: u64,
    /// Puts of numbers that were collected before, which the boundary answered.
    pub late_puts: u64,
    /// Puts of records whose numbers were collected before.
    pub late_records: u64,
    /// Flushes that were refused for a table from before the floor.
    pub late_tables: u64,
    /// Tables of the greatest versions.
    pub tables: u64,
    /// Opens of compactors that were done.
    pub opens: u64,
    /// Calls that were refused for an epoch above the party's own.
    pub fenced: u64,
    /// Calls that were refused for a number that another party had put.
    pub conflicts: u64,
    /// Calls that were done, of each kind.
    pub schedules: u64,
    pub claims: u64,
    pub reports: u64,
    pub finishes: u64,
    pub states: u64,
    pub flushes: u64,
    /// Opens of compactors that were done after another party's, where the record has a compaction.
    pub rivals: u64,
    /// Entries of records that resets dropped, and that statuses of compactors dropped.
    pub reset_drops: u64,
    pub trims: u64,
    /// Entries that are Compacted no more.
    pub ends: u64,
    /// Compactions that a compactor finished whose epoch was that of the greatest manifest.
    pub compacted: u64,
    /// Records that were put while a compaction was pending of such a compactor.
    pub pending: u64,
}

impl Counts {
    /// Nothing yet.
    pub(crate) fn new() -> Counts {
        Counts {
            passes: 0,
            record_passes: 0,
            late_puts: 0,
            late_records: 0,
            late_tables: 0,
            tables: 0,
            opens: 0,
            fenced: 0,
            conflicts: 0,
            schedules: 0,
            claims: 0,
            reports: 0,
            finishes: 0,
            states: 0,
            flushes: 0,
            rivals: 0,
            reset_drops: 0,
            trims: 0,
            ends: 0,
            compacted: 0,
            pending: 0,
        }
    }
}

/// There are so many of each of these.
pub(crate) fn check_least(rt: &impl Abort, found: &[(&str, u64, u64)]) {
    for (what, count, least) in found {
        assert!(rt; *count >= *least, "{what}: {count}");
    }
}

/// What a call is, as far as it is told apart here.
#[derive(Clone, Copy, PartialEq, Eq)]
pub(crate) enum Word {
    OpenCompactor,
    /// Writes of the manifest, of the record, and of both.
    Manifest,
    Record,
    State,
    Schedule,
    Finish,
    Claim,
    Report,
    Flush,
    /// A pass over records.
    RecordPass,
    Other,
}

/// What a call is.
pub(crate) fn word_of(call: &Call) -> Word {
    match call {
        Call::OpenCompactor => Word::OpenCompactor,
        Call::WriteManifest { .. } => Word::Manifest,
        Call::WriteRecord => Word::Record,
        Call::Schedule { .. } => Word::Schedule,
        Call::WriteState { .. } => Word::State,
        Call::Finish { .. } => Word::Finish,
        Call::Claim { .. } => Word::Claim,
        Call::Report { .. } => Word::Report,
        Call::Flush { .. } => Word::Flush,
        Call::Pass {
            pass: GcMessage::Compactions,
            ..
        } => Word::RecordPass,
        _ => Word::Other,
    }
}

/// One more.
pub(crate) fn one_more(count: &mut u64) {
    *count = count.saturating_add(1);
}

fn count_done(counts: &mut Counts, word: Word) {
    match word {
        Word::Schedule => one_more(&mut counts.schedules),
        Word::Claim => one_more(&mut counts.claims),
        Word::Report => one_more(&mut counts.reports),
        Word::Finish => one_more(&mut counts.finishes),
        Word::State => one_more(&mut counts.states),
        Word::Flush => one_more(&mut counts.flushes),
        _ => {}
    }
}

fn count_refused(counts: &mut Counts, refusal: &SlateDBError) {
    match refusal {
        SlateDBError::Fenced { .. } => one_more(&mut counts.fenced),
        SlateDBError::TransactionalObjectVersionExists { .. } => one_more(&mut counts.conflicts),
        SlateDBError::InvalidClockTick { .. } => one_more(&mut counts.late_tables),
        _ => {}
    }
}

// A pass that ended after deletes.
fn count_pass(counts: &mut Counts, word: Word) {
    match word {
        Word::RecordPass => one_more(&mut counts.record_passes),
        _ => one_more(&mut counts.passes),
    }
}

/// Counts the reply of a call.
pub(crate) fn counted(counts: &mut Counts, word: Word, reply: &Reply) {
    match reply {
        Reply::Done => count_done(counts, word),
        Reply::Refused(refusal) => count_refused(counts, refusal),
        Reply::Epoch(_) => {
            if word == Word::OpenCompactor {
                one_more(&mut counts.opens);
            }
        }
        Reply::Pass { deleted, .. } => {
            if *deleted > 0 {
                count_pass(counts, word);
            }
        }
        _ => {}
    }
}
