//! What compactors hold of the record, as their calls and replies tell it, beside the greatest record: an audit of these.

use crate::test_counts::{Counts, Word, one_more};
use slate_ids::Ulid;
use slate_model::{CompactionStatus, Compactions};
use slate_script::Call;
use std::process::Abort;

// How many compactions a record may have: their ids are of 10 milliseconds, and their tails from 1 up.
const PLACES: usize = 6;

// The place of a compaction, by its id.
fn place_of(id: Ulid) -> Option<usize> {
    let mut found = None;
    for place in 0..PLACES {
        if id.tail() == place as u128 + 1 {
            found = Some(place);
        }
    }
    found
}

/// The statuses of a record's compactions by their places; none where it lacks one.
#[derive(Clone, Copy)]
pub(crate) struct Statuses {
    of: [Option<CompactionStatus>; PLACES],
}

impl Statuses {
    /// Those of a record without compactions.
    pub(crate) fn new() -> Statuses {
        Statuses { of: [None; PLACES] }
    }

    fn at(&self, place: usize) -> Option<CompactionStatus> {
        match self.of.as_slice().get(place) {
            Some(status) => *status,
            None => None,
        }
    }

    // A compaction has this status. Whether it has a place.
    fn set(&mut self, place: usize, status: CompactionStatus) -> bool {
        match self.of.as_mut_slice().get_mut(place) {
            Some(at) => {
                *at = Some(status);
                true
            }
            None => false,
        }
    }

    /// Whether there is a compaction.
    pub(crate) fn has_some(&self) -> bool {
        let mut some = false;
        for place in 0..PLACES {
            some = some || self.at(place).is_some();
        }
        some
    }
}

// Takes a compaction of a record.
fn take(rt: &impl Abort, statuses: &mut Statuses, id: Ulid, status: CompactionStatus) {
    let place = place_of(id).expect(rt, "a place");
    assert!(rt; statuses.set(place, status), "no place for a compaction");
}

/// The statuses of a record's compactions.
pub(crate) fn statuses_of(rt: &impl Abort, record: &Compactions) -> Statuses {
    let mut statuses = Statuses::new();
    for compaction in record.iter() {
        take(rt, &mut statuses, compaction.id, compaction.status);
    }
    statuses
}

fn is_compacted(status: Option<CompactionStatus>) -> bool {
    matches!(status, Some(CompactionStatus::Compacted))
}

fn is_over(status: Option<CompactionStatus>) -> bool {
    match status {
        Some(status) => status.is_terminal(),
        None => false,
    }
}

/// The record before a put and the one that is put, and the call by which it is.
#[derive(Clone, Copy)]
pub(crate) struct Growth {
    pub old: Statuses,
    pub new: Statuses,
    pub word: Word,
    /// Whether the one that is put has a greater epoch.
    pub raises: bool,
}

// Whether a put is an open's last one, by which what was scheduled is put back.
fn is_reset(growth: &Growth) -> bool {
    growth.word == Word::OpenCompactor && !growth.raises
}

// Whether a put writes a compactor's own statuses.
fn is_of_statuses(growth: &Growth) -> bool {
    growth.word == Word::Record || growth.word == Word::State
}

// An entry goes: by a reset where it was over, or by statuses.
fn check_gone(
    rt: &impl Abort,
    counts: &mut Counts,
    growth: &Growth,
    old: Option<CompactionStatus>,
) {
    if is_reset(growth) {
        assert!(rt; is_over(old), "a reset drops what isn't over");
        one_more(&mut counts.reset_drops);
    } else {
        assert!(rt; is_of_statuses(growth), "an entry went");
        one_more(&mut counts.trims);
    }
}

// What becomes of the entry of a place.
fn check_place(rt: &impl Abort, counts: &mut Counts, growth: &Growth, place: usize) {
    let old = growth.old.at(place);
    let new = growth.new.at(place);
    if old.is_some() && new.is_none() {
        check_gone(rt, counts, growth, old);
    }
    if is_compacted(old) && !is_compacted(new) {
        assert!(rt; is_of_statuses(growth), "an entry is Compacted no more");
        one_more(&mut counts.ends);
    }
}

/// Of a record that is put on the last one, an entry of this goes or is Compacted no more only by an open's reset, which drops what is
/// over, or by a compactor's statuses.
pub(crate) fn check_growth(rt: &impl Abort, counts: &mut Counts, growth: &Growth) {
    for place in 0..PLACES {
        check_place(rt, counts, growth, place);
    }
}

/// What replies tell of the compactor of the greatest epoch.
#[derive(Clone, Copy)]
pub(crate) struct Held {
    // Its party, and its epoch.
    leader: Option<u32>,
    epoch: u64,
    // Which compactions it has finished, and no manifest has yet, by their places.
    pending: [bool; PLACES],
    // The place of the compaction that the last start was to finish.
    asked: Option<usize>,
}

impl Held {
    /// No open was done yet.
    pub(crate) fn new() -> Held {
        Held {
            leader: None,
            epoch: 0,
            pending: [false; PLACES],
            asked: None,
        }
    }

    fn is_pending(&self, place: usize) -> bool {
        match self.pending.as_slice().get(place) {
            Some(pending) => *pending,
            None => false,
        }
    }

    /// Whether its epoch is this one, of the greatest manifest.
    pub(crate) fn leads(&self, compactor_epoch: u64) -> bool {
        self.leader.is_some() && self.epoch == compactor_epoch
    }

    /// Whether it is this party.
    pub(crate) fn is_led_by(&self, party: u32) -> bool {
        self.leader == Some(party)
    }

    /// A call is started.
    pub(crate) fn starts(&mut self, call: &Call) {
        self.asked = match call {
            Call::Finish { id } => place_of(*id),
            _ => None,
        };
    }

    /// An open is done. It begins with nothing pending.
    pub(crate) fn opens(&mut self, party: u32, epoch: u64) {
        if epoch > self.epoch {
            self.leader = Some(party);
            self.epoch = epoch;
            self.pending = [false; PLACES];
        }
    }

    /// A manifest has what this party finished.
    pub(crate) fn writes(&mut self, party: u32) {
        if self.is_led_by(party) {
            self.pending = [false; PLACES];
        }
    }

    // One more is pending.
    fn finishes(&mut self, place: usize) {
        if let Some(at) = self.pending.as_mut_slice().get_mut(place) {
            *at = true;
        }
    }
}

/// The compactor of the greatest epoch, which is that of the greatest manifest, has finished what it was to: it was Compacted in the greatest
/// record, which has it.
pub(crate) fn check_finished(
    rt: &impl Abort,
    counts: &mut Counts,
    held: &mut Held,
    statuses: &Statuses,
) {
    let place = held.asked.expect(rt, "what is finished");
    assert!(rt;
        is_compacted(statuses.at(place)),
        "it isn't Compacted in the record"
    );
    one_more(&mut counts.compacted);
    held.finishes(place);
}

/// What is pending has an entry in the greatest record, which was put just now.
pub(crate) fn check_pending(
    rt: &impl Abort,
    counts: &mut Counts,
    held: &Held,
    statuses: &Statuses,
) {
    let mut some = false;
    for place in 0..PLACES {
        if held.is_pending(place) {
            some = true;
            assert!(rt;
                statuses.at(place).is_some(),
                "what is pending has no entry"
            );
        }
    }
    if some {
        one_more(&mut counts.pending);
    }
}
