//! Parties of a cluster.

use crate::uploads::Uploads;
use crate::work::Work;
use slate_ids::DbPath;
use slate_script_events::{Call, PartyKind};
use slate_state_calls::Compactor;

/// What is known of a party between its calls. It changes at the end of phrases, and at the start of a call that makes no store call.
#[derive(Drop)]
pub struct Facts {
    /// Its number among the parties.
    pub number: u32,
    pub kind: PartyKind,
    pub db: DbPath,
    /// The epoch of its last open that succeeded, of a writer.
    pub epoch: Option<u64>,
    /// The tables that it put.
    pub uploads: Uploads,
    /// What it holds, of a compactor whose open succeeded.
    pub compactor: Option<Compactor>,
}

/// A call under way.
#[derive(Drop)]
pub struct Task {
    pub call: Call,
    /// What it is at.
    pub work: Work,
}

/// What a party does.
#[derive(Drop)]
pub enum State {
    /// It has no call.
    Resting,
    /// It has this call.
    Busy(Task),
    /// It was stopped, and does nothing any more.
    Halted,
}

/// A party.
#[derive(Drop)]
pub struct Party {
    pub facts: Facts,
    pub state: State,
}
