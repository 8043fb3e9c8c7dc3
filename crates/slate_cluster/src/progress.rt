//! What a cluster did so far, event by event.
ghost use Rattle.std.specs.Prelude.{◌≡◌, ◌++◌, ◌∷◌, [], ◌<◌, IfOk, OnOk, true, vec_len, vec_capacity, map};
ghost use Rattle.std.specs.List.{list_all};
ghost use Rattle.slate_cluster_protocol.specs.Specs.{is_named_spec};
ghost use Rattle.slate_cluster.specs.NewClusters.{Opens};
ghost use Rattle.slate_cluster.specs.Ran.{Extends, HasDone, HasRun, events_done};

use crate::cluster::{ClusterError, Report};
use crate::events_done::EventsDone;
use slate_cluster_opening::{NewError, opened};
use slate_cluster_parties::ClusterState;
use slate_ids::OutOfMemory;
use slate_script_events::{DbSpec, Entry, Event};
use std::alloc::Global;
use std::marker::Model;

/// The databases as they were given, the events done, what happened so far, and the state after it.
#[derive(Drop)]
pub(crate) struct Progress {
    pub specs: Vec<DbSpec>,
    pub done: EventsDone,
    pub trail: Vec<Entry>,
    pub state: ClusterState,
}

impl Model for Progress {
    ghost use Rattle.slate_cluster_protocol.specs.Pasts.{Past};

    ghost Value = { Past };

    ghost view = { λ a. record { specs = a.specs.items; events = a.done.events; trail = a.trail.items; world = a.state } };
}

// Adds an entry for which there is room.
fn keep(trail: &mut Vec<Entry>, entry: Entry)
    requires { vec_len trail.old < vec_capacity trail.old }
    ensures { trail.new.items ≡ trail.old.items ++ entry ∷ [] }
{
    if let Err(e) = trail.push(entry) {
        drop(e);
    }
}

// Adds a copy of an entry.
fn push_copy(alloc: Global, copied: &mut Vec<Entry>, entry: &Entry) -> Result<(), OutOfMemory>
    ensures { IfOk result (λ o. copied.new.items ≡ copied.old.items ++ entry.now ∷ []) }
{
    copied.reserve(1)?;
    keep(copied, entry.copy(alloc)?);
    Ok(())
}

// Equal entries.
fn copy_entries(alloc: Global, entries: &[Entry]) -> Result<Vec<Entry>, OutOfMemory>
    ensures { IfOk result (λ copied. copied.items ≡ entries.now) }
{
    let mut copied = Vec::new(alloc);
    for entry in entries {
        if let Err(e) = push_copy(alloc, &mut copied, entry) {
            drop(copied);
            return Err(e);
        }
    }
    Ok(copied)
}

impl Progress {
    /// As a run of these databases begins, with no party, or the first cause that refuses them.
    pub fn new(alloc: Global, specs: Vec<DbSpec>) -> Result<Progress, NewError>
        ensures opens { Opens specs.items result }
        ensures named { IfOk result (λ progress. list_all is_named_spec specs.items ≡ true) }
    {
        match opened(alloc, specs.as_slice()) {
            Ok(opening) => Ok(Progress {
                specs,
                done: EventsDone::new(),
                trail: Vec::new(alloc),
                state: ClusterState::of(alloc, opening),
            }),
            Err(e) => {
                drop(specs);
                Err(e)
            }
        }
    }

    /// Does the events in order, up to the first bad one, and copies no entry.
    pub fn do_events(&mut self, alloc: Global, events: &[Event]) -> Result<(), ClusterError>
        ensures done { HasDone self.old events.now result self.new }
        ensures events { self.new.events ≡ self.old.events ++ events_done events.now result }
        ensures grown { OnOk result (Extends self.old.trail self.new.trail) }
    {
        for (i, event) in events.iter().enumerate() {
            let place = i as u64;
            if self.trail.reserve(1).is_err() {
                return Err(ClusterError::OutOfMemory { place });
            }
            match self.state.event(alloc, event) {
                Err(_) => return Err(ClusterError::OutOfMemory { place }),
                Ok(None) => return Err(ClusterError::BadEvent { place }),
                Ok(Some(entry)) => {
                    keep(&mut self.trail, entry);
                    self.done.note(event);
                }
            }
        }
        Ok(())
    }

    /// Does the events in order, up to the first bad one.
    pub fn run(&mut self, alloc: Global, events: &[Event]) -> Result<Report, ClusterError>
        ensures run { HasRun self.old events.now result self.new }
        ensures events { self.new.events ≡ self.old.events ++ events_done events.now result }
    {
        let before = self.trail.len();
        self.do_events(alloc, events)?;
        match copy_entries(alloc, &self.trail[before..]) {
            Ok(entries) => Ok(Report { entries }),
            Err(_) => Err(ClusterError::OutOfMemory {
                place: events.len() as u64,
            }),
        }
    }
}
