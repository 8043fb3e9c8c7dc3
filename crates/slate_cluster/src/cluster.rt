//! The cluster: parties over one store, with the trail of what happened.
ghost use Rattle.std.specs.Prelude.{◌≡◌, ◌++◌, IfOk, length};
ghost use Rattle.slate_cluster_protocol.specs.Lawful.{Lawful};
ghost use Rattle.slate_cluster_protocol.specs.Pasts.{IsPast};
ghost use Rattle.slate_cluster.specs.NewClusters.{Opens};
ghost use Rattle.slate_cluster.specs.Ran.{HasRun, events_done};

use crate::progress::Progress;
use slate_cluster_every_run::{begins, goes_on, lawful, stops};
use slate_cluster_opening::NewError;
use slate_script_events::{DbSpec, Entry, Event};
use slate_store::MemoryStore;
use std::alloc::Global;
use std::marker::Model;

/// Parties at one store. Contracts see the databases as they were given, the events done, what happened so far, and the state after
/// it. Each cluster came about by just these events from the state in which its databases began; it keeps no event.
#[derive(Drop)]
pub struct Cluster {
    progress: Progress,
}

impl Model for Cluster {
    ghost use Rattle.slate_cluster_protocol.specs.Pasts.{Past, IsPast};

    ghost Value = { Past };

    ghost view = { λ a. a.progress };

    ghost invariant = { λ a. IsPast a.progress };
}

/// How a run ended early. Places count the events of this run from 0.
#[derive(Clone, Copy, Debug, PartialEq, Eq)]
pub enum ClusterError {
    /// The event at this place is the first bad one. The events before it stand, and the others did nothing.
    BadEvent { place: u64 },
    /// Memory ran out at this place. The events before it stand, and the others did nothing.
    OutOfMemory { place: u64 },
}

/// What a run did: an entry for each of its events.
#[derive(Debug, Drop)]
pub struct Report {
    pub entries: Vec<Entry>,
}

impl Cluster {
    /// A cluster over these databases, with no party. Each has its first manifest, its first record, where it has one, and its tables,
    /// with tags by path. Refused are, in this order: two databases of one path (`Path`); an id of a table, of a checkpoint or of a
    /// compaction that comes twice, or a tree in which an id of a flushed view comes twice or the ids of the runs don't fall strictly
    /// (`Ids`); a manifest, a record or what is known of a table that has no bytes, or a manifest or a record that isn't what is read
    /// back of them (`Value`); a segment whose prefix begins with another's (`Segments`); a record whose epoch is above the compactor
    /// epoch of its manifest (`Epoch`); an output of a compaction that is older than the compaction, or isn't there in its own
    /// database (`Outputs`); a checkpoint that names another version than the first (`Checkpoints`); a table of a tree that isn't
    /// there, in the database of the first entry which lists it, or else in its own (`Tables`); a floor below the watermark (`Floor`).
    pub fn new(alloc: Global, specs: Vec<DbSpec>) -> Result<Cluster, NewError>
        // With no event done; or refused by the first cause.
        ensures opens { Opens specs.items result }
        // The databases are accepted.
        ensures past { IfOk result (λ cluster. IsPast cluster) }
    {
        begins();
        let progress = Progress::new(alloc, specs)?;
        Ok(Cluster { progress })
    }

    /// Does the events in order, up to the first bad one.
    pub fn run(&mut self, alloc: Global, events: &[Event]) -> Result<Report, ClusterError>
        // The entries are those of the pure run, and so is the state.
        ensures run { HasRun self.old events.now result self.new }
        // A whole run has one entry for each event.
        ensures entries { IfOk result (λ report. length report.entries.items ≡ length events.now) }
        // The events done are those before with these after them, where the run ended early those before its place.
        ensures events { self.new.events ≡ self.old.events ++ events_done events.now result }
        // The databases are accepted, and the events done, of which none is bad, led from them to the entries and the state.
        ensures past { IsPast self.new }
        // Of the events done the law of every run holds at each moment: one chain a log, fenced epochs, each step its row's, nothing
        // reachable deleted.
        ensures lawful { Lawful self.new.specs self.new.events }
        // It would hold of all these events, too, also of those at which the run didn't arrive.
        ensures lawful_of_all { Lawful self.old.specs (self.old.events ++ events.now) }
    {
        goes_on();
        stops();
        lawful();
        self.progress.run(alloc, events)
    }

    /// The entries of all events since the cluster was made.
    pub fn trail(&self) -> &[Entry]
        ensures { result.now ≡ self.now.trail }
    {
        self.progress.trail.as_slice()
    }

    /// The store as it stands.
    pub fn store(&self) -> &MemoryStore
        ensures { result.now.store ≡ self.now.world.store }
    {
        self.progress.state.store()
    }
}
