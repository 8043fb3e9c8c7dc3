//! The line that says why the program didn't end with 0.

use crate::bad_events::bad_event_hint;
use crate::hint::Hint;
use crate::refused::cluster_hint;
use crate::scripts::{event_spot, script_hint};
use crate::spot::Spot;
use slate_cluster_reports::Status;
use slate_script_events::{ClusterCause, ScriptPlace};
use std::alloc::Global;
use std::fmt;

/// Why a program ended with this status, in words and in one line: what is wrong, at which place, and where to read more.
#[derive(Drop)]
pub struct Why {
    pub status: Status,
    /// What a second look found wrong with the input.
    pub hint: Option<Hint>,
    /// Where a bad event is written, where nothing was found.
    pub spot: Option<Spot>,
}

impl Why {
    /// Why a program ended with this status on an input, by a second look at it.
    pub fn of(alloc: Global, status: Status, bytes: &[u8]) -> Why {
        let hint = match status {
            Status::BadScript(place) => script_hint(alloc, bytes, place),
            Status::BadCluster(cause) => cluster_hint(alloc, bytes, cause),
            Status::BadEvent(place) => bad_event_hint(alloc, bytes, place),
            _ => None,
        };
        let spot = match status {
            Status::BadEvent(place) if hint.is_none() => event_spot(alloc, bytes, place),
            _ => None,
        };
        Why { status, hint, spot }
    }
}

// Where an input is no script.
#[derive(Drop)]
struct Place(ScriptPlace);

impl fmt::Display for Place {
    ghost use Rattle.std.specs.Prelude.{None};

    ghost output = { λ _. None };

    fn fmt<W: fmt::Write>(&self, f: &mut fmt::Formatter<W>) -> fmt::Result {
        match self.0 {
            ScriptPlace::Json => f.write_str("the input is no JSON"),
            ScriptPlace::Top => {
                f.write_str("the input is no object with just the arrays databases and events")
            }
            ScriptPlace::Database(place) => {
                write!(
                    f,
                    "item {place} of databases, counted from 0, is no database"
                )
            }
            ScriptPlace::Event(1_000_000) => {
                f.write_str(
                    "there are more than 1000000 events, or the one at place 1000000 is none",
                )
            }
            ScriptPlace::Event(place) => {
                write!(
                    f,
                    "the event at place {place}, counted from 0 with times written out, is none"
                )
            }
        }
    }
}

// Why no run begins with the databases.
fn cause(cause: ClusterCause) -> &'static str {
    match cause {
        ClusterCause::Path => "two databases have one path",
        ClusterCause::Ids => {
            "the id of a table, a checkpoint, a compaction or a tree's view comes twice, or the ids of a tree's runs don't fall"
        }
        ClusterCause::Value => {
            "the manifest or the record of a database has no bytes that are read back as it"
        }
        ClusterCause::Segments => "the prefix of a segment begins with another's",
        ClusterCause::Epoch => "the epoch of a record is above the compactor epoch of its manifest",
        ClusterCause::Outputs =>
            "an output of a compaction is older than the compaction, or is not there",
        ClusterCause::Checkpoints => "a checkpoint names another version than the first",
        ClusterCause::Tables => "a table of a tree is not there",
        ClusterCause::Floor =>
            "the floor of a database is below a table that was compacted or is to be",
    }
}

// Writes why an input is no script.
fn write_bad_script<W: fmt::Write>(
    f: &mut fmt::Formatter<W>,
    place: ScriptPlace,
    hint: &Option<Hint>,
) -> fmt::Result {
    match hint {
        Some(hint) => write!(f, "slate: no script: {hint}")?,
        None => {
            let place = Place(place);
            write!(f, "slate: no script: {place}")?;
        }
    }
    f.write_str("; slate run --help and docs/FORMAT.md say what one has")
}

// Writes why databases begin no run.
fn write_bad_cluster<W: fmt::Write>(
    f: &mut fmt::Formatter<W>,
    refused: ClusterCause,
    hint: &Option<Hint>,
) -> fmt::Result {
    match hint {
        Some(hint) => write!(f, "slate: databases refused: {hint}")?,
        None => {
            let refused = cause(refused);
            write!(f, "slate: databases refused: {refused}")?;
        }
    }
    f.write_str("; see docs/FORMAT.md, \"Report\"")
}

// Writes that an event is bad, and where it is written.
fn write_bad_place<W: fmt::Write>(f: &mut fmt::Formatter<W>, spot: Option<Spot>) -> fmt::Result {
    if let Some(spot) = spot {
        write!(f, ", written as {spot},")?;
    }
    f.write_str(" is bad, and")
}

// Writes which event is bad, and why.
fn write_bad_event<W: fmt::Write>(f: &mut fmt::Formatter<W>, place: u64, why: &Why) -> fmt::Result {
    write!(f, "slate: the event at place {place}")?;
    match &why.hint {
        Some(hint) => write!(f, " is bad: {hint};")?,
        None => write_bad_place(f, why.spot)?,
    }
    f.write_str(" those before it were done; see docs/FORMAT.md, \"Script\"")
}

impl fmt::Display for Why {
    ghost use Rattle.std.specs.Prelude.{None};

    ghost output = { λ _. None };

    fn fmt<W: fmt::Write>(&self, f: &mut fmt::Formatter<W>) -> fmt::Result {
        match self.status {
            Status::Ok => f.write_str("slate: done"),
            Status::BadWords => f.write_str("slate: no such command; slate --help lists them"),
            Status::ReadFault => f.write_str(
                "slate: a read of standard input failed; nothing was done",
            ),
            Status::WriteFault => {
                f.write_str(
                    "slate: a write to standard output failed; the report there is not whole",
                )
            }
            Status::TooLong => {
                f.write_str(
                    "slate: the input has more than 64 MiB; slate run --help says what a script has",
                )
            }
            Status::BadScript(place) => write_bad_script(f, place, &self.hint),
            Status::BadCluster(refused) => write_bad_cluster(f, refused, &self.hint),
            Status::BadEvent(place) => write_bad_event(f, place, self),
            Status::OutOfMemory => f.write_str("slate: memory ran out; nothing was written"),
        }
    }
}
