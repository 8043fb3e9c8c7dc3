//! What is wrong with an input, in words and in one line.

use crate::fields::{call_words, kind_words};
use crate::name::Name;
use crate::spot::Spot;
use slate_ids::{DbPath, Text};
use slate_script_events::PartyKind;
use std::fmt;

/// What two places of a script share.
#[derive(Debug, Drop)]
pub(crate) enum Shared {
    Path(DbPath),
    Checkpoint(u64),
    Id { ms: u64, tail: u128 },
    /// The prefix of two markers.
    Prefix,
}

/// What is wrong at a place.
#[derive(Debug, Drop)]
pub(crate) enum Fault {
    /// It is no object.
    NoObject,
    /// It has a field that isn't known, with its name where that is short and plain.
    Unknown(Option<Text>),
    /// It lacks a field.
    Lacks(Name),
    /// It has to have one of two fields, and not both.
    OneOf(Name, Name),
    /// It has to be something else.
    HasToBe(&'static str),
    /// It has none of the fields that say what an event is.
    NoEvent,
    /// With it there are more events than a script may have.
    TooMany,
    /// It is what stands at another place too.
    Same(Shared, Spot),
    /// The prefix begins with the one at another place.
    BeginsWith(Spot),
    /// The number has to be below the one at another place.
    NotBelow(Spot),
    /// The floor is below the watermark of the tables.
    FloorBelow(u64),
    /// The party was not opened before.
    NotOpened(u64),
    /// The party was opened before, at another place.
    OpenedBefore(u64, Spot),
    /// There is no database at this path.
    NoDatabase(DbPath),
    /// The kind of the party lacks the call.
    NoCall(PartyKind, Text),
    /// The id has to be new, and was carried before, at another place.
    CarriedBefore(Shared, Spot),
}

/// What is wrong with an input.
#[derive(Debug, Drop)]
pub enum Hint {
    /// It is no JSON from this line and column on, counted from 1, the columns in bytes.
    NoJson {
        line: usize,
        column: usize,
        ends: bool,
    },
    /// Something is wrong at a place.
    At(At),
}

/// A place, and what is wrong there.
#[derive(Debug, Drop)]
pub struct At {
    spot: Spot,
    fault: Fault,
}

impl Hint {
    /// This is wrong at a place.
    pub(crate) fn at(spot: Spot, fault: Fault) -> Hint {
        Hint::At(At { spot, fault })
    }
}

impl fmt::Display for Shared {
    ghost use Rattle.std.specs.Prelude.{None};

    ghost output = { λ _. None };

    fn fmt<W: fmt::Write>(&self, f: &mut fmt::Formatter<W>) -> fmt::Result {
        match self {
            Shared::Path(path) => write!(f, "{path}"),
            Shared::Checkpoint(id) => write!(f, "{id}"),
            Shared::Id { ms, tail } => write!(f, "{ms}:{tail}"),
            Shared::Prefix => Ok(()),
        }
    }
}

// Writes what two places share, where it is written out.
fn write_shared<W: fmt::Write>(f: &mut fmt::Formatter<W>, shared: &Shared) -> fmt::Result {
    match shared {
        Shared::Prefix => Ok(()),
        _ => write!(f, ": {shared}"),
    }
}

// Writes that two places have one value.
fn write_same<W: fmt::Write>(
    f: &mut fmt::Formatter<W>,
    shared: &Shared,
    other: &Spot,
) -> fmt::Result {
    write!(f, " is the same as {other}")?;
    write_shared(f, shared)
}

// Writes the field of a name that isn't known.
fn write_unknown<W: fmt::Write>(f: &mut fmt::Formatter<W>, name: &Option<Text>) -> fmt::Result {
    match name {
        None => f.write_str(" has a field that isn't known"),
        Some(name) => {
            let name = name.as_str();
            write!(f, " has a field \"{name}\", which isn't known")
        }
    }
}

// Writes the names of two fields, of which one has to be there.
fn write_one_of<W: fmt::Write>(f: &mut fmt::Formatter<W>, a: Name, b: Name) -> fmt::Result {
    let (a, b) = (a.text(), b.text());
    write!(
        f,
        " has to have one of the fields \"{a}\" and \"{b}\", and not both"
    )
}

// Writes the name of a field that isn't there.
fn write_lacks<W: fmt::Write>(f: &mut fmt::Formatter<W>, name: Name) -> fmt::Result {
    let name = name.text();
    write!(f, " lacks the field \"{name}\"")
}

// Writes that a party was opened before.
fn write_opened<W: fmt::Write>(f: &mut fmt::Formatter<W>, party: u64, other: &Spot) -> fmt::Result {
    write!(f, ": party {party} was opened before, at {other}")
}

// Writes that a kind of party lacks a call, and which ones it has.
fn write_no_call<W: fmt::Write>(
    f: &mut fmt::Formatter<W>,
    kind: PartyKind,
    call: &Text,
) -> fmt::Result {
    let (words, call, calls) = (kind_words(kind), call.as_str(), call_words(kind));
    write!(f, ": {words} has no call {call}; it has {calls}")
}

// Writes that an id was carried before.
fn write_carried<W: fmt::Write>(
    f: &mut fmt::Formatter<W>,
    id: &Shared,
    other: &Spot,
) -> fmt::Result {
    write!(f, ": the id {id} was carried before, at {other}")
}

impl fmt::Display for At {
    ghost use Rattle.std.specs.Prelude.{None};

    ghost output = { λ _. None };

    fn fmt<W: fmt::Write>(&self, f: &mut fmt::Formatter<W>) -> fmt::Result {
        let spot = self.spot;
        write!(f, "{spot}")?;
        match &self.fault {
            Fault::NoObject => f.write_str(" has to be an object"),
            Fault::Unknown(name) => write_unknown(f, name),
            Fault::Lacks(name) => write_lacks(f, *name),
            Fault::OneOf(a, b) => write_one_of(f, *a, *b),
            Fault::HasToBe(words) => write!(f, " has to be {words}"),
            Fault::NoEvent => f.write_str(" has none of the fields open, start, step and stop"),
            Fault::TooMany => f.write_str(" goes past 1000000 events, with times written out"),
            Fault::Same(shared, other) => write_same(f, shared, other),
            Fault::BeginsWith(other) => write!(f, " begins with {other}"),
            Fault::NotBelow(other) => write!(f, " has to be below {other}"),
            Fault::FloorBelow(mark) => write!(
                f,
                " has to be {mark} at least, which is the watermark"
            ),
            Fault::NotOpened(party) => write!(f, ": party {party} was not opened before"),
            Fault::OpenedBefore(party, other) => write_opened(f, *party, other),
            Fault::NoDatabase(path) => write!(f, ": there is no database \"{path}\""),
            Fault::NoCall(kind, call) => write_no_call(f, *kind, call),
            Fault::CarriedBefore(id, other) => write_carried(f, id, other),
        }
    }
}

impl fmt::Display for Hint {
    ghost use Rattle.std.specs.Prelude.{None};

    ghost output = { λ _. None };

    fn fmt<W: fmt::Write>(&self, f: &mut fmt::Formatter<W>) -> fmt::Result {
        match self {
            Hint::NoJson {
                line,
                column,
                ends: true,
            } => {
                write!(
                    f,
                    "the input is no JSON: it ends too early, after line {line} column {column}"
                )
            }
            Hint::NoJson { line, column, .. } => {
                write!(f, "the input is no JSON at line {line} column {column}")
            }
            Hint::At(at) => write!(f, "{at}"),
        }
    }
}
