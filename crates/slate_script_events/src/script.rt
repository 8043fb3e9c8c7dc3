//! Scripts, and why bytes are none.

use crate::db_spec::DbSpec;
use crate::event::Event;
use slate_ids::{Listed, OutOfMemory};

/// The databases and the events of a run.
#[derive(Debug, Drop)]
pub struct Script {
    pub databases: Listed<DbSpec>,
    pub events: Listed<Event>,
}

/// The first place at which bytes are no script.
#[derive(Clone, Copy, Debug, Drop, PartialEq, Eq)]
pub enum ScriptPlace {
    /// The bytes are no JSON.
    Json,
    /// The JSON is no object with exactly the two arrays `databases` and `events`.
    Top,
    /// The item of `databases` at this place, counted from 0, is no database.
    Database(u64),
    /// The event at this place is none. Places count from 0, after `times` is written out.
    Event(u64),
}

/// Why bytes were not read as a script.
#[derive(Clone, Copy, Debug, Drop, PartialEq, Eq)]
pub enum ScriptError {
    /// They are none, and this is the first place.
    BadScript(ScriptPlace),
    /// Memory ran out.
    OutOfMemory,
}

impl From<OutOfMemory> for ScriptError {
    ghost use Rattle.std.specs.Prelude.{◌≡◌};
    ghost use Rattle.slate_script_events.specs.declared.script.ScriptError.TheVariants.{OutOfMemory as NoMemory};

    ghost from_gives = { λ _ e. e ≡ NoMemory };

    fn from(_e: OutOfMemory) -> ScriptError {
        ScriptError::OutOfMemory
    }
}
