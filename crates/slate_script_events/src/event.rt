//! Events of a run.
ghost use Rattle.std.specs.Prelude.{◌≡◌, IfOk};
ghost use Rattle.slate_script_events.specs.declared.event.Event.TheVariants as events;

use crate::boxed::Boxed;
use crate::call::Call;
use crate::party_kind::PartyKind;
use slate_ids::{DbPath, Millis, OutOfMemory};
use slate_store::Mark;
use std::alloc::Global;

/// What happens next. What is large stands on the heap, so that a step is small.
#[derive(Debug, Drop)]
pub enum Event {
    /// A party comes.
    Open {
        party: u32,
        kind: PartyKind,
        db: Boxed<DbPath>,
    },
    /// A party starts a call. No store call is made yet.
    Start {
        party: u32,
        call: Boxed<Call>,
    },
    /// A party makes the one store call that is due, at a moment and under a mark.
    Step {
        party: u32,
        moment: Millis,
        mark: Mark,
    },
    /// A party stops for good: its call, where it has one, is left as it is, and it makes no store call any more.
    Stop {
        party: u32,
    },
}

impl Event {
    /// A party comes, of this kind, to this database.
    pub fn open(
        alloc: Global,
        party: u32,
        kind: PartyKind,
        db: DbPath,
    ) -> Result<Event, OutOfMemory>
        ensures { IfOk result (λ event. event ≡ events.Open party kind db) }
    {
        let db = Boxed::new(alloc, db)?;
        Ok(Event::Open { party, kind, db })
    }

    /// A party starts this call.
    pub fn start(alloc: Global, party: u32, call: Call) -> Result<Event, OutOfMemory>
        ensures { IfOk result (λ event. event ≡ events.Start party call) }
    {
        let call = Boxed::new(alloc, call)?;
        Ok(Event::Start { party, call })
    }

    /// An equal event.
    pub fn copy(&self, alloc: Global) -> Result<Event, OutOfMemory>
        ensures { IfOk result (λ copied. copied ≡ self.now) }
    {
        Ok(match self {
            Event::Open { party, kind, db } => Event::open(alloc, *party, *kind, *db.get())?,
            Event::Start { party, call } => {
                Event::start(alloc, *party, call.get().copy(alloc)?)?
            }
            Event::Step {
                party,
                moment,
                mark,
            } => Event::Step {
                party: *party,
                moment: *moment,
                mark: *mark,
            },
            Event::Stop { party } => Event::Stop { party: *party },
        })
    }
}
