//! The events that a cluster has done. Contracts alone see them: they take no memory, and no event is copied.
ghost use Rattle.std.specs.Prelude.{◌≡◌, List, [], ◌∷◌, ◌++◌};
ghost use Rattle.std.specs.Borrow.{ftrue};
ghost use Rattle.slate_script_events.specs.declared.event.Event.{Event as Happening};

use slate_script_events::Event;
use std::marker::Model;
use std::mem;

/// The events done, in their order. A contract reads them as `events`.
#[derive(Drop)]
pub(crate) struct EventsDone {
    pub ghost events: { List Happening },
}

impl Model for EventsDone {
    ghost also_owns = { λ _. ftrue };
}

impl EventsDone {
    /// No events.
    pub(crate) fn new() -> EventsDone
        ensures { result.events ≡ [] }
    {
        EventsDone {}
    }

    /// These events, and one more.
    pub(crate) fn with(_before: &EventsDone, _event: &Event) -> EventsDone
        ensures { result.events ≡ _before.now.events ++ _event.now ∷ [] }
    {
        EventsDone {}
    }

    /// One more event was done.
    pub(crate) fn note(&mut self, event: &Event)
        ensures { self.new.events ≡ self.old.events ++ event.now ∷ [] }
    {
        let more = EventsDone::with(self, event);
        drop(mem::replace(self, more));
    }
}
