//! Runs: how they begin, how they go on, and what holds of each.
ghost use Rattle.std.specs.Prelude.{◌≡◌, ◌++◌, ℕ, List, Some, None, take};
ghost use Rattle.slate_script_events.specs.declared.db_spec.DbSpec.{DbSpec};
ghost use Rattle.slate_script_events.specs.declared.event.Event.{Event};
ghost use Rattle.slate_cluster_protocol.specs.Lawful.{IsAccepted, Lawful};
ghost use Rattle.slate_cluster_protocol.specs.Pasts.{Past, IsPast, course_of, no_past};
ghost use Rattle.slate_cluster_protocol.specs.Runs.{run};

use slate_state_record_updates::records_stand;

/// Whatever happens in a run of accepted databases and events, at each moment of it: the commits of each log are one chain, each
/// stands in the store above the boundary, no fenced writer or compactor committed, each step made the call that its row names, each
/// reply is the row's, and nothing that was deleted is reachable. Between two moments no boundary falls.
pub fn lawful()
    ensures { (specs : List DbSpec) (events : List Event) → IsAccepted specs → Lawful specs events }
{
    records_stand();
}

/// Accepted databases begin a run, with no events done.
pub fn begins()
    ensures { (specs : List DbSpec) → IsAccepted specs → IsPast (no_past specs) }
{}

/// Events of which none is bad go on with it: they are done after those before.
pub fn goes_on()
    ensures { (old new : Past) (events : List Event)
        → IsPast old → run events 0 (course_of old) ≡ record { course = course_of new; bad = None }
        → new.events ≡ old.events ++ events → IsPast new }
{}

/// So do the events before a bad one.
pub fn stops()
    ensures { (old new : Past) (events : List Event) (place : ℕ)
        → IsPast old → run events 0 (course_of old) ≡ record { course = course_of new; bad = Some place }
        → new.events ≡ old.events ++ take place events → IsPast new }
{}
