//! Parties: what is known of them, by the events done and their entries.
ghost use Rattle.std.specs.Prelude.{ℕ, List};
ghost use Rattle.slate_script_events.specs.declared.db_spec.DbSpec.{DbSpec};
ghost use Rattle.slate_script_events.specs.declared.event.Event.{Event};
ghost use Rattle.slate_cluster_protocol.specs.Known.{IsAsTold};
ghost use Rattle.slate_cluster_protocol.specs.Lawful.{IsAccepted, AreGood, course_after};
ghost use Rattle.slate_cluster_protocol.specs.World.{party_of};

/// What is known of the party of a number is what the events and their entries tell: its facts and its call are what they say of
/// it, one after the other; its epoch is that of the last reply `epoch` in its entries, and there is none where no entry has one; and a table is
/// among its uploads exactly where one of its entries puts that table with the reply `done`.
pub fn known_as_told()
    ensures { (specs : List DbSpec) (events : List Event) (n : ℕ) → IsAccepted specs → AreGood specs events
        → IsAsTold n events (course_after specs events).trail
        (party_of n (course_after specs events).world.parties) }
{}
