//! What the databases of a run and the events done say alone: which event is bad, and which ids were carried.
ghost use Rattle.std.specs.Prelude.{◌≡◌, ℕ, List};
ghost use Rattle.slate_ids.specs.Ulids.{id_cmp};
ghost use Rattle.slate_script_events.specs.declared.db_spec.DbSpec.{DbSpec};
ghost use Rattle.slate_script_events.specs.declared.event.Event.{Event};
ghost use Rattle.slate_cluster_protocol.specs.Done.{was_named, was_ulid_named, is_bad_after};
ghost use Rattle.slate_cluster_protocol.specs.Ids.{checkpoint_cmp, is_carried};
ghost use Rattle.slate_cluster_protocol.specs.Lawful.{IsAccepted, AreGood, world_at_end};
ghost use Rattle.slate_cluster_protocol.specs.World.{is_bad};

/// An event is bad where it opens a number that was opened before, or at no database, where it is of a party that never came, or
/// where it starts a call that the party's kind lacks, or whose fresh id was named before or comes again in the call.
pub fn bad_after()
    ensures { (specs : List DbSpec) (events : List Event) (event : Event)
        → IsAccepted specs → AreGood specs events
        → is_bad (world_at_end specs events) event ≡ is_bad_after specs events event }
{}

/// An id of a checkpoint was carried where an opening value or a start that was done names it, and nowhere else.
pub fn checkpoints_carried()
    ensures { (specs : List DbSpec) (events : List Event) (id : List ℕ)
        → IsAccepted specs → AreGood specs events
        → is_carried checkpoint_cmp id (world_at_end specs events).carried.checkpoints
        ≡ was_named specs events id }
{}

/// An id of a table, a view or a compaction was carried where an opening value or a start that was done names it, and nowhere else.
pub fn ulids_carried()
    ensures { (specs : List DbSpec) (events : List Event) (id : ℕ × ℕ)
        → IsAccepted specs → AreGood specs events
        → is_carried id_cmp id (world_at_end specs events).carried.ulids
        ≡ was_ulid_named specs events id }
{}
