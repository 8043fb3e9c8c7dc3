//! What follows from the definitions alone.
ghost use Rattle.std.specs.Prelude.{◌≡◌, ◌↔◌, None, true};
ghost use Rattle.slate_script_events.specs.declared.event.Event.{Event};
ghost use Rattle.slate_cluster_protocol.specs.World.{World, happens, is_bad};

/// An event does nothing exactly where it is bad.
pub fn bad_events()
    ensures { (w : World) (e : Event) → (happens w e ≡ None) ↔ (is_bad w e ≡ true) }
{}
