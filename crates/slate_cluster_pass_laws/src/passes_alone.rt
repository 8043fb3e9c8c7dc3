//! A pass that nobody disturbs: what it leaves.
ghost use Rattle.std.specs.Prelude.{List, ◌++◌};
ghost use Rattle.slate_script_events.specs.declared.db_spec.DbSpec.{DbSpec};
ghost use Rattle.slate_script_events.specs.declared.event.Event.{Event};
ghost use Rattle.slate_cluster_protocol.specs.Alone.{PassesAlone};
ghost use Rattle.slate_cluster_protocol.specs.Lawful.{IsAccepted, AreGood, course_after};

/// Where between the start of a pass and its end no other party's step makes a store call, and none of its own faults, it ends with
/// the reply of a pass: the versions of its log left are those that its list found, less what it picks, and all that it picked is deleted. The
/// removal of expired checkpoints alone may end it before its list, where it has no number left. Opens, starts, stops and idle steps
/// of others may come between.
pub fn undisturbed_pass()
    ensures { (specs : List DbSpec) (front middle : List Event)
        → IsAccepted specs
        → AreGood specs (front ++ middle)
        → PassesAlone specs front (course_after specs front) (course_after specs (front ++ middle)) }
{}
