//! What the calls of a compactor keep to.
ghost use Rattle.slate_state_writer.specs.Leaving.{BegunCallsLeave, BegunOpensLeave, CallsLeave, CallsOnlyAdd, OpensLeave, OpensOnlyAdd};
ghost use Rattle.slate_state_writer.specs.StateLaws.{RecordFollows, RefusalsKeepLocal, StepsKeepLocal};

/// A step of a call on the state that ends in a refusal leaves the local state as it was. So does one that goes on, but where the manifest
/// with the local trees stands. And a write of the whole state comes to the record only there: never before the manifest.
pub fn records_follow_manifests()
    ensures refusals { RefusalsKeepLocal }
    ensures onward { StepsKeepLocal }
    ensures follows { RecordFollows }
{}

/// An open and the calls on the state list, get, and put new objects alone. So a call leaves each object that stood, and each one that it
/// made: also where it is refused after some of its commits, where it uses up its tries, and where memory runs out in it.
pub fn calls_leave_what_they_made()
    ensures opens_add { OpensOnlyAdd }
    ensures calls_add { CallsOnlyAdd }
    ensures opens { OpensLeave }
    ensures begun_opens { BegunOpensLeave }
    ensures calls { CallsLeave }
    ensures begun_calls { BegunCallsLeave }
{}
