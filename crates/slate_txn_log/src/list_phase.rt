//! The machine that lists the versions of a log.
ghost use Rattle.std.specs.Prelude.{◌≡◌, true};
ghost use Rattle.slate_store.specs.Machines.{Steps};
ghost use Rattle.slate_txn_log.specs.Due.{StillDue, FaultRose};
ghost use Rattle.slate_txn_log.specs.Versions.{list_asks, list_goes, list_due};

use crate::ran_out::ran_out;
use crate::sequenced::Sequenced;
use slate_ids::{Listed, Millis, NumberRange};
use slate_store::{ObjectMetadata, ObjectStore, Step};
use std::alloc::Global;

/// Where a list of versions stands.
#[derive(Clone, Copy, Debug)]
pub enum ListPhase {
    /// The versions are to be listed: those with numbers in this range.
    Listing(NumberRange),
    /// It ended.
    Over,
}

impl ListPhase {
    /// Whether the call is due. It isn't after an end, unless memory ran out.
    pub fn due(&self) -> bool
        ensures { result ≡ list_due self.now }
    {
        match self {
            ListPhase::Listing(_) => true,
            ListPhase::Over => false,
        }
    }

    /// Makes the one call. Running out of memory leaves the phase as it was, and any other end leaves none due.
    pub fn next<T, C, S: ObjectStore>(
        &mut self,
        alloc: Global,
        sequenced: &Sequenced<T, C>,
        store: &mut S,
        moment: Millis,
    ) -> Step<Listed<(u64, ObjectMetadata)>>
        requires due { list_due self.now ≡ true }
        ensures steps { Steps (S.told store.old) (S.told store.new)
            (list_asks sequenced.now.db sequenced.now.log) moment
            (list_goes sequenced.now.log self.old) self.old self.new result }
        ensures due { StillDue result (list_due self.new) }
        ensures fault { FaultRose (S.told store.old) (S.told store.new) result }
    {
        match *self {
            ListPhase::Listing(range) => {
                let reply = sequenced.list_once(alloc, store, range, moment);
                if !ran_out(&reply) {
                    *self = ListPhase::Over;
                }
                Step::Done(reply)
            }
            ListPhase::Over => unreachable!(),
        }
    }
}
