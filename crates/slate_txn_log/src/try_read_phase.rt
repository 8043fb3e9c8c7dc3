//! The machine that reads one version by its number.
ghost use Rattle.std.specs.Prelude.{◌≡◌, true};
ghost use Rattle.slate_store.specs.Machines.{Steps};
ghost use Rattle.slate_txn_log.specs.Due.{StillDue, FaultRose, NoFault};
ghost use Rattle.slate_txn_log.specs.TryRead.{try_asks, try_goes, try_due};

use crate::ran_out::ran_out;
use crate::sequenced::Sequenced;
use slate_ids::{Millis, ObjectCodec};
use slate_store::{ObjectStore, Step};
use std::alloc::Global;

/// Where the read of one version stands.
#[derive(Clone, Copy, Debug)]
pub enum TryReadPhase {
    /// The version of this number is to be got.
    Getting(u64),
    /// It ended.
    Over,
}

impl TryReadPhase {
    /// Whether the call is due. It isn't after an end, unless memory ran out.
    pub fn due(&self) -> bool
        ensures { result ≡ try_due self.now }
    {
        match self {
            TryReadPhase::Getting(_) => true,
            TryReadPhase::Over => false,
        }
    }

    /// Makes the one call. Running out of memory leaves the phase as it was, and any other end leaves none due.
    pub fn next<T: Drop, C: ObjectCodec<T>, S: ObjectStore>(
        &mut self,
        alloc: Global,
        sequenced: &Sequenced<T, C>,
        store: &mut S,
        moment: Millis,
    ) -> Step<Option<T>>
        requires due { try_due self.now ≡ true }
        ensures steps { Steps (S.told store.old) (S.told store.new)
            (try_asks sequenced.now.db sequenced.now.log self.old) moment
            (try_goes (C.decoded sequenced.now.codec) self.old) self.old self.new result }
        ensures due { StillDue result (try_due self.new) }
        ensures fault { NoFault (C.decoded sequenced.now.codec)
            → FaultRose (S.told store.old) (S.told store.new) result }
    {
        match *self {
            TryReadPhase::Getting(n) => {
                let reply = sequenced.try_once(alloc, store, n, moment);
                if !ran_out(&reply) {
                    *self = TryReadPhase::Over;
                }
                Step::Done(reply)
            }
            TryReadPhase::Over => unreachable!(),
        }
    }
}
