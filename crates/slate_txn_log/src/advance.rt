//! The plain call that moves the boundary up.
ghost use Rattle.std.specs.Prelude.{◌≡◌, ◌<◌, OnOk};
ghost use Rattle.slate_ids.specs.Answers.{OrMemory};
ghost use Rattle.slate_txn_log.specs.Advance.{Advanced, AdvanceBegan, BoundaryReached, BoundaryKept};
ghost use Rattle.slate_txn_log.specs.Due.{FaultOf};
ghost use Rattle.slate_txn_log.specs.declared.advance_phase.AdvancePhase.TheVariants.{Bounding};

use crate::advance_phase::AdvancePhase;
use crate::sequenced::Sequenced;
use slate_ids::{Millis, SlateDBError};
use slate_store::{ObjectStore, Step};
use std::alloc::Global;

impl<T, C> Sequenced<T, C> {
    /// The machine that moves the boundary up to at least this number.
    pub fn start_advance(&self, n: u64) -> AdvancePhase
        ensures { result ≡ Bounding n }
    {
        AdvancePhase::Bounding(n)
    }

    /// Moves the boundary up to at least this number, and never down: a boundary at or above it stays. An absent boundary
    /// counts as 0. The advance starts again where another write came between its read and its write: so often as there
    /// are tries, then `Contended`. A boundary that can't be read is `Corrupt`, and stays. After `StoreFault` the boundary
    /// is as it was, or is at this number.
    pub fn advance<S: ObjectStore>(
        &self,
        alloc: Global,
        store: &mut S,
        n: u64,
        moment: Millis,
        tries: u32,
    ) -> Result<(), SlateDBError>
        requires { 0 < tries }
        ensures advance { OrMemory result
            (AdvanceBegan self.now n moment tries (S.told store.old) (S.told store.new))
            (Advanced self.now n moment tries (S.told store.old) (S.told store.new) result) }
        ensures reached { OnOk result (BoundaryReached self.now.db self.now.log n (S.told store.new)) }
        ensures never_lower { BoundaryKept self.now.db self.now.log (S.told store.old) (S.told store.new) }
        ensures fault { FaultOf (S.told store.old) (S.told store.new) result }
    {
        let mut advance = AdvancePhase::Bounding(n);
        let mut left = tries;
        loop {
            match advance.next(alloc, self, store, moment) {
                Step::Done(result) => return result,
                Step::Again => {}
            }
            if advance.is_bounding() {
                if left == 1 {
                    return Err(SlateDBError::Contended);
                }
                left -= 1;
            }
        }
    }
}
