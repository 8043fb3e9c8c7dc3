//! Committing what a function makes of the version that a fenced holder holds.
ghost use Rattle.std.specs.Prelude.{◌≡◌, ◌<◌, IfOk, true};
ghost use Rattle.slate_txn_log.specs.Due.{FaultOf};
ghost use Rattle.slate_txn.specs.Changing.{Computes, Making, May};
ghost use Rattle.slate_txn.specs.ApplyMoves.{ways_by, AppliesBy, MaybeBy, NeverFaults};
ghost use Rattle.slate_txn.specs.Apply.{Applies, FaultFree, ways_of};
ghost use Rattle.slate_txn_log.specs.Change.{renewed};
ghost use Rattle.slate_txn.specs.FencedApplying.{fenced_made, FencedMay, FenceFree, Unfenced};
ghost use Rattle.slate_txn_log.specs.Fence.{unless};
ghost use Rattle.slate_txn.specs.Fencing.{held_fence, FencedOnly};
ghost use Rattle.slate_txn.specs.Updating.{maybe_of, update_open};

use crate::fenced::Fenced;
use crate::fenced_update::FencedUpdateMachine;
use crate::update::UpdateMachine;
use slate_ids::{Epochs, Millis, ObjectCodec, OutOfMemory, SlateDBError};
use slate_store::ObjectStore;
use slate_txn_log::{Right, Rules, fence};
use std::alloc::Global;

impl<T: Drop, C: ObjectCodec<T> + Drop, R: Rules<T> + Drop, E: Epochs<T> + Drop> Fenced<
    T,
    C,
    R,
    E,
> {
    /// Commits what `f` makes of the number and the value held, as a holder without a fence does. Where the epoch of the
    /// version held, or of one that is read after a conflict, is above the own one, the answer is `Fenced` and nothing is
    /// committed. The own epoch stays.
    pub fn maybe_apply<F: Fn(u64, &T) -> Result<Option<T>, SlateDBError>, S: ObjectStore>(
        &mut self,
        alloc: Global,
        store: &mut S,
        f: F,
        right: &Right,
        moment: Millis,
        tries: u32,
    ) -> Result<(), SlateDBError>
        requires callable { F.IsAlwaysCallable f }
        requires some { 0 < tries }
        ensures apply { (made : Making T) → Computes (F.post f) made → Applies
            (ways_of C.decoded C.encoded R.refusal
            (fenced_made E.epoch self.old.epochs self.old.epoch made) right.now)
            moment tries (S.told store.old) (S.told store.new) self.old.holder self.new.holder result }
        ensures moves { AppliesBy (ways_by C.decoded C.encoded R.refusal
            (FencedMay E.epoch self.old.epochs self.old.epoch (May (F.post f))) right.now)
            moment tries (S.told store.old) (S.told store.new) self.old.holder self.new.holder result }
        ensures never { NeverFaults (ways_by C.decoded C.encoded R.refusal
            (FencedMay E.epoch self.old.epochs self.old.epoch (May (F.post f))) right.now)
            → FaultOf (S.told store.old) (S.told store.new) result }
        ensures own { self.new ≡ record self.old { holder = self.new.holder } }
        ensures fault { (made : Making T) → Computes (F.post f) made → FaultFree
            (ways_of C.decoded C.encoded R.refusal
            (fenced_made E.epoch self.old.epochs self.old.epoch made) right.now)
            → FaultOf (S.told store.old) (S.told store.new) result }
        ensures unfenced { Unfenced (ways_by C.decoded C.encoded R.refusal (May (F.post f)) right.now)
            → FencedOnly (held_fence E.epoch self.new) result }
        ensures fenced { (made : Making T) → Computes (F.post f) made
            → FenceFree (ways_of C.decoded C.encoded R.refusal made right.now)
            → FencedOnly (held_fence E.epoch self.new) result }
    {
        let own = self.epoch;
        let epochs = &self.epochs;
        let change = |_codec: &C, id: u64, value: &T| match fence(own, epochs.get(value)) {
            Some(e) => Err(e),
            None => f(id, value),
        };
        self.stored
            .apply(alloc, &change, right, store, moment, tries)
    }

    /// The machine of one try of that commit. Where the epoch of the version held is above the own one, `f` makes no value of
    /// it or refuses it, or the commit is refused before its first call, no call is due in it.
    pub fn start_maybe_apply<F: Fn(u64, &T) -> Result<Option<T>, SlateDBError>>(
        &self,
        alloc: Global,
        f: F,
        right: &Right,
    ) -> Result<FencedUpdateMachine<T>, OutOfMemory>
        requires callable { F.IsAlwaysCallable f }
        ensures open { IfOk result (λ machine. update_open machine ≡ true) }
        ensures machine { (made : Making T) → Computes (F.post f) made
            → IfOk result (λ machine. machine ≡ maybe_of (unless (held_fence E.epoch self.now)
            (renewed made (R.refusal self.now.holder.rules) (C.encoded self.now.holder.sequenced.codec)
            right.now self.now.holder.id self.now.holder.object))) }
        ensures commits { IfOk result (λ machine. MaybeBy
            (FencedMay E.epoch self.now.epochs self.now.epoch (May (F.post f)))
            (R.refusal self.now.holder.rules) (C.encoded self.now.holder.sequenced.codec) right.now
            self.now.holder.id self.now.holder.object machine) }
    {
        match self.fence_held() {
            Some(e) => Ok(FencedUpdateMachine::new(UpdateMachine::Refused(e))),
            None => {
                let update = self.stored.start_maybe_apply(alloc, f, right)?;
                Ok(FencedUpdateMachine::new(update))
            }
        }
    }
}
