//! Committing what a function makes of the version held.
ghost use Rattle.std.specs.Prelude.{◌≡◌, ◌<◌, IfOk, true};
ghost use Rattle.slate_txn_log.specs.Due.{FaultOf};
ghost use Rattle.slate_txn.specs.Changing.{Computes, Making, May};
ghost use Rattle.slate_txn.specs.ApplyMoves.{ways_by, AppliesBy, MaybeBy, NeverFaults};
ghost use Rattle.slate_txn.specs.Apply.{Applies, FaultFree, ways_of};
ghost use Rattle.slate_txn_log.specs.Change.{renewed};
ghost use Rattle.slate_txn.specs.Updating.{maybe_of, update_open};

use crate::stored::Stored;
use crate::update::UpdateMachine;
use slate_ids::{Millis, ObjectCodec, OutOfMemory, SlateDBError};
use slate_store::ObjectStore;
use slate_txn_log::{Right, Rules};
use std::alloc::Global;

impl<T: Drop, C: ObjectCodec<T> + Drop, R: Rules<T> + Drop> Stored<T, C, R> {
    /// Commits what `f` makes of the number and the value held. Where it makes none, nothing is committed, and its refusal
    /// is the answer. After a conflict the latest version is read and held, and what `f` makes of that is committed: so often
    /// as there are tries, then `Contended`. Each conflict, and each version that is gone when it is got or is at or below
    /// the boundary, uses one. `f` is asked anew of each version that is read, and may answer differently each time. The
    /// holder holds what was put or read last.
    pub fn maybe_apply<F: Fn(u64, &T) -> Result<Option<T>, SlateDBError>, S: ObjectStore>(
        &mut self,
        alloc: Global,
        store: &mut S,
        f: F,
        right: &Right,
        moment: Millis,
        tries: u32,
    ) -> Result<(), SlateDBError>
        requires callable { F.IsAlwaysCallable f }
        requires some { 0 < tries }
        ensures apply { (made : Making T) → Computes (F.post f) made
            → Applies (ways_of C.decoded C.encoded R.refusal made right.now) moment tries
            (S.told store.old) (S.told store.new) self.old self.new result }
        ensures moves { AppliesBy (ways_by C.decoded C.encoded R.refusal (May (F.post f)) right.now)
            moment tries (S.told store.old) (S.told store.new) self.old self.new result }
        ensures never { NeverFaults (ways_by C.decoded C.encoded R.refusal (May (F.post f)) right.now)
            → FaultOf (S.told store.old) (S.told store.new) result }
        ensures fault { (made : Making T) → Computes (F.post f) made
            → FaultFree (ways_of C.decoded C.encoded R.refusal made right.now)
            → FaultOf (S.told store.old) (S.told store.new) result }
    {
        let change = |_codec: &C, id: u64, value: &T| f(id, value);
        self.apply(alloc, &change, right, store, moment, tries)
    }

    /// The machine of one try of that commit. Where `f` makes no value of the version held or refuses it, or the commit is
    /// refused before its first call, no call is due in it.
    pub fn start_maybe_apply<F: Fn(u64, &T) -> Result<Option<T>, SlateDBError>>(
        &self,
        alloc: Global,
        f: F,
        right: &Right,
    ) -> Result<UpdateMachine<T>, OutOfMemory>
        requires callable { F.IsAlwaysCallable f }
        ensures open { IfOk result (λ machine. update_open machine ≡ true) }
        ensures machine { (made : Making T) → Computes (F.post f) made
            → IfOk result (λ machine. machine ≡ maybe_of
            (renewed made (R.refusal self.now.rules) (C.encoded self.now.sequenced.codec) right.now
            self.now.id self.now.object)) }
        ensures commits { IfOk result (λ machine. MaybeBy (May (F.post f)) (R.refusal self.now.rules)
            (C.encoded self.now.sequenced.codec) right.now self.now.id self.now.object machine) }
    {
        let change = |_codec: &C, id: u64, value: &T| f(id, value);
        match self.renew_held(alloc, &change, right) {
            Ok(Some(commit)) => Ok(UpdateMachine::Committing(commit)),
            Ok(None) => Ok(UpdateMachine::Nothing),
            Err(e) => {
                if e.is_memory() {
                    drop(e);
                    Err(OutOfMemory)
                } else {
                    Ok(UpdateMachine::Refused(e))
                }
            }
        }
    }
}
