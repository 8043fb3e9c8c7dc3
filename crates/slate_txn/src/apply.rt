//! Committing what a function makes of the version held, after a conflict too.
ghost use Rattle.std.specs.Prelude.{◌≡◌, ◌<◌, ◌⊎◌, IfOk, IfSome, true};
ghost use Rattle.slate_ids.specs.Answers.{Gives, ran_out};
ghost use Rattle.slate_store.specs.Machines.{GoesOn, IsAgain};
ghost use Rattle.slate_txn_log.specs.CommitPhase.{is_putting};
ghost use Rattle.slate_txn_log.specs.Due.{StillDue, WhereOut, FaultOf, FaultRose};
ghost use Rattle.slate_txn.specs.Changing.{ComputesWith, Making, MayWith};
ghost use Rattle.slate_txn.specs.ApplyMoves.{ways_by, ApplyMoves, RenewedBy, DrivenBy, AppliesBy, NeverFaults};
ghost use Rattle.slate_txn.specs.Moves.{GoesOnBy, StepsBy};
ghost use Rattle.slate_txn.specs.Apply.{apply_goes, apply_asks, apply_due, is_start, is_reading_phase};
ghost use Rattle.slate_txn.specs.Apply.{ways_of, ApplyFalls, Applies, ApplySteps, FaultFree};
ghost use Rattle.slate_txn_log.specs.Change.{renewed};

use crate::stored::Stored;
use slate_ids::{Millis, ObjectCodec, OutOfMemory, SlateDBError};
use slate_store::{ObjectStore, Step, StoreAnswer, StoreCall, perform};
use slate_txn_log::{CommitPhase, ReadPhase, Right, Rules, prepare_change};
use std::alloc::Global;
use std::mem;

/// Where it stands.
#[derive(Debug, Drop)]
pub enum ApplyPhase<T> {
    /// The latest version is being read.
    Reading(ReadPhase<T>),
    /// What was made of the version held is being committed.
    Committing(CommitPhase<T>),
}

// The commit of what the change makes of a version.
fn renew<
    T: Drop,
    C: ObjectCodec<T>,
    R: Rules<T>,
    F: Fn(&C, u64, &T) -> Result<Option<T>, SlateDBError>,
>(
    alloc: Global,
    codec: &C,
    rules: &R,
    change: &F,
    right: &Right,
    id: u64,
    value: &T,
) -> Result<Option<CommitPhase<T>>, SlateDBError>
    requires callable { F.IsAlwaysCallable change.now }
    ensures commit { (made : Making T) → ComputesWith (F.post change.now) made
        → Gives result (renewed made (R.refusal rules.now) (C.encoded codec.now) right.now id value.now) }
    ensures moves { (ran_out result ≡ true) ⊎ RenewedBy (MayWith (F.post change.now))
        (R.refusal rules.now) (C.encoded codec.now) right.now id value.now result }
    ensures putting { IfOk result (λ commit. IfSome commit (λ c. is_putting c ≡ true)) }
{
    match change(codec, id, value) {
        Err(e) => Err(e),
        Ok(changed) => prepare_change(alloc, codec, rules, id, value, changed, right),
    }
}

impl<T: Drop> ApplyPhase<T> {
    /// The call that is due.
    pub fn asks<C: Drop, R: Drop>(
        &self,
        alloc: Global,
        holder: &Stored<T, C, R>,
    ) -> Result<StoreCall, OutOfMemory>
        ensures { IfOk result (λ call. call ≡ apply_asks (self.now, holder.now)) }
    {
        match self {
            ApplyPhase::Reading(read) => Ok(read.asks(&holder.sequenced)),
            ApplyPhase::Committing(commit) => commit.asks(alloc, &holder.sequenced),
        }
    }

    /// Whether a call is due. None is after an end, unless memory ran out.
    pub fn due(&self) -> bool
        ensures { result ≡ apply_due self.now }
    {
        match self {
            ApplyPhase::Reading(read) => read.due(),
            ApplyPhase::Committing(commit) => commit.due(),
        }
    }

    /// Whether a version is to be read anew.
    pub fn is_start(&self) -> bool
        ensures { result ≡ is_start self.now }
    {
        match self {
            ApplyPhase::Reading(read) => read.is_listing(),
            ApplyPhase::Committing(_) => false,
        }
    }

    /// Goes on from the answer to that call. Running out of memory leaves phase and holder as they were.
    pub fn goes_on<
        C: ObjectCodec<T> + Drop,
        R: Rules<T> + Drop,
        F: Fn(&C, u64, &T) -> Result<Option<T>, SlateDBError>,
    >(
        &mut self,
        alloc: Global,
        holder: &mut Stored<T, C, R>,
        change: &F,
        right: &Right,
        answer: &StoreAnswer,
    ) -> Step<()>
        requires callable { F.IsAlwaysCallable change.now }
        ensures goes { (made : Making T) → ComputesWith (F.post change.now) made
            → GoesOn (apply_goes (ways_of C.decoded C.encoded R.refusal made right.now)
            (self.old, holder.old) answer.now) (self.old, holder.old) (self.new, holder.new) result }
        ensures moves { GoesOnBy (ApplyMoves
            (ways_by C.decoded C.encoded R.refusal (MayWith (F.post change.now)) right.now)
            (self.old, holder.old) answer.now) (self.old, holder.old) (self.new, holder.new) result }
        ensures falls { IsAgain result → ApplyFalls self.old self.new }
        ensures due { StillDue result (apply_due self.new) }
        ensures reading { WhereOut result (is_reading_phase self.old ≡ true) }
    {
        match self {
            ApplyPhase::Committing(commit) => match commit.goes_on(answer) {
                Step::Again => Step::Again,
                Step::Done(Ok((id, object))) => {
                    holder.id = id;
                    holder.object = object;
                    Step::Done(Ok(()))
                }
                Step::Done(Err(e)) => {
                    if e.is_conflict() {
                        drop(e);
                        drop(mem::replace(self, ApplyPhase::Reading(ReadPhase::Listing)));
                        Step::Again
                    } else {
                        Step::Done(Err(e))
                    }
                }
            },
            ApplyPhase::Reading(read) => {
                let step = read.goes_on(alloc, &holder.sequenced, answer);
                match step {
                    Step::Again => Step::Again,
                    Step::Done(Err(e)) => Step::Done(Err(e)),
                    Step::Done(Ok(None)) => {
                        Step::Done(Err(SlateDBError::LatestTransactionalObjectVersionMissing))
                    }
                    Step::Done(Ok(Some((id, value)))) => {
                        let codec = &holder.sequenced.codec;
                        let rules = &holder.rules;
                        let renewed = renew(alloc, codec, rules, change, right, id, &value);
                        match renewed {
                            Err(e) => {
                                if e.is_memory() {
                                    drop(mem::replace(read, ReadPhase::Bounding(id, value)));
                                } else {
                                    holder.id = id;
                                    holder.object = value;
                                }
                                Step::Done(Err(e))
                            }
                            Ok(None) => {
                                holder.id = id;
                                holder.object = value;
                                Step::Done(Ok(()))
                            }
                            Ok(Some(commit)) => {
                                holder.id = id;
                                holder.object = value;
                                drop(mem::replace(self, ApplyPhase::Committing(commit)));
                                Step::Again
                            }
                        }
                    }
                }
            }
        }
    }

    /// Makes the one call that is due. Running out of memory leaves phase and holder as they were.
    pub fn next<
        C: ObjectCodec<T> + Drop,
        R: Rules<T> + Drop,
        F: Fn(&C, u64, &T) -> Result<Option<T>, SlateDBError>,
        S: ObjectStore,
    >(
        &mut self,
        alloc: Global,
        holder: &mut Stored<T, C, R>,
        change: &F,
        right: &Right,
        store: &mut S,
        moment: Millis,
    ) -> Step<()>
        requires callable { F.IsAlwaysCallable change.now }
        requires due { apply_due self.now ≡ true }
        ensures steps { (made : Making T) → ComputesWith (F.post change.now) made
            → ApplySteps (ways_of C.decoded C.encoded R.refusal made right.now) moment
            (S.told store.old) (S.told store.new) (self.old, holder.old) (self.new, holder.new) result }
        ensures moves { StepsBy (S.told store.old) (S.told store.new) (apply_asks (self.old, holder.old))
            moment (ApplyMoves
            (ways_by C.decoded C.encoded R.refusal (MayWith (F.post change.now)) right.now)
            (self.old, holder.old)) (self.old, holder.old) (self.new, holder.new) result }
        ensures falls { IsAgain result → ApplyFalls self.old self.new }
        ensures due { StillDue result (apply_due self.new) }
        ensures fault { (made : Making T) → ComputesWith (F.post change.now) made
            → FaultFree (ways_of C.decoded C.encoded R.refusal made right.now)
            → FaultRose (S.told store.old) (S.told store.new) result }
    {
        match self.asks(alloc, holder) {
            Ok(call) => {
                let performed = perform(alloc, store, &call, moment);
                drop(call);
                match performed {
                    Ok(answer) => {
                        let step = self.goes_on(alloc, holder, change, right, &answer);
                        drop(answer);
                        step
                    }
                    Err(_) => Step::Done(Err(SlateDBError::OutOfMemory)),
                }
            }
            Err(_) => Step::Done(Err(SlateDBError::OutOfMemory)),
        }
    }
}

impl<T: Drop, C: ObjectCodec<T> + Drop, R: Rules<T> + Drop> Stored<T, C, R> {
    // Goes on from a commit until it ends, or the tries are used up.
    fn drive<F: Fn(&C, u64, &T) -> Result<Option<T>, SlateDBError>, S: ObjectStore>(
        &mut self,
        alloc: Global,
        commit: CommitPhase<T>,
        change: &F,
        right: &Right,
        store: &mut S,
        moment: Millis,
        tries: u32,
    ) -> Result<(), SlateDBError>
        requires callable { F.IsAlwaysCallable change.now }
        requires some { 0 < tries }
        requires putting { is_putting commit ≡ true }
        ensures moves { DrivenBy
            (ways_by C.decoded C.encoded R.refusal (MayWith (F.post change.now)) right.now)
            moment tries (S.told store.old) (S.told store.new) commit self.old self.new result }
        ensures never { NeverFaults
            (ways_by C.decoded C.encoded R.refusal (MayWith (F.post change.now)) right.now)
            → FaultOf (S.told store.old) (S.told store.new) result }
    {
        let mut phase = ApplyPhase::Committing(commit);
        let mut left = tries;
        loop {
            match phase.next(alloc, self, change, right, store, moment) {
                Step::Done(result) => {
                    drop(phase);
                    return result;
                }
                Step::Again => {}
            }
            if phase.is_start() {
                if left == 1 {
                    drop(phase);
                    return Err(SlateDBError::Contended);
                }
                left -= 1;
            }
        }
    }

    // The commit of what the change makes of the version held.
    pub(crate) fn renew_held<F: Fn(&C, u64, &T) -> Result<Option<T>, SlateDBError>>(
        &self,
        alloc: Global,
        change: &F,
        right: &Right,
    ) -> Result<Option<CommitPhase<T>>, SlateDBError>
        requires callable { F.IsAlwaysCallable change.now }
        ensures commit { (made : Making T) → ComputesWith (F.post change.now) made
            → Gives result (renewed made (R.refusal self.now.rules) (C.encoded self.now.sequenced.codec)
            right.now self.now.id self.now.object) }
        ensures moves { (ran_out result ≡ true) ⊎ RenewedBy (MayWith (F.post change.now))
            (R.refusal self.now.rules) (C.encoded self.now.sequenced.codec) right.now
            self.now.id self.now.object result }
        ensures putting { IfOk result (λ commit. IfSome commit (λ c. is_putting c ≡ true)) }
    {
        renew(
            alloc,
            &self.sequenced.codec,
            &self.rules,
            change,
            right,
            self.id,
            &self.object,
        )
    }

    // Commits what the change makes of the version held. After a conflict it reads the latest version, holds it, and
    // commits what the change makes of that: so often as there are tries, then `Contended`. The holder holds what was put
    // or read last.
    pub(crate) fn apply<F: Fn(&C, u64, &T) -> Result<Option<T>, SlateDBError>, S: ObjectStore>(
        &mut self,
        alloc: Global,
        change: &F,
        right: &Right,
        store: &mut S,
        moment: Millis,
        tries: u32,
    ) -> Result<(), SlateDBError>
        requires callable { F.IsAlwaysCallable change.now }
        requires some { 0 < tries }
        ensures apply { (made : Making T) → ComputesWith (F.post change.now) made
            → Applies (ways_of C.decoded C.encoded R.refusal made right.now) moment tries
            (S.told store.old) (S.told store.new) self.old self.new result }
        ensures moves { AppliesBy
            (ways_by C.decoded C.encoded R.refusal (MayWith (F.post change.now)) right.now)
            moment tries (S.told store.old) (S.told store.new) self.old self.new result }
        ensures never { NeverFaults
            (ways_by C.decoded C.encoded R.refusal (MayWith (F.post change.now)) right.now)
            → FaultOf (S.told store.old) (S.told store.new) result }
        ensures fault { (made : Making T) → ComputesWith (F.post change.now) made
            → FaultFree (ways_of C.decoded C.encoded R.refusal made right.now)
            → FaultOf (S.told store.old) (S.told store.new) result }
    {
        match self.renew_held(alloc, change, right) {
            Err(e) => Err(e),
            Ok(None) => Ok(()),
            Ok(Some(commit)) => self.drive(alloc, commit, change, right, store, moment, tries),
        }
    }
}
