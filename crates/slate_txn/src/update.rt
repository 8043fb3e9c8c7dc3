//! An update of the value held.
ghost use Rattle.std.specs.Prelude.{◌≡◌, ◌+◌, ◌⊎◌, IfOk, IfErr, OnOk, OnErr, Some, Err, ◌≢◌, true, false};
ghost use Rattle.slate_ids.specs.Answers.{Gives};
ghost use Rattle.slate_ids.specs.declared.error.SlateDBError.TheVariants.{StoreFault};
ghost use Rattle.slate_txn_log.specs.CommitPhase.{is_putting, commit_version};
ghost use Rattle.slate_txn_log.specs.Due.{FaultOf, FaultRose, StillDue};
ghost use Rattle.slate_txn.specs.Holder.{at_version};
ghost use Rattle.slate_txn.specs.Standing.{SameContents, UpdateStands, may_stand};
ghost use Rattle.slate_txn.specs.Updating.{started, Updates, UpdateSteps, update_of, update_due, update_open};
ghost use Rattle.slate_txn.specs.Updating.{done_of, held_of, done_step, held_by};

use crate::stored::{DirtyObject, Stored};
use slate_ids::{Millis, ObjectCodec, OutOfMemory, SlateDBError};
use slate_store::{ObjectStore, Step};
use slate_txn_log::{CommitPhase, Right, Rules, prepare};
use std::alloc::Global;
use std::mem;

/// The machine of an update.
#[derive(Debug, Drop)]
pub enum UpdateMachine<T> {
    /// It was refused before its first call, and answers so.
    Refused(SlateDBError),
    /// There is nothing to commit, and it answers Ok.
    Nothing,
    /// The commit of the new value.
    Committing(CommitPhase<T>),
}

impl<T: Drop, C: ObjectCodec<T> + Drop, R: Rules<T> + Drop> Stored<T, C, R> {
    // The commit of a dirty value, or why it is refused.
    fn start_commit(
        &self,
        alloc: Global,
        dirty: DirtyObject<T>,
        right: &Right,
    ) -> Result<CommitPhase<T>, SlateDBError>
        ensures commit { Gives result (started R.refusal C.encoded self.now dirty right.now) }
        ensures putting { IfOk result (λ commit. is_putting commit ≡ true) }
        ensures version { IfOk result (λ commit. commit_version commit ≡ Some (self.now.id + 1, dirty.value)) }
    {
        if dirty.id != self.id {
            let number = dirty.id;
            drop(dirty);
            return Err(SlateDBError::TransactionalObjectVersionExists {
                number,
                boundary: None,
            });
        }
        prepare(
            alloc,
            &self.sequenced.codec,
            &self.rules,
            self.id,
            &self.object,
            dirty.value,
            right,
        )
    }

    /// Commits a dirty value, in one try. Refused before any call are a dirty number other than the one held
    /// (`TransactionalObjectVersionExists` without a boundary), the last number, what the rules refuse, and a value without
    /// bytes. After Ok the holder holds what was put, and after a refusal it is unchanged. So are the store's contents, except
    /// that the put may stand where its answer was lost, where the boundary read after it was at or above its number
    /// (`TransactionalObjectVersionExists` with a boundary), or where the boundary couldn't be read.
    pub fn update<S: ObjectStore>(
        &mut self,
        alloc: Global,
        store: &mut S,
        dirty: DirtyObject<T>,
        right: &Right,
        moment: Millis,
    ) -> Result<(), SlateDBError>
        ensures update { Updates R.refusal C.encoded moment (S.told store.old) (S.told store.new)
            self.old dirty right.now result }
        ensures held { OnOk result (self.new ≡ at_version self.old (self.old.id + 1) dirty.value) }
        ensures kept { OnErr result (self.new ≡ self.old) }
        ensures before { IfErr (started R.refusal C.encoded self.old dirty right.now)
            (λ e. S.told store.new ≡ S.told store.old) }
        ensures put { OnOk result (UpdateStands self.old moment (S.told store.old) (S.told store.new)
            (started R.refusal C.encoded self.old dirty right.now)) }
        ensures left { IfErr result (λ e. may_stand e ≡ false
            → SameContents (S.told store.old) (S.told store.new)) }
        ensures stands { OnErr result (SameContents (S.told store.old) (S.told store.new)
            ⊎ UpdateStands self.old moment (S.told store.old) (S.told store.new)
            (started R.refusal C.encoded self.old dirty right.now)) }
        ensures fault { started R.refusal C.encoded self.old dirty right.now ≢ Err StoreFault
            → FaultOf (S.told store.old) (S.told store.new) result }
    {
        let commit = self.start_commit(alloc, dirty, right)?;
        let reply = commit.run(alloc, &self.sequenced, store, moment);
        hold(self, reply)
    }

    /// The machine of an update. Where the update is refused before its first call, no call is due in it.
    pub fn start_update(
        &self,
        alloc: Global,
        dirty: DirtyObject<T>,
        right: &Right,
    ) -> Result<UpdateMachine<T>, OutOfMemory>
        ensures open { IfOk result (λ machine. update_open machine ≡ true) }
        ensures machine { IfOk result (λ machine. machine ≡ update_of
            (started R.refusal C.encoded self.now dirty right.now)) }
    {
        match self.start_commit(alloc, dirty, right) {
            Ok(commit) => Ok(UpdateMachine::Committing(commit)),
            Err(e) => {
                if e.is_memory() {
                    drop(e);
                    Err(OutOfMemory)
                } else {
                    Ok(UpdateMachine::Refused(e))
                }
            }
        }
    }
}

// The holder after its commit.
fn hold<T: Drop, C: Drop, R: Drop>(
    holder: &mut Stored<T, C, R>,
    reply: Result<(u64, T), SlateDBError>,
) -> Result<(), SlateDBError>
    ensures done { result ≡ done_of reply }
    ensures held { holder.new ≡ held_of holder.old reply }
{
    match reply {
        Ok((id, object)) => {
            holder.id = id;
            holder.object = object;
            Ok(())
        }
        Err(e) => Err(e),
    }
}

// The holder after a step of its commit.
fn hold_step<T: Drop, C: Drop, R: Drop>(
    holder: &mut Stored<T, C, R>,
    step: Step<(u64, T)>,
) -> Step<()>
    ensures step { result ≡ done_step step }
    ensures held { holder.new ≡ held_by holder.old step }
{
    match step {
        Step::Again => Step::Again,
        Step::Done(reply) => Step::Done(hold(holder, reply)),
    }
}

impl<T: Drop> UpdateMachine<T> {
    /// Whether a call is due. None is after an end, unless memory ran out, nor where nothing is committed.
    pub fn due(&self) -> bool
        ensures due { result ≡ update_due self.now }
        ensures open { result ≡ true → update_open self.now ≡ true }
    {
        match self {
            UpdateMachine::Refused(_) => false,
            UpdateMachine::Nothing => false,
            UpdateMachine::Committing(commit) => commit.due(),
        }
    }

    /// Makes the one call that is due. A refused update makes none and answers its refusal, and where there is nothing to
    /// commit it makes none and answers Ok. A conflict ends it. After a commit the holder holds what was put, and else it is
    /// unchanged. Running out of memory leaves the machine as it was, and any other end leaves none due.
    pub fn next<C: Drop, R: Drop, S: ObjectStore>(
        &mut self,
        alloc: Global,
        holder: &mut Stored<T, C, R>,
        store: &mut S,
        moment: Millis,
    ) -> Step<()>
        requires open { update_open self.now ≡ true }
        ensures steps { UpdateSteps (S.told store.old) (S.told store.new) moment
            (self.old, holder.old) (self.new, holder.new) result }
        ensures open { update_due self.old ≡ true → StillDue result (update_open self.new) }
        ensures fault { update_due self.old ≡ true → FaultRose (S.told store.old) (S.told store.new) result }
    {
        match self {
            UpdateMachine::Committing(commit) => {
                let step = commit.next(alloc, &holder.sequenced, store, moment);
                hold_step(holder, step)
            }
            _ => match mem::replace(self, UpdateMachine::Committing(CommitPhase::Over)) {
                UpdateMachine::Refused(e) => Step::Done(Err(e)),
                UpdateMachine::Nothing => Step::Done(Ok(())),
                UpdateMachine::Committing(_) => unreachable!(),
            },
        }
    }
}
