//! The machine that makes a fenced holder.
ghost use Rattle.std.specs.Prelude.{◌≡◌, IfOk, IfSome, Some, true, false};
ghost use Rattle.slate_ids.specs.Answers.{ran_out};
ghost use Rattle.slate_txn_log.specs.CommitPhase.{commit_version, is_putting};
ghost use Rattle.slate_txn_log.specs.Due.{FaultRose, StillDue};
ghost use Rattle.slate_txn.specs.Initing.{init_of, init_due, init_open, init_version, fenced_reply, InitKeeps, InitSteps};
ghost use Rattle.slate_txn_log.specs.declared.right.Right.TheVariants.{Plain};
ghost use Rattle.slate_txn.specs.Raise.{raised, epoch_commit};

use crate::fenced::Fenced;
use crate::raise::{prepare_epoch, prepare_raise};
use crate::stored::Stored;
use slate_ids::{Epochs, Millis, ObjectCodec, OutOfMemory, SlateDBError};
use slate_store::{ObjectStore, Step};
use slate_txn_log::{CommitPhase, Right, Rules};
use std::alloc::Global;
use std::mem;

/// The machine of one try of a fence. It owns the holder until it ends.
#[derive(Drop)]
pub enum InitMachine<T, C, R, E> {
    /// It was refused before its first call, and answers so.
    Refused(SlateDBError),
    /// The commit of the value held with its new epoch.
    Committing(CommitPhase<T>, Stored<T, C, R>, E),
    /// It ended.
    Over,
}

// The fenced holder after its commit.
fn fence<T: Drop, C: Drop, R: Drop, E: Epochs<T> + Drop>(
    stored: Stored<T, C, R>,
    epochs: E,
    reply: Result<(u64, T), SlateDBError>,
) -> Result<Fenced<T, C, R, E>, SlateDBError>
    ensures { result ≡ fenced_reply E.epoch stored epochs reply }
{
    match reply {
        Err(e) => {
            drop(stored);
            drop(epochs);
            Err(e)
        }
        Ok((id, object)) => {
            let epoch = epochs.get(&object);
            let mut stored = stored;
            stored.id = id;
            stored.object = object;
            Ok(Fenced {
                stored,
                epochs,
                epoch,
            })
        }
    }
}

// The machine of a commit, or of its refusal.
fn start<T: Drop, C: Drop, R: Drop, E: Drop>(
    stored: Stored<T, C, R>,
    epochs: E,
    commit: Result<CommitPhase<T>, SlateDBError>,
) -> Result<InitMachine<T, C, R, E>, OutOfMemory>
    requires putting { IfOk commit (λ c. is_putting c ≡ true) }
    ensures open { IfOk result (λ machine. init_open machine ≡ true) }
    ensures machine { IfOk result (λ machine. machine ≡ init_of commit stored epochs) }
    ensures memory { IfOk result (λ machine. ran_out commit ≡ false) }
    ensures version { IfOk result (λ machine. IfSome (init_version machine)
        (λ version. IfOk commit (λ c. commit_version c ≡ Some version))) }
{
    match commit {
        Ok(commit) => Ok(InitMachine::Committing(commit, stored, epochs)),
        Err(e) => {
            drop(stored);
            drop(epochs);
            if e.is_memory() {
                drop(e);
                Err(OutOfMemory)
            } else {
                Ok(InitMachine::Refused(e))
            }
        }
    }
}

impl<T: Drop, C: ObjectCodec<T> + Drop, R: Rules<T> + Drop, E: Epochs<T> + Drop> Fenced<
    T,
    C,
    R,
    E,
> {
    /// The machine of one try of a fence. Where the raise is refused before its first call, no call is due in it.
    pub fn start_init(
        alloc: Global,
        stored: Stored<T, C, R>,
        epochs: E,
    ) -> Result<InitMachine<T, C, R, E>, OutOfMemory>
        ensures open { IfOk result (λ machine. init_open machine ≡ true) }
        ensures machine { IfOk result (λ machine. machine ≡ init_of (raised (R.refusal stored.rules)
            (C.encoded stored.sequenced.codec) (E.epoch epochs) (E.with_epoch epochs) stored.id stored.object)
            stored epochs) }
    {
        let held = &stored;
        let raised = prepare_raise(
            alloc,
            &held.sequenced.codec,
            &held.rules,
            &epochs,
            held.id,
            &held.object,
        );
        start(stored, epochs, raised)
    }

    /// The machine of one try of a fence with this epoch. Where the epoch of the version held is greater, or the commit is
    /// refused before its first call, no call is due in it.
    pub fn start_init_with_epoch(
        alloc: Global,
        stored: Stored<T, C, R>,
        epochs: E,
        epoch: u64,
    ) -> Result<InitMachine<T, C, R, E>, OutOfMemory>
        ensures open { IfOk result (λ machine. init_open machine ≡ true) }
        ensures machine { IfOk result (λ machine. machine ≡ init_of (epoch_commit (R.refusal stored.rules)
            (C.encoded stored.sequenced.codec) (E.epoch epochs) (E.with_epoch epochs) epoch Plain
            stored.id stored.object) stored epochs) }
        ensures epoch { IfOk result (λ machine. IfSome (init_version machine)
            (λ version. E.epoch epochs version.1 ≡ epoch)) }
    {
        let held = &stored;
        let set = prepare_epoch(
            alloc,
            &held.sequenced.codec,
            &held.rules,
            &epochs,
            epoch,
            &Right::Plain,
            held.id,
            &held.object,
        );
        start(stored, epochs, set)
    }
}

impl<T: Drop, C: ObjectCodec<T> + Drop, R: Rules<T> + Drop, E: Epochs<T> + Drop> InitMachine<
    T,
    C,
    R,
    E,
> {
    /// Whether a call is due. None is after an end, unless memory ran out, nor where it was refused.
    pub fn due(&self) -> bool
        ensures due { result ≡ init_due self.now }
        ensures open { result ≡ true → init_open self.now ≡ true }
    {
        match self {
            InitMachine::Committing(commit, _, _) => commit.due(),
            _ => false,
        }
    }

    /// Makes the one call that is due. A refused one makes none and answers its refusal. A conflict ends it. Want of
    /// memory leaves the machine as it was, and any other end leaves none due and drops the holder, or hands it out.
    pub fn next<S: ObjectStore>(
        &mut self,
        alloc: Global,
        store: &mut S,
        moment: Millis,
    ) -> Step<Fenced<T, C, R, E>>
        requires open { init_open self.now ≡ true }
        ensures steps { InitSteps E.epoch (S.told store.old) (S.told store.new) moment
            self.old self.new result }
        ensures version { InitKeeps E.epoch self.old self.new result }
        ensures open { init_due self.old ≡ true → StillDue result (init_open self.new) }
        ensures fault { init_due self.old ≡ true → FaultRose (S.told store.old) (S.told store.new) result }
    {
        match mem::replace(self, InitMachine::Over) {
            InitMachine::Over => unreachable!(),
            InitMachine::Refused(e) => Step::Done(Err(e)),
            InitMachine::Committing(commit, stored, epochs) => {
                let mut commit = commit;
                let step = commit.next(alloc, &stored.sequenced, store, moment);
                match step {
                    Step::Again => {
                        drop(mem::replace(self, InitMachine::Committing(commit, stored, epochs)));
                        Step::Again
                    }
                    Step::Done(Err(e)) => {
                        if e.is_memory() {
                            drop(mem::replace(
                                self,
                                InitMachine::Committing(commit, stored, epochs),
                            ));
                            Step::Done(Err(e))
                        } else {
                            drop(commit);
                            drop(stored);
                            drop(epochs);
                            Step::Done(Err(e))
                        }
                    }
                    Step::Done(Ok(version)) => {
                        drop(commit);
                        Step::Done(fence(stored, epochs, Ok(version)))
                    }
                }
            }
        }
    }
}
