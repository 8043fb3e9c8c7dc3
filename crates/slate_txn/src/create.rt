//! Creating a log by its version 1.
ghost use Rattle.std.specs.Prelude.{◌≡◌, ◌≢◌, ◌⊎◌, IfOk, IfErr, IfSome, OnOk, OnErr, Some, Err, true, false};
ghost use Rattle.slate_ids.specs.Answers.{Gives};
ghost use Rattle.slate_ids.specs.declared.error.SlateDBError.TheVariants.{StoreFault};
ghost use Rattle.slate_txn_log.specs.CommitPhase.{is_putting, commit_version};
ghost use Rattle.slate_txn_log.specs.Due.{FaultOf, FaultRose, StillDue};
ghost use Rattle.slate_txn.specs.Creating.{first_commit, created, Creates, create_of, create_due, create_open, create_version, CreateKeeps, CreateSteps};
ghost use Rattle.slate_txn.specs.Holder.{holder_of};
ghost use Rattle.slate_txn.specs.Standing.{SameContents, CommitStands, may_stand};

use crate::stored::Stored;
use slate_ids::{ByteList, Millis, ObjectCodec, OutOfMemory, SlateDBError};
use slate_store::{ObjectStore, Step};
use slate_txn_log::{CommitPhase, Rules, Sequenced};
use std::alloc::Global;
use std::mem;

/// The machine of a creation. It owns the log and the rules until it ends.
#[derive(Drop)]
pub enum CreateMachine<T, C, R> {
    /// The value has no bytes, and the machine answers so.
    Refused(SlateDBError),
    /// The commit of version 1.
    Committing(CommitPhase<T>, Sequenced<T, C>, R),
    /// It ended.
    Over,
}

// The put of a value as version 1.
fn first_commit<T: Drop, C: ObjectCodec<T>>(
    alloc: Global,
    codec: &C,
    value: T,
) -> Result<CommitPhase<T>, SlateDBError>
    ensures commit { Gives result (first_commit (C.encoded codec.now) value) }
    ensures putting { IfOk result (λ commit. is_putting commit ≡ true) }
    ensures version { IfOk result (λ commit. commit_version commit ≡ Some (1, value)) }
{
    let bytes = codec.encode(alloc, &value)?;
    Ok(CommitPhase::Putting(1, ByteList::new(bytes), value))
}

// The holder of what was put.
fn hold<T: Drop, C: Drop, R: Drop>(
    sequenced: Sequenced<T, C>,
    rules: R,
    reply: Result<(u64, T), SlateDBError>,
) -> Result<Stored<T, C, R>, SlateDBError>
    ensures { result ≡ created sequenced rules reply }
{
    match reply {
        Ok((id, object)) => Ok(Stored {
            sequenced,
            rules,
            id,
            object,
        }),
        Err(e) => {
            drop(sequenced);
            drop(rules);
            Err(e)
        }
    }
}

impl<T: Drop, C: ObjectCodec<T> + Drop, R: Rules<T> + Drop> Stored<T, C, R> {
    /// Commits the value as version 1, in one try, and holds it. No rule is asked, since there is no old value. A value
    /// without bytes is refused before any call. Where the log has a version 1, or its boundary is at or above 1, the answer
    /// is `TransactionalObjectVersionExists`, in the second case with the boundary. A refusal drops what was handed in, and the
    /// store's contents are as before, except that the put may stand where its answer was lost, where the boundary read after
    /// it was at or above 1, or where the boundary couldn't be read.
    pub fn init<S: ObjectStore>(
        alloc: Global,
        store: &mut S,
        sequenced: Sequenced<T, C>,
        rules: R,
        value: T,
        moment: Millis,
    ) -> Result<Stored<T, C, R>, SlateDBError>
        ensures init { Creates C.encoded moment (S.told store.old) (S.told store.new)
            sequenced rules value result }
        ensures held { IfOk result (λ holder. holder ≡ holder_of sequenced rules (1, value)) }
        ensures before { IfErr (first_commit (C.encoded sequenced.codec) value)
            (λ e. S.told store.new ≡ S.told store.old) }
        ensures put { OnOk result (CommitStands sequenced.db sequenced.log moment
            (S.told store.old) (S.told store.new) (first_commit (C.encoded sequenced.codec) value)) }
        ensures left { IfErr result (λ e. may_stand e ≡ false
            → SameContents (S.told store.old) (S.told store.new)) }
        ensures stands { OnErr result (SameContents (S.told store.old) (S.told store.new)
            ⊎ CommitStands sequenced.db sequenced.log moment (S.told store.old) (S.told store.new)
            (first_commit (C.encoded sequenced.codec) value)) }
        ensures fault { first_commit (C.encoded sequenced.codec) value ≢ Err StoreFault
            → FaultOf (S.told store.old) (S.told store.new) result }
    {
        let commit = first_commit(alloc, &sequenced.codec, value)?;
        let reply = commit.run(alloc, &sequenced, store, moment);
        hold(sequenced, rules, reply)
    }

    /// The machine of a creation. Where the value has no bytes, no call is due in it.
    pub fn start_init(
        alloc: Global,
        sequenced: Sequenced<T, C>,
        rules: R,
        value: T,
    ) -> Result<CreateMachine<T, C, R>, OutOfMemory>
        ensures open { IfOk result (λ machine. create_open machine ≡ true) }
        ensures machine { IfOk result (λ machine. machine ≡ create_of
            (first_commit (C.encoded sequenced.codec) value) sequenced rules) }
        ensures version { IfOk result (λ machine. IfSome (create_version machine)
            (λ version. version ≡ (1, value))) }
    {
        match first_commit(alloc, &sequenced.codec, value) {
            Ok(commit) => Ok(CreateMachine::Committing(commit, sequenced, rules)),
            Err(e) => {
                drop(sequenced);
                drop(rules);
                if e.is_memory() {
                    drop(e);
                    Err(OutOfMemory)
                } else {
                    Ok(CreateMachine::Refused(e))
                }
            }
        }
    }
}

impl<T: Drop, C: Drop, R: Drop> CreateMachine<T, C, R> {
    /// Whether a call is due. None is after an end, unless memory ran out, nor where the value has no bytes.
    pub fn due(&self) -> bool
        ensures due { result ≡ create_due self.now }
        ensures open { result ≡ true → create_open self.now ≡ true }
    {
        match self {
            CreateMachine::Committing(commit, _, _) => commit.due(),
            _ => false,
        }
    }

    /// Makes the one call that is due. A refused creation makes none and answers its refusal. Want of memory leaves the
    /// machine as it was, and any other end leaves none due and drops log and rules, or hands them out in the holder.
    pub fn next<S: ObjectStore>(
        &mut self,
        alloc: Global,
        store: &mut S,
        moment: Millis,
    ) -> Step<Stored<T, C, R>>
        requires open { create_open self.now ≡ true }
        ensures steps { CreateSteps (S.told store.old) (S.told store.new) moment
            self.old self.new result }
        ensures version { CreateKeeps self.old self.new result }
        ensures open { create_due self.old ≡ true → StillDue result (create_open self.new) }
        ensures fault { create_due self.old ≡ true → FaultRose (S.told store.old) (S.told store.new) result }
    {
        match mem::replace(self, CreateMachine::Over) {
            CreateMachine::Over => unreachable!(),
            CreateMachine::Refused(e) => Step::Done(Err(e)),
            CreateMachine::Committing(commit, sequenced, rules) => {
                let mut commit = commit;
                let step = commit.next(alloc, &sequenced, store, moment);
                match step {
                    Step::Again => {
                        drop(mem::replace(
                            self,
                            CreateMachine::Committing(commit, sequenced, rules),
                        ));
                        Step::Again
                    }
                    Step::Done(Err(e)) => {
                        if e.is_memory() {
                            drop(mem::replace(
                                self,
                                CreateMachine::Committing(commit, sequenced, rules),
                            ));
                        } else {
                            drop(commit);
                            drop(sequenced);
                            drop(rules);
                        }
                        Step::Done(Err(e))
                    }
                    Step::Done(Ok(version)) => {
                        drop(commit);
                        Step::Done(hold(sequenced, rules, Ok(version)))
                    }
                }
            }
        }
    }
}
