//! Committing the next version.
ghost use Rattle.std.specs.Prelude.{◌≡◌, ◌+◌, ◌<◌, IfOk, Some, true};
ghost use Rattle.slate_ids.specs.Answers.{Gives};
ghost use Rattle.slate_store.specs.Machines.{Steps, Held, GoesOnAlways, IsAgain};
ghost use Rattle.slate_txn_log.specs.CommitPhase.{prepared, commit_asks, commit_goes, commit_due, commit_rank, is_putting, commit_version, KeepsVersion};
ghost use Rattle.slate_txn_log.specs.Due.{StillDue, FaultRose, WhereOut, OutBefore, NeverOut};

use crate::boundary::boundary_in;
use crate::right::Right;
use crate::rules::Rules;
use crate::sequenced::Sequenced;
use slate_ids::{ByteList, FormatName, Millis, ObjectCodec, OutOfMemory, SlateDBError};
use slate_store::{ObjectStore, Step, StoreAnswer, StoreCall, perform};
use std::alloc::Global;
use std::mem;

/// Where a commit stands.
#[derive(Debug, Drop)]
pub enum CommitPhase<T> {
    /// This number is to be put: the value's bytes.
    Putting(u64, ByteList, T),
    /// This number was put. The boundary is to be got.
    Bounding(u64, T),
    /// It ended.
    Over,
}

/// The put of a value that may follow the old one of this number. Refused are, in this order: the last number
/// (`Exhausted`), a value that the rules refuse, and a value that has no bytes.
pub fn prepare<T: Drop, C: ObjectCodec<T>, R: Rules<T>>(
    alloc: Global,
    codec: &C,
    rules: &R,
    id: u64,
    old: &T,
    value: T,
    right: &Right,
) -> Result<CommitPhase<T>, SlateDBError>
    ensures commit { Gives result
        (prepared (R.refusal rules.now) (C.encoded codec.now) id old.now value right.now) }
    ensures putting { IfOk result (λ commit. is_putting commit ≡ true) }
    ensures version { IfOk result (λ commit. commit_version commit ≡ Some (id + 1, value)) }
{
    if id == u64::MAX {
        return Err(SlateDBError::Exhausted(id));
    }
    rules.check(alloc, id, old, &value, right)?;
    let bytes = codec.encode(alloc, &value)?;
    Ok(CommitPhase::Putting(id + 1, ByteList::new(bytes), value))
}

impl<T: Drop> CommitPhase<T> {
    /// The call that is due.
    pub fn asks<C>(
        &self,
        alloc: Global,
        sequenced: &Sequenced<T, C>,
    ) -> Result<StoreCall, OutOfMemory>
        ensures { IfOk result (λ call. call ≡ commit_asks sequenced.now.db sequenced.now.log self.now) }
    {
        match self {
            CommitPhase::Putting(n, bytes, _) => {
                let copied = bytes.copy(alloc)?;
                let path = sequenced.log.version_path(sequenced.db, *n);
                Ok(StoreCall::PutNew(path, copied))
            }
            CommitPhase::Bounding(_, _) => {
                Ok(StoreCall::Get(sequenced.log.boundary_path(sequenced.db)))
            }
            CommitPhase::Over => Ok(StoreCall::Get(sequenced.log.boundary_path(sequenced.db))),
        }
    }

    /// Whether a call is due. None is after an end, unless memory ran out.
    pub fn due(&self) -> bool
        ensures { result ≡ commit_due self.now }
    {
        match self {
            CommitPhase::Over => false,
            _ => true,
        }
    }

    /// Goes on from the answer to that call. Takes no memory.
    pub fn goes_on(&mut self, answer: &StoreAnswer) -> Step<(u64, T)>
        ensures goes { GoesOnAlways (commit_goes self.old answer.now) self.new result }
        ensures falls { IsAgain result → commit_rank self.new < commit_rank self.old }
        ensures due { StillDue result (commit_due self.new) }
        ensures version { KeepsVersion self.old self.new result }
        ensures memory { NeverOut result }
    {
        match (mem::replace(self, CommitPhase::Over), answer) {
            (CommitPhase::Putting(n, bytes, value), StoreAnswer::Created(None)) => {
                drop(bytes);
                drop(value);
                Step::Done(Err(SlateDBError::TransactionalObjectVersionExists {
                    number: n,
                    boundary: None,
                }))
            }
            (CommitPhase::Putting(n, bytes, value), StoreAnswer::Created(Some(_))) => {
                drop(bytes);
                drop(mem::replace(self, CommitPhase::Bounding(n, value)));
                Step::Again
            }
            (CommitPhase::Bounding(n, value), StoreAnswer::Got(object)) => {
                match boundary_in(object) {
                    None => {
                        drop(value);
                        Step::Done(Err(SlateDBError::Corrupt(FormatName::Boundary)))
                    }
                    Some(boundary) => {
                        if n <= boundary {
                            drop(value);
                            Step::Done(Err(SlateDBError::TransactionalObjectVersionExists {
                                number: n,
                                boundary: Some(boundary),
                            }))
                        } else {
                            Step::Done(Ok((n, value)))
                        }
                    }
                }
            }
            (phase, _) => {
                drop(phase);
                Step::Done(Err(SlateDBError::StoreFault))
            }
        }
    }

    /// Makes the one call that is due. Running out of memory leaves the phase as it was, and any other end leaves none due.
    pub fn next<C, S: ObjectStore>(
        &mut self,
        alloc: Global,
        sequenced: &Sequenced<T, C>,
        store: &mut S,
        moment: Millis,
    ) -> Step<(u64, T)>
        requires due { commit_due self.now ≡ true }
        ensures steps { Steps (S.told store.old) (S.told store.new)
            (commit_asks sequenced.now.db sequenced.now.log self.old) moment
            (commit_goes self.old) self.old self.new result }
        ensures falls { IsAgain result → commit_rank self.new < commit_rank self.old }
        ensures due { StillDue result (commit_due self.new) }
        ensures version { KeepsVersion self.old self.new result }
        ensures memory { WhereOut result (Held (S.told store.old) (S.told store.new)
            (commit_asks sequenced.now.db sequenced.now.log self.old) moment self.old self.new) }
        ensures before { OutBefore (S.told store.old) (S.told store.new) result }
        ensures fault { FaultRose (S.told store.old) (S.told store.new) result }
    {
        match self.asks(alloc, sequenced) {
            Ok(call) => {
                let performed = perform(alloc, store, &call, moment);
                drop(call);
                match performed {
                    Ok(answer) => {
                        let step = self.goes_on(&answer);
                        drop(answer);
                        step
                    }
                    Err(_) => Step::Done(Err(SlateDBError::OutOfMemory)),
                }
            }
            Err(_) => Step::Done(Err(SlateDBError::OutOfMemory)),
        }
    }
}
