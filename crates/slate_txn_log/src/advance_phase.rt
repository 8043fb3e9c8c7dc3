//! Moving the boundary of a log up.
ghost use Rattle.std.specs.Prelude.{◌≡◌, ◌<◌, IfOk, true};
ghost use Rattle.slate_store.specs.Machines.{Steps, Held, GoesOnAlways, IsAgain};
ghost use Rattle.slate_txn_log.specs.AdvancePhase.{advance_asks, advance_goes, advance_due, is_bounding, AdvanceFalls};
ghost use Rattle.slate_txn_log.specs.Due.{StillDue, FaultRose, WhereOut, OutBefore, NeverOut};

use crate::boundary::{decode_boundary, encode_boundary};
use crate::sequenced::Sequenced;
use slate_ids::{FormatName, Millis, OutOfMemory, SlateDBError};
use slate_store::{ObjectStore, Step, StoreAnswer, StoreCall, perform};
use std::alloc::Global;
use std::mem;

/// Where an advance stands.
#[derive(Clone, Copy, Debug)]
pub enum AdvancePhase {
    /// The boundary is to be got: it is to be at least this number.
    Bounding(u64),
    /// There was no boundary: this number is to be put as one.
    Creating(u64),
    /// The boundary was below this number: the object of this tag is to be replaced.
    Replacing(u64, u64),
    /// It ended.
    Over,
}

impl AdvancePhase {
    /// The call that is due.
    pub fn asks<T, C>(
        &self,
        alloc: Global,
        sequenced: &Sequenced<T, C>,
    ) -> Result<StoreCall, OutOfMemory>
        ensures { IfOk result (λ call. call ≡ advance_asks sequenced.now.db sequenced.now.log self.now) }
    {
        match self {
            AdvancePhase::Bounding(_) => {
                Ok(StoreCall::Get(sequenced.log.boundary_path(sequenced.db)))
            }
            AdvancePhase::Creating(n) => {
                let bytes = encode_boundary(alloc, *n)?;
                let path = sequenced.log.boundary_path(sequenced.db);
                Ok(StoreCall::PutNew(path, bytes))
            }
            AdvancePhase::Replacing(n, tag) => {
                let bytes = encode_boundary(alloc, *n)?;
                let path = sequenced.log.boundary_path(sequenced.db);
                Ok(StoreCall::Replace(path, *tag, bytes))
            }
            AdvancePhase::Over => Ok(StoreCall::Get(sequenced.log.boundary_path(sequenced.db))),
        }
    }

    /// Whether a call is due. None is after an end, unless memory ran out.
    pub fn due(&self) -> bool
        ensures { result ≡ advance_due self.now }
    {
        match self {
            AdvancePhase::Over => false,
            _ => true,
        }
    }

    /// Whether the advance is at its start.
    pub fn is_bounding(&self) -> bool
        ensures { result ≡ is_bounding self.now }
    {
        match self {
            AdvancePhase::Bounding(_) => true,
            _ => false,
        }
    }

    /// Goes on from the answer to that call. Takes no memory.
    pub fn goes_on(&mut self, answer: &StoreAnswer) -> Step<()>
        ensures goes { GoesOnAlways (advance_goes self.old answer.now) self.new result }
        ensures falls { IsAgain result → AdvanceFalls self.old self.new }
        ensures due { StillDue result (advance_due self.new) }
        ensures memory { NeverOut result }
    {
        match (mem::replace(self, AdvancePhase::Over), answer) {
            (AdvancePhase::Bounding(n), StoreAnswer::Got(None)) => {
                if n == 0 {
                    Step::Done(Ok(()))
                } else {
                    *self = AdvancePhase::Creating(n);
                    Step::Again
                }
            }
            (AdvancePhase::Bounding(n), StoreAnswer::Got(Some(object))) => {
                match decode_boundary(object.bytes.as_slice()) {
                    None => Step::Done(Err(SlateDBError::Corrupt(FormatName::Boundary))),
                    Some(boundary) => {
                        if n <= boundary {
                            Step::Done(Ok(()))
                        } else {
                            *self = AdvancePhase::Replacing(n, object.e_tag);
                            Step::Again
                        }
                    }
                }
            }
            (AdvancePhase::Creating(n), StoreAnswer::Created(None)) => {
                *self = AdvancePhase::Bounding(n);
                Step::Again
            }
            (AdvancePhase::Creating(_), StoreAnswer::Created(Some(_))) => Step::Done(Ok(())),
            (AdvancePhase::Replacing(n, _), StoreAnswer::Replaced(None)) => {
                *self = AdvancePhase::Bounding(n);
                Step::Again
            }
            (AdvancePhase::Replacing(_, _), StoreAnswer::Replaced(Some(_))) => Step::Done(Ok(())),
            _ => Step::Done(Err(SlateDBError::StoreFault)),
        }
    }

    /// Makes the one call that is due. Running out of memory leaves the phase as it was, and any other end leaves none due.
    pub fn next<T, C, S: ObjectStore>(
        &mut self,
        alloc: Global,
        sequenced: &Sequenced<T, C>,
        store: &mut S,
        moment: Millis,
    ) -> Step<()>
        requires due { advance_due self.now ≡ true }
        ensures steps { Steps (S.told store.old) (S.told store.new)
            (advance_asks sequenced.now.db sequenced.now.log self.old) moment
            (advance_goes self.old) self.old self.new result }
        ensures falls { IsAgain result → AdvanceFalls self.old self.new }
        ensures due { StillDue result (advance_due self.new) }
        ensures memory { WhereOut result (Held (S.told store.old) (S.told store.new)
            (advance_asks sequenced.now.db sequenced.now.log self.old) moment self.old self.new) }
        ensures before { OutBefore (S.told store.old) (S.told store.new) result }
        ensures fault { FaultRose (S.told store.old) (S.told store.new) result }
    {
        match self.asks(alloc, sequenced) {
            Ok(call) => {
                let performed = perform(alloc, store, &call, moment);
                drop(call);
                match performed {
                    Ok(answer) => {
                        let step = self.goes_on(&answer);
                        drop(answer);
                        step
                    }
                    Err(_) => Step::Done(Err(SlateDBError::OutOfMemory)),
                }
            }
            Err(_) => Step::Done(Err(SlateDBError::OutOfMemory)),
        }
    }
}
