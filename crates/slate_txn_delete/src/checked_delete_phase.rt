//! Deleting a version that the latest one and the boundary allow to delete.
ghost use Rattle.std.specs.Prelude.{◌≡◌, true};
ghost use Rattle.slate_txn_log.specs.Due.{StillDue, FaultRose, NeverOut, NoFault, WhereOut};
ghost use Rattle.slate_txn_delete.specs.CheckedDelete.{boundary_told, checked_asks, checked_due, checked_goes, checked_starts, is_reading_phase};
ghost use Rattle.slate_txn_delete.specs.CheckedDelete.{allowed_goes, judged, CheckedFalls};
ghost use Rattle.slate_txn_delete.specs.declared.checked_delete_phase.CheckedDeletePhase.TheVariants.{Reading};
ghost use Rattle.slate_txn_log.specs.ReadPhase.{read_goes};
ghost use Rattle.slate_txn_log.specs.declared.read_phase.ReadPhase.TheVariants.{Bounding};
ghost use Rattle.slate_store.specs.Machines.{Steps, GoesOn, GoesOnAlways, IsAgain};

use crate::names::VersionNames;
use slate_ids::{FormatName, Millis, ObjectCodec, SlateDBError};
use slate_store::{ObjectStore, Step, StoreAnswer, StoreCall, perform};
use slate_txn_log::{ReadPhase, Sequenced, boundary_in};
use std::alloc::Global;
use std::mem;

/// Where a checked delete stands.
#[derive(Debug, Drop)]
pub enum CheckedDeletePhase<T> {
    /// The latest version and the boundary are being read: this number is deleted where they allow it.
    Reading(u64, ReadPhase<T>),
    /// The version of this number is to be deleted.
    Deleting(u64),
    /// It ended.
    Over,
}

// The boundary that was got with the latest version.
fn boundary_told(answer: &StoreAnswer) -> Option<u64>
    ensures { result ≡ boundary_told answer.now }
{
    match answer {
        StoreAnswer::Got(object) => boundary_in(object),
        _ => None,
    }
}

impl<T: Drop> CheckedDeletePhase<T> {
    /// The call that is due. Takes no memory.
    pub fn asks<C>(&self, sequenced: &Sequenced<T, C>) -> StoreCall
        ensures { result ≡ checked_asks sequenced.now.db sequenced.now.log self.now }
    {
        match self {
            CheckedDeletePhase::Reading(_, read) => read.asks(sequenced),
            CheckedDeletePhase::Deleting(n) => {
                StoreCall::Delete(sequenced.log.version_path(sequenced.db, *n))
            }
            CheckedDeletePhase::Over => {
                StoreCall::Get(sequenced.log.boundary_path(sequenced.db))
            }
        }
    }

    /// Whether a call is due. None is after an end, unless memory ran out.
    pub fn due(&self) -> bool
        ensures { result ≡ checked_due self.now }
    {
        match self {
            CheckedDeletePhase::Reading(_, read) => read.due(),
            CheckedDeletePhase::Deleting(_) => true,
            CheckedDeletePhase::Over => false,
        }
    }

    /// Whether the versions are to be listed.
    pub fn is_start(&self) -> bool
        ensures { result ≡ checked_starts self.now }
    {
        match self {
            CheckedDeletePhase::Reading(_, read) => read.is_listing(),
            _ => false,
        }
    }

    // Goes on after the read's end, with the boundary that ended it.
    fn decide<N: VersionNames<T>>(
        &mut self,
        names: &N,
        n: u64,
        latest: u64,
        value: &T,
        boundary: Option<u64>,
    ) -> Step<()>
        ensures goes { GoesOnAlways (allowed_goes (N.named names.now) n (latest, value.now) boundary) self.new result }
        ensures falls { IsAgain result → CheckedFalls (Reading n (Bounding latest value.now)) self.new }
        ensures due { StillDue result (checked_due self.new) }
        ensures memory { NeverOut result }
    {
        drop(mem::replace(self, CheckedDeletePhase::Over));
        match boundary {
            None => Step::Done(Err(SlateDBError::Corrupt(FormatName::Boundary))),
            Some(boundary) => {
                if n != latest && !names.names(value, n) && n <= boundary {
                    drop(mem::replace(self, CheckedDeletePhase::Deleting(n)));
                    Step::Again
                } else {
                    Step::Done(Err(SlateDBError::InvalidDeletion(n)))
                }
            }
        }
    }

    // Goes on from an answer while it reads.
    fn read_on<C: ObjectCodec<T>, N: VersionNames<T>>(
        &mut self,
        alloc: Global,
        sequenced: &Sequenced<T, C>,
        names: &N,
        n: u64,
        read: ReadPhase<T>,
        answer: &StoreAnswer,
    ) -> Step<()>
        ensures goes { GoesOn (judged (N.named names.now) n (boundary_told answer.now)
            (read_goes sequenced.now.log (C.decoded sequenced.now.codec) read answer.now))
            (Reading n read) self.new result }
        ensures falls { IsAgain result → CheckedFalls (Reading n read) self.new }
        ensures due { StillDue result (checked_due self.new) }
    {
        let mut read = read;
        match read.goes_on(alloc, sequenced, answer) {
            Step::Again => {
                drop(mem::replace(self, CheckedDeletePhase::Reading(n, read)));
                Step::Again
            }
            Step::Done(Err(e)) => {
                if e.is_memory() {
                    drop(mem::replace(self, CheckedDeletePhase::Reading(n, read)));
                } else {
                    drop(read);
                    drop(mem::replace(self, CheckedDeletePhase::Over));
                }
                Step::Done(Err(e))
            }
            Step::Done(Ok(None)) => {
                drop(read);
                drop(mem::replace(self, CheckedDeletePhase::Over));
                Step::Done(Err(SlateDBError::LatestTransactionalObjectVersionMissing))
            }
            Step::Done(Ok(Some((latest, value)))) => {
                drop(read);
                let step = self.decide(names, n, latest, &value, boundary_told(answer));
                drop(value);
                step
            }
        }
    }

    /// Goes on from the answer to that call. Running out of memory leaves the phase as it was.
    pub fn goes_on<C: ObjectCodec<T>, N: VersionNames<T>>(
        &mut self,
        alloc: Global,
        sequenced: &Sequenced<T, C>,
        names: &N,
        answer: &StoreAnswer,
    ) -> Step<()>
        ensures goes { GoesOn (checked_goes sequenced.now.log (C.decoded sequenced.now.codec)
            (N.named names.now) self.old answer.now) self.old self.new result }
        ensures falls { IsAgain result → CheckedFalls self.old self.new }
        ensures due { StillDue result (checked_due self.new) }
        ensures reading { WhereOut result (is_reading_phase self.old ≡ true) }
    {
        match (mem::replace(self, CheckedDeletePhase::Over), answer) {
            (CheckedDeletePhase::Reading(n, read), _) => {
                self.read_on(alloc, sequenced, names, n, read, answer)
            }
            (CheckedDeletePhase::Deleting(_), StoreAnswer::Deleted) => Step::Done(Ok(())),
            (phase, _) => {
                drop(phase);
                Step::Done(Err(SlateDBError::StoreFault))
            }
        }
    }

    /// Makes the one call that is due. Running out of memory leaves the phase as it was, and any other end leaves none due.
    pub fn next<C: ObjectCodec<T>, N: VersionNames<T>, S: ObjectStore>(
        &mut self,
        alloc: Global,
        sequenced: &Sequenced<T, C>,
        names: &N,
        store: &mut S,
        moment: Millis,
    ) -> Step<()>
        requires due { checked_due self.now ≡ true }
        ensures steps { Steps (S.told store.old) (S.told store.new)
            (checked_asks sequenced.now.db sequenced.now.log self.old) moment
            (checked_goes sequenced.now.log (C.decoded sequenced.now.codec) (N.named names.now) self.old)
            self.old self.new result }
        ensures falls { IsAgain result → CheckedFalls self.old self.new }
        ensures due { StillDue result (checked_due self.new) }
        ensures fault { NoFault (C.decoded sequenced.now.codec)
            → FaultRose (S.told store.old) (S.told store.new) result }
    {
        let call = self.asks(sequenced);
        let performed = perform(alloc, store, &call, moment);
        drop(call);
        match performed {
            Ok(answer) => {
                let step = self.goes_on(alloc, sequenced, names, &answer);
                drop(answer);
                step
            }
            Err(_) => Step::Done(Err(SlateDBError::OutOfMemory)),
        }
    }
}
