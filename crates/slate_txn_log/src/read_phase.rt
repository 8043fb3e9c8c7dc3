//! Reading the latest version.
ghost use Rattle.std.specs.Prelude.{◌≡◌, ◌<◌, true};
ghost use Rattle.slate_store.specs.Machines.{Steps, Held, GoesOn, IsAgain};
ghost use Rattle.slate_txn_log.specs.Due.{StillDue, FaultRose, NoFault, WhereOut};
ghost use Rattle.slate_txn_log.specs.ReadPhase.{read_asks, read_goes, read_due, is_listing, Falls, AtVersion};

use crate::boundary::{boundary_in, greatest};
use crate::sequenced::Sequenced;
use slate_ids::{FormatName, Millis, ObjectCodec, SlateDBError};
use slate_store::{ObjectStore, Step, StoreAnswer, StoreCall, perform};
use std::alloc::Global;
use std::mem;

/// Where a read stands.
#[derive(Debug, Drop)]
pub enum ReadPhase<T> {
    /// The versions are to be listed.
    Listing,
    /// The greatest number is to be got.
    Getting(u64),
    /// This number's value was read. The boundary is to be got.
    Bounding(u64, T),
    /// It ended.
    Over,
}

impl<T: Drop> ReadPhase<T> {
    /// The call that is due. Takes no memory.
    pub fn asks<C>(&self, sequenced: &Sequenced<T, C>) -> StoreCall
        ensures { result ≡ read_asks sequenced.now.db sequenced.now.log self.now }
    {
        match self {
            ReadPhase::Listing => StoreCall::List(sequenced.log.folder(sequenced.db)),
            ReadPhase::Getting(n) => {
                StoreCall::Get(sequenced.log.version_path(sequenced.db, *n))
            }
            ReadPhase::Bounding(_, _) => StoreCall::Get(sequenced.log.boundary_path(sequenced.db)),
            ReadPhase::Over => StoreCall::List(sequenced.log.folder(sequenced.db)),
        }
    }

    /// Whether a call is due. None is after an end, unless memory ran out.
    pub fn due(&self) -> bool
        ensures { result ≡ read_due self.now }
    {
        match self {
            ReadPhase::Over => false,
            _ => true,
        }
    }

    /// Whether the read is at its start.
    pub fn is_listing(&self) -> bool
        ensures { result ≡ is_listing self.now }
    {
        match self {
            ReadPhase::Listing => true,
            _ => false,
        }
    }

    /// Goes on from the answer to that call. Running out of memory leaves the phase as it was.
    pub fn goes_on<C: ObjectCodec<T>>(
        &mut self,
        alloc: Global,
        sequenced: &Sequenced<T, C>,
        answer: &StoreAnswer,
    ) -> Step<Option<(u64, T)>>
        ensures goes { GoesOn
            (read_goes sequenced.now.log (C.decoded sequenced.now.codec) self.old answer.now)
            self.old self.new result }
        ensures falls { IsAgain result → Falls self.old self.new }
        ensures from { AtVersion result self.old }
        ensures due { StillDue result (read_due self.new) }
        ensures memory { WhereOut result (self.new ≡ self.old) }
    {
        match (mem::replace(self, ReadPhase::Over), answer) {
            (ReadPhase::Listing, StoreAnswer::Found(listing)) => {
                match greatest(sequenced.log, listing.as_slice()) {
                    None => Step::Done(Ok(None)),
                    Some(n) => {
                        drop(mem::replace(self, ReadPhase::Getting(n)));
                        Step::Again
                    }
                }
            }
            (ReadPhase::Getting(_), StoreAnswer::Got(None)) => {
                drop(mem::replace(self, ReadPhase::Listing));
                Step::Again
            }
            (ReadPhase::Getting(n), StoreAnswer::Got(Some(object))) => {
                match sequenced.codec.decode(alloc, object.bytes.as_slice()) {
                    Ok(value) => {
                        drop(mem::replace(self, ReadPhase::Bounding(n, value)));
                        Step::Again
                    }
                    Err(e) => {
                        if e.is_memory() {
                            drop(mem::replace(self, ReadPhase::Getting(n)));
                        }
                        Step::Done(Err(e))
                    }
                }
            }
            (ReadPhase::Bounding(n, value), StoreAnswer::Got(object)) => {
                match boundary_in(object) {
                    None => {
                        drop(value);
                        Step::Done(Err(SlateDBError::Corrupt(FormatName::Boundary)))
                    }
                    Some(boundary) => {
                        if n <= boundary {
                            drop(value);
                            drop(mem::replace(self, ReadPhase::Listing));
                            Step::Again
                        } else {
                            Step::Done(Ok(Some((n, value))))
                        }
                    }
                }
            }
            (phase, _) => {
                drop(phase);
                Step::Done(Err(SlateDBError::StoreFault))
            }
        }
    }

    /// Makes the one call that is due. Running out of memory leaves the phase as it was, and any other end leaves none due.
    pub fn next<C: ObjectCodec<T>, S: ObjectStore>(
        &mut self,
        alloc: Global,
        sequenced: &Sequenced<T, C>,
        store: &mut S,
        moment: Millis,
    ) -> Step<Option<(u64, T)>>
        requires due { read_due self.now ≡ true }
        ensures steps { Steps (S.told store.old) (S.told store.new)
            (read_asks sequenced.now.db sequenced.now.log self.old) moment
            (read_goes sequenced.now.log (C.decoded sequenced.now.codec) self.old) self.old self.new result }
        ensures falls { IsAgain result → Falls self.old self.new }
        ensures from { AtVersion result self.old }
        ensures due { StillDue result (read_due self.new) }
        ensures memory { WhereOut result (Held (S.told store.old) (S.told store.new)
            (read_asks sequenced.now.db sequenced.now.log self.old) moment self.old self.new) }
        ensures fault { NoFault (C.decoded sequenced.now.codec)
            → FaultRose (S.told store.old) (S.told store.new) result }
    {
        let call = self.asks(sequenced);
        let performed = perform(alloc, store, &call, moment);
        drop(call);
        match performed {
            Ok(answer) => {
                let step = self.goes_on(alloc, sequenced, &answer);
                drop(answer);
                step
            }
            Err(_) => Step::Done(Err(SlateDBError::OutOfMemory)),
        }
    }
}
