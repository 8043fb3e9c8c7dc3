//! Reading the latest versions of two logs.
ghost use Rattle.std.specs.Prelude.{◌≡◌, true};
ghost use Rattle.slate_state_reader.specs.BothReads.{after_first, after_second, both_asks, both_due, both_goes, both_starts, BothFalls};
ghost use Rattle.slate_state_reader.specs.declared.both_phase.BothPhase.TheVariants.{Between, First, Second};
ghost use Rattle.slate_txn_log.specs.Due.{FaultRose, NoFault, StillDue};
ghost use Rattle.slate_txn_log.specs.ReadPhase.{read_goes};
ghost use Rattle.slate_txn_log.specs.declared.read_phase.ReadPhase.TheVariants.{Listing};
ghost use Rattle.slate_store.specs.Machines.{GoesOn, IsAgain, Steps};

use slate_ids::{Millis, ObjectCodec, SlateDBError};
use slate_store::{ObjectStore, Step, StoreAnswer, StoreCall, perform};
use slate_txn_log::{ReadPhase, Sequenced};
use std::alloc::Global;
use std::mem;

/// The latest versions of two logs, each with its number, where the log has one.
#[derive(Debug, Drop)]
pub struct Both<T, V> {
    pub one: Option<(u64, T)>,
    pub other: Option<(u64, V)>,
}

/// Where the read of two logs stands.
#[derive(Debug, Drop)]
pub enum BothPhase<T, V> {
    /// The first log is being read.
    First(ReadPhase<T>),
    /// This was read of the first log. The versions of the second are to be listed.
    Between(Option<(u64, T)>),
    /// This was read of the first log. The second is being read.
    Second(Option<(u64, T)>, ReadPhase<V>),
    /// It ended.
    Over,
}

impl<T: Drop, V: Drop> BothPhase<T, V> {
    /// The call that is due. Takes no memory.
    pub fn asks<C, D>(&self, first: &Sequenced<T, C>, second: &Sequenced<V, D>) -> StoreCall
        ensures { result ≡ both_asks first.now second.now self.now }
    {
        match self {
            BothPhase::First(read) => read.asks(first),
            BothPhase::Between(_) => StoreCall::List(second.log.folder(second.db)),
            BothPhase::Second(_, read) => read.asks(second),
            BothPhase::Over => StoreCall::List(first.log.folder(first.db)),
        }
    }

    /// Whether a call is due. None is after an end, unless memory ran out.
    pub fn due(&self) -> bool
        ensures { result ≡ both_due self.now }
    {
        match self {
            BothPhase::First(read) => read.due(),
            BothPhase::Between(_) => true,
            BothPhase::Second(_, read) => read.due(),
            BothPhase::Over => false,
        }
    }

    /// Whether the versions of a log are to be listed again.
    pub fn is_start(&self) -> bool
        ensures { result ≡ both_starts self.now }
    {
        match self {
            BothPhase::First(read) => read.is_listing(),
            BothPhase::Second(_, read) => read.is_listing(),
            _ => false,
        }
    }

    // Goes on from an answer while it reads the first log.
    fn first_on<C: ObjectCodec<T>>(
        &mut self,
        alloc: Global,
        first: &Sequenced<T, C>,
        read: ReadPhase<T>,
        answer: &StoreAnswer,
    ) -> Step<Both<T, V>>
        ensures goes { GoesOn (after_first (read_goes first.now.log (C.decoded first.now.codec) read answer.now))
            (First read) self.new result }
        ensures falls { IsAgain result → BothFalls (First read) self.new }
        ensures due { StillDue result (both_due self.new) }
    {
        let mut read = read;
        match read.goes_on(alloc, first, answer) {
            Step::Again => {
                drop(mem::replace(self, BothPhase::First(read)));
                Step::Again
            }
            Step::Done(Ok(one)) => {
                drop(read);
                drop(mem::replace(self, BothPhase::Between(one)));
                Step::Again
            }
            Step::Done(Err(e)) => {
                if e.is_memory() {
                    drop(mem::replace(self, BothPhase::First(read)));
                } else {
                    drop(read);
                    drop(mem::replace(self, BothPhase::Over));
                }
                Step::Done(Err(e))
            }
        }
    }

    // Goes on from an answer while it reads the second log.
    fn second_on<D: ObjectCodec<V>>(
        &mut self,
        alloc: Global,
        second: &Sequenced<V, D>,
        one: Option<(u64, T)>,
        read: ReadPhase<V>,
        answer: &StoreAnswer,
    ) -> Step<Both<T, V>>
        ensures goes { GoesOn (after_second one (read_goes second.now.log (D.decoded second.now.codec) read answer.now))
            (Second one read) self.new result }
        ensures falls { IsAgain result → BothFalls (Second one read) self.new }
        ensures due { StillDue result (both_due self.new) }
    {
        let mut read = read;
        match read.goes_on(alloc, second, answer) {
            Step::Again => {
                drop(mem::replace(self, BothPhase::Second(one, read)));
                Step::Again
            }
            Step::Done(Ok(other)) => {
                drop(read);
                drop(mem::replace(self, BothPhase::Over));
                Step::Done(Ok(Both { one, other }))
            }
            Step::Done(Err(e)) => {
                if e.is_memory() {
                    drop(mem::replace(self, BothPhase::Second(one, read)));
                } else {
                    drop(one);
                    drop(read);
                    drop(mem::replace(self, BothPhase::Over));
                }
                Step::Done(Err(e))
            }
        }
    }

    // Goes on from the list of the second log.
    fn between_on<D: ObjectCodec<V>>(
        &mut self,
        alloc: Global,
        second: &Sequenced<V, D>,
        one: Option<(u64, T)>,
        answer: &StoreAnswer,
    ) -> Step<Both<T, V>>
        ensures goes { GoesOn (after_second one (read_goes second.now.log (D.decoded second.now.codec) Listing answer.now))
            (Between one) self.new result }
        ensures falls { IsAgain result → BothFalls (Between one) self.new }
        ensures due { StillDue result (both_due self.new) }
    {
        let mut read = ReadPhase::Listing;
        match read.goes_on(alloc, second, answer) {
            Step::Again => {
                drop(mem::replace(self, BothPhase::Second(one, read)));
                Step::Again
            }
            Step::Done(Ok(other)) => {
                drop(read);
                drop(mem::replace(self, BothPhase::Over));
                Step::Done(Ok(Both { one, other }))
            }
            Step::Done(Err(e)) => {
                drop(read);
                if e.is_memory() {
                    drop(mem::replace(self, BothPhase::Between(one)));
                } else {
                    drop(one);
                    drop(mem::replace(self, BothPhase::Over));
                }
                Step::Done(Err(e))
            }
        }
    }

    /// Goes on from the answer to that call. Running out of memory leaves the phase as it was.
    pub fn goes_on<C: ObjectCodec<T>, D: ObjectCodec<V>>(
        &mut self,
        alloc: Global,
        first: &Sequenced<T, C>,
        second: &Sequenced<V, D>,
        answer: &StoreAnswer,
    ) -> Step<Both<T, V>>
        ensures goes { GoesOn (both_goes C.decoded D.decoded first.now second.now self.old answer.now)
            self.old self.new result }
        ensures falls { IsAgain result → BothFalls self.old self.new }
        ensures due { StillDue result (both_due self.new) }
    {
        match mem::replace(self, BothPhase::Over) {
            BothPhase::First(read) => self.first_on(alloc, first, read, answer),
            BothPhase::Between(one) => self.between_on(alloc, second, one, answer),
            BothPhase::Second(one, read) => self.second_on(alloc, second, one, read, answer),
            BothPhase::Over => Step::Done(Err(SlateDBError::StoreFault)),
        }
    }

    /// Makes the one call that is due. Running out of memory leaves the phase as it was, and any other end leaves none due.
    pub fn next<C: ObjectCodec<T>, D: ObjectCodec<V>, S: ObjectStore>(
        &mut self,
        alloc: Global,
        first: &Sequenced<T, C>,
        second: &Sequenced<V, D>,
        store: &mut S,
        moment: Millis,
    ) -> Step<Both<T, V>>
        requires due { both_due self.now ≡ true }
        ensures steps { Steps (S.told store.old) (S.told store.new)
            (both_asks first.now second.now self.old) moment
            (both_goes C.decoded D.decoded first.now second.now self.old)
            self.old self.new result }
        ensures falls { IsAgain result → BothFalls self.old self.new }
        ensures due { StillDue result (both_due self.new) }
        ensures fault { NoFault (C.decoded first.now.codec) → NoFault (D.decoded second.now.codec)
            → FaultRose (S.told store.old) (S.told store.new) result }
    {
        let call = self.asks(first, second);
        let performed = perform(alloc, store, &call, moment);
        drop(call);
        match performed {
            Ok(answer) => {
                let step = self.goes_on(alloc, first, second, &answer);
                drop(answer);
                step
            }
            Err(_) => Step::Done(Err(SlateDBError::OutOfMemory)),
        }
    }
}
