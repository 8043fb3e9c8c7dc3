//! Loading a holder of the latest version.
ghost use Rattle.std.specs.Prelude.{◌≡◌, ◌<◌, true};
ghost use Rattle.slate_txn_log.specs.Due.{FaultOf, FaultRose, NoFault, StillDue};
ghost use Rattle.slate_txn.specs.Loading.{loaded, try_loaded, found, found_step, LoadRan};
ghost use Rattle.slate_txn.specs.Loading.{load_due, LoadSteps, TryLoadSteps};
ghost use Rattle.slate_txn.specs.declared.load.TryLoadMachine.TheVariants.{Reading};
ghost use Rattle.slate_txn_log.specs.declared.read_phase.ReadPhase.TheVariants.{Listing};

use crate::stored::Stored;
use slate_ids::{Millis, ObjectCodec, SlateDBError};
use slate_store::{ObjectStore, Step};
use slate_txn_log::{ReadPhase, Rules, Sequenced};
use std::alloc::Global;
use std::marker::Model;
use std::mem;

/// The machine of a load that may find no version. It owns the log and the rules until it ends.
#[derive(Drop)]
pub enum TryLoadMachine<T, C, R> {
    /// The latest version is being read.
    Reading(ReadPhase<T>, Sequenced<T, C>, R),
    /// It ended.
    Over,
}

/// The machine of a load. It owns the log and the rules until it ends.
#[derive(Drop)]
pub struct LoadMachine<T, C, R> {
    load: TryLoadMachine<T, C, R>,
}

impl<T, C, R> Model for LoadMachine<T, C, R> {
    ghost use Rattle.slate_txn.specs.declared.load.TryLoadMachine.{TryLoadMachine};

    ghost Value = { TryLoadMachine T C R };

    ghost view = { λ a. a.load };
}

// The holder of the version that was read, or none.
fn hold<T: Drop, C: Drop, R: Drop>(
    sequenced: Sequenced<T, C>,
    rules: R,
    reply: Result<Option<(u64, T)>, SlateDBError>,
) -> Result<Option<Stored<T, C, R>>, SlateDBError>
    ensures { result ≡ try_loaded sequenced rules reply }
{
    match reply {
        Ok(Some((id, object))) => Ok(Some(Stored {
            sequenced,
            rules,
            id,
            object,
        })),
        Ok(None) => Ok(None),
        Err(e) => Err(e),
    }
}

// The holder, where there is one.
fn find<X: Drop>(reply: Result<Option<X>, SlateDBError>) -> Result<X, SlateDBError>
    ensures { result ≡ found reply }
{
    match reply {
        Ok(Some(holder)) => Ok(holder),
        Ok(None) => Err(SlateDBError::LatestTransactionalObjectVersionMissing),
        Err(e) => Err(e),
    }
}

// The same of a step.
fn find_step<X: Drop>(step: Step<Option<X>>) -> Step<X>
    ensures { result ≡ found_step step }
{
    match step {
        Step::Again => Step::Again,
        Step::Done(reply) => Step::Done(find(reply)),
    }
}

impl<T: Drop, C: ObjectCodec<T> + Drop, R: Rules<T> + Drop> Stored<T, C, R> {
    /// A holder of the latest version, read as `read_latest` does, or none where the log has no version.
    pub fn try_load<S: ObjectStore>(
        alloc: Global,
        store: &mut S,
        sequenced: Sequenced<T, C>,
        rules: R,
        tries: u32,
    ) -> Result<Option<Stored<T, C, R>>, SlateDBError>
        requires { 0 < tries }
        ensures load { LoadRan C.decoded tries (S.told store.old) (S.told store.new)
            sequenced (try_loaded sequenced rules) result }
        ensures fault { NoFault (C.decoded sequenced.codec)
            → FaultOf (S.told store.old) (S.told store.new) result }
    {
        let reply = sequenced.read_latest(alloc, store, tries);
        hold(sequenced, rules, reply)
    }

    /// The machine of such a load.
    pub fn start_try_load(sequenced: Sequenced<T, C>, rules: R) -> TryLoadMachine<T, C, R>
        ensures { result ≡ Reading Listing sequenced rules }
    {
        TryLoadMachine::Reading(ReadPhase::Listing, sequenced, rules)
    }

    /// A holder of the latest version, read as `read_latest` does. Refused with
    /// `LatestTransactionalObjectVersionMissing` where the log has none.
    pub fn load<S: ObjectStore>(
        alloc: Global,
        store: &mut S,
        sequenced: Sequenced<T, C>,
        rules: R,
        tries: u32,
    ) -> Result<Stored<T, C, R>, SlateDBError>
        requires { 0 < tries }
        ensures load { LoadRan C.decoded tries (S.told store.old) (S.told store.new)
            sequenced (loaded sequenced rules) result }
        ensures fault { NoFault (C.decoded sequenced.codec)
            → FaultOf (S.told store.old) (S.told store.new) result }
    {
        let reply = sequenced.read_latest(alloc, store, tries);
        find(hold(sequenced, rules, reply))
    }

    /// The machine of a load.
    pub fn start_load(sequenced: Sequenced<T, C>, rules: R) -> LoadMachine<T, C, R>
        ensures { result ≡ Reading Listing sequenced rules }
    {
        LoadMachine {
            load: TryLoadMachine::Reading(ReadPhase::Listing, sequenced, rules),
        }
    }
}

impl<T: Drop, C: ObjectCodec<T> + Drop, R: Rules<T> + Drop> TryLoadMachine<T, C, R> {
    /// Whether a call is due. None is after an end, unless memory ran out.
    pub fn due(&self) -> bool
        ensures { result ≡ load_due self.now }
    {
        match self {
            TryLoadMachine::Reading(read, _, _) => read.due(),
            TryLoadMachine::Over => false,
        }
    }

    /// Makes the one call that is due. Running out of memory leaves the machine as it was, and any other end leaves none due.
    pub fn next<S: ObjectStore>(
        &mut self,
        alloc: Global,
        store: &mut S,
        moment: Millis,
    ) -> Step<Option<Stored<T, C, R>>>
        requires due { load_due self.now ≡ true }
        ensures steps { TryLoadSteps C.decoded (S.told store.old) (S.told store.new) moment
            self.old self.new result }
        ensures due { StillDue result (load_due self.new) }
        ensures fault { ((codec : C) → NoFault (C.decoded codec))
            → FaultRose (S.told store.old) (S.told store.new) result }
    {
        match mem::replace(self, TryLoadMachine::Over) {
            TryLoadMachine::Over => unreachable!(),
            TryLoadMachine::Reading(read, sequenced, rules) => {
                let mut read = read;
                match read.next(alloc, &sequenced, store, moment) {
                    Step::Again => {
                        drop(mem::replace(self, TryLoadMachine::Reading(read, sequenced, rules)));
                        Step::Again
                    }
                    Step::Done(Err(e)) => {
                        if e.is_memory() {
                            drop(mem::replace(
                                self,
                                TryLoadMachine::Reading(read, sequenced, rules),
                            ));
                            Step::Done(Err(e))
                        } else {
                            drop(read);
                            drop(sequenced);
                            drop(rules);
                            Step::Done(Err(e))
                        }
                    }
                    Step::Done(Ok(version)) => {
                        drop(read);
                        Step::Done(hold(sequenced, rules, Ok(version)))
                    }
                }
            }
        }
    }
}

impl<T: Drop, C: ObjectCodec<T> + Drop, R: Rules<T> + Drop> LoadMachine<T, C, R> {
    /// Whether a call is due. None is after an end, unless memory ran out.
    pub fn due(&self) -> bool
        ensures { result ≡ load_due self.now }
    {
        self.load.due()
    }

    /// Makes the one call that is due. Running out of memory leaves the machine as it was, and any other end leaves none due.
    pub fn next<S: ObjectStore>(
        &mut self,
        alloc: Global,
        store: &mut S,
        moment: Millis,
    ) -> Step<Stored<T, C, R>>
        requires due { load_due self.now ≡ true }
        ensures steps { LoadSteps C.decoded (S.told store.old) (S.told store.new) moment
            self.old self.new result }
        ensures due { StillDue result (load_due self.new) }
        ensures fault { ((codec : C) → NoFault (C.decoded codec))
            → FaultRose (S.told store.old) (S.told store.new) result }
    {
        find_step(self.load.next(alloc, store, moment))
    }
}
