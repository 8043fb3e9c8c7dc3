//! The open of a database by a compactor, as a machine and as a plain call.
ghost use Rattle.std.specs.Prelude.{◌<◌, ◌≡◌, false, true};
ghost use Rattle.slate_state_calls.specs.Opening.{open_asks, open_due, open_start, OpenFalls};
ghost use Rattle.slate_state_writer.specs.PlainOpening.{writer_goes, OpenTurnFalls, OpenTurnSteps, Opens};
ghost use Rattle.slate_state_writer.specs.Writer.{held_by};
ghost use Rattle.slate_txn_log.specs.Due.{FaultOf, FaultRose, StillDue};
ghost use Rattle.slate_txn_laws.specs.Replies.{step_as};
ghost use Rattle.slate_store.specs.Machines.{IsAgain, Steps};

use crate::compactor_writer::CompactorStateWriter;
use slate_ids::{DbPath, Millis, SlateDBError};
use slate_state_calls::{Compactor, OpenPhase};
use slate_store::{ObjectStore, Step, perform};
use std::alloc::Global;
use std::mem;

/// The machine of an open, which makes one try of each commit.
#[derive(Drop)]
pub struct OpenStateMachine {
    pub db: DbPath,
    pub phase: OpenPhase,
}

impl CompactorStateWriter {
    /// The machine of `new`, which makes one try of each commit.
    pub fn start_new(db: DbPath) -> OpenStateMachine
        ensures db { result.db ≡ db }
        ensures phase { result.phase ≡ open_start }
    {
        OpenStateMachine {
            db,
            phase: OpenPhase::start(),
        }
    }
}

// The step of a machine that ends with the writer of this database.
fn held_step(db: DbPath, step: Step<Compactor>) -> Step<CompactorStateWriter>
    ensures { result ≡ step_as (held_by db) step }
{
    match step {
        Step::Again => Step::Again,
        Step::Done(Ok(compactor)) => Step::Done(Ok(CompactorStateWriter { db, compactor })),
        Step::Done(Err(e)) => Step::Done(Err(e)),
    }
}

impl OpenStateMachine {
    /// Whether a call is due. None is after an end, unless memory ran out.
    pub fn due(&self) -> bool
        ensures { result ≡ open_due self.now.phase }
    {
        self.phase.due()
    }

    // Begins again.
    fn begin_again(&mut self)
        ensures db { self.new.db ≡ self.old.db }
        ensures phase { self.new.phase ≡ open_start }
    {
        drop(mem::replace(&mut self.phase, OpenPhase::start()));
    }

    /// Makes the one call that is due. A conflict ends it. Running out of memory leaves the machine as it was, and any other end leaves none
    /// due.
    pub fn next<S: ObjectStore>(
        &mut self,
        alloc: Global,
        store: &mut S,
        moment: Millis,
    ) -> Step<CompactorStateWriter>
        requires due { open_due self.now.phase ≡ true }
        ensures steps { Steps (S.told store.old) (S.told store.new) (open_asks self.old.db self.old.phase) moment
            (writer_goes self.old.db moment self.old.phase) self.old.phase self.new.phase result }
        ensures falls { IsAgain result → OpenFalls self.old.phase self.new.phase }
        ensures db { self.new.db ≡ self.old.db }
        ensures due { StillDue result (open_due self.new.phase) }
        ensures fault { FaultRose (S.told store.old) (S.told store.new) result }
    {
        match self.phase.asks(alloc, self.db) {
            Ok(call) => {
                let performed = perform(alloc, store, &call, moment);
                drop(call);
                match performed {
                    Ok(answer) => {
                        let step = self.phase.goes_on(alloc, self.db, moment, &answer);
                        drop(answer);
                        held_step(self.db, step)
                    }
                    Err(_) => Step::Done(Err(SlateDBError::OutOfMemory)),
                }
            }
            Err(_) => Step::Done(Err(SlateDBError::OutOfMemory)),
        }
    }
}

// An open as its plain call drives it.
#[derive(Drop)]
struct OpenTurns {
    machine: OpenStateMachine,
    // Whether the last step used a turn.
    is_turned: bool,
}

impl OpenTurns {
    // Makes the one call that is due; after a conflict all begins again.
    fn next<S: ObjectStore>(
        &mut self,
        alloc: Global,
        store: &mut S,
        moment: Millis,
    ) -> Step<CompactorStateWriter>
        requires due { open_due self.now.machine.phase ≡ true }
        ensures steps { OpenTurnSteps moment (S.told store.old) (S.told store.new) self.old self.new result }
        ensures falls { IsAgain result → OpenTurnFalls self.old.machine.phase self.new.machine.phase self.new.is_turned }
        ensures db { self.new.machine.db ≡ self.old.machine.db }
        ensures due { StillDue result (open_due self.new.machine.phase) }
    {
        let raises = self.machine.phase.raises();
        match self.machine.next(alloc, store, moment) {
            Step::Again => {
                self.is_turned = self.machine.phase.lists(raises);
                Step::Again
            }
            Step::Done(Ok(writer)) => Step::Done(Ok(writer)),
            Step::Done(Err(e)) => {
                if e.is_conflict() {
                    drop(e);
                    self.machine.begin_again();
                    self.is_turned = true;
                    Step::Again
                } else {
                    Step::Done(Err(e))
                }
            }
        }
    }
}

impl CompactorStateWriter {
    /// Opens a database as its compactor: commits the manifest with its compactor epoch plus one, which fences older compactors; then the
    /// record with this epoch, after a first one with epoch 0 and no compactions where there is none; and then the record in which each
    /// compaction that was Scheduled is Submitted again, without a worker, and of those that are over the last one alone is left. The local
    /// trees are those of the manifest that was committed, the local record is the last one, and nothing is pending.
    ///
    /// Refused with `LatestTransactionalObjectVersionMissing` where there is no manifest, with `Exhausted` at the last epoch or number, and
    /// with `Fenced` where the record has a greater epoch. After a conflict at any of the commits it begins again with the manifest: each
    /// conflict uses a turn, and so does each version that is gone when it is got, or is at or below the boundary; where all `tries` are
    /// used the answer is `Contended`. A refusal leaves the commits that stood before it: the manifest's alone, or also the first record, or
    /// also the record with the epoch; then other compactors that were opened before are fenced. `moment` is in milliseconds since the Unix
    /// epoch.
    pub fn new<S: ObjectStore>(
        alloc: Global,
        store: &mut S,
        db: DbPath,
        moment: Millis,
        tries: u32,
    ) -> Result<CompactorStateWriter, SlateDBError>
        requires { 0 < tries }
        ensures opens { Opens db moment tries (S.told store.old) (S.told store.new) result }
        ensures fault { FaultOf (S.told store.old) (S.told store.new) result }
    {
        let mut turns = OpenTurns {
            machine: CompactorStateWriter::start_new(db),
            is_turned: false,
        };
        let mut left = tries;
        loop {
            match turns.next(alloc, store, moment) {
                Step::Done(result) => {
                    drop(turns);
                    return result;
                }
                Step::Again => {}
            }
            if turns.is_turned {
                if left == 1 {
                    drop(turns);
                    return Err(SlateDBError::Contended);
                }
                left -= 1;
            }
        }
    }
}
