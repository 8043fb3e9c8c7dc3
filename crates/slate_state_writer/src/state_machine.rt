//! The machines of a compactor's calls on its state, and the plain call over them.
ghost use Rattle.std.specs.Prelude.{◌<◌, ◌≡◌, false, true};
ghost use Rattle.slate_state_calls.specs.StateSteps.{start_phase, state_asks, state_due, state_goes, StateFalls};
ghost use Rattle.slate_state_calls.specs.declared.state_start.StateStart.TheVariants.{Refresh, Schedule, WriteRecord, WriteTrees};
ghost use Rattle.slate_state_writer.specs.StateCalls.{StateCalled, StateTurnFalls, StateTurnSteps};
ghost use Rattle.slate_state_writer.specs.Writer.{KeepsOwn};
ghost use Rattle.slate_txn_log.specs.Due.{FaultOf, FaultRose, StillDue};
ghost use Rattle.slate_store.specs.Machines.{IsAgain, Steps};

use crate::compactor_writer::CompactorStateWriter;
use slate_ids::{CheckpointId, Millis, SlateDBError, Ulid};
use slate_state_calls::{StatePhase, StateStart, TreesWrite};
use slate_store::{ObjectStore, Step, perform};
use std::alloc::Global;
use std::mem;

/// The machine of a call on a compactor's state, which makes one try of each commit. It doesn't keep its writer: each step is given it.
#[derive(Drop)]
pub struct CompactorStateMachine {
    pub phase: StatePhase,
}

impl CompactorStateWriter {
    // The machine of a call that begins so.
    fn started(&self, start: &StateStart) -> CompactorStateMachine
        ensures phase { result.phase ≡ start_phase start.now self.now.compactor }
        ensures due { state_due result.phase ≡ true }
    {
        CompactorStateMachine {
            phase: start.phase(&self.compactor),
        }
    }

    /// The machine of `refresh`, which makes one try.
    pub fn start_refresh(&self) -> CompactorStateMachine
        ensures { result.phase ≡ start_phase Refresh self.now.compactor }
    {
        self.started(&StateStart::Refresh)
    }

    /// The machine of `schedule`, which makes one try.
    pub fn start_schedule(&self, id: Ulid) -> CompactorStateMachine
        ensures { result.phase ≡ start_phase (Schedule id) self.now.compactor }
    {
        self.started(&StateStart::Schedule(id))
    }

    /// The machine of `write_manifest_safely`, which makes one try of each commit.
    pub fn start_write_manifest_safely(&self, checkpoint: CheckpointId) -> CompactorStateMachine
        ensures { result.phase ≡ start_phase (WriteTrees (record { checkpoint = checkpoint; whole = false })) self.now.compactor }
    {
        self.started(&StateStart::WriteTrees(TreesWrite {
            checkpoint,
            whole: false,
        }))
    }

    /// The machine of `write_compactions_safely`, which makes one try.
    pub fn start_write_compactions_safely(&self) -> CompactorStateMachine
        ensures { result.phase ≡ start_phase WriteRecord self.now.compactor }
    {
        self.started(&StateStart::WriteRecord)
    }

    /// The machine of `write_state_safely`, which makes one try of each commit.
    pub fn start_write_state_safely(&self, checkpoint: CheckpointId) -> CompactorStateMachine
        ensures { result.phase ≡ start_phase (WriteTrees (record { checkpoint = checkpoint; whole = true })) self.now.compactor }
    {
        self.started(&StateStart::WriteTrees(TreesWrite {
            checkpoint,
            whole: true,
        }))
    }
}

impl CompactorStateMachine {
    /// Whether a call is due. None is after an end, unless memory ran out.
    pub fn due(&self) -> bool
        ensures { result ≡ state_due self.now.phase }
    {
        self.phase.due()
    }

    // Begins again, as this call begins.
    fn begin_again(&mut self, start: &StateStart, writer: &CompactorStateWriter)
        ensures phase { self.new.phase ≡ start_phase start.now writer.now.compactor }
        ensures due { state_due self.new.phase ≡ true }
    {
        drop(mem::replace(&mut self.phase, start.phase(&writer.compactor)));
    }

    /// Makes the one call that is due. A conflict ends it. What the writer holds changes where a read or a commit ended well. Running out of
    /// memory leaves machine and writer as they were, and any other end leaves none due.
    pub fn next<S: ObjectStore>(
        &mut self,
        alloc: Global,
        writer: &mut CompactorStateWriter,
        store: &mut S,
        moment: Millis,
    ) -> Step<()>
        requires due { state_due self.now.phase ≡ true }
        ensures steps { Steps (S.told store.old) (S.told store.new) (state_asks writer.old.db self.old.phase) moment
            (state_goes moment (self.old.phase, writer.old.compactor))
            (self.old.phase, writer.old.compactor) (self.new.phase, writer.new.compactor) result }
        ensures falls { IsAgain result → StateFalls self.old.phase self.new.phase }
        ensures due { StillDue result (state_due self.new.phase) }
        ensures own { KeepsOwn writer.old writer.new }
        ensures fault { FaultRose (S.told store.old) (S.told store.new) result }
    {
        match self.phase.asks(alloc, writer.db) {
            Ok(call) => {
                let performed = perform(alloc, store, &call, moment);
                drop(call);
                match performed {
                    Ok(answer) => {
                        let db = writer.db;
                        let step = self
                            .phase
                            .goes_on(alloc, db, &mut writer.compactor, moment, &answer);
                        drop(answer);
                        step
                    }
                    Err(_) => Step::Done(Err(SlateDBError::OutOfMemory)),
                }
            }
            Err(_) => Step::Done(Err(SlateDBError::OutOfMemory)),
        }
    }
}

// Its machine, and whether its last step used a turn.
#[derive(Drop)]
struct StateTurns {
    machine: CompactorStateMachine,
    is_turned: bool,
}

impl StateTurns {
    // Makes the one call that is due; after a conflict the call begins again.
    fn next<S: ObjectStore>(
        &mut self,
        alloc: Global,
        start: &StateStart,
        writer: &mut CompactorStateWriter,
        store: &mut S,
        moment: Millis,
    ) -> Step<()>
        requires due { state_due self.now.machine.phase ≡ true }
        ensures steps { StateTurnSteps start.now moment (S.told store.old) (S.told store.new)
            self.old writer.old self.new writer.new result }
        ensures falls { IsAgain result → StateTurnFalls self.old.machine.phase self.new.machine.phase self.new.is_turned }
        ensures due { StillDue result (state_due self.new.machine.phase) }
        ensures own { KeepsOwn writer.old writer.new }
    {
        let manifests = self.machine.phase.at_manifests();
        match self.machine.next(alloc, writer, store, moment) {
            Step::Again => {
                self.is_turned = self.machine.phase.lists(manifests);
                Step::Again
            }
            Step::Done(Ok(())) => Step::Done(Ok(())),
            Step::Done(Err(e)) => {
                if e.is_conflict() {
                    drop(e);
                    self.machine.begin_again(start, writer);
                    self.is_turned = true;
                    Step::Again
                } else {
                    Step::Done(Err(e))
                }
            }
        }
    }
}

impl CompactorStateWriter {
    /// A call on the state, from where it begins until it ends or the tries are used up.
    pub(crate) fn call<S: ObjectStore>(
        &mut self,
        alloc: Global,
        start: StateStart,
        store: &mut S,
        moment: Millis,
        tries: u32,
    ) -> Result<(), SlateDBError>
        requires { 0 < tries }
        ensures call { StateCalled self.old.db start moment tries (S.told store.old) (S.told store.new)
            self.old.compactor self.new.compactor result }
        ensures own { KeepsOwn self.old self.new }
        ensures fault { FaultOf (S.told store.old) (S.told store.new) result }
    {
        let mut turns = StateTurns {
            machine: self.started(&start),
            is_turned: false,
        };
        let mut left = tries;
        loop {
            match turns.next(alloc, &start, self, store, moment) {
                Step::Done(result) => {
                    drop(turns);
                    return result;
                }
                Step::Again => {}
            }
            if turns.is_turned {
                if left == 1 {
                    drop(turns);
                    return Err(SlateDBError::Contended);
                }
                left -= 1;
            }
        }
    }
}
