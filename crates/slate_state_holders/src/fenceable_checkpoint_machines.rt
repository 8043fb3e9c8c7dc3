//! The machines of the checkpoint calls of a fenced holder.
ghost use Rattle.std.specs.Prelude.{◌≡◌, pos, IfOk, Some, true};
ghost use Rattle.slate_txn_log.specs.Due.{FaultRose, StillDue};
ghost use Rattle.slate_state_holders.specs.CheckpointMachines.{answered, foreseen_of, fenced_machine};
ghost use Rattle.slate_txn.specs.FencedUpdating.{FencedUpdateSteps};
ghost use Rattle.slate_store.specs.declared.step.Step.{Step as StepType};
ghost use Rattle.slate_txn.specs.Updating.{update_due, update_open};
ghost use Rattle.slate_state_updates.specs.declared.manifest_change.ManifestChange.TheVariants.{WriteCheckpoint, ReplaceCheckpoint, RefreshCheckpoint, DeleteCheckpoint};

use crate::changes::{copy_options, make};
use crate::fenceable_manifest::FenceableManifest;
use crate::foreseen::{answer_step, foresee};
use slate_ids::{CheckpointId, Millis, OutOfMemory};
use slate_model::{Checkpoint, CheckpointOptions, Manifest};
use slate_state_updates::ManifestChange;
use slate_store::{ObjectStore, Step};
use slate_txn::FencedUpdateMachine;
use slate_txn_log::Right;
use std::alloc::Global;

/// The machine of a checkpoint call that answers a checkpoint, in one try. It keeps the answer from its start on, and doesn't keep
/// its holder: each step is given it.
#[derive(Drop)]
pub struct FencedCheckpointMachine {
    pub id: CheckpointId,
    pub update: FencedUpdateMachine<Manifest>,
    pub foreseen: Option<Checkpoint>,
}

/// The machine of a deletion of a checkpoint, in one try. It doesn't keep its holder: each step is given it.
#[derive(Drop)]
pub struct FencedDeleteCheckpointMachine {
    pub update: FencedUpdateMachine<Manifest>,
}

impl FenceableManifest {
    // The commit of a change of the version held, as a machine.
    fn start_change(
        &self,
        alloc: Global,
        moment: Millis,
        change: &ManifestChange,
    ) -> Result<FencedUpdateMachine<Manifest>, OutOfMemory>
        ensures open { IfOk result (λ machine. update_open machine ≡ true) }
        ensures machine { IfOk result (λ machine. machine ≡ fenced_machine change.now moment self.now) }
    {
        let f = |n: u64, manifest: &Manifest| make(alloc, change, moment, n, manifest);
        self.fenced.start_maybe_apply(alloc, f, &Right::Plain)
    }

    // The machine of a change, and of the checkpoint of this id that stands then.
    fn start_checkpoint(
        &self,
        alloc: Global,
        moment: Millis,
        id: CheckpointId,
        change: &ManifestChange,
    ) -> Result<FencedCheckpointMachine, OutOfMemory>
        ensures open { IfOk result (λ machine. update_open machine.update ≡ true) }
        ensures update { IfOk result (λ machine. machine.update ≡ fenced_machine change.now moment self.now) }
        ensures foreseen { IfOk result (λ machine. machine.foreseen
            ≡ foreseen_of id change.now moment self.now.holder.id self.now.holder.object) }
        ensures id { IfOk result (λ machine. machine.id ≡ id) }
    {
        let foreseen = foresee(alloc, &id, change, moment, self.number(), self.held())?;
        match self.start_change(alloc, moment, change) {
            Ok(update) => Ok(FencedCheckpointMachine {
                id,
                update,
                foreseen,
            }),
            Err(e) => {
                drop(foreseen);
                Err(e)
            }
        }
    }

    /// The machine of one try of `write_checkpoint`. Its new value is made from the version held now, at this moment, in milliseconds
    /// since the Unix epoch. Where nothing is to be committed, or it is refused before its first call, no call is due in it.
    pub fn start_write_checkpoint(
        &self,
        alloc: Global,
        moment: Millis,
        id: CheckpointId,
        options: &CheckpointOptions,
    ) -> Result<FencedCheckpointMachine, OutOfMemory>
        ensures open { IfOk result (λ machine. update_open machine.update ≡ true) }
        ensures update { IfOk result (λ machine. machine.update ≡ fenced_machine (WriteCheckpoint id options.now) moment self.now) }
        ensures foreseen { IfOk result (λ machine. machine.foreseen
            ≡ foreseen_of id (WriteCheckpoint id options.now) moment self.now.holder.id self.now.holder.object) }
        ensures id { IfOk result (λ machine. machine.id ≡ id) }
    {
        let options = copy_options(alloc, options)?;
        let change = ManifestChange::WriteCheckpoint { id, options };
        let machine = self.start_checkpoint(alloc, moment, id, &change);
        drop(change);
        machine
    }

    /// The machine of one try of `replace_checkpoint`. Its new value is made from the version held now, at this moment, in milliseconds
    /// since the Unix epoch. Where nothing is to be committed, or it is refused before its first call, no call is due in it.
    pub fn start_replace_checkpoint(
        &self,
        alloc: Global,
        moment: Millis,
        old: CheckpointId,
        new: CheckpointId,
        options: &CheckpointOptions,
    ) -> Result<FencedCheckpointMachine, OutOfMemory>
        ensures open { IfOk result (λ machine. update_open machine.update ≡ true) }
        ensures update { IfOk result (λ machine. machine.update ≡ fenced_machine (ReplaceCheckpoint old new options.now) moment self.now) }
        ensures foreseen { IfOk result (λ machine. machine.foreseen
            ≡ foreseen_of new (ReplaceCheckpoint old new options.now) moment self.now.holder.id self.now.holder.object) }
        ensures id { IfOk result (λ machine. machine.id ≡ new) }
    {
        let options = copy_options(alloc, options)?;
        let change = ManifestChange::ReplaceCheckpoint {
            old,
            id: new,
            options,
        };
        let machine = self.start_checkpoint(alloc, moment, new, &change);
        drop(change);
        machine
    }

    /// The machine of one try of `refresh_checkpoint`. Its new value is made from the version held now, at this moment, in milliseconds
    /// since the Unix epoch. Where nothing is to be committed, or it is refused before its first call, no call is due in it.
    pub fn start_refresh_checkpoint(
        &self,
        alloc: Global,
        moment: Millis,
        id: CheckpointId,
        lifetime: u64,
    ) -> Result<FencedCheckpointMachine, OutOfMemory>
        ensures open { IfOk result (λ machine. update_open machine.update ≡ true) }
        ensures update { IfOk result (λ machine. machine.update ≡ fenced_machine (RefreshCheckpoint id (Some lifetime)) moment self.now) }
        ensures foreseen { IfOk result (λ machine. machine.foreseen
            ≡ foreseen_of id (RefreshCheckpoint id (Some lifetime)) moment self.now.holder.id self.now.holder.object) }
        ensures id { IfOk result (λ machine. machine.id ≡ id) }
    {
        let change = ManifestChange::RefreshCheckpoint {
            id,
            lifetime: Some(lifetime),
        };
        let machine = self.start_checkpoint(alloc, moment, id, &change);
        drop(change);
        machine
    }

    /// The machine of one try of `delete_checkpoint`. Where nothing is to be committed, or it is refused before its first call, no
    /// call is due in it.
    pub fn start_delete_checkpoint(
        &self,
        alloc: Global,
        id: CheckpointId,
    ) -> Result<FencedDeleteCheckpointMachine, OutOfMemory>
        ensures open { IfOk result (λ machine. update_open machine.update ≡ true) }
        ensures update { IfOk result (λ machine. machine.update ≡ fenced_machine (DeleteCheckpoint id) (pos 0) self.now) }
    {
        let change = ManifestChange::DeleteCheckpoint { id };
        let started = self.start_change(alloc, 0, &change);
        drop(change);
        Ok(FencedDeleteCheckpointMachine { update: started? })
    }
}

impl FencedCheckpointMachine {
    /// Whether a call is due. None is after an end, unless memory ran out, nor where nothing is committed.
    pub fn due(&self) -> bool
        ensures due { result ≡ update_due self.now.update }
        ensures open { result ≡ true → update_open self.now.update ≡ true }
    {
        self.update.due()
    }

    /// Makes the one call that is due. Where none is due it makes none, and answers. A conflict ends it. After a commit the holder
    /// holds what was put, and else it is unchanged. Running out of memory leaves the machine as it was, and any other end
    /// leaves none due.
    pub fn next<S: ObjectStore>(
        &mut self,
        alloc: Global,
        holder: &mut FenceableManifest,
        store: &mut S,
        moment: Millis,
    ) -> Step<Checkpoint>
        requires open { update_open self.now.update ≡ true }
        ensures steps { (reply : StepType (Unit {0})) × FencedUpdateSteps (S.told store.old) (S.told store.new) moment
            (self.old.update, holder.old) (self.new.update, holder.new) reply
            × (result ≡ answered self.old.id self.old.foreseen reply) }
        ensures open { update_due self.old.update ≡ true → StillDue result (update_open self.new.update) }
        ensures fault { update_due self.old.update ≡ true → FaultRose (S.told store.old) (S.told store.new) result }
    {
        let step = self.update.next(alloc, &mut holder.fenced, store, moment);
        answer_step(self.id, &mut self.foreseen, step)
    }
}

impl FencedDeleteCheckpointMachine {
    /// Whether a call is due. None is after an end, unless memory ran out, nor where nothing is committed.
    pub fn due(&self) -> bool
        ensures due { result ≡ update_due self.now.update }
        ensures open { result ≡ true → update_open self.now.update ≡ true }
    {
        self.update.due()
    }

    /// Makes the one call that is due. Where none is due it makes none, and answers. A conflict ends it. After a commit the holder
    /// holds what was put, and else it is unchanged. Running out of memory leaves the machine as it was, and any other end
    /// leaves none due.
    pub fn next<S: ObjectStore>(
        &mut self,
        alloc: Global,
        holder: &mut FenceableManifest,
        store: &mut S,
        moment: Millis,
    ) -> Step<()>
        requires open { update_open self.now.update ≡ true }
        ensures steps { FencedUpdateSteps (S.told store.old) (S.told store.new) moment
            (self.old.update, holder.old) (self.new.update, holder.new) result }
        ensures open { update_due self.old.update ≡ true → StillDue result (update_open self.new.update) }
        ensures fault { update_due self.old.update ≡ true → FaultRose (S.told store.old) (S.told store.new) result }
    {
        self.update.next(alloc, &mut holder.fenced, store, moment)
    }
}
