//! The checkpoint calls of a holder.
ghost use Rattle.std.specs.Prelude.{◌<◌, Some};
ghost use Rattle.slate_txn_log.specs.Due.{FaultOf};
ghost use Rattle.slate_state_holders.specs.ManifestHolders.{Checkpointed, Changed};
ghost use Rattle.slate_state_updates.specs.declared.manifest_change.ManifestChange.TheVariants.{WriteCheckpoint, ReplaceCheckpoint, RefreshCheckpoint, DeleteCheckpoint};

use crate::changes::{answer_of, copy_options};
use crate::stored_manifest::StoredManifest;
use slate_ids::{CheckpointId, Millis, SlateDBError};
use slate_model::{Checkpoint, CheckpointOptions};
use slate_state_updates::ManifestChange;
use slate_store::ObjectStore;
use std::alloc::Global;

impl StoredManifest {
    // Commits a change at a moment, and answers the checkpoint of this id that stands then.
    fn checkpointed<S: ObjectStore>(
        &mut self,
        alloc: Global,
        store: &mut S,
        id: &CheckpointId,
        change: &ManifestChange,
        moment: Millis,
        tries: u32,
    ) -> Result<Checkpoint, SlateDBError>
        requires { 0 < tries }
        ensures answer { Checkpointed id.now change.now moment tries (S.told store.old) (S.told store.new)
            self.old self.new result }
        ensures fault { FaultOf (S.told store.old) (S.told store.new) result }
    {
        let reply = self.commit_change(alloc, store, change, moment, tries);
        answer_of(alloc, id, self.held(), reply)
    }

    /// Commits the version held with one checkpoint more, the last, and answers the checkpoint of this id that stands in the
    /// version then held. Where the id is there nothing is committed. Without a source the checkpoint names the version that its
    /// commit makes, and is refused with `InvalidDBState` where the manifest isn't initialised; with one it names the source's
    /// version, and is refused with `CheckpointMissing` of the source where that isn't there. It expires its lifetime after
    /// `moment`, both in milliseconds. After a conflict the latest version is read and held, and the checkpoint is added to
    /// that: so often as there are tries, then `Contended`. The holder holds what was put or read last. Where memory runs out for the answer's copy alone, the
    /// checkpoint stands.
    pub fn write_checkpoint<S: ObjectStore>(
        &mut self,
        alloc: Global,
        store: &mut S,
        moment: Millis,
        tries: u32,
        id: CheckpointId,
        options: &CheckpointOptions,
    ) -> Result<Checkpoint, SlateDBError>
        requires { 0 < tries }
        ensures answer { Checkpointed id (WriteCheckpoint id options.now) moment tries
            (S.told store.old) (S.told store.new) self.old self.new result }
        ensures fault { FaultOf (S.told store.old) (S.told store.new) result }
    {
        let options = copy_options(alloc, options)?;
        let change = ManifestChange::WriteCheckpoint { id, options };
        let reply = self.checkpointed(alloc, store, &id, &change, moment, tries);
        drop(change);
        reply
    }

    /// The same, without the checkpoint `old`, which may be absent: both in one commit. Where the new id is there nothing is
    /// committed, and `old` stays.
    pub fn replace_checkpoint<S: ObjectStore>(
        &mut self,
        alloc: Global,
        store: &mut S,
        moment: Millis,
        tries: u32,
        old: CheckpointId,
        new: CheckpointId,
        options: &CheckpointOptions,
    ) -> Result<Checkpoint, SlateDBError>
        requires { 0 < tries }
        ensures answer { Checkpointed new (ReplaceCheckpoint old new options.now) moment tries
            (S.told store.old) (S.told store.new) self.old self.new result }
        ensures fault { FaultOf (S.told store.old) (S.told store.new) result }
    {
        let options = copy_options(alloc, options)?;
        let change = ManifestChange::ReplaceCheckpoint {
            old,
            id: new,
            options,
        };
        let reply = self.checkpointed(alloc, store, &new, &change, moment, tries);
        drop(change);
        reply
    }

    /// Commits the version held with another expiry of a checkpoint: `lifetime` milliseconds after `moment`. Refused with
    /// `CheckpointMissing` where it isn't there. Conflicts, tries and want of memory are as in `write_checkpoint`.
    pub fn refresh_checkpoint<S: ObjectStore>(
        &mut self,
        alloc: Global,
        store: &mut S,
        moment: Millis,
        tries: u32,
        id: CheckpointId,
        lifetime: u64,
    ) -> Result<Checkpoint, SlateDBError>
        requires { 0 < tries }
        ensures answer { Checkpointed id (RefreshCheckpoint id (Some lifetime)) moment tries
            (S.told store.old) (S.told store.new) self.old self.new result }
        ensures fault { FaultOf (S.told store.old) (S.told store.new) result }
    {
        let change = ManifestChange::RefreshCheckpoint {
            id,
            lifetime: Some(lifetime),
        };
        let reply = self.checkpointed(alloc, store, &id, &change, moment, tries);
        drop(change);
        reply
    }

    /// Commits the version held without a checkpoint. Where it isn't there nothing is committed. Conflicts and tries are as in
    /// `write_checkpoint`.
    pub fn delete_checkpoint<S: ObjectStore>(
        &mut self,
        alloc: Global,
        store: &mut S,
        moment: Millis,
        tries: u32,
        id: CheckpointId,
    ) -> Result<(), SlateDBError>
        requires { 0 < tries }
        ensures deleted { Changed (DeleteCheckpoint id) moment tries
            (S.told store.old) (S.told store.new) self.old self.new result }
        ensures fault { FaultOf (S.told store.old) (S.told store.new) result }
    {
        let change = ManifestChange::DeleteCheckpoint { id };
        let reply = self.commit_change(alloc, store, &change, moment, tries);
        drop(change);
        reply
    }
}
