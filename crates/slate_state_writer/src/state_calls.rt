//! The calls of a compactor on its state.
ghost use Rattle.std.specs.Prelude.{◌<◌, pos, true, false};
ghost use Rattle.slate_state_calls.specs.declared.state_start.StateStart.TheVariants.{Refresh, Schedule, WriteRecord, WriteTrees};
ghost use Rattle.slate_state_writer.specs.StateCalls.{StateCalled};
ghost use Rattle.slate_state_writer.specs.Writer.{KeepsOwn};
ghost use Rattle.slate_txn_log.specs.Due.{FaultOf};

use crate::compactor_writer::CompactorStateWriter;
use slate_ids::{CheckpointId, Millis, SlateDBError, Ulid};
use slate_state_calls::{StateStart, TreesWrite};
use slate_store::ObjectStore;
use std::alloc::Global;

impl CompactorStateWriter {
    /// Reads the latest version of the record and then that of the manifest, and holds each. The local record is then the one read with the
    /// local statuses of compactions that are over, and the local trees are merged with those of the manifest, as a compactor follows a
    /// writer. What is pending stays, and so does the epoch.
    ///
    /// Refused with `Fenced` where a version has a greater epoch, with `LatestTransactionalObjectVersionMissing` where a log has no version,
    /// and with `SegmentWithoutWriter` where a local segment holds tables and the manifest has none of its prefix: then the version that
    /// refused it isn't held, and the local state stays. A read starts again where its version is gone when it is got, or is at or below the
    /// boundary: of both logs together so often as there are tries, then `Contended`. Commits nothing.
    pub fn refresh<S: ObjectStore>(
        &mut self,
        alloc: Global,
        store: &mut S,
        tries: u32,
    ) -> Result<(), SlateDBError>
        requires { 0 < tries }
        ensures call { StateCalled self.old.db Refresh (pos 0) tries (S.told store.old) (S.told store.new)
            self.old.compactor self.new.compactor result }
        ensures own { KeepsOwn self.old self.new }
        ensures fault { FaultOf (S.told store.old) (S.told store.new) result }
    {
        self.call(alloc, StateStart::Refresh, store, 0, tries)
    }

    /// Commits the record read with this compaction Scheduled. That is held, and the local record is the same with the local statuses of
    /// compactions that are over; all else stays.
    ///
    /// Refused with `Fenced` where the record read has a greater epoch, and with `InvalidDBState`: `NoSuchCompaction` where it lacks the
    /// compaction, `CompactionState` where that isn't Submitted; then all that is held stays. After a conflict it begins again: each uses a
    /// turn, and so does each version that is gone when it is got, or is at or below the boundary; where all `tries` are used the answer is
    /// `Contended`. A refusal leaves no commit, unless the one that it made lost its answer or the boundary after it couldn't be read.
    /// `moment` is in milliseconds since the Unix epoch.
    pub fn schedule<S: ObjectStore>(
        &mut self,
        alloc: Global,
        store: &mut S,
        id: Ulid,
        moment: Millis,
        tries: u32,
    ) -> Result<(), SlateDBError>
        requires { 0 < tries }
        ensures call { StateCalled self.old.db (Schedule id) moment tries (S.told store.old) (S.told store.new)
            self.old.compactor self.new.compactor result }
        ensures own { KeepsOwn self.old self.new }
        ensures fault { FaultOf (S.told store.old) (S.told store.new) result }
    {
        self.call(alloc, StateStart::Schedule(id), store, moment, tries)
    }

    /// Commits the manifest read with a checkpoint of this id, which keeps for a quarter of an hour what the local trees drop, and then that
    /// manifest with the local trees merged in: entries of other databases list what is used then, and the floor is the greater of the old
    /// one and the new watermark. The base of the second commit is what was read back of the first. Then the local trees are those that were
    /// committed, and nothing is pending. Where the manifest read has the checkpoint, the first commit isn't made.
    ///
    /// Refused with `Fenced` where the manifest read has a greater epoch, with `InvalidDBState` of `NotInitialised` where it isn't
    /// initialised and lacks the checkpoint, with `SegmentWithoutWriter` where a local segment holds tables and the manifest has none of its
    /// prefix, and by the rules on new versions. After a conflict at either commit it begins again: each uses a turn, and so does each
    /// version that is gone when it is got, or is at or below the boundary; where all `tries` are used the answer is `Contended`. A refusal
    /// leaves the checkpoint where its commit stood, also in an earlier turn; the manifest with it is held then, and the local state changes
    /// with the second commit alone. `moment` is in milliseconds since the Unix epoch.
    pub fn write_manifest_safely<S: ObjectStore>(
        &mut self,
        alloc: Global,
        store: &mut S,
        checkpoint: CheckpointId,
        moment: Millis,
        tries: u32,
    ) -> Result<(), SlateDBError>
        requires { 0 < tries }
        ensures call { StateCalled self.old.db (WriteTrees (record { checkpoint = checkpoint; whole = false })) moment tries
            (S.told store.old) (S.told store.new) self.old.compactor self.new.compactor result }
        ensures own { KeepsOwn self.old self.new }
        ensures fault { FaultOf (S.told store.old) (S.told store.new) result }
    {
        let write = TreesWrite {
            checkpoint,
            whole: false,
        };
        self.call(alloc, StateStart::WriteTrees(write), store, moment, tries)
    }

    /// Commits the record read with the local statuses of compactions that are over; of these the last one and those that are pending stay
    /// in it. That is held and is the local record then; all else stays.
    ///
    /// Refused with `Fenced` where the record read has a greater epoch, with `LatestTransactionalObjectVersionMissing` where there is none,
    /// and by the rules on new records; then all that is held stays. After a conflict it begins again: each uses a turn, and so does each
    /// version that is gone when it is got, or is at or below the boundary; where all `tries` are used the answer is `Contended`. `moment` is
    /// in milliseconds since the Unix epoch.
    pub fn write_compactions_safely<S: ObjectStore>(
        &mut self,
        alloc: Global,
        store: &mut S,
        moment: Millis,
        tries: u32,
    ) -> Result<(), SlateDBError>
        requires { 0 < tries }
        ensures call { StateCalled self.old.db WriteRecord moment tries (S.told store.old) (S.told store.new)
            self.old.compactor self.new.compactor result }
        ensures own { KeepsOwn self.old self.new }
        ensures fault { FaultOf (S.told store.old) (S.told store.new) result }
    {
        self.call(alloc, StateStart::WriteRecord, store, moment, tries)
    }

    /// The manifest as `write_manifest_safely`, and after it the record as `write_compactions_safely`: never the record first, so that no
    /// compaction leaves the record before the manifest has its outputs.
    ///
    /// Refused as these. After a conflict at any commit all begins again with the manifest, with the tries of the whole call. A refusal
    /// leaves the commits that stood before it: checkpoints of earlier turns too, and, where the record's was refused, the manifest with the
    /// local trees, which are held then. `moment` is in milliseconds since the Unix epoch.
    pub fn write_state_safely<S: ObjectStore>(
        &mut self,
        alloc: Global,
        store: &mut S,
        checkpoint: CheckpointId,
        moment: Millis,
        tries: u32,
    ) -> Result<(), SlateDBError>
        requires { 0 < tries }
        ensures call { StateCalled self.old.db (WriteTrees (record { checkpoint = checkpoint; whole = true })) moment tries
            (S.told store.old) (S.told store.new) self.old.compactor self.new.compactor result }
        ensures own { KeepsOwn self.old self.new }
        ensures fault { FaultOf (S.told store.old) (S.told store.new) result }
    {
        let write = TreesWrite {
            checkpoint,
            whole: true,
        };
        self.call(alloc, StateStart::WriteTrees(write), store, moment, tries)
    }
}
