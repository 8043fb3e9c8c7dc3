//! What the writer of a compactor's state holds, and the ends of compactions, which make no store call.
ghost use Rattle.std.specs.Prelude.{◌≡◌, ◌⊎◌, Ok, Err, true, OnOk, OnErr, IfErr};
ghost use Rattle.slate_state_compactor.specs.Local as held;
ghost use Rattle.slate_state_writer.specs.Writer.{ended};
ghost use Rattle.slate_ids.specs.Answers.{is_memory};

use slate_ids::{DbPath, SlateDBError, Ulid};
use slate_model::{Compactions, Manifest};
use slate_state_calls::Compactor;
use slate_state_compactor::LocalState;
use std::alloc::Global;
use std::marker::Model;

/// A compactor that opened a database: the epoch that it committed in the manifest and in the record, the versions of both that a read or a
/// commit of its calls last ended well with, and what it holds between its calls. A version that refuses a call is not held. Epochs of other
/// compactors that are read fence it.
#[derive(Drop)]
pub struct CompactorStateWriter {
    pub(crate) db: DbPath,
    pub(crate) compactor: Compactor,
}

impl Model for CompactorStateWriter {
    ghost use Rattle.slate_state_writer.specs.Writer.{Writer};

    ghost Value = { Writer };

    ghost view = { λ a. record { db = a.db; compactor = a.compactor } };
}

impl CompactorStateWriter {
    /// The epoch that it committed in both logs.
    pub fn local_epoch(&self) -> u64
        ensures { result ≡ self.now.compactor.epoch }
    {
        self.compactor.epoch
    }

    /// The number of the record that it holds, and that record.
    pub fn compactions(&self) -> (u64, &Compactions)
        ensures number { result.0 ≡ self.now.compactor.record_id }
        ensures value { result.1.now ≡ self.now.compactor.compactions }
    {
        (self.compactor.record_id, &self.compactor.compactions)
    }

    /// The number of the manifest that it holds, and that manifest.
    pub fn manifest(&self) -> (u64, &Manifest)
        ensures number { result.0 ≡ self.now.compactor.manifest_id }
        ensures value { result.1.now ≡ self.now.compactor.manifest }
    {
        (self.compactor.manifest_id, &self.compactor.manifest)
    }

    /// What it holds between its calls: its trees, its record, and the compactions that no manifest has yet.
    pub fn local(&self) -> &LocalState
        ensures { result.now ≡ self.now.compactor.local }
    {
        &self.compactor.local
    }

    /// Finishes a compaction of the local record: its sources leave the tree of its segment, and a merge's outputs are a run of their own
    /// there; it is Completed, and pending until the manifest has it. Where a source is a view, the newest of these becomes the tree's
    /// view marker. Refused with `InvalidDBState`: `NoSuchCompaction` where the local record lacks it, `CompactionState` where it isn't
    /// Compacted, and `BadSources` where there is no such segment, its tree lacks a source, the views among the sources aren't the oldest
    /// of its L0, or a run that stays has the number of the run that is written. A refusal changes nothing. Makes no store call.
    pub fn finish(&mut self, alloc: Global, id: Ulid) -> Result<(), SlateDBError>
        ensures ok { OnOk result (held.finished id self.old.compactor.local ≡ Ok self.new.compactor.local) }
        ensures rest { self.new ≡ ended self.new.compactor.local self.old }
        ensures err { OnErr result (self.new ≡ self.old) }
        ensures refused { IfErr result (λ e. (held.finished id self.old.compactor.local ≡ Err e) ⊎ (is_memory e ≡ true)) }
    {
        self.compactor.local.finish(alloc, id)
    }

    /// Gives a compaction of the local record up: it is Failed. Refused with `InvalidDBState`: `NoSuchCompaction` where the local record
    /// lacks it, `CompactionState` where it is over. A refusal changes nothing. Makes no store call.
    pub fn fail(&mut self, alloc: Global, id: Ulid) -> Result<(), SlateDBError>
        ensures ok { OnOk result (held.failed id self.old.compactor.local ≡ Ok self.new.compactor.local) }
        ensures rest { self.new ≡ ended self.new.compactor.local self.old }
        ensures err { OnErr result (self.new ≡ self.old) }
        ensures refused { IfErr result (λ e. (held.failed id self.old.compactor.local ≡ Err e) ⊎ (is_memory e ≡ true)) }
    {
        self.compactor.local.fail(alloc, id)
    }
}
