//! What a compactor holds between its calls.
ghost use Rattle.std.specs.Prelude.{◌≡◌, ◌⊎◌, ◌++◌, IfOk, IfErr, OnOk, OnErr, Ok, Err, true, is_some};
ghost use Rattle.slate_state_compactor.specs.Local as held;
ghost use Rattle.slate_state_compactor.specs.Local.{opened, refreshed, scheduled, finished, failed, manifest_committed, pending_outputs, record_committed};
ghost use Rattle.slate_ids.specs.Answers.{is_memory};
ghost use Rattle.slate_model_records.specs.Compactions.{segment_of};
ghost use Rattle.slate_model_records.specs.Records.{entry_of};
ghost use Rattle.slate_model_records.specs.Retaining.{has_id};
ghost use Rattle.slate_state_merges.specs.LocalTrees.{tree_of, with_tree};
ghost use Rattle.slate_state_record_updates.specs.EntrySteps.{with_entry};

use crate::finishing::finished_tree;
use slate_ids::{Listed, OutOfMemory, SlateDBError, StateCause, Ulid};
use slate_model::{
    Compaction, CompactionStatus, Compactions, LsmTreeState, ManifestCore, Plain, SsTableHandle,
    SsTableId,
};
use slate_state_merges::LocalTrees;
use slate_state_record_updates::put_local_statuses;
use std::alloc::Global;
use std::mem;

/// What a compactor holds between its calls. A refresh makes another; what a commit put and the end of a
/// compaction change it in place.
#[derive(Debug, Drop)]
pub struct LocalState {
    /// Its trees.
    pub trees: LocalTrees,
    /// Its record of compactions.
    pub compactions: Compactions,
    /// The compactions that it finished and that no manifest has yet.
    pub pending: Listed<Ulid>,
}

// Whether a compaction waits for its end.
fn is_compacted(status: CompactionStatus) -> bool
    ensures { result ≡ held.is_compacted status }
{
    matches!(status, CompactionStatus::Compacted)
}

// Adds the compacted tables of these.
fn push_compacted(ids: &mut Listed<Ulid>, tables: &[SsTableHandle]) -> Result<(), OutOfMemory>
    ensures { OnOk result (ids.new ≡ ids.old ++ held.compacted_ids tables.now) }
{
    for table in tables {
        if let SsTableId::Compacted(id) = table.id {
            ids.push(id)?;
        }
    }
    Ok(())
}

// Whether ids have this one.
fn has(ids: &[Ulid], id: Ulid) -> bool
    ensures { result ≡ has_id ids.now id }
{
    ids.iter().any(|other| *other == id)
}

// A state of these trees, and of what memory was asked for.
fn whole(
    trees: LocalTrees,
    compactions: Result<Compactions, OutOfMemory>,
    pending: Result<Listed<Ulid>, OutOfMemory>,
) -> Result<LocalState, OutOfMemory>
    ensures { IfOk result (λ local. (local.trees ≡ trees) × (compactions ≡ Ok local.compactions) × (pending ≡ Ok local.pending)) }
{
    match compactions {
        Ok(compactions) => match pending {
            Ok(pending) => Ok(LocalState {
                trees,
                compactions,
                pending,
            }),
            Err(e) => {
                drop(compactions);
                drop(trees);
                Err(e)
            }
        },
        Err(e) => {
            drop(pending);
            drop(trees);
            Err(e)
        }
    }
}

impl LocalState {
    /// After an open: the trees of the manifest that its raise put, and the record that it committed last; nothing is pending.
    pub fn opened(
        alloc: Global,
        core: &ManifestCore,
        compactions: Compactions,
    ) -> Result<LocalState, OutOfMemory>
        ensures { IfOk result (λ local. local ≡ opened core.now compactions) }
    {
        match LocalTrees::of(alloc, core) {
            Ok(trees) => Ok(LocalState {
                trees,
                compactions,
                pending: Listed::new(alloc),
            }),
            Err(e) => {
                drop(compactions);
                Err(e)
            }
        }
    }

    /// After a refresh: the record read with the local statuses of compactions that are over, and the trees merged with those of the
    /// manifest read. What is pending stays. Refused with `SegmentWithoutWriter`, as the merge is.
    pub fn refreshed(
        &self,
        alloc: Global,
        compactions: &Compactions,
        core: &ManifestCore,
    ) -> Result<LocalState, SlateDBError>
        ensures ok { IfOk result (λ local. refreshed compactions.now core.now self.now ≡ Ok local) }
        ensures err { IfErr result
            (λ e. (refreshed compactions.now core.now self.now ≡ Err e) ⊎ (is_memory e ≡ true)) }
    {
        let trees = self.trees.merged(alloc, core)?;
        let read = put_local_statuses(alloc, &self.compactions, compactions);
        Ok(whole(trees, read, self.pending.copy(alloc))?)
    }

    /// After a schedule: the record committed, with the local statuses of compactions that are over. All else stays. Running out of
    /// memory leaves all as it was.
    pub fn take_scheduled(
        &mut self,
        alloc: Global,
        committed: &Compactions,
    ) -> Result<(), OutOfMemory>
        ensures ok { OnOk result (self.new ≡ scheduled committed.now self.old) }
        ensures err { OnErr result (self.new ≡ self.old) }
    {
        let taken = put_local_statuses(alloc, &self.compactions, committed)?;
        drop(mem::replace(&mut self.compactions, taken));
        Ok(())
    }

    /// After the commit of the manifest with its trees: the trees committed, and nothing is pending. The record stays. Running out of
    /// memory leaves all as it was.
    pub fn take_manifest(&mut self, alloc: Global, core: &ManifestCore) -> Result<(), OutOfMemory>
        ensures ok { OnOk result (self.new ≡ manifest_committed core.now self.old) }
        ensures err { OnErr result (self.new ≡ self.old) }
    {
        let trees = LocalTrees::of(alloc, core)?;
        drop(mem::replace(&mut self.trees, trees));
        drop(mem::replace(&mut self.pending, Listed::new(alloc)));
        Ok(())
    }

    /// After the commit of the record with its statuses: the record committed. All else stays. Takes no memory.
    pub fn take_record(&mut self, committed: Compactions)
        ensures { self.new ≡ record_committed committed self.old }
    {
        drop(mem::replace(&mut self.compactions, committed));
    }

    // The tree of a compaction's segment once it is finished.
    fn tree_after(
        &self,
        alloc: Global,
        compaction: &Compaction,
    ) -> Result<LsmTreeState, SlateDBError>
        ensures ok { IfOk result (λ tree. held.finish_found self.now compaction.now
            ≡ Ok (held.with_finished compaction.now self.now (with_tree (segment_of compaction.now.spec) tree self.now.trees))) }
        ensures there { IfOk result (λ tree. is_some (tree_of (segment_of compaction.now.spec) self.now.trees) ≡ true) }
        ensures err { IfErr result
            (λ e. (held.finish_found self.now compaction.now ≡ Err e) ⊎ (is_memory e ≡ true)) }
    {
        let bad = StateCause::BadSources(compaction.id);
        let outputs = compaction.output_ssts.as_slice();
        let prefix = compaction.spec.segment();
        match self.trees.tree_at(prefix.as_slice()) {
            None => Err(SlateDBError::InvalidDBState(bad)),
            Some(tree) => match finished_tree(alloc, &compaction.spec, outputs, tree)? {
                None => Err(SlateDBError::InvalidDBState(bad)),
                Some(made) => Ok(made),
            },
        }
    }

    // The end of a compaction that is compacted: an equal compaction, and the tree of its segment then.
    fn end_found(
        &self,
        alloc: Global,
        compaction: &Compaction,
    ) -> Result<(Compaction, LsmTreeState), SlateDBError>
        ensures ok { IfOk result (λ end. held.finish_found self.now compaction.now
            ≡ Ok (held.with_finished end.0 self.now (with_tree (segment_of end.0.spec) end.1 self.now.trees))) }
        ensures there { IfOk result (λ end. is_some (tree_of (segment_of end.0.spec) self.now.trees) ≡ true) }
        ensures same { IfOk result (λ end. end.0 ≡ compaction.now) }
        ensures err { IfErr result
            (λ e. (held.finish_found self.now compaction.now ≡ Err e) ⊎ (is_memory e ≡ true)) }
    {
        let tree = self.tree_after(alloc, compaction)?;
        match Plain::clone(compaction, alloc) {
            Ok(copied) => Ok((copied, tree)),
            Err(_) => {
                drop(tree);
                Err(SlateDBError::OutOfMemory)
            }
        }
    }

    // The end of the compaction of an id.
    #[tactic(auto, using(crate::proofs::Known::is_known))]
    fn end_of(&self, alloc: Global, id: Ulid) -> Result<(Compaction, LsmTreeState), SlateDBError>
        ensures ok { IfOk result (λ end. finished id self.now
            ≡ Ok (held.with_finished end.0 self.now (with_tree (segment_of end.0.spec) end.1 self.now.trees))) }
        ensures there { IfOk result (λ end. is_some (tree_of (segment_of end.0.spec) self.now.trees) ≡ true) }
        ensures known { IfOk result (λ end. is_some (entry_of end.0.id self.now.compactions.entries) ≡ true) }
        ensures err { IfErr result
            (λ e. (finished id self.now ≡ Err e) ⊎ (is_memory e ≡ true)) }
    {
        match self.compactions.get(id) {
            None => Err(SlateDBError::InvalidDBState(StateCause::NoSuchCompaction(id))),
            Some(compaction) => {
                if !is_compacted(compaction.status) {
                    return Err(SlateDBError::InvalidDBState(StateCause::CompactionState(id)));
                }
                self.end_found(alloc, compaction)
            }
        }
    }

    // Takes the end of a compaction: it is Completed, and pending, and its segment has this tree.
    fn take_end(
        &mut self,
        alloc: Global,
        compaction: Compaction,
        tree: LsmTreeState,
    ) -> Result<(), OutOfMemory>
        requires there { is_some (tree_of (segment_of compaction.spec) self.old.trees) ≡ true }
        requires known { is_some (entry_of compaction.id self.old.compactions.entries) ≡ true }
        ensures ok { OnOk result (self.new ≡ held.with_finished compaction self.old
            (with_tree (segment_of compaction.spec) tree self.old.trees)) }
        ensures err { OnErr result (self.new ≡ self.old) }
    {
        let mut compaction = compaction;
        match self.pending.push(compaction.id) {
            Ok(()) => {
                self.trees.set_tree(alloc, compaction.spec.segment(), tree);
                compaction.status = CompactionStatus::Completed;
                match self.compactions.insert(compaction) {
                    Ok(()) => Ok(()),
                    Err(_) => unreachable!(),
                }
            }
            Err(e) => {
                drop(tree);
                drop(compaction);
                Err(e)
            }
        }
    }

    /// Finishes the compaction of this id: its sources leave the tree of its segment, and a merge's outputs are a run of their own
    /// there; it is Completed, and pending. Where a source is a view, the newest of these becomes the tree's view marker. Refused with
    /// `InvalidDBState`: `NoSuchCompaction` where the local record lacks it, `CompactionState` where it isn't Compacted, and `BadSources`
    /// where there is no such segment, its tree lacks a source, the views among the sources aren't the oldest of its L0, or a run that
    /// stays has the number of the run that is written. A refusal and running out of memory leave all as it was. It copies that tree and
    /// the compaction alone.
    pub fn finish(&mut self, alloc: Global, id: Ulid) -> Result<(), SlateDBError>
        ensures ok { OnOk result (finished id self.old ≡ Ok self.new) }
        ensures err { OnErr result (self.new ≡ self.old) }
        ensures refused { IfErr result
            (λ e. (finished id self.old ≡ Err e) ⊎ (is_memory e ≡ true)) }
    {
        let (compaction, tree) = self.end_of(alloc, id)?;
        Ok(self.take_end(alloc, compaction, tree)?)
    }

    // The compaction of an id, Failed.
    fn failure_of(&self, alloc: Global, id: Ulid) -> Result<Compaction, SlateDBError>
        ensures ok { IfOk result (λ c. failed id self.now
            ≡ Ok (record self.now { compactions = with_entry c self.now.compactions })) }
        ensures err { IfErr result
            (λ e. (failed id self.now ≡ Err e) ⊎ (is_memory e ≡ true)) }
    {
        match self.compactions.get(id) {
            None => Err(SlateDBError::InvalidDBState(StateCause::NoSuchCompaction(id))),
            Some(compaction) => {
                if compaction.status.is_terminal() {
                    return Err(SlateDBError::InvalidDBState(StateCause::CompactionState(id)));
                }
                let mut copied = Plain::clone(compaction, alloc)?;
                copied.status = CompactionStatus::Failed;
                Ok(copied)
            }
        }
    }

    /// Makes the compaction of this id Failed. Refused with `InvalidDBState`: `NoSuchCompaction` where the local record lacks it,
    /// `CompactionState` where it is over. A refusal and running out of memory leave all as it was. It copies that compaction alone.
    pub fn fail(&mut self, alloc: Global, id: Ulid) -> Result<(), SlateDBError>
        ensures ok { OnOk result (failed id self.old ≡ Ok self.new) }
        ensures err { OnErr result (self.new ≡ self.old) }
        ensures refused { IfErr result
            (λ e. (failed id self.old ≡ Err e) ⊎ (is_memory e ≡ true)) }
    {
        let compaction = self.failure_of(alloc, id)?;
        Ok(self.compactions.insert(compaction)?)
    }

    /// The tables that the manifest with these trees may bring: the outputs of the compactions that are pending. For each compaction it
    /// looks through `pending`, which is to be short.
    pub fn pending_outputs(&self, alloc: Global) -> Result<Listed<Ulid>, OutOfMemory>
        ensures { IfOk result (λ ids. ids ≡ pending_outputs self.now) }
    {
        let mut ids = Listed::new(alloc);
        for compaction in self.compactions.iter() {
            if has(self.pending.as_slice(), compaction.id) {
                push_compacted(&mut ids, compaction.output_ssts.as_slice())?;
            }
        }
        Ok(ids)
    }
}
