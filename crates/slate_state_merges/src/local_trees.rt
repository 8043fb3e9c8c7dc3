//! The trees that a compactor holds.
ghost use Rattle.std.specs.Prelude.{◌≡◌, ◌⊎◌, IfOk, IfErr, is_some, true, option_copied, Ok, Err};
ghost use Rattle.slate_state_merges.specs.LocalTrees.{manifest_merged, manifest_with, trees_merged, tree_of, trees_of, with_tree};
ghost use Rattle.slate_ids.specs.Answers.{is_memory};
ghost use Rattle.slate_model.specs.Segments.{IsAscending};

use crate::segment_merges::merge_segments_from_writer;
use crate::tree_merge::merge_writer_and_compactor;
use bytes::Bytes;
use slate_ids::{OutOfMemory, SlateDBError, are_same, copies};
use slate_model::{LsmTreeState, Manifest, ManifestCore, Plain, Segment};
use std::alloc::Global;
use std::marker::Model;
use std::mem;

/// The trees of a database: the root's and those of its segments, whose prefixes ascend strictly.
#[derive(Debug, Drop)]
pub struct LocalTrees {
    // All that isn't a tree or a segment is as in a new database.
    core: ManifestCore,
}

impl Model for LocalTrees {
    ghost use Rattle.slate_state_merges.specs.LocalTrees.{Trees, trees_of};

    ghost Value = { Trees };

    ghost view = { λ a. trees_of a.core };
}

// Puts these trees in place of those of a manifest.
fn set_trees(core: &mut ManifestCore, tree: LsmTreeState, segments: Vec<Segment>)
    requires ascending { IsAscending segments.items }
    ensures { core.new ≡ record core.old { tree = tree; segments = segments.items } }
{
    drop(mem::replace(&mut core.tree, tree));
    core.set_segments(segments);
}

// A manifest equal to this one, but with these trees.
fn manifest_of(
    alloc: Global,
    tree: LsmTreeState,
    segments: Vec<Segment>,
    manifest: &Manifest,
) -> Result<Manifest, OutOfMemory>
    requires ascending { IsAscending segments.items }
    ensures { IfOk result (λ made.
        made ≡ manifest_with (record { tree = tree; segments = segments.items }) manifest.now) }
{
    match Plain::clone(manifest, alloc) {
        Ok(copied) => {
            let mut made = copied;
            set_trees(&mut made.core, tree, segments);
            Ok(made)
        }
        Err(e) => {
            drop(segments);
            drop(tree);
            Err(e)
        }
    }
}

impl LocalTrees {
    /// The trees of a manifest.
    pub fn of(alloc: Global, core: &ManifestCore) -> Result<LocalTrees, OutOfMemory>
        ensures { IfOk result (λ trees. trees ≡ trees_of core.now) }
    {
        let tree = Plain::clone(&core.tree, alloc)?;
        match copies(alloc, core.segments().iter()) {
            Ok(segments) => {
                let mut copied = ManifestCore::new(alloc);
                set_trees(&mut copied, tree, segments);
                Ok(LocalTrees { core: copied })
            }
            Err(e) => {
                drop(tree);
                Err(e)
            }
        }
    }

    /// The root's tree.
    pub fn root(&self) -> &LsmTreeState
        ensures { result.now ≡ self.now.tree }
    {
        &self.core.tree
    }

    /// The segments, ascending by prefix.
    pub fn segments(&self) -> &[Segment]
        ensures { result.now ≡ self.now.segments }
    {
        self.core.segments()
    }

    /// The tree of a prefix: the root's of the empty one, and else that of the segment of exactly this prefix. Takes no memory.
    pub fn tree_at(&self, prefix: &[u8]) -> Option<&LsmTreeState>
        ensures { option_copied result ≡ tree_of prefix.now self.now }
    {
        self.core.tree_for_segment(prefix)
    }

    /// A manifest equal to this one, but with these trees.
    pub fn put_in(&self, alloc: Global, manifest: &Manifest) -> Result<Manifest, OutOfMemory>
        ensures { IfOk result (λ made. made ≡ manifest_with self.now manifest.now) }
    {
        let tree = Plain::clone(&self.core.tree, alloc)?;
        match copies(alloc, self.core.segments().iter()) {
            Ok(segments) => manifest_of(alloc, tree, segments, manifest),
            Err(e) => {
                drop(tree);
                Err(e)
            }
        }
    }

    /// Puts this tree at a prefix that has one, in place of that one. All other trees stay. Takes no memory.
    #[tactic(auto, using(crate::proofs::Trees::replaced))]
    pub fn set_tree(&mut self, alloc: Global, prefix: &Bytes, tree: LsmTreeState)
        requires there { is_some (tree_of prefix.now self.old) ≡ true }
        ensures { self.new ≡ with_tree prefix.now tree self.old }
    {
        match self.core.maybe_insert_tree(alloc, prefix) {
            Ok(old) => drop(mem::replace(old, tree)),
            Err(_) => unreachable!(),
        }
    }

    /// These trees merged with those of the manifest that was read, as a compactor follows a writer. Refused with `SegmentWithoutWriter`
    /// where a segment here holds tables and the manifest has none of its prefix.
    pub fn merged(&self, alloc: Global, writer: &ManifestCore) -> Result<LocalTrees, SlateDBError>
        ensures ok { IfOk result (λ trees. trees_merged writer.now self.now ≡ Ok trees) }
        ensures err { IfErr result (λ e. (trees_merged writer.now self.now ≡ Err e) ⊎ (is_memory e ≡ true)) }
    {
        let segments = merge_segments_from_writer(alloc, self.core.segments(), writer.segments())?;
        match merge_writer_and_compactor(alloc, &writer.tree, &self.core.tree) {
            Ok(tree) => {
                let mut core = ManifestCore::new(alloc);
                set_trees(&mut core, tree, segments);
                Ok(LocalTrees { core })
            }
            Err(_) => {
                drop(segments);
                Err(SlateDBError::OutOfMemory)
            }
        }
    }

    /// What a compactor makes of a manifest: these trees merged with the manifest's, as `merged`; the entries of other databases then list
    /// only the tables that some view uses, and the floor is the greater of the old one and the new watermark. All else is as it was.
    /// Refused with `SegmentWithoutWriter`, as `merged`.
    pub fn merged_manifest(
        &self,
        alloc: Global,
        manifest: &Manifest,
    ) -> Result<Manifest, SlateDBError>
        ensures ok { IfOk result (λ made. manifest_merged manifest.now self.now ≡ Ok made) }
        ensures err { IfErr result
            (λ e. (manifest_merged manifest.now self.now ≡ Err e) ⊎ (is_memory e ≡ true)) }
    {
        let writer = manifest.core.segments();
        let segments = merge_segments_from_writer(alloc, self.core.segments(), writer)?;
        let tree = match merge_writer_and_compactor(alloc, &manifest.core.tree, &self.core.tree) {
            Ok(tree) => tree,
            Err(_) => {
                drop(segments);
                return Err(SlateDBError::OutOfMemory);
            }
        };
        let mut made = manifest_of(alloc, tree, segments, manifest)?;
        made.prune_external_sst_ids();
        made.core.floor = manifest.core.floor.max(made.core.watermark());
        Ok(made)
    }
}

impl Plain for LocalTrees {
    fn clone(&self, alloc: Global) -> Result<LocalTrees, OutOfMemory> {
        LocalTrees::of(alloc, &self.core)
    }

    fn is(&self, other: &LocalTrees) -> bool {
        self.core.tree.is(&other.core.tree)
            && are_same(self.core.segments().iter(), other.core.segments().iter())
    }
}
