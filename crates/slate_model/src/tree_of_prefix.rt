//! The tree of a prefix, found or made.
ghost use Rattle.std.specs.Prelude.{◌≡◌, ◌⊎◌, IfOk, IfErr, IsOk, Some, None, true, option_copied, is_some, OnOk};
ghost use Rattle.std.specs.Borrow.{sem};
ghost use Rattle.slate_ids.specs.Answers.{is_memory};
ghost use Rattle.slate_model.specs.Insertion.{tree_for, or_empty, insertion_refusal};
ghost use Rattle.slate_model.specs.Lending.{LendsWithTree};

use crate::lsm_tree_state::LsmTreeState;
use crate::manifest_core::ManifestCore;
use crate::segment_search::segment_of;
use bytes::Bytes;
use slate_ids::SlateDBError;
use std::alloc::Global;

impl ManifestCore {
    /// The tree of a prefix: the root of the empty one, and else that of the segment of exactly this prefix. Takes no memory.
    pub fn tree_for_segment(&self, prefix: &[u8]) -> Option<&LsmTreeState>
        ensures { option_copied result ≡ tree_for prefix.now self.now }
    {
        if prefix.is_empty() {
            return Some(&self.tree);
        }
        match segment_of(self.segments(), prefix) {
            Some(segment) => Some(segment.tree()),
            None => None,
        }
    }

    /// The tree of a prefix, to be changed. Where the prefix has none, it gets one without tables, in a segment that stands at its place.
    /// InvalidSegmentPrefix where the prefix begins with the one beside it, or that one with it; it changes nothing, and neither does want
    /// of memory. No memory is taken for a tree that is there.
    pub fn maybe_insert_tree(
        &mut self,
        alloc: Global,
        prefix: &Bytes,
    ) -> Result<&mut LsmTreeState, SlateDBError>
        ensures* lends { sem 𝓛 (LendsWithTree prefix.now self.entry result) }
        ensures granted { OnOk result (insertion_refusal prefix.now self.old ≡ None) }
        ensures tree { IfOk result (λ tree. tree.now ≡ or_empty (tree_for prefix.now self.old)) }
        ensures err { IfErr result
            (λ e. (insertion_refusal prefix.now self.old ≡ Some e) ⊎ (is_memory e ≡ true)) }
        ensures there { is_some (tree_for prefix.now self.old) ≡ true → IsOk result }
    {
        if prefix.is_empty() {
            return Ok(&mut self.tree);
        }
        self.segments.tree_of(alloc, prefix)
    }
}
