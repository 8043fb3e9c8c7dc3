//! The segments of a database, in the order of their prefixes.
ghost use Rattle.std.specs.Prelude.{◌≡◌, ◌<◌, ◌⊎◌, [], OnOk, OnErr, IfOk, IfErr, IsOk, Some, None, true, length, is_some};
ghost use Rattle.std.specs.Borrow.{sem};
ghost use Rattle.slate_ids.specs.Answers.{is_memory};
ghost use Rattle.slate_model.specs.Segments as segments_by_prefix;
ghost use Rattle.slate_model.specs.Segments.{IsAscending, segment_at};
ghost use Rattle.slate_model.specs.Cores.{empty_tree};
ghost use Rattle.slate_model.specs.Nesting.{nesting_refusal};
ghost use Rattle.slate_model.specs.Insertion.{placed, tree_in, or_empty, tree_at};
ghost use Rattle.slate_model.specs.Lending.{LendsTreeAt, LendsPlaced};

use crate::lsm_tree_state::LsmTreeState;
use crate::nesting::check_nesting;
use crate::segment::Segment;
use crate::segment_search::{place_of, segment_of};
use bytes::Bytes;
use slate_ids::{OutOfMemory, SlateDBError};
use slate_model_tables::{Plain, are_same, copies};
use std::alloc::Global;
use std::marker::Model;

/// Segments whose prefixes ascend strictly; none is empty.
#[derive(Debug, Drop)]
pub(crate) struct Segments {
    items: Vec<Segment>,
}

impl Model for Segments {
    ghost use Rattle.std.specs.Prelude.{List};
    ghost use Rattle.slate_model.specs.Segments.{Prefixed, IsAscending};

    ghost Value = { List Prefixed };

    ghost view = { λ a. a.items.items };

    ghost invariant = { λ a. IsAscending a.items.items };
}

impl Segments {
    /// No segments. Takes no memory.
    pub(crate) fn new(alloc: Global) -> Segments
        ensures { result ≡ [] }
    {
        Segments {
            items: Vec::new(alloc),
        }
    }

    /// These segments. Takes no memory.
    pub(crate) fn from_vec(items: Vec<Segment>) -> Segments
        requires ascending { IsAscending items.items }
        ensures { result ≡ items.items }
    {
        Segments { items }
    }

    /// The segments, ascending by prefix.
    pub(crate) fn as_slice(&self) -> &[Segment]
        ensures segments { result.now ≡ self.now }
        ensures ascending { IsAscending self.now }
    {
        self.items.as_slice()
    }

    // Puts a segment without tables at its place. Running out of memory changes nothing.
    fn insert_empty(
        &mut self,
        alloc: Global,
        place: usize,
        prefix: &Bytes,
    ) -> Result<(), OutOfMemory>
        requires some { 0 < length prefix.now }
        requires place { place ≡ segments_by_prefix.place_of prefix.now self.old }
        requires absent { segment_at prefix.now self.old ≡ None }
        ensures ok { OnOk result (self.new ≡ placed prefix.now empty_tree self.old) }
        ensures err { OnErr result (self.new ≡ self.old) }
    {
        let segment = Segment::new(Plain::clone(prefix, alloc)?, LsmTreeState::new(alloc));
        self.items.insert(place, segment)?;
        Ok(())
    }

    // The place of a prefix's segment, which is made where it isn't there.
    #[tactic(auto, using(crate::proofs::Placing::had))]
    fn make_place(&mut self, alloc: Global, prefix: &Bytes) -> Result<usize, SlateDBError>
        requires some { 0 < length prefix.now }
        ensures place { IfOk result (λ place. place ≡ segments_by_prefix.place_of prefix.now self.old) }
        ensures granted { OnOk result (nesting_refusal prefix.now self.old ≡ None) }
        ensures placed { OnOk result
            (self.new ≡ placed prefix.now (or_empty (tree_in prefix.now self.old)) self.old) }
        ensures err { IfErr result
            (λ e. (nesting_refusal prefix.now self.old ≡ Some e) ⊎ (is_memory e ≡ true)) }
        ensures kept { OnErr result (self.new ≡ self.old) }
        ensures there { is_some (tree_in prefix.now self.old) ≡ true → IsOk result }
    {
        check_nesting(alloc, prefix, self.as_slice())?;
        let place = place_of(self.as_slice(), prefix);
        if segment_of(self.as_slice(), prefix).is_some() {
            return Ok(place);
        }
        self.insert_empty(alloc, place, prefix)?;
        Ok(place)
    }

    // The tree of the segment at a place.
    fn tree_at(&mut self, place: usize) -> &mut LsmTreeState
        requires place { place < length self.old }
        ensures* lends { sem 𝓛 (LendsTreeAt place self.entry result) }
        ensures tree { Some result.now ≡ tree_at place self.old }
    {
        self.items[place].tree_mut()
    }

    /// The tree of a prefix, to be changed; made where it isn't there. InvalidSegmentPrefix where the prefix nests with the one beside it,
    /// which changes nothing, and neither does running out of memory.
    pub(crate) fn tree_of(
        &mut self,
        alloc: Global,
        prefix: &Bytes,
    ) -> Result<&mut LsmTreeState, SlateDBError>
        requires some { 0 < length prefix.now }
        ensures* lends { sem 𝓛 (LendsPlaced prefix.now self.entry result) }
        ensures granted { OnOk result (nesting_refusal prefix.now self.old ≡ None) }
        ensures tree { IfOk result (λ tree. tree.now ≡ or_empty (tree_in prefix.now self.old)) }
        ensures err { IfErr result
            (λ e. (nesting_refusal prefix.now self.old ≡ Some e) ⊎ (is_memory e ≡ true)) }
        ensures there { is_some (tree_in prefix.now self.old) ≡ true → IsOk result }
    {
        let place = self.make_place(alloc, prefix)?;
        Ok(self.tree_at(place))
    }
}

impl Plain for Segments {
    fn clone(&self, alloc: Global) -> Result<Segments, OutOfMemory> {
        Ok(Segments::from_vec(copies(alloc, self.as_slice().iter())?))
    }

    fn is(&self, other: &Segments) -> bool {
        are_same(self.as_slice().iter(), other.as_slice().iter())
    }
}
