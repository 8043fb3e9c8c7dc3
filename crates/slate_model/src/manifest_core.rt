//! What a manifest says of its database.
ghost use Rattle.std.specs.Prelude.{◌≡◌, IfOk, IsTrue, ◌↔◌};
ghost use Rattle.slate_model.specs.Segments.{IsAscending};
ghost use Rattle.slate_model.specs.Cores.{new_core, SameNumbers};

use crate::checkpoint::Checkpoint;
use crate::lsm_tree_state::LsmTreeState;
use crate::segment::Segment;
use crate::segments::Segments;
use crate::sequence_tracker::SequenceTracker;
use slate_ids::{Listed, OutOfMemory, Text, clone_both};
use slate_model_tables::Plain;
use std::alloc::Global;
use std::marker::Model;
use std::mem;

// The trees of a manifest: of the keys in no segment, and of the segments.
type BothTrees = (LsmTreeState, Segments);

// The names of a manifest: of the extractor, and of the store of the write-ahead log.
type Names = (Option<Text>, Option<Text>);

// The lists of a manifest: of moments, and of checkpoints.
type Lists = (SequenceTracker, Listed<Checkpoint>);

/// What a manifest says of its database. The prefixes of its segments ascend strictly, and none is empty.
#[derive(Debug, Drop)]
pub struct ManifestCore {
    /// Whether the database is ready for use.
    pub initialized: bool,
    /// The tree of the keys that are in no segment.
    pub tree: LsmTreeState,
    pub(crate) segments: Segments,
    /// What finds the segments of keys.
    pub segment_extractor_name: Option<Text>,
    /// The store of the write-ahead log, where it is another.
    pub wal_object_store_uri: Option<Text>,
    /// The number of the next file of the write-ahead log.
    pub next_wal_sst_id: u64,
    /// The last file of the write-ahead log whose rows are all in tables.
    pub replay_after_wal_id: u64,
    /// The last sequence number of the newest flushed table.
    pub last_l0_seq: u64,
    /// The least sequence number that a snapshot may still need.
    pub recent_snapshot_min_seq: u64,
    /// The moment, in milliseconds since the Unix epoch, that no new table may be older than.
    pub floor: u64,
    /// The last clock tick of the newest flushed table, in milliseconds.
    pub last_l0_clock_tick: i64,
    /// Moments of sequence numbers.
    pub sequence_tracker: SequenceTracker,
    /// The versions that are kept, by the checkpoints that name them.
    pub checkpoints: Listed<Checkpoint>,
}

impl Model for ManifestCore {
    ghost use Rattle.slate_model.specs.Cores.{Core};
    ghost use Rattle.slate_model.specs.KeptCores.{core_of, inside_of};

    ghost Value = { Core };

    ghost view = { core_of };

    ghost inverse = { inside_of };
}

impl ManifestCore {
    /// What the manifest of a new database says. Takes no memory.
    pub fn new(alloc: Global) -> ManifestCore
        ensures { result ≡ new_core }
    {
        ManifestCore {
            initialized: true,
            tree: LsmTreeState::new(alloc),
            segments: Segments::new(alloc),
            segment_extractor_name: None,
            wal_object_store_uri: None,
            next_wal_sst_id: 1,
            replay_after_wal_id: 0,
            last_l0_seq: 0,
            recent_snapshot_min_seq: 0,
            floor: 0,
            last_l0_clock_tick: i64::MIN,
            sequence_tracker: SequenceTracker::new(alloc),
            checkpoints: Listed::new(alloc),
        }
    }

    /// The segments, ascending by prefix. No prefix is empty.
    pub fn segments(&self) -> &[Segment]
        ensures segments { result.now ≡ self.now.segments }
        ensures ascending { IsAscending self.now.segments }
    {
        self.segments.as_slice()
    }

    /// Puts other segments in place of the segments. No prefix is empty, and the prefixes ascend strictly. Takes no memory.
    pub fn set_segments(&mut self, segments: Vec<Segment>)
        requires ascending { IsAscending segments.items }
        ensures { self.new ≡ record self.old { segments = segments.items } }
    {
        drop(mem::replace(&mut self.segments, Segments::from_vec(segments)));
    }

    /// An equal value. It shares the keys.
    pub fn clone(&self, alloc: Global) -> Result<ManifestCore, OutOfMemory>
        ensures { IfOk result (λ copied. copied ≡ self.now) }
    {
        let trees = clone_both(alloc, &self.tree, &self.segments)?;
        match self.clone_rest(alloc) {
            Ok((names, lists)) => Ok(self.of_parts(trees, names, lists)),
            Err(e) => {
                drop(trees);
                Err(e)
            }
        }
    }

    /// The same numbers with another root tree, other segments, other names (of the extractor, and of the store of the write-ahead log)
    /// and other lists (the tracker, and the checkpoints). No prefix is empty, and the prefixes ascend strictly. Takes no memory.
    pub fn with_parts(
        &self,
        tree: LsmTreeState,
        segments: Vec<Segment>,
        names: (Option<Text>, Option<Text>),
        lists: (SequenceTracker, Listed<Checkpoint>),
    ) -> ManifestCore
        requires ascending { IsAscending segments.items }
        ensures { result
            ≡ record self.now {
              tree = tree;
              segments = segments.items;
              segment_extractor_name = names.0;
              wal_object_store_uri = names.1;
              sequence_tracker = lists.0;
              checkpoints = lists.1;
            } }
    {
        self.of_parts((tree, Segments::from_vec(segments)), names, lists)
    }

    // Equal names, and equal lists.
    fn clone_rest(&self, alloc: Global) -> Result<(Names, Lists), OutOfMemory>
        ensures { IfOk result (λ copied. copied
            ≡ (
              (self.now.segment_extractor_name, self.now.wal_object_store_uri),
              (self.now.sequence_tracker, self.now.checkpoints),
            )) }
    {
        let names = clone_both(
            alloc,
            &self.segment_extractor_name,
            &self.wal_object_store_uri,
        )?;
        match clone_both(alloc, &self.sequence_tracker, &self.checkpoints) {
            Ok(lists) => Ok((names, lists)),
            Err(e) => {
                drop(names);
                Err(e)
            }
        }
    }

    // The same numbers with these trees, names and lists.
    fn of_parts(&self, trees: BothTrees, names: Names, lists: Lists) -> ManifestCore
        ensures { result
            ≡ record self.now {
              tree = trees.0;
              segments = trees.1;
              segment_extractor_name = names.0;
              wal_object_store_uri = names.1;
              sequence_tracker = lists.0;
              checkpoints = lists.1;
            } }
    {
        let (tree, segments) = trees;
        let (segment_extractor_name, wal_object_store_uri) = names;
        let (sequence_tracker, checkpoints) = lists;
        ManifestCore {
            initialized: self.initialized,
            tree,
            segments,
            segment_extractor_name,
            wal_object_store_uri,
            next_wal_sst_id: self.next_wal_sst_id,
            replay_after_wal_id: self.replay_after_wal_id,
            last_l0_seq: self.last_l0_seq,
            recent_snapshot_min_seq: self.recent_snapshot_min_seq,
            floor: self.floor,
            last_l0_clock_tick: self.last_l0_clock_tick,
            sequence_tracker,
            checkpoints,
        }
    }
}

// Whether all numbers are equal.
fn same_numbers(a: &ManifestCore, b: &ManifestCore) -> bool
    ensures { IsTrue result ↔ SameNumbers a.now b.now }
{
    a.next_wal_sst_id == b.next_wal_sst_id
        && a.replay_after_wal_id == b.replay_after_wal_id
        && a.last_l0_seq == b.last_l0_seq
        && a.recent_snapshot_min_seq == b.recent_snapshot_min_seq
        && a.floor == b.floor
        && a.last_l0_clock_tick == b.last_l0_clock_tick
}

impl Plain for ManifestCore {
    fn clone(&self, alloc: Global) -> Result<ManifestCore, OutOfMemory> {
        ManifestCore::clone(self, alloc)
    }

    fn is(&self, other: &ManifestCore) -> bool {
        self.initialized == other.initialized
            && self.tree.is(&other.tree)
            && self.segments.is(&other.segments)
            && self
                .segment_extractor_name
                .is(&other.segment_extractor_name)
            && self.wal_object_store_uri.is(&other.wal_object_store_uri)
            && same_numbers(self, other)
            && self.sequence_tracker.is(&other.sequence_tracker)
            && self.checkpoints.is(&other.checkpoints)
    }
}
