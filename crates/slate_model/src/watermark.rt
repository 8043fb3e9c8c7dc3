//! The greatest moment of a flushed table.
ghost use Rattle.std.specs.Prelude.{◌≡◌};
ghost use Rattle.slate_model.specs.Watermark as moments;
ghost use Rattle.slate_model.specs.Watermark.{timed_id, timed_ids, flushed_of_tree, flushed_of, latest, moment_of, IsGreatestOf};

use crate::lsm_tree_state::LsmTreeState;
use crate::manifest_core::ManifestCore;
use slate_ids::Ulid;
use slate_model_tables::{SsTableId, SsTableView};
use std::collections::VecDeque;

// The id of a table that has one.
fn timed(id: &SsTableId) -> Option<Ulid>
    ensures { result ≡ timed_id id.now }
{
    match id {
        SsTableId::Wal(_) => None,
        SsTableId::Compacted(id) => Some(*id),
    }
}

// The later id of two.
fn later(a: Option<Ulid>, b: Option<Ulid>) -> Option<Ulid>
    ensures { result ≡ moments.later a b }
{
    match (a, b) {
        (None, b) => b,
        (Some(a), None) => Some(a),
        (Some(a), Some(b)) => { if a < b { Some(b) } else { Some(a) } }
    }
}

// The greatest id of the tables of these views.
fn latest_of(views: &VecDeque<SsTableView>) -> Option<Ulid>
    ensures { result ≡ latest (timed_ids views.now.items) }
{
    let mut best = None;
    for view in views.iter() {
        best = later(best, timed(&view.sst.id));
    }
    best
}

// The greatest id of a tree's flushed tables.
fn latest_of_tree(tree: &LsmTreeState) -> Option<Ulid>
    ensures { result ≡ latest (flushed_of_tree tree.now) }
{
    if tree.l0.as_deque().is_empty() {
        tree.last_compacted_l0_sst_view_id
    } else {
        latest_of(tree.l0.as_deque())
    }
}

impl ManifestCore {
    /// The greatest id of all trees' flushed tables, by milliseconds and then by tail: none of them is above it. Its milliseconds are
    /// the watermark. A tree without such tables counts by the last view that was compacted. None where no table was flushed.
    pub fn max_l0_ulid_timestamp_across_trees(&self) -> Option<Ulid>
        ensures id { result ≡ latest (flushed_of self.now) }
        ensures greatest { IsGreatestOf (flushed_of self.now) result }
        ensures watermark { moment_of result ≡ moments.watermark self.now }
    {
        let mut best = None;
        for tree in self.trees() {
            best = later(best, latest_of_tree(tree));
        }
        best
    }

    /// The watermark, in milliseconds since the Unix epoch: no table was flushed later. 0 where no table was flushed.
    pub fn watermark(&self) -> u64
        ensures { result ≡ moments.watermark self.now }
    {
        match self.max_l0_ulid_timestamp_across_trees() {
            Some(id) => id.timestamp_ms(),
            None => 0,
        }
    }
}
