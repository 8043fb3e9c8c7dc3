//! The views of all trees of a database, one after the other.
ghost use Rattle.std.specs.Prelude.{◌≡◌, ◌++◌, ◌+◌, ◌<◌, ◌≤◌, [], IfNone, IfSome};
ghost use Rattle.std.specs.Iterator.{YieldsFirstRef, item_count};
ghost use Rattle.slate_model.specs.Trees.{views_of, views_of_tree, views_of_segments};
ghost use Rattle.slate_model.specs.Walks.{views_left, parts_left, parts_of_tree, parts_of_segments};

use crate::lsm_tree_state::LsmTreeState;
use crate::manifest_core::ManifestCore;
use crate::segment::Segment;
use slate_model_tables::{SortedRun, SsTableView};
use std::marker::Model;

// What is left of a walk: views, the others of their tree's L0, its runs, and the segments whose trees come then.
#[derive(Clone, Copy, Drop)]
struct Parts<'a> {
    next: &'a [SsTableView],
    flushed: &'a [SsTableView],
    runs: &'a [SortedRun],
    segments: &'a [Segment],
}

impl<'a> Parts<'a> {
    // All of a tree, and then of these segments' trees.
    fn of_trees(tree: &'a LsmTreeState, segments: &'a [Segment]) -> Parts<'a>
        ensures views { views_left result ≡ views_of_tree tree.now ++ views_of_segments segments.now }
        ensures parts { parts_left result ≤ parts_of_tree tree.now + parts_of_segments segments.now }
    {
        let (next, flushed) = tree.l0.as_slices();
        Parts {
            next,
            flushed,
            runs: tree.compacted.as_slice(),
            segments,
        }
    }

    // The same, where no views come next, from the next part on; none where nothing is left.
    fn go_on(&self) -> Option<Parts<'a>>
        requires { self.now.next.now ≡ [] }
        ensures none { IfNone result (views_left self.now ≡ []) }
        ensures views { IfSome result (λ more. views_left more ≡ views_left self.now) }
        ensures parts { IfSome result (λ more. parts_left more < parts_left self.now) }
    {
        if !self.flushed.is_empty() {
            return Some(Parts {
                next: self.flushed,
                flushed: &[],
                ..*self
            });
        }
        if let Some((run, runs)) = self.runs.split_first() {
            return Some(Parts {
                next: run.sst_views(),
                runs,
                ..*self
            });
        }
        match self.segments.split_first() {
            Some((segment, segments)) => Some(Parts::of_trees(segment.tree(), segments)),
            None => None,
        }
    }
}

/// The views that are left of those of a database's trees.
#[derive(Drop)]
pub struct Views<'a> {
    parts: Parts<'a>,
}

impl<'a> Model for Views<'a> {
    ghost use Rattle.std.specs.Prelude.{List};
    ghost use Rattle.slate_model_tables.specs.Views.{View};
    ghost use Rattle.slate_model.specs.Walks.{views_left};

    ghost Value = { List View };

    ghost view = { λ a. views_left a.parts };
}

impl<'a> Iterator for Views<'a> {
    type Item = &'a SsTableView;

    ghost next_gives = { YieldsFirstRef (λ rest. rest) };

    ghost remaining = { item_count (λ rest. rest) };

    fn next(&mut self) -> Option<&'a SsTableView> {
        while self.parts.next.is_empty() {
            self.parts = self.parts.go_on()?;
        }
        let (first, others) = self.parts.next.split_first()?;
        self.parts.next = others;
        Some(first)
    }
}

impl ManifestCore {
    /// The views of all trees: of the root, then of the segments; of each tree the views of L0, the newest first, then those of the
    /// runs.
    pub fn views(&self) -> Views<'_>
        ensures { result ≡ views_of self.now }
    {
        Views {
            parts: Parts::of_trees(&self.tree, self.segments()),
        }
    }
}
