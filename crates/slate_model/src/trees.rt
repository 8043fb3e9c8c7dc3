//! The trees of a database, one after the other.
ghost use Rattle.std.specs.Prelude.{◌≡◌};
ghost use Rattle.std.specs.Iterator.{YieldsFirstRef, item_count};
ghost use Rattle.slate_model.specs.Trees.{trees_of};

use crate::lsm_tree_state::LsmTreeState;
use crate::manifest_core::ManifestCore;
use crate::segment::Segment;
use std::marker::Model;

/// The trees that are left of those of a database.
#[derive(Drop)]
pub struct Trees<'a> {
    root: Option<&'a LsmTreeState>,
    segments: &'a [Segment],
}

impl<'a> Model for Trees<'a> {
    ghost use Rattle.std.specs.Prelude.{◌++◌, List, option_to_list, option_copied};
    ghost use Rattle.slate_model.specs.declared.lsm_tree_state.LsmTreeState.{LsmTreeState};
    ghost use Rattle.slate_model.specs.Trees.{segment_trees};

    ghost Value = { List LsmTreeState };

    ghost view = { λ a. option_to_list (option_copied a.root) ++ segment_trees a.segments.now };
}

impl<'a> Iterator for Trees<'a> {
    type Item = &'a LsmTreeState;

    ghost next_gives = { YieldsFirstRef (λ rest. rest) };

    ghost remaining = { item_count (λ rest. rest) };

    fn next(&mut self) -> Option<&'a LsmTreeState> {
        if let Some(root) = self.root {
            self.root = None;
            return Some(root);
        }
        let (first, others) = self.segments.split_first()?;
        self.segments = others;
        Some(first.tree())
    }
}

impl ManifestCore {
    /// The trees: the root, then those of the segments.
    pub fn trees(&self) -> Trees<'_>
        ensures { result ≡ trees_of self.now }
    {
        Trees {
            root: Some(&self.tree),
            segments: self.segments(),
        }
    }
}
