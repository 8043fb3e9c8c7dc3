//! Walks along values that others own.
ghost use Rattle.std.specs.Prelude.{◌≡◌, ◌∷◌, [], List, MatchOption};

use std::collections::{btree_map, vec_deque};
use std::slice;

/// A walk along values that others own. Contracts see the list of those that are left.
pub trait Walk<'a, T: 'a> {
    ghost left: { Self → List T };

    /// The next value, where one is left.
    fn step(&mut self) -> Option<&'a T>
        ensures { MatchOption result (left self.old ≡ []) (λ x. left self.old ≡ x.now ∷ left self.new) };
}

impl<'a, T> Walk<'a, T> for slice::Iter<'a, T> {
    ghost use Rattle.std.specs.Slice.Iter.{iter_rest};

    ghost left = { iter_rest };

    fn step(&mut self) -> Option<&'a T> {
        self.next()
    }
}

impl<'a, T> Walk<'a, T> for vec_deque::Iter<'a, T> {
    ghost use Rattle.std.specs.VecDeque.Iter.{deque_iter_rest};

    ghost left = { deque_iter_rest };

    fn step(&mut self) -> Option<&'a T> {
        self.next()
    }
}

impl<'a, K, T> Walk<'a, T> for btree_map::Values<'a, K, T> {
    ghost left = { λ walk. walk };

    fn step(&mut self) -> Option<&'a T> {
        self.next()
    }
}
