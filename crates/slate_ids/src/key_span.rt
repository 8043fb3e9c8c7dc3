//! A range of keys that others own.
ghost use Rattle.std.specs.Prelude.{◌≡◌, ◌&&◌, ℕ, List, false, IfOk};
ghost use Rattle.slate_ids.specs.Keys as keys;
ghost use Rattle.slate_ids.specs.Keys.{pointed};
ghost use Rattle.slate_ids.specs.KeyRange as range;
ghost use Rattle.slate_ids.specs.KeyRange.{has_key, ranges_meet, IsRange};

use crate::bounds::{earlier, is_ordered, is_past, is_up_to, later, owned};
use crate::bytes_range::BytesRange;
use crate::out_of_memory::OutOfMemory;
use bytes::Bytes;
use std::marker::Model;
use std::ops::Bound;

/// A range of keys that others own: what two ranges have in common is made of theirs, and takes no memory.
#[derive(Drop)]
pub struct KeySpan<'a> {
    start: Bound<&'a Bytes>,
    end: Bound<&'a Bytes>,
}

impl<'a> Model for KeySpan<'a> {
    ghost use Rattle.slate_ids.specs.Keys.{pointed};
    ghost use Rattle.slate_ids.specs.KeyRange.{KeyRange};

    ghost Value = { KeyRange };

    ghost view = { λ a. record { start = pointed a.start; end = pointed a.end } };
}

impl<'a> KeySpan<'a> {
    /// The range from `start` to `end`.
    pub fn new(start: Bound<&'a Bytes>, end: Bound<&'a Bytes>) -> KeySpan<'a>
        ensures { result ≡ record { start = pointed start.entry; end = pointed end.entry } }
    {
        KeySpan { start, end }
    }

    /// Where the range starts.
    pub fn start_bound(&self) -> Bound<&'a Bytes>
        ensures { pointed result ≡ self.now.start }
    {
        self.start
    }

    /// Where the range ends.
    pub fn end_bound(&self) -> Bound<&'a Bytes>
        ensures { pointed result ≡ self.now.end }
    {
        self.end
    }

    /// Whether the key is in the range.
    pub fn contains(&self, key: &[u8]) -> bool
        ensures { result ≡ has_key self.now key.now }
    {
        is_past(self.start, key) && is_up_to(self.end, key)
    }

    /// Whether the range is proper: a side is unbounded, both are included and the start is at most the end, or the start is below
    /// the end. One that isn't proper has no keys.
    #[tactic(auto, using(crate::proofs::RangeLaws::improper_no_keys))]
    pub fn is_proper(&self) -> bool
        ensures proper { result ≡ range.is_proper self.now }
        ensures none { range.is_proper self.now ≡ false → (key : List ℕ) → has_key self.now key ≡ false }
    {
        is_ordered(self.start, self.end)
    }

    /// What the ranges have in common: a key is in it exactly where it is in both.
    #[tactic(auto, using(crate::proofs::RangeLaws::common_keys), unfolding(crate::specs::KeyRange::common))]
    pub fn common(&self, other: &KeySpan<'a>) -> KeySpan<'a>
        ensures range { result ≡ range.common self.now other.now }
        ensures keys { (key : List ℕ) → has_key (range.common self.now other.now) key
            ≡ (has_key self.now key && has_key other.now key) }
    {
        KeySpan {
            start: later(self.start, other.start),
            end: earlier(self.end, other.end),
        }
    }

    /// Whether what the ranges have in common is proper: both are, and each starts before the other ends.
    #[tactic(auto, using(crate::proofs::RangeLaws::meet_sides))]
    pub fn meets(&self, other: &KeySpan<'a>) -> bool
        ensures meets { result ≡ ranges_meet self.now other.now }
        ensures sides { ranges_meet self.now other.now
            ≡ (range.is_proper self.now && range.is_proper other.now
            && keys.is_ordered self.now.start other.now.end
            && keys.is_ordered other.now.start self.now.end) }
    {
        self.common(other).is_proper()
    }

    /// The same range, as another owner of its keys.
    pub fn to_range(&self) -> Result<BytesRange, OutOfMemory>
        requires { IsRange self.now }
        ensures { IfOk result (λ r. r ≡ self.now) }
    {
        BytesRange::from_span(self.start, self.end)
    }
}
