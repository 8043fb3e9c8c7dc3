//! A range of keys.
ghost use Rattle.std.specs.Prelude.{◌≡◌, ◌&&◌, ◌<◌, ◌^◌, ℕ, List, true, false, None, IfOk, IsTrue, ◌↔◌, All};
ghost use Rattle.std.specs.Range.Bound.{bound_map};
ghost use Rattle.slate_ids.specs.Keys as keys;
ghost use Rattle.slate_ids.specs.Keys.{pointed};
ghost use Rattle.slate_ids.specs.KeyRange as range;
ghost use Rattle.slate_ids.specs.KeyRange.{has_key, no_keys, common, ranges_meet, intersection, prefix_range, IsRange};

use crate::bounds::{copied, end_before, owned, successor};
use crate::key_span::KeySpan;
use crate::out_of_memory::OutOfMemory;
use bytes::Bytes;
use std::alloc::Global;
use std::marker::Model;
use std::ops::Bound;

/// A range of keys, which are byte strings in the order of their bytes. Either side may be open. A range is proper, or the one
/// without keys.
#[derive(Debug, Drop, PartialEq, Eq)]
pub struct BytesRange {
    start: Bound<Bytes>,
    end: Bound<Bytes>,
}

impl Model for BytesRange {
    ghost use Rattle.slate_ids.specs.KeyRange.{KeyRange, IsRange};

    ghost Value = { KeyRange };

    ghost view = { λ a. record { start = a.start; end = a.end } };

    ghost invariant = { λ a. IsRange (record { start = a.start; end = a.end }) };

    ghost inverse = { λ d. record { start = d.start; end = d.end } };
}

impl BytesRange {
    /// The range from `start` to `end`, which are those of a proper range: a side is unbounded, both are included and the start is
    /// at most the end, or the start is below the end.
    pub fn new(start: Bound<Bytes>, end: Bound<Bytes>) -> BytesRange
        requires proper { keys.is_ordered start end ≡ true }
        ensures { result ≡ record { start = start; end = end } }
    {
        BytesRange { start, end }
    }

    /// The range without keys.
    pub fn new_empty() -> BytesRange
        ensures range { result ≡ no_keys }
        ensures empty { (key : List ℕ) → has_key no_keys key ≡ false }
    {
        BytesRange {
            start: Bound::Excluded(Bytes::new()),
            end: Bound::Excluded(Bytes::new()),
        }
    }

    /// The range from a copy of `start` to a copy of `end`, as `new`.
    pub fn from_slice(
        alloc: Global,
        start: Bound<&[u8]>,
        end: Bound<&[u8]>,
    ) -> Result<BytesRange, OutOfMemory>
        requires proper { keys.is_ordered (bound_map (λ s. s.now) start) (bound_map (λ s. s.now) end)
            ≡ true }
        ensures { IfOk result (λ r. r
            ≡ record { start = bound_map (λ s. s.now) start.entry; end = bound_map (λ s. s.now) end.entry }) }
    {
        let start = copied(alloc, start)?;
        match copied(alloc, end) {
            Ok(end) => Ok(BytesRange { start, end }),
            Err(e) => {
                drop(start);
                Err(e)
            }
        }
    }

    /// The keys that begin with `prefix`: from the prefix to its successor, without an end where all its bytes are 255.
    #[tactic(auto, using(crate::proofs::PrefixRanges::prefix_keys))]
    pub fn from_prefix(alloc: Global, prefix: &[u8]) -> Result<BytesRange, OutOfMemory>
        ensures range { IfOk result (λ r. r ≡ prefix_range prefix.now) }
        ensures keys { (key : List ℕ) → All (λ b. b < 2 ^ 8) key
            → has_key (prefix_range prefix.now) key ≡ keys.begins_with prefix.now key }
    {
        let end = end_before(successor(alloc, prefix)?)?;
        match copied(alloc, Bound::Included(prefix)) {
            Ok(start) => Ok(BytesRange { start, end }),
            Err(e) => {
                drop(end);
                Err(e)
            }
        }
    }

    // A range of other owners of these keys.
    pub(crate) fn from_span(
        start: Bound<&Bytes>,
        end: Bound<&Bytes>,
    ) -> Result<BytesRange, OutOfMemory>
        requires { IsRange (record { start = pointed start; end = pointed end }) }
        ensures { IfOk result
            (λ r. r ≡ record { start = pointed start.entry; end = pointed end.entry }) }
    {
        let start = owned(start)?;
        match owned(end) {
            Ok(end) => Ok(BytesRange { start, end }),
            Err(e) => {
                drop(start);
                Err(e)
            }
        }
    }

    /// The same range, without keys of its own.
    pub fn as_span(&self) -> KeySpan<'_>
        ensures span { result ≡ self.now }
        ensures range { IsRange self.now }
    {
        KeySpan::new(self.start.as_ref(), self.end.as_ref())
    }

    /// Whether the key is in the range.
    pub fn contains(&self, key: &[u8]) -> bool
        ensures { result ≡ has_key self.now key.now }
    {
        self.as_span().contains(key)
    }

    /// Where the range starts.
    pub fn start_bound(&self) -> Bound<&Bytes>
        ensures { pointed result ≡ self.now.start }
    {
        self.start.as_ref()
    }

    /// Where the range ends.
    pub fn end_bound(&self) -> Bound<&Bytes>
        ensures { pointed result ≡ self.now.end }
    {
        self.end.as_ref()
    }

    /// Whether the range is proper. The one that isn't is `new_empty`.
    pub fn is_proper(&self) -> bool
        ensures proper { result ≡ range.is_proper self.now }
        ensures range { IsRange self.now }
    {
        self.as_span().is_proper()
    }

    /// Whether what the ranges have in common is proper.
    pub fn meets(&self, other: &BytesRange) -> bool
        ensures { result ≡ ranges_meet self.now other.now }
    {
        self.as_span().meets(&other.as_span())
    }

    /// What the ranges have in common, where that is proper: a key is in it exactly where it is in both. Where it isn't proper, no
    /// key is in both.
    pub fn intersect(&self, other: &BytesRange) -> Result<Option<BytesRange>, OutOfMemory>
        ensures common { IfOk result (λ r. r ≡ intersection self.now other.now) }
        ensures keys { (key : List ℕ) → has_key (common self.now other.now) key
            ≡ (has_key self.now key && has_key other.now key) }
        ensures none { intersection self.now other.now ≡ None
            → (key : List ℕ) → (has_key self.now key && has_key other.now key) ≡ false }
    {
        let common = self.as_span().common(&other.as_span());
        if common.is_proper() {
            Ok(Some(common.to_range()?))
        } else {
            Ok(None)
        }
    }

    /// Whether the ranges start and end alike.
    pub fn is(&self, other: &BytesRange) -> bool
        ensures { IsTrue result ↔ self.now ≡ other.now }
    {
        self == other
    }

    /// An equal range.
    pub fn clone(&self) -> Result<BytesRange, OutOfMemory>
        ensures { IfOk result (λ r. r ≡ self.now) }
    {
        self.as_span().to_range()
    }
}
