//! The segments that a range of keys meets, by search.
ghost use Rattle.std.specs.Prelude.{◌≡◌, ◌≤◌, ◌<◌, ◌^◌, All, true, option_copied, filter, length};
ghost use Rattle.std.specs.List.{prefix_len};
ghost use Rattle.slate_ids.specs.Keys.{pointed};
ghost use Rattle.slate_model.specs.Segments.{IsAscending};
ghost use Rattle.slate_model.specs.Selection as selection;
ghost use Rattle.slate_model.specs.Selection.{are_apart, meets, selected};
ghost use Rattle.slate_model.specs.SegmentReach as reach;
ghost use Rattle.slate_model.specs.SegmentReach.{StartsWithBytes};

use crate::manifest_core::ManifestCore;
use crate::nesting::begins_with;
use crate::segment::Segment;
use bytes::Bytes;
use slate_ids::{BytesRange, KeySpan, ranges_are_sets};
use std::ops::Bound;

impl Segment {
    /// Whether no segment's prefix begins with another's. Takes no memory.
    #[tactic(auto, using(crate::proofs::Apart::next_apart, crate::proofs::Apart::next_begins))]
    pub fn are_apart(segments: &[Segment]) -> bool
        requires ascending { IsAscending segments.now }
        ensures { result ≡ selection.are_apart segments.now }
    {
        let Some((first, others)) = segments.split_first() else {
            return true;
        };
        let mut last = first;
        for segment in others {
            if begins_with(last.prefix(), segment.prefix()) {
                return false;
            }
            last = segment;
        }
        true
    }
}

// Whether a segment's keys start before the end of a range, or at it.
fn starts_by(end: Bound<&Bytes>, segment: &Segment) -> bool
    ensures { result ≡ reach.starts_by (pointed end.entry) segment.now }
{
    KeySpan::new(Bound::Included(segment.prefix()), end).is_proper()
}

// Whether all of a segment's keys stand before a key.
fn stands_before(key: &Bytes, segment: &Segment) -> bool
    ensures { result ≡ reach.stands_before key.now segment.now }
{
    let prefix = segment.prefix().as_slice();
    !(key.as_slice().cmp(prefix).is_lt() || begins_with(prefix, key))
}

// Whether all of a segment's keys stand before the start of a range.
fn is_over(start: Bound<&Bytes>, segment: &Segment) -> bool
    ensures { result ≡ reach.is_over (pointed start.entry) segment.now }
{
    match start {
        Bound::Included(key) => stands_before(key, segment),
        Bound::Excluded(key) => stands_before(key, segment),
        Bound::Unbounded => false,
    }
}

// How many segments' keys all stand before the start of a range.
fn passed(segments: &[Segment], start: Bound<&Bytes>) -> usize
    requires ascending { IsAscending segments.now }
    requires apart { are_apart segments.now ≡ true }
    ensures place { result ≡ prefix_len (reach.is_over (pointed start.entry)) segments.now }
    ensures within { result ≤ length segments.now }
{
    segments.partition_point(|segment| is_over(start, segment))
}

// How many segments' keys start before the end of a range, or at it.
fn started(segments: &[Segment], end: Bound<&Bytes>) -> usize
    requires ascending { IsAscending segments.now }
    requires apart { are_apart segments.now ≡ true }
    ensures place { result ≡ prefix_len (reach.starts_by (pointed end.entry)) segments.now }
    ensures within { result ≤ length segments.now }
{
    segments.partition_point(|segment| starts_by(end, segment))
}

// A key is of bytes.
fn is_of_bytes(key: &[u8])
    ensures { All (λ b. b < 2 ^ 8) key.now }
{}

// The start of a range is of bytes.
fn starts_with_bytes(start: Bound<&Bytes>)
    ensures { StartsWithBytes (pointed start.entry) }
{
    match start {
        Bound::Included(key) => is_of_bytes(key),
        Bound::Excluded(key) => is_of_bytes(key),
        Bound::Unbounded => {}
    }
}

// The segments whose keys meet a range.
fn meeting<'a>(segments: &'a [Segment], range: &BytesRange) -> &'a [Segment]
    requires ascending { IsAscending segments.now }
    requires apart { are_apart segments.now ≡ true }
    ensures { result.now ≡ filter (meets range.now) segments.now }
{
    ranges_are_sets();
    let (start, end) = (range.start_bound(), range.end_bound());
    starts_with_bytes(start);
    if !KeySpan::new(start, end).is_proper() {
        return &segments[..0];
    }
    let (from, to) = (passed(segments, start), started(segments, end));
    if from < to {
        &segments[from..to]
    } else {
        &segments[..0]
    }
}

impl ManifestCore {
    /// The segments whose keys meet a range: in order, by search. None exactly where there are no segments at all. No segment's prefix
    /// begins with another's. Takes no memory.
    pub fn select_segments(&self, range: &BytesRange) -> Option<&[Segment]>
        requires apart { are_apart self.now.segments ≡ true }
        ensures { option_copied result ≡ selected range.now self.now.segments }
    {
        let segments = self.segments();
        if segments.is_empty() {
            None
        } else {
            Some(meeting(segments, range))
        }
    }
}
