//! Segments by their prefix.
ghost use Rattle.std.specs.Prelude.{◌≡◌, ◌≤◌, length, slice_get, option_copied};
ghost use Rattle.slate_ids.specs.Keys.{key_lt};
ghost use Rattle.slate_model.specs.Segments as segments_by_prefix;
ghost use Rattle.slate_model.specs.Segments.{IsAscending, exactly, segment_at};

use crate::segment::Segment;

// Whether a segment stands before this prefix.
fn is_before(segment: &Segment, prefix: &[u8]) -> bool
    ensures { result ≡ key_lt segment.now.prefix prefix.now }
{
    segment.prefix().as_slice().cmp(prefix).is_lt()
}

/// How many segments stand before this prefix. Its own segment, where there is one, comes right after them.
pub(crate) fn place_of(segments: &[Segment], prefix: &[u8]) -> usize
    requires ascending { IsAscending segments.now }
    ensures place { result ≡ segments_by_prefix.place_of prefix.now segments.now }
    ensures within { result ≤ length segments.now }
{
    segments.partition_point(|segment| is_before(segment, prefix))
}

// The segment at a place, where there is one.
#[tactic(auto, using(std::proofs::lemmas::Option::slice_get_read, std::proofs::lemmas::Option::slice_get_past))]
pub(crate) fn segment_from(segments: &[Segment], place: usize) -> Option<&Segment>
    ensures { option_copied result ≡ slice_get segments.now place }
{
    if place < segments.len() {
        Some(&segments[place])
    } else {
        None
    }
}

// The segment, where its prefix is exactly this one.
fn if_exactly<'a>(segment: Option<&'a Segment>, prefix: &[u8]) -> Option<&'a Segment>
    ensures { option_copied result ≡ exactly prefix.now (option_copied segment.entry) }
{
    match segment {
        Some(segment) if segment.prefix().as_slice() == prefix => Some(segment),
        _ => None,
    }
}

/// The segment of exactly this prefix.
#[tactic(auto, using(crate::proofs::Ascending::found))]
pub(crate) fn segment_of<'a>(segments: &'a [Segment], prefix: &[u8]) -> Option<&'a Segment>
    requires ascending { IsAscending segments.now }
    ensures { option_copied result ≡ segment_at prefix.now segments.now }
{
    if_exactly(segment_from(segments, place_of(segments, prefix)), prefix)
}
