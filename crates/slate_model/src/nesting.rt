//! Prefixes that nest: one begins with the other.
ghost use Rattle.std.specs.Prelude.{◌≡◌, Ok, None, IfOk, option_copied};
ghost use Rattle.slate_ids.specs.Answers.{Gives, refused};
ghost use Rattle.slate_ids.specs.Keys as keys;
ghost use Rattle.slate_model.specs.Segments.{IsAscending};
ghost use Rattle.slate_model.specs.Nesting as nesting;
ghost use Rattle.slate_model.specs.Nesting.{nesting_refusal};

use crate::manifest_core::ManifestCore;
use crate::segment::Segment;
use crate::segment_search::{place_of, segment_from, segment_of};
use bytes::Bytes;
use slate_ids::{OutOfMemory, Plain, SlateDBError};
use std::alloc::Global;

/// Whether a key begins with these bytes. Takes no memory.
#[tactic(auto, using(crate::proofs::Nestings::starts))]
pub(crate) fn begins_with(prefix: &[u8], key: &[u8]) -> bool
    ensures { result ≡ keys.begins_with prefix.now key.now }
{
    key.starts_with(prefix)
}

// The prefix of a segment, where it begins with this one.
fn longer_in<'a>(prefix: &[u8], segment: Option<&'a Segment>) -> Option<&'a Bytes>
    ensures { option_copied result ≡ nesting.longer_in prefix.now (option_copied segment.entry) }
{
    match segment {
        Some(segment) if begins_with(prefix, segment.prefix()) => Some(segment.prefix()),
        _ => None,
    }
}

// The prefix of a segment, where this one begins with it.
fn shorter_in<'a>(prefix: &[u8], segment: Option<&'a Segment>) -> Option<&'a Bytes>
    ensures { option_copied result ≡ nesting.shorter_in prefix.now (option_copied segment.entry) }
{
    match segment {
        Some(segment) if begins_with(segment.prefix(), prefix) => Some(segment.prefix()),
        _ => None,
    }
}

// The segment right before a place.
fn before_place(segments: &[Segment], place: usize) -> Option<&Segment>
    ensures { option_copied result ≡ nesting.before_place place segments.now }
{
    if place == 0 {
        None
    } else {
        segment_from(segments, place - 1)
    }
}

// The prefix beside this one that nests with it.
fn nested<'a>(prefix: &[u8], segments: &'a [Segment]) -> Option<&'a Bytes>
    requires { IsAscending segments.now }
    ensures { option_copied result ≡ nesting.nested prefix.now segments.now }
{
    let place = place_of(segments, prefix);
    match longer_in(prefix, segment_from(segments, place)) {
        Some(longer) => Some(longer),
        None => shorter_in(prefix, before_place(segments, place)),
    }
}

// The prefix that keeps this one from standing among the segments.
fn conflict<'a>(prefix: &[u8], segments: &'a [Segment]) -> Option<&'a Bytes>
    requires { IsAscending segments.now }
    ensures { option_copied result ≡ nesting.conflict prefix.now segments.now }
{
    if segment_of(segments, prefix).is_some() {
        None
    } else {
        nested(prefix, segments)
    }
}

// Owners of two prefixes.
fn owned(alloc: Global, prefix: &[u8], other: &Bytes) -> Result<(Bytes, Bytes), OutOfMemory>
    ensures { IfOk result (λ keys. keys ≡ (prefix.now, other.now)) }
{
    let other = Plain::clone(other, alloc)?;
    match Bytes::copy_from_slice(alloc, prefix) {
        Ok(prefix) => Ok((prefix, other)),
        Err(e) => {
            drop(other);
            Err(OutOfMemory::from(e))
        }
    }
}

/// Whether a prefix may stand among the segments. Takes no memory where it may.
pub(crate) fn check_nesting(
    alloc: Global,
    prefix: &[u8],
    segments: &[Segment],
) -> Result<(), SlateDBError>
    requires { IsAscending segments.now }
    ensures refusal { Gives result (refused (nesting_refusal prefix.now segments.now)) }
    ensures free { nesting_refusal prefix.now segments.now ≡ None → result ≡ Ok tt }
{
    match conflict(prefix, segments) {
        None => Ok(()),
        Some(other) => {
            let (prefix, conflict) = owned(alloc, prefix, other)?;
            Err(SlateDBError::InvalidSegmentPrefix { prefix, conflict })
        }
    }
}

impl ManifestCore {
    /// Whether a prefix may stand among the segments: it is there, or neither it nor the one beside it begins with the other. Then no
    /// memory is taken. Else InvalidSegmentPrefix names both.
    pub fn check_segment_prefix_antichain(
        &self,
        alloc: Global,
        prefix: &[u8],
    ) -> Result<(), SlateDBError>
        ensures refusal { Gives result (refused (nesting_refusal prefix.now self.now.segments)) }
        ensures free { nesting_refusal prefix.now self.now.segments ≡ None → result ≡ Ok tt }
    {
        check_nesting(alloc, prefix, self.segments())
    }
}
