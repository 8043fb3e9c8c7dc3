//! The order that segments have to have where they are merged.
ghost use Rattle.std.specs.Prelude.{◌≡◌};
ghost use Rattle.slate_model.specs.Segments.{ascend_from as all_above};
ghost use Rattle.slate_state_merges.specs.SegmentMerging.{ascend};

use slate_model::Segment;

/// Whether the prefixes of segments ascend strictly. The first may be empty. Takes no memory.
pub fn prefixes_ascend(segments: &[Segment]) -> bool
    ensures { result ≡ ascend segments.now }
{
    match segments.split_first() {
        None => true,
        Some((first, others)) => ascend_from(first.prefix().as_slice(), others),
    }
}

// Whether the prefixes ascend strictly, from above this one.
fn ascend_from(prefix: &[u8], segments: &[Segment]) -> bool
    ensures { result ≡ all_above prefix.now segments.now }
{
    let mut last = prefix;
    for segment in segments {
        let next = segment.prefix().as_slice();
        if !last.cmp(next).is_lt() {
            return false;
        }
        last = next;
    }
    true
}
