//! Prefixes of segments in a new version of a manifest.
ghost use Rattle.std.specs.Prelude.{◌≡◌, IfOk};
ghost use Rattle.slate_ids.specs.Answers.{Gives, refused};
ghost use Rattle.slate_ids.specs.Keys as keys;
ghost use Rattle.slate_ids.specs.declared.error.SlateDBError.TheVariants.{InvalidSegmentPrefix};
ghost use Rattle.slate_state_updates.specs.Prefixes as prefixes;

use slate_ids::{OutOfMemory, SlateDBError};
use slate_model::{Manifest, Plain, Segment};
use std::alloc::Global;

// Whether a key begins with these bytes.
#[tactic(auto, using(crate::proofs::Nested::starts))]
fn begins_with(prefix: &[u8], key: &[u8]) -> bool
    ensures { result ≡ keys.begins_with prefix.now key.now }
{
    key.starts_with(prefix)
}

// The refusal of a segment whose prefix begins with another's.
fn nested(alloc: Global, segment: &Segment, conflict: &Segment) -> Result<SlateDBError, OutOfMemory>
    ensures { IfOk result (λ e. e ≡ InvalidSegmentPrefix segment.now.prefix conflict.now.prefix) }
{
    Ok(SlateDBError::InvalidSegmentPrefix {
        prefix: Plain::clone(segment.prefix(), alloc)?,
        conflict: Plain::clone(conflict.prefix(), alloc)?,
    })
}

// Refuses the first prefix that begins with the one right before it, of those that follow a segment.
fn check_after(alloc: Global, first: &Segment, others: &[Segment]) -> Result<(), SlateDBError>
    ensures { Gives result (refused (prefixes.nested_after first.now others.now)) }
{
    let mut last = first;
    for segment in others {
        if begins_with(last.prefix(), segment.prefix()) {
            return Err(nested(alloc, segment, last)?);
        }
        last = segment;
    }
    Ok(())
}

/// Whether no prefix of a segment begins with another. Else InvalidSegmentPrefix: the first prefix that begins with the one right before
/// it, and that one as its conflict.
pub fn check_prefixes(alloc: Global, manifest: &Manifest) -> Result<(), SlateDBError>
    ensures { Gives result (refused (prefixes.prefix_refusal manifest.now.core.segments)) }
{
    match manifest.core.segments().split_first() {
        None => Ok(()),
        Some((first, others)) => check_after(alloc, first, others),
    }
}
