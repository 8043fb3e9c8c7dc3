//! What a compaction is to do.
ghost use Rattle.std.specs.Prelude.{◌≡◌, IfOk};
ghost use Rattle.slate_model_records.specs.Compactions.{segment_of, sources_of};

use crate::source_id::SourceId;
use bytes::Bytes;
use slate_ids::{Listed, OutOfMemory};
use slate_model_tables::Plain;
use std::alloc::Global;

/// What a compaction is to do in one segment.
#[derive(Debug, Drop)]
pub enum CompactionSpec {
    /// Merge the sources into one sorted run.
    Tiered {
        /// The prefix of the segment; empty for the keys of no segment.
        segment: Bytes,
        /// What is read.
        sources: Listed<SourceId>,
        /// The number of the run that is written.
        destination: u32,
    },
    /// Let the sources go and write nothing.
    DrainSegment {
        /// The prefix of the segment.
        segment: Bytes,
        /// What goes.
        sources: Listed<SourceId>,
    },
}

impl CompactionSpec {
    /// The prefix of the segment.
    pub fn segment(&self) -> &Bytes
        ensures { result.now ≡ segment_of self.now }
    {
        match self {
            CompactionSpec::Tiered { segment, .. } => segment,
            CompactionSpec::DrainSegment { segment, .. } => segment,
        }
    }

    /// What it reads, or lets go.
    pub fn sources(&self) -> &[SourceId]
        ensures { result.now ≡ sources_of self.now }
    {
        match self {
            CompactionSpec::Tiered { sources, .. } => sources.as_slice(),
            CompactionSpec::DrainSegment { sources, .. } => sources.as_slice(),
        }
    }
}

// An equal prefix and equal sources.
fn copies_of(
    alloc: Global,
    segment: &Bytes,
    sources: &Listed<SourceId>,
) -> Result<(Bytes, Listed<SourceId>), OutOfMemory>
    ensures { IfOk result (λ copied. copied ≡ (segment.now, sources.now)) }
{
    let segment = Plain::clone(segment, alloc)?;
    match sources.copy(alloc) {
        Ok(sources) => Ok((segment, sources)),
        Err(e) => {
            drop(segment);
            Err(e)
        }
    }
}

impl Plain for CompactionSpec {
    fn clone(&self, alloc: Global) -> Result<CompactionSpec, OutOfMemory> {
        match self {
            CompactionSpec::Tiered {
                segment,
                sources,
                destination,
            } => {
                let (segment, sources) = copies_of(alloc, segment, sources)?;
                Ok(CompactionSpec::Tiered {
                    segment,
                    sources,
                    destination: *destination,
                })
            }
            CompactionSpec::DrainSegment { segment, sources } => {
                let (segment, sources) = copies_of(alloc, segment, sources)?;
                Ok(CompactionSpec::DrainSegment { segment, sources })
            }
        }
    }

    fn is(&self, other: &CompactionSpec) -> bool {
        match (self, other) {
            (
                CompactionSpec::Tiered {
                    segment: a,
                    sources: b,
                    destination: c,
                },
                CompactionSpec::Tiered {
                    segment: x,
                    sources: y,
                    destination: z,
                },
            ) => a.is(x) && b.is(y) && *c == *z,
            (
                CompactionSpec::DrainSegment {
                    segment: a,
                    sources: b,
                },
                CompactionSpec::DrainSegment {
                    segment: x,
                    sources: y,
                },
            ) => a.is(x) && b.is(y),
            _ => false,
        }
    }
}
