//! Whether a record is its own normal form.
ghost use Rattle.std.specs.Prelude.{◌≡◌};
ghost use Rattle.slate_layout_records.specs.RecordBytes as bytes;
ghost use Rattle.slate_layout_records.specs.NormalRecords as normal;

use slate_model_records::{Compaction, CompactionContext, CompactionStatus, Compactions, SourceId};

// Whether a source is a run.
fn is_run(source: &SourceId) -> bool
    ensures { result ≡ normal.is_run source.now }
{
    matches!(source, SourceId::SortedRun(_))
}

// Whether views come first, and then runs.
fn are_views_first(sources: &[SourceId]) -> bool
    ensures { result ≡ normal.are_views_first sources.now }
{
    let mut after_run = false;
    for source in sources {
        let run = is_run(source);
        if after_run && !run {
            return false;
        }
        after_run = run;
    }
    true
}

// Whether the retention is known, where there is something to go on with.
fn is_normal_context(context: &Option<CompactionContext>) -> bool
    ensures { result ≡ normal.is_normal_context context.now }
{
    match context {
        None => true,
        Some(context) => context.retention_min_seq.is_some(),
    }
}

// Whether a compaction of this status has outputs.
fn has_outputs(status: CompactionStatus) -> bool
    ensures { result ≡ bytes.has_outputs status }
{
    matches!(
        status,
        CompactionStatus::Compacted | CompactionStatus::Completed | CompactionStatus::Failed
    )
}

// Whether a compaction's sources are in order, its context is normal, and its outputs are kept at its status.
fn is_normal_compaction(compaction: &Compaction) -> bool
    ensures { result ≡ normal.is_normal_compaction compaction.now }
{
    are_views_first(compaction.spec.sources())
        && (has_outputs(compaction.status) || compaction.output_ssts.as_slice().is_empty())
        && is_normal_context(&compaction.ctx)
}

/// Whether a record is its own normal form, which is what is read back of its bytes: in each compaction views come before runs, a
/// retention is known where there is something to go on with, and only one that was compacted, completed or failed has outputs. Takes
/// no memory.
pub fn is_normal_record(compactions: &Compactions) -> bool
    ensures { result ≡ normal.is_normal_record compactions.now }
{
    for compaction in compactions.iter() {
        if !is_normal_compaction(compaction) {
            return false;
        }
    }
    true
}
