//! What is read back of a record.
ghost use Rattle.std.specs.Prelude.{◌≡◌, ◌++◌, map, true, IfOk, OnOk};
ghost use Rattle.std.specs.Option.{option_map};
ghost use Rattle.slate_model_records.specs.declared.source_id.SourceId.TheVariants.{SstView, SortedRun};
ghost use Rattle.slate_model_records.specs.Records.{are_ascending, inserted};
ghost use Rattle.slate_layout_records.specs.RecordBytes as records;
ghost use Rattle.slate_layout_parts.specs.RecordParts as parts;
ghost use Rattle.slate_layout_records.specs.RecordNormal as normal;
ghost use Rattle.slate_layout_records.specs.RecordNormal.{normal_record};

use crate::record_reading::has_outputs;
use slate_ids::{Listed, OutOfMemory};
use slate_model_records::{
    Compaction, CompactionContext, CompactionSpec, Compactions, CompactionsIter, SourceId,
    WorkerSpec,
};
use slate_model_tables::{Plain, SsTableHandle};
use std::alloc::Global;

// Adds the views among the sources.
fn add_views(made: &mut Listed<SourceId>, sources: &[SourceId]) -> Result<(), OutOfMemory>
    ensures { OnOk result (made.new ≡ made.old ++ map SstView (parts.views_in sources.now)) }
{
    for source in sources {
        if let SourceId::SstView(_) = source {
            made.push(*source)?;
        }
    }
    Ok(())
}

// Adds the runs among the sources.
fn add_runs(made: &mut Listed<SourceId>, sources: &[SourceId]) -> Result<(), OutOfMemory>
    ensures { OnOk result (made.new ≡ made.old ++ map SortedRun (parts.runs_in sources.now)) }
{
    for source in sources {
        if let SourceId::SortedRun(_) = source {
            made.push(*source)?;
        }
    }
    Ok(())
}

// Adds the views among the sources, then the runs.
fn add_sources(made: &mut Listed<SourceId>, sources: &[SourceId]) -> Result<(), OutOfMemory>
    ensures { OnOk result (made.new ≡ made.old ++ normal.normal_sources sources.now) }
{
    add_views(made, sources)?;
    add_runs(made, sources)
}

// The sources, views first, then runs.
fn normal_sources(alloc: Global, sources: &[SourceId]) -> Result<Listed<SourceId>, OutOfMemory>
    ensures { IfOk result (λ made. made ≡ normal.normal_sources sources.now) }
{
    let mut made = Listed::new(alloc);
    match add_sources(&mut made, sources) {
        Ok(()) => Ok(made),
        Err(e) => {
            drop(made);
            Err(e)
        }
    }
}

// An equal prefix, and the sources, views first, then runs.
fn normal_scope<T: Plain + Drop>(
    alloc: Global,
    segment: &T,
    sources: &[SourceId],
) -> Result<(T, Listed<SourceId>), OutOfMemory>
    ensures { IfOk result (λ made. made ≡ (segment.now, normal.normal_sources sources.now)) }
{
    let segment = Plain::clone(segment, alloc)?;
    match normal_sources(alloc, sources) {
        Ok(sources) => Ok((segment, sources)),
        Err(e) => {
            drop(segment);
            Err(e)
        }
    }
}

fn normal_spec(alloc: Global, spec: &CompactionSpec) -> Result<CompactionSpec, OutOfMemory>
    ensures { IfOk result (λ made. made ≡ normal.normal_spec spec.now) }
{
    match spec {
        CompactionSpec::Tiered {
            segment,
            sources,
            destination,
        } => {
            let (segment, sources) = normal_scope(alloc, segment, sources.as_slice())?;
            Ok(CompactionSpec::Tiered {
                segment,
                sources,
                destination: *destination,
            })
        }
        CompactionSpec::DrainSegment { segment, sources } => {
            let (segment, sources) = normal_scope(alloc, segment, sources.as_slice())?;
            Ok(CompactionSpec::DrainSegment { segment, sources })
        }
    }
}

// The outputs that are kept.
fn normal_outputs(
    alloc: Global,
    compaction: &Compaction,
) -> Result<Listed<SsTableHandle>, OutOfMemory>
    ensures { IfOk result (λ made. made ≡ records.kept_of compaction.now) }
{
    if has_outputs(compaction.status) {
        Ok(compaction.output_ssts.clone(alloc)?)
    } else {
        Ok(Listed::new(alloc))
    }
}

fn normal_context(
    alloc: Global,
    context: &Option<CompactionContext>,
) -> Result<Option<CompactionContext>, OutOfMemory>
    ensures { IfOk result (λ made. made ≡ option_map normal.normal_context context.now) }
{
    match context {
        None => Ok(None),
        Some(context) => Ok(Some(CompactionContext {
            subcompactions: context.subcompactions.clone(alloc)?,
            retention_min_seq: Some(context.retention_min_seq.unwrap_or(0)),
        })),
    }
}

// What it is to do, and who runs it.
fn normal_task(
    alloc: Global,
    compaction: &Compaction,
) -> Result<(CompactionSpec, Option<WorkerSpec>), OutOfMemory>
    ensures { IfOk result (λ made. made ≡ (normal.normal_spec compaction.now.spec, compaction.now.worker)) }
{
    let spec = normal_spec(alloc, &compaction.spec)?;
    match Plain::clone(&compaction.worker, alloc) {
        Ok(worker) => Ok((spec, worker)),
        Err(e) => {
            drop(spec);
            Err(e)
        }
    }
}

// The outputs that are kept, and what a worker goes on with.
fn normal_work(
    alloc: Global,
    compaction: &Compaction,
) -> Result<(Listed<SsTableHandle>, Option<CompactionContext>), OutOfMemory>
    ensures { IfOk result (λ made.
        made ≡ (records.kept_of compaction.now, option_map normal.normal_context compaction.now.ctx)) }
{
    let outputs = normal_outputs(alloc, compaction)?;
    match normal_context(alloc, &compaction.ctx) {
        Ok(context) => Ok((outputs, context)),
        Err(e) => {
            drop(outputs);
            Err(e)
        }
    }
}

fn normal_compaction(alloc: Global, compaction: &Compaction) -> Result<Compaction, OutOfMemory>
    ensures { IfOk result (λ made. made ≡ normal.normal_compaction compaction.now) }
{
    let (spec, worker) = normal_task(alloc, compaction)?;
    match normal_work(alloc, compaction) {
        Ok((output_ssts, ctx)) => Ok(Compaction {
            id: compaction.id,
            spec,
            status: compaction.status,
            worker,
            output_ssts,
            ctx,
        }),
        Err(e) => {
            drop(spec);
            drop(worker);
            Err(e)
        }
    }
}

// Makes the normal form of a compaction the one of its id.
fn insert_normal(
    alloc: Global,
    made: &mut Compactions,
    compaction: &Compaction,
) -> Result<(), OutOfMemory>
    ensures { OnOk result (made.new
        ≡ record made.old { entries = inserted (normal.normal_compaction compaction.now) made.old.entries }) }
{
    let compaction = normal_compaction(alloc, compaction)?;
    made.insert(compaction)
}

// The record of an epoch and the normal forms of these compactions, which ascend.
fn normal_entries(
    alloc: Global,
    epoch: u64,
    entries: CompactionsIter<'_>,
) -> Result<Compactions, OutOfMemory>
    requires ascending { are_ascending entries ≡ true }
    ensures { IfOk result (λ made.
        made ≡ record { compactor_epoch = epoch; entries = map normal.normal_compaction entries.entry }) }
{
    let mut made = Compactions::new(alloc, epoch);
    for compaction in entries {
        match insert_normal(alloc, &mut made, compaction) {
            Ok(()) => {}
            Err(e) => {
                drop(made);
                return Err(e);
            }
        }
    }
    Ok(made)
}

/// A record's normal form, which is what is read back of it: outputs of compactions that are Submitted, Scheduled or Running are let go,
/// sources are views first, then runs, and a retention that isn't known is 0.
pub fn normal_form_compactions(
    alloc: Global,
    compactions: &Compactions,
) -> Result<Compactions, OutOfMemory>
    ensures { IfOk result (λ made. made ≡ normal_record compactions.now) }
{
    normal_entries(alloc, compactions.compactor_epoch, compactions.iter())
}
