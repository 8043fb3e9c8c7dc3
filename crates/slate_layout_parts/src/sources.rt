//! The bytes of what a compaction is to do.
ghost use Rattle.std.specs.Prelude.{◌≡◌, ◌++◌, length, map, true, OnOk, IfOk};
ghost use Rattle.std.specs.List.{flat_map, list_all};
ghost use Rattle.std.proofs.Common.{arith};
ghost use Rattle.slate_ids.specs.Ulids as ulids;
ghost use Rattle.slate_model_records.specs.declared.source_id.SourceId.TheVariants.{SstView, SortedRun};
ghost use Rattle.slate_layout_parts.specs.Bytes.{u32_bytes};
ghost use Rattle.slate_layout_parts.specs.Texts.{id_bytes};
ghost use Rattle.slate_layout_parts.specs.RecordParts as records;
ghost use Rattle.slate_layout_parts.specs.TypedCompactions as fields;
ghost use Rattle.slate_layout_parts.specs.Typed as typed;
ghost use Rattle.slate_layout_parts.specs.laws.Compacting as laws;

use crate::numbers::write_count;
use crate::part::Part;
use crate::reader::Reader;
use crate::tables::Tables;
use bytes::Bytes;
use slate_ids::{Listed, OutOfMemory, Ulid};
use slate_model_records::{CompactionSpec, SourceId};
use std::alloc::Global;

/// How many of the sources are views.
pub fn view_count(sources: &[SourceId]) -> usize
    ensures { result ≡ length (records.views_in sources.now) }
{
    let mut count = 0usize;
    for source in sources {
        if let SourceId::SstView(_) = source {
            count += 1;
        }
    }
    count
}

/// How many of the sources are runs.
pub fn run_count(sources: &[SourceId]) -> usize
    ensures { result ≡ length (records.runs_in sources.now) }
{
    let mut count = 0usize;
    for source in sources {
        if let SourceId::SortedRun(_) = source {
            count += 1;
        }
    }
    count
}

// Adds the ids of the views among the sources at the end.
fn write_views(sources: &[SourceId], out: &mut Vec<u8>) -> Result<(), OutOfMemory>
    ensures bytes { OnOk result (out.new.items ≡ out.old.items ++ flat_map id_bytes (records.views_in sources.now)) }
    ensures typed { OnOk result (list_all ulids.is_id (records.views_in sources.now) ≡ true) }
{
    for source in sources {
        if let SourceId::SstView(id) = source {
            id.write(out)?;
        }
    }
    Ok(())
}

// Adds the numbers of the runs among the sources at the end.
fn write_runs(sources: &[SourceId], out: &mut Vec<u8>) -> Result<(), OutOfMemory>
    ensures bytes { OnOk result (out.new.items ≡ out.old.items ++ flat_map u32_bytes (records.runs_in sources.now)) }
    ensures typed { OnOk result (list_all typed.is_u32 (records.runs_in sources.now) ≡ true) }
{
    for source in sources {
        if let SourceId::SortedRun(number) = source {
            number.write(out)?;
        }
    }
    Ok(())
}

// Adds the bytes of a segment's prefix and of sources at the end.
fn write_scope(segment: &Bytes, sources: &[SourceId], out: &mut Vec<u8>) -> Result<(), OutOfMemory>
    ensures bytes { OnOk result (out.new.items ≡ out.old.items ++ records.scope_bytes (records.scope_of segment.now sources.now)) }
    ensures typed { OnOk result (fields.is_scope sources.now ≡ true) }
{
    segment.write(out)?;
    write_count(view_count(sources), out)?;
    write_views(sources, out)?;
    write_count(run_count(sources), out)?;
    write_runs(sources, out)
}

// Adds the views of these ids.
fn add_views(sources: &mut Listed<SourceId>, views: &[Ulid]) -> Result<(), OutOfMemory>
    ensures { OnOk result (sources.new ≡ sources.old ++ map SstView views.now) }
{
    for view in views {
        sources.push(SourceId::SstView(*view))?;
    }
    Ok(())
}

// Adds the runs of these numbers.
fn add_runs(sources: &mut Listed<SourceId>, runs: &[u32]) -> Result<(), OutOfMemory>
    ensures { OnOk result (sources.new ≡ sources.old ++ map SortedRun runs.now) }
{
    for run in runs {
        sources.push(SourceId::SortedRun(*run))?;
    }
    Ok(())
}

// Adds the views of these ids, then the runs of these numbers.
fn add_sources(
    sources: &mut Listed<SourceId>,
    views: &[Ulid],
    runs: &[u32],
) -> Result<(), OutOfMemory>
    ensures { OnOk result (sources.new ≡ sources.old ++ records.sources_of (views.now, runs.now)) }
{
    add_views(sources, views)?;
    add_runs(sources, runs)
}

/// The sources of these views and runs, views first.
pub fn sources_of(
    alloc: Global,
    views: &[Ulid],
    runs: &[u32],
) -> Result<Listed<SourceId>, OutOfMemory>
    ensures { IfOk result (λ sources. sources ≡ records.sources_of (views.now, runs.now)) }
{
    let mut sources = Listed::new(alloc);
    match add_sources(&mut sources, views, runs) {
        Ok(()) => Ok(sources),
        Err(e) => {
            drop(sources);
            Err(e)
        }
    }
}

/// The prefix of a segment, and the views and runs that are sources.
pub type Scope = (Bytes, (Listed<Ulid>, Listed<u32>));

// The prefix of a segment, and its sources.
fn scope_sources(alloc: Global, scope: Scope) -> Result<(Bytes, Listed<SourceId>), OutOfMemory>
    ensures { IfOk result (λ made. made ≡ (scope.0, records.sources_of scope.1)) }
{
    let (segment, (views, runs)) = scope;
    let made = sources_of(alloc, views.as_slice(), runs.as_slice());
    drop(views);
    drop(runs);
    match made {
        Ok(sources) => Ok((segment, sources)),
        Err(e) => {
            drop(segment);
            Err(e)
        }
    }
}

// A merge into a run, where bytes begin with its parts.
fn read_tiered<'a>(
    alloc: Global,
    tables: &Tables,
    from: Reader<'a>,
) -> Result<Option<(CompactionSpec, Reader<'a>)>, OutOfMemory>
    ensures { IfOk result (λ read. read ≡ records.tiered_in from.entry) }
{
    match <(Scope, u32)>::read(alloc, tables, from)? {
        None => Ok(None),
        Some(((scope, destination), from)) => {
            let (segment, sources) = scope_sources(alloc, scope)?;
            let spec = CompactionSpec::Tiered {
                segment,
                sources,
                destination,
            };
            Ok(Some((spec, from)))
        }
    }
}

// A segment that goes, where bytes begin with its parts.
fn read_drained<'a>(
    alloc: Global,
    tables: &Tables,
    from: Reader<'a>,
) -> Result<Option<(CompactionSpec, Reader<'a>)>, OutOfMemory>
    ensures { IfOk result (λ read. read ≡ records.drained_in from.entry) }
{
    match Scope::read(alloc, tables, from)? {
        None => Ok(None),
        Some((scope, from)) => {
            let (segment, sources) = scope_sources(alloc, scope)?;
            Ok(Some((CompactionSpec::DrainSegment { segment, sources }, from)))
        }
    }
}

impl Part for CompactionSpec {
    ghost bytes = { records.spec_bytes };

    ghost in_front = { λ tables. records.spec_in };

    ghost Fits = { λ tables. records.SpecFits };

    ghost is_typed = { fields.is_spec };

    ghost LEAST = { 1 };

    const LEAST: usize = 1;

    ghost few = { omega arith };

    ghost reads = { λ tables. laws.spec_reads };

    fn write(&self, out: &mut Vec<u8>) -> Result<(), OutOfMemory> {
        match self {
            CompactionSpec::Tiered {
                segment,
                sources,
                destination,
            } => {
                0u8.write(out)?;
                write_scope(segment, sources.as_slice(), out)?;
                destination.write(out)
            }
            CompactionSpec::DrainSegment { segment, sources } => {
                1u8.write(out)?;
                write_scope(segment, sources.as_slice(), out)
            }
        }
    }

    fn read<'a>(
        alloc: Global,
        tables: &Tables,
        from: Reader<'a>,
    ) -> Result<Option<(CompactionSpec, Reader<'a>)>, OutOfMemory> {
        match from.byte() {
            Some((0, from)) => read_tiered(alloc, tables, from),
            Some((1, from)) => read_drained(alloc, tables, from),
            _ => Ok(None),
        }
    }
}
