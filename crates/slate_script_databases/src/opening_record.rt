//! The first record of a database.
ghost use Rattle.std.specs.Prelude.{◌≡◌, ◌++◌, map, Some, None, IfOk, OnOk, if◌then◌else◌, is_some};
ghost use Rattle.slate_script_json.specs.Fields.{Gives};
ghost use Rattle.slate_script_databases.specs.Databases.{table_of as table};
ghost use Rattle.slate_script_databases.specs.OpeningRecords as records;
ghost use Rattle.slate_model_records.specs.Records.{entry_of, inserted};
ghost use Rattle.slate_model_records.specs.declared.source_id.SourceId.TheVariants.{SstView, SortedRun};

use crate::opening_tables::table_of;
use crate::record_items::{CompactionItem, RecordItem};
use slate_ids::{Listed, OutOfMemory, Ulid};
use slate_model::{Compaction, CompactionSpec, Compactions, SourceId, SsTableHandle};
use slate_script_json::JsonError;
use std::alloc::Global;

// Adds these views.
fn push_views(sources: &mut Listed<SourceId>, views: &[Ulid]) -> Result<(), OutOfMemory>
    ensures { OnOk result (sources.new ≡ sources.old ++ map SstView views.now) }
{
    for view in views {
        sources.push(SourceId::SstView(*view))?;
    }
    Ok(())
}

// Adds these runs.
fn push_runs(sources: &mut Listed<SourceId>, runs: &[u32]) -> Result<(), OutOfMemory>
    ensures { OnOk result (sources.new ≡ sources.old ++ map SortedRun runs.now) }
{
    for run in runs {
        sources.push(SourceId::SortedRun(*run))?;
    }
    Ok(())
}

// What a compaction reads: its views, and then its runs.
fn sources_of(alloc: Global, item: &CompactionItem) -> Result<Listed<SourceId>, OutOfMemory>
    ensures { IfOk result (λ sources. sources ≡ records.item_sources item.now) }
{
    let mut sources = Listed::new(alloc);
    push_views(&mut sources, item.views.as_slice())?;
    push_runs(&mut sources, item.runs.as_slice())?;
    Ok(sources)
}

// The tables of these ids.
fn tables_of(alloc: Global, ids: &[Ulid]) -> Result<Listed<SsTableHandle>, OutOfMemory>
    ensures { IfOk result (λ tables. tables ≡ map table ids.now) }
{
    let mut tables = Listed::new(alloc);
    for id in ids {
        tables.push(table_of(*id))?;
    }
    Ok(tables)
}

// What a compaction is to do.
fn spec_of(alloc: Global, item: &CompactionItem) -> Result<CompactionSpec, OutOfMemory>
    ensures { IfOk result
        (λ spec. spec ≡ records.aimed item.now.destination item.now.segment (records.item_sources item.now)) }
{
    let sources = sources_of(alloc, item)?;
    let segment = match item.segment.clone() {
        Ok(segment) => segment,
        Err(e) => {
            drop(sources);
            return Err(OutOfMemory::from(e));
        }
    };
    match item.destination {
        None => Ok(CompactionSpec::DrainSegment { segment, sources }),
        Some(destination) => Ok(CompactionSpec::Tiered {
            segment,
            sources,
            destination,
        }),
    }
}

// The compaction of an item.
fn compaction_of(alloc: Global, item: &CompactionItem) -> Result<Compaction, OutOfMemory>
    ensures { IfOk result (λ compaction. compaction ≡ records.compaction_of item.now) }
{
    let spec = spec_of(alloc, item)?;
    match tables_of(alloc, item.outputs.as_slice()) {
        Ok(output_ssts) => Ok(Compaction {
            id: item.id,
            spec,
            status: item.status,
            worker: None,
            output_ssts,
            ctx: None,
        }),
        Err(e) => {
            drop(spec);
            Err(e)
        }
    }
}

// Adds the compaction of an item. False where its id is there already.
fn add_item(
    alloc: Global,
    compactions: &mut Compactions,
    item: &CompactionItem,
) -> Result<bool, OutOfMemory>
    ensures { IfOk result (λ added. (if added then Some compactions.new else None)
        ≡ (if is_some (entry_of item.now.id compactions.old.entries) then None
        else Some (record compactions.old { entries = inserted (records.compaction_of item.now) compactions.old.entries }))) }
{
    if compactions.get(item.id).is_some() {
        return Ok(false);
    }
    compactions.insert(compaction_of(alloc, item)?)?;
    Ok(true)
}

// Adds the compactions of these items. False where an id comes twice.
fn add_items(
    alloc: Global,
    compactions: &mut Compactions,
    items: &[CompactionItem],
) -> Result<bool, OutOfMemory>
    ensures { IfOk result (λ added. (if added then Some compactions.new else None)
        ≡ records.with_items compactions.old items.now) }
{
    for item in items {
        if !add_item(alloc, compactions, item)? {
            return Ok(false);
        }
    }
    Ok(true)
}

/// The first record, where there is one. No record has an id twice.
pub(crate) fn first_record(
    alloc: Global,
    item: &Option<RecordItem>,
) -> Result<Option<Compactions>, JsonError>
    ensures { Gives result (records.first_record item.now) }
{
    match item {
        None => Ok(None),
        Some(item) => {
            let mut record = Compactions::new(alloc, item.epoch);
            if add_items(alloc, &mut record, item.compactions.as_slice())? {
                Ok(Some(record))
            } else {
                Err(JsonError::Malformed)
            }
        }
    }
}
