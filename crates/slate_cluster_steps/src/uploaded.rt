//! The tables that a party uploaded, as its calls put them.
ghost use Rattle.std.specs.Prelude.{◌≡◌, IfOk, map};
ghost use Rattle.std.specs.List.{find};
ghost use Rattle.slate_cluster_protocol.specs.Calls as calls;
ghost use Rattle.slate_cluster_protocol.specs.Uploaded.{info_of};

use slate_cluster_protocol::Uploads;
use slate_ids::{Listed, OutOfMemory, SlateDBError, StateCause, Ulid};
use slate_model::{Plain, SsTableHandle, SsTableId, SsTableInfo};
use slate_script_events::FlushTable;
use slate_state_updates::FlushedTable;
use std::alloc::Global;

// ---- tables that weren't uploaded

// Whether a table wasn't uploaded.
fn is_unknown(uploads: &Uploads, table: &Ulid) -> bool
    ensures { result ≡ calls.is_unknown uploads.now table.now }
{
    uploads.get(table).is_none()
}

/// The refusal that names the first output that wasn't uploaded.
pub(crate) fn refusal_of_unknown(uploads: &Uploads, tables: &[Ulid]) -> Option<SlateDBError>
    ensures { result ≡ calls.refusal_of_unknown (find (calls.is_unknown uploads.now) tables.now) }
{
    for table in tables {
        if is_unknown(uploads, table) {
            return Some(SlateDBError::InvalidDBState(StateCause::NotUploaded(*table)));
        }
    }
    None
}

// Whether a table of a flush wasn't uploaded.
fn is_missing(uploads: &Uploads, table: &FlushTable) -> bool
    ensures { result ≡ calls.is_missing uploads.now table.now }
{
    is_unknown(uploads, &table.table)
}

/// The refusal that names the first table that wasn't uploaded.
pub(crate) fn refusal_of_missing(uploads: &Uploads, tables: &[FlushTable]) -> Option<SlateDBError>
    ensures { result ≡ calls.refusal_of_missing (find (calls.is_missing uploads.now) tables.now) }
{
    for table in tables {
        if is_missing(uploads, table) {
            return Some(SlateDBError::InvalidDBState(StateCause::NotUploaded(table.table)));
        }
    }
    None
}

// ---- what is known of those that were

// What is known of an uploaded table.
fn known_info(alloc: Global, uploads: &Uploads, table: &Ulid) -> Result<SsTableInfo, OutOfMemory>
    ensures { IfOk result (λ known. known ≡ calls.known_info (info_of table.now uploads.now)) }
{
    match uploads.get(table) {
        Some(info) => info.clone(alloc),
        None => Ok(SsTableInfo::default()),
    }
}

// A table in format version 1, with what is known of it.
fn uploaded_table(
    alloc: Global,
    uploads: &Uploads,
    table: &Ulid,
) -> Result<SsTableHandle, OutOfMemory>
    ensures { IfOk result (λ sst. sst ≡ calls.uploaded_table uploads.now table.now) }
{
    Ok(SsTableHandle {
        id: SsTableId::Compacted(*table),
        format_version: 1,
        info: known_info(alloc, uploads, table)?,
    })
}

/// The outputs of a report, with what is known of them.
pub(crate) fn uploaded_tables(
    alloc: Global,
    uploads: &Uploads,
    tables: &[Ulid],
) -> Result<Listed<SsTableHandle>, OutOfMemory>
    ensures { IfOk result (λ outputs. outputs ≡ map (calls.uploaded_table uploads.now) tables.now) }
{
    let mut outputs = Listed::new(alloc);
    for table in tables {
        outputs.push(uploaded_table(alloc, uploads, table)?)?;
    }
    Ok(outputs)
}

// A table of a flush, with what is known of it.
fn flushed_table(
    alloc: Global,
    uploads: &Uploads,
    table: &FlushTable,
) -> Result<FlushedTable, OutOfMemory>
    ensures { IfOk result (λ flushed. flushed ≡ calls.flushed_table uploads.now table.now) }
{
    Ok(FlushedTable {
        view: table.view,
        prefix: Plain::clone(&table.prefix, alloc)?,
        sst: uploaded_table(alloc, uploads, &table.table)?,
    })
}

/// The tables of a flush, with what is known of them.
pub(crate) fn flushed_tables(
    alloc: Global,
    uploads: &Uploads,
    tables: &[FlushTable],
) -> Result<Listed<FlushedTable>, OutOfMemory>
    ensures { IfOk result (λ flushed. flushed ≡ map (calls.flushed_table uploads.now) tables.now) }
{
    let mut flushed = Listed::new(alloc);
    for table in tables {
        flushed.push(flushed_table(alloc, uploads, table)?)?;
    }
    Ok(flushed)
}
