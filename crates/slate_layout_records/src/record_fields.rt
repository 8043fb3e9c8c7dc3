//! What of a record has no bytes.
ghost use Rattle.std.specs.Prelude.{◌≡◌};
ghost use Rattle.std.specs.List.{list_all};
ghost use Rattle.slate_ids.specs.Keys.{pointed};
ghost use Rattle.slate_model_tables.specs.Tables as known;
ghost use Rattle.slate_layout_parts.specs.Typed.{none_or};
ghost use Rattle.slate_layout_records.specs.RecordFields as fields;
ghost use Rattle.slate_layout_records.specs.RecordFields.{of_context, of_outputs, record_field};

use slate_ids::FieldName;
use slate_layout_parts::{are_entries, is_compacted, is_short, run_count, short_bound, view_count};
use slate_model_records::{
    Compaction, CompactionContext, CompactionSpec, Compactions, CompactionsIter, Subcompaction,
    WorkerSpec,
};
use slate_model_tables::SsTableHandle;

// ---- ids of tables

fn are_compacted(outputs: &[SsTableHandle]) -> bool
    ensures { result ≡ list_all (λ h. known.is_compacted h.id) outputs.now }
{
    outputs.iter().all(|h| is_compacted(&h.id))
}

fn parts_are_compacted(parts: &[Subcompaction]) -> bool
    ensures { result ≡ list_all (λ s. list_all (λ h. known.is_compacted h.id) s.output_ssts) parts.now }
{
    parts
        .iter()
        .all(|s| are_compacted(s.output_ssts.as_slice()))
}

fn context_is_compacted(context: &Option<CompactionContext>) -> bool
    ensures { result ≡ none_or (of_context (λ h. known.is_compacted h.id)) context.now }
{
    match context {
        None => true,
        Some(context) => parts_are_compacted(context.subcompactions.as_slice()),
    }
}

fn all_compacted(compaction: &Compaction) -> bool
    ensures { result ≡ of_outputs (λ h. known.is_compacted h.id) compaction.now }
{
    are_compacted(compaction.output_ssts.as_slice()) && context_is_compacted(&compaction.ctx)
}

// ---- keys

fn has_entries(table: &SsTableHandle) -> bool
    ensures { result ≡ fields.has_entries table.now }
{
    are_entries(&table.info.first_entry, &table.info.last_entry)
}

fn have_entries(outputs: &[SsTableHandle]) -> bool
    ensures { result ≡ list_all fields.has_entries outputs.now }
{
    outputs.iter().all(|h| has_entries(h))
}

fn parts_have_entries(parts: &[Subcompaction]) -> bool
    ensures { result ≡ list_all (λ s. list_all fields.has_entries s.output_ssts) parts.now }
{
    parts.iter().all(|s| have_entries(s.output_ssts.as_slice()))
}

fn context_has_entries(context: &Option<CompactionContext>) -> bool
    ensures { result ≡ none_or (of_context fields.has_entries) context.now }
{
    match context {
        None => true,
        Some(context) => parts_have_entries(context.subcompactions.as_slice()),
    }
}

fn has_ranges(context: &CompactionContext) -> bool
    ensures { result ≡ fields.has_ranges context.now }
{
    context
        .subcompactions
        .as_slice()
        .iter()
        .all(|s| s.range.is_proper())
}

fn context_has_ranges(context: &Option<CompactionContext>) -> bool
    ensures { result ≡ none_or fields.has_ranges context.now }
{
    match context {
        None => true,
        Some(context) => has_ranges(context),
    }
}

fn has_keys(compaction: &Compaction) -> bool
    ensures { result ≡ fields.has_keys_of compaction.now }
{
    have_entries(compaction.output_ssts.as_slice())
        && context_has_entries(&compaction.ctx)
        && context_has_ranges(&compaction.ctx)
}

// ---- lengths

fn short_handle(table: &SsTableHandle) -> bool
    ensures { result ≡ fields.short_handle table.now }
{
    is_short(&table.info.first_entry) && is_short(&table.info.last_entry)
}

fn short_handles(outputs: &[SsTableHandle]) -> bool
    ensures { result ≡ list_all fields.short_handle outputs.now }
{
    outputs.iter().all(|h| short_handle(h))
}

fn short_spec(spec: &CompactionSpec) -> bool
    ensures { result ≡ fields.short_spec spec.now }
{
    let sources = spec.sources();
    spec.segment().len() < 1 << 32 && view_count(sources) < 1 << 32 && run_count(sources) < 1 << 32
}

fn short_worker(worker: &Option<WorkerSpec>) -> bool
    ensures { result ≡ none_or fields.short_worker worker.now }
{
    match worker {
        None => true,
        Some(worker) => worker.worker_id.as_str().len() < 1 << 32,
    }
}

fn short_part(part: &Subcompaction) -> bool
    ensures { result ≡ fields.short_part part.now }
{
    short_bound(part.range.start_bound())
        && short_bound(part.range.end_bound())
        && part.output_ssts.as_slice().len() < 1 << 32
        && short_handles(part.output_ssts.as_slice())
}

fn short_parts(parts: &[Subcompaction]) -> bool
    ensures { result ≡ list_all fields.short_part parts.now }
{
    parts.iter().all(|s| short_part(s))
}

fn short_context(context: &Option<CompactionContext>) -> bool
    ensures { result ≡ none_or fields.short_context context.now }
{
    match context {
        None => true,
        Some(context) => {
            context.subcompactions.as_slice().len() < 1 << 32
                && short_parts(context.subcompactions.as_slice())
        }
    }
}

fn short_compaction(compaction: &Compaction) -> bool
    ensures { result ≡ fields.short_compaction compaction.now }
{
    short_spec(&compaction.spec)
        && short_worker(&compaction.worker)
        && compaction.output_ssts.as_slice().len() < 1 << 32
        && short_handles(compaction.output_ssts.as_slice())
        && short_context(&compaction.ctx)
}

// ---- the compactions of a record

fn are_all_compacted(entries: CompactionsIter<'_>) -> bool
    ensures { result ≡ list_all (of_outputs (λ h. known.is_compacted h.id)) entries.entry }
{
    for compaction in entries {
        if !all_compacted(compaction) {
            return false;
        }
    }
    true
}

fn have_all_keys(entries: CompactionsIter<'_>) -> bool
    ensures { result ≡ list_all fields.has_keys_of entries.entry }
{
    for compaction in entries {
        if !has_keys(compaction) {
            return false;
        }
    }
    true
}

fn are_all_short(entries: CompactionsIter<'_>) -> bool
    ensures { result ≡ list_all fields.short_compaction entries.entry }
{
    for compaction in entries {
        if !short_compaction(compaction) {
            return false;
        }
    }
    true
}

/// The first field of a record that has no bytes.
pub(crate) fn unencodable(compactions: &Compactions) -> Option<FieldName>
    ensures { result ≡ record_field compactions.now }
{
    if !are_all_compacted(compactions.iter()) {
        return Some(FieldName::WalId);
    }
    if !have_all_keys(compactions.iter()) {
        return Some(FieldName::NoKeys);
    }
    if compactions.len() < 1 << 32 && are_all_short(compactions.iter()) {
        None
    } else {
        Some(FieldName::Length)
    }
}
