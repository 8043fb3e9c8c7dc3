//! What of a manifest has no bytes.
ghost use Rattle.std.specs.Prelude.{◌≡◌, ◌&&◌, length, option_copied};
ghost use Rattle.std.specs.List.{list_all};
ghost use Rattle.slate_model_tables.specs.Tables as known;
ghost use Rattle.slate_model.specs.Trees.{views_of};
ghost use Rattle.slate_layout_parts.specs.InfoCodec as codec;
ghost use Rattle.slate_layout_parts.specs.Lengths as lengths;
ghost use Rattle.slate_layout_encodable.specs.Unencodable as fields;

use slate_ids::{BytesRange, FieldName, Millis, Text};
use slate_layout_parts::{are_entries, few, is_compacted, is_short, short_bound};
use slate_model::{
    Checkpoint, ExternalDb, LsmTreeState, Manifest, ManifestCore, Segment, SortedRun, SsTableId,
    SsTableView,
};

// Whether a moment's second has 32 bits.
fn has_second(moment: Millis) -> bool
    ensures { result ≡ fields.has_second moment }
{
    moment >= 0 && moment / 1000 < 1 << 32
}

// The same, where it isn't 0.
fn has_later_second(moment: Millis) -> bool
    ensures { result ≡ fields.has_later_second moment }
{
    moment >= 1000 && moment / 1000 < 1 << 32
}

// Whether a checkpoint never expires, or at a second from 1 to 2^32 - 1.
fn has_expiry(checkpoint: &Checkpoint) -> bool
    ensures { result ≡ fields.has_expiry checkpoint.now.expire_time }
{
    match checkpoint.expire_time {
        None => true,
        Some(moment) => has_later_second(moment),
    }
}

fn have_expiries(checkpoints: &[Checkpoint]) -> bool
    ensures { result ≡ list_all (λ c. fields.has_expiry c.expire_time) checkpoints.now }
{
    checkpoints.iter().all(|c| has_expiry(c))
}

fn have_creations(checkpoints: &[Checkpoint]) -> bool
    ensures { result ≡ list_all (λ c. fields.has_second c.create_time) checkpoints.now }
{
    checkpoints.iter().all(|c| has_second(c.create_time))
}

fn are_compacted(entry: &ExternalDb) -> bool
    ensures { result ≡ list_all known.is_compacted entry.now.sst_ids }
{
    entry.sst_ids.as_slice().iter().all(|id| is_compacted(id))
}

fn lists_compacted(entries: &[ExternalDb]) -> bool
    ensures { result ≡ list_all (λ e. list_all known.is_compacted e.sst_ids) entries.now }
{
    entries.iter().all(|e| are_compacted(e))
}

// Whether a view's table has a first entry, and no last one below it.
fn has_keys(view: &SsTableView) -> bool
    ensures { result ≡ fields.has_keys view.now }
{
    let info = &view.sst.info;
    info.first_entry.is_some() && are_entries(&info.first_entry, &info.last_entry)
}

// Whether the tables of all views are compacted.
fn all_of_compacted(core: &ManifestCore) -> bool
    ensures { result ≡ list_all (λ v. known.is_compacted v.sst.id) (views_of core.now) }
{
    for view in core.views() {
        if !is_compacted(&view.sst.id) {
            return false;
        }
    }
    true
}

// Whether the tables of all views have keys.
fn all_with_keys(core: &ManifestCore) -> bool
    ensures { result ≡ list_all fields.has_keys (views_of core.now) }
{
    for view in core.views() {
        if !has_keys(view) {
            return false;
        }
    }
    true
}

/// The first of the fields on moments and ids of a manifest that has no bytes.
pub fn early_field(manifest: &Manifest) -> Option<FieldName>
    ensures { result ≡ fields.early_field manifest.now }
{
    let checkpoints = manifest.core.checkpoints.as_slice();
    if !have_expiries(checkpoints) {
        return Some(FieldName::ExpireTime);
    }
    if !have_creations(checkpoints) {
        return Some(FieldName::CreateTime);
    }
    if !all_of_compacted(&manifest.core) || !lists_compacted(manifest.external_dbs.as_slice()) {
        return Some(FieldName::WalId);
    }
    None
}

// Whether the keys of a visible range, where there is one, are short.
fn short_range(range: Option<&BytesRange>) -> bool
    ensures { result ≡ lengths.short_range (option_copied range.entry) }
{
    match range {
        None => true,
        Some(range) => short_bound(range.start_bound()) && short_bound(range.end_bound()),
    }
}

fn short_view(view: &SsTableView) -> bool
    ensures { result ≡ fields.short_view view.now }
{
    let info = &view.sst.info;
    is_short(&info.first_entry) && is_short(&info.last_entry) && short_range(view.visible_range())
}

fn short_views(views: &[SsTableView]) -> bool
    ensures { result ≡ list_all fields.short_view views.now }
{
    views.iter().all(|v| short_view(v))
}

fn short_run(run: &SortedRun) -> bool
    ensures { result ≡ fields.short_run run.now }
{
    let views = run.sst_views();
    few(views.len()) && short_views(views)
}

fn short_runs(runs: &[SortedRun]) -> bool
    ensures { result ≡ list_all fields.short_run runs.now }
{
    runs.iter().all(|r| short_run(r))
}

// Whether the flushed tables' views of a tree are few, and short.
fn short_flushed(tree: &LsmTreeState) -> bool
    ensures { result ≡ (lengths.few (length tree.now.l0) && list_all fields.short_view tree.now.l0) }
{
    let (front, back) = tree.l0.as_slices();
    few(tree.l0.as_deque().len()) && short_views(front) && short_views(back)
}

fn short_tree(tree: &LsmTreeState) -> bool
    ensures { result ≡ fields.short_tree tree.now }
{
    let runs = tree.compacted.as_slice();
    short_flushed(tree) && few(runs.len()) && short_runs(runs)
}

fn short_segment(segment: &Segment) -> bool
    ensures { result ≡ fields.short_segment segment.now }
{
    few(segment.prefix().len()) && short_tree(segment.tree())
}

fn short_segments(segments: &[Segment]) -> bool
    ensures { result ≡ list_all fields.short_segment segments.now }
{
    segments.iter().all(|s| short_segment(s))
}

// Whether a name, where there is one, is short.
fn short_name(name: &Option<Text>) -> bool
    ensures { result ≡ codec.is_short name.now }
{
    match name {
        None => true,
        Some(name) => few(name.as_str().len()),
    }
}

fn short_checkpoints(checkpoints: &[Checkpoint]) -> bool
    ensures { result ≡ list_all (λ c. codec.is_short c.name) checkpoints.now }
{
    checkpoints.iter().all(|c| short_name(&c.name))
}

fn short_entries(entries: &[ExternalDb]) -> bool
    ensures { result ≡ list_all (λ e. lengths.few (length e.sst_ids)) entries.now }
{
    entries.iter().all(|e| few(e.sst_ids.as_slice().len()))
}

// Whether all lengths of a manifest with so many tables have 32 bits.
fn are_short(tables: usize, manifest: &Manifest) -> bool
    ensures { result ≡ fields.are_short tables manifest.now }
{
    let core = &manifest.core;
    let segments = core.segments();
    let checkpoints = core.checkpoints.as_slice();
    let entries = manifest.external_dbs.as_slice();
    few(tables)
        && short_tree(&core.tree)
        && few(segments.len())
        && short_segments(segments)
        && short_name(&core.segment_extractor_name)
        && few(checkpoints.len())
        && short_checkpoints(checkpoints)
        && few(entries.len())
        && short_entries(entries)
}

/// The first of the fields on keys, numbers and lengths of a manifest with so many tables that has no bytes.
pub fn late_field(tables: usize, manifest: &Manifest) -> Option<FieldName>
    ensures { result ≡ fields.late_field tables manifest.now }
{
    if !all_with_keys(&manifest.core) {
        return Some(FieldName::NoKeys);
    }
    if manifest.core.next_wal_sst_id == 0 {
        return Some(FieldName::NextWal);
    }
    if are_short(tables, manifest) {
        None
    } else {
        Some(FieldName::Length)
    }
}
