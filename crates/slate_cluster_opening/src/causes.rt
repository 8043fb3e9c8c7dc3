//! Why databases whose values have bytes can't be the beginning of a run.
ghost use Rattle.std.specs.Prelude.{◌≡◌, is_some};
ghost use Rattle.std.specs.List.{list_any};
ghost use Rattle.slate_cluster_protocol.specs.Specs as opens;
ghost use Rattle.slate_state_record_updates.specs.RecordRules.{table_refusal};

use crate::objects::Objects;
use slate_ids::{DbPath, ObjectPath};
use slate_model::{Compaction, Compactions, ExternalDb, Segment, SsTableHandle, SsTableId};
use slate_script_events::{ClusterCause, DbSpec};

// Whether one of the objects is at a path.
fn is_there(objects: &Objects, path: &ObjectPath) -> bool
    ensures { result ≡ opens.is_there path.now objects.now.entries }
{
    objects.contains_key(path)
}

// Whether a segment's prefix begins with another's.
fn overlaps(spec: &DbSpec) -> bool
    ensures { result ≡ opens.overlaps spec.now }
{
    !Segment::are_apart(spec.manifest.core.segments())
}

// Whether this holds of one of the databases.
fn one_overlaps(specs: &[DbSpec]) -> bool
    ensures { result ≡ list_any opens.overlaps specs.now }
{
    specs.iter().any(|spec| overlaps(spec))
}

// Whether the epoch of the database's record is above the compactor epoch of its manifest.
fn is_epoch_high(spec: &DbSpec) -> bool
    ensures { result ≡ opens.is_epoch_high spec.now }
{
    match &spec.compactions {
        None => false,
        Some(record) => record.compactor_epoch > spec.manifest.compactor_epoch,
    }
}

// Whether this holds of one of the databases.
fn one_epoch_is_high(specs: &[DbSpec]) -> bool
    ensures { result ≡ list_any opens.is_epoch_high specs.now }
{
    specs.iter().any(|spec| is_epoch_high(spec))
}

// Whether a table is older than these milliseconds.
fn is_older(ms: u64, id: &SsTableId) -> bool
    ensures { result ≡ is_some (table_refusal ms id.now) }
{
    match id {
        SsTableId::Wal(_) => false,
        SsTableId::Compacted(ulid) => ulid.timestamp_ms() < ms,
    }
}

// Whether a table isn't among the objects, at the database's own path.
fn is_output_absent(objects: &Objects, spec: &DbSpec, id: &SsTableId) -> bool
    ensures { result ≡ opens.is_output_absent objects.now.entries spec.now id.now }
{
    match id {
        SsTableId::Wal(_) => false,
        SsTableId::Compacted(ulid) => !is_there(objects, &ObjectPath::Table(spec.path, *ulid)),
    }
}

// Whether an output of a compaction of these milliseconds is older than it, or absent.
fn is_output_wrong(objects: &Objects, spec: &DbSpec, ms: u64, sst: &SsTableHandle) -> bool
    ensures { result ≡ opens.is_output_wrong objects.now.entries spec.now ms sst.now }
{
    is_older(ms, &sst.id) || is_output_absent(objects, spec, &sst.id)
}

// Whether a compaction has such an output.
fn has_wrong_output(objects: &Objects, spec: &DbSpec, compaction: &Compaction) -> bool
    ensures { result ≡ opens.has_wrong_output objects.now.entries spec.now compaction.now }
{
    let ms = compaction.id.timestamp_ms();
    let outputs = compaction.output_ssts.as_slice();
    outputs
        .iter()
        .any(|sst| is_output_wrong(objects, spec, ms, sst))
}

// Whether one of a record's compactions has.
fn record_has_wrong(objects: &Objects, spec: &DbSpec, compactions: &Compactions) -> bool
    ensures { result ≡ list_any (opens.has_wrong_output objects.now.entries spec.now) compactions.now.entries }
{
    for compaction in compactions.iter() {
        if has_wrong_output(objects, spec, compaction) {
            return true;
        }
    }
    false
}

// Whether one of the database's compactions has.
fn are_outputs_wrong(objects: &Objects, spec: &DbSpec) -> bool
    ensures { result ≡ opens.are_outputs_wrong objects.now.entries spec.now }
{
    match &spec.compactions {
        None => false,
        Some(record) => record_has_wrong(objects, spec, record),
    }
}

// Whether this holds of one of the databases.
fn one_has_wrong_outputs(objects: &Objects, specs: &[DbSpec]) -> bool
    ensures { result ≡ list_any (opens.are_outputs_wrong objects.now.entries) specs.now }
{
    specs.iter().any(|spec| are_outputs_wrong(objects, spec))
}

// Whether a checkpoint of the database names another version than the first.
fn names_other(spec: &DbSpec) -> bool
    ensures { result ≡ opens.names_other spec.now }
{
    let checkpoints = spec.manifest.core.checkpoints.as_slice();
    checkpoints.iter().any(|c| c.manifest_id != 1)
}

// Whether one of the databases has such a checkpoint.
fn one_names_other(specs: &[DbSpec]) -> bool
    ensures { result ≡ list_any opens.names_other specs.now }
{
    specs.iter().any(|spec| names_other(spec))
}

// The database at whose path a table stands.
fn home_of(own: DbPath, id: &SsTableId, entries: &[ExternalDb]) -> DbPath
    ensures { result ≡ opens.home_of own id.now entries.now }
{
    for entry in entries {
        if entry.lists(id) {
            return entry.path;
        }
    }
    own
}

// Whether a table of a tree isn't among the objects.
fn is_absent(objects: &Objects, spec: &DbSpec, id: &SsTableId) -> bool
    ensures { result ≡ opens.is_absent objects.now.entries spec.now id.now }
{
    match id {
        SsTableId::Wal(_) => false,
        SsTableId::Compacted(ulid) => {
            let place = home_of(spec.path, id, spec.manifest.external_dbs.as_slice());
            !is_there(objects, &ObjectPath::Table(place, *ulid))
        }
    }
}

// Whether a table of a tree of a database is absent.
fn lacks_table(objects: &Objects, spec: &DbSpec) -> bool
    ensures { result ≡ opens.lacks_table objects.now.entries spec.now }
{
    for view in spec.manifest.core.views() {
        if is_absent(objects, spec, &view.sst.id) {
            return true;
        }
    }
    false
}

// Whether this holds of one of the databases.
fn one_lacks_table(objects: &Objects, specs: &[DbSpec]) -> bool
    ensures { result ≡ list_any (opens.lacks_table objects.now.entries) specs.now }
{
    specs.iter().any(|spec| lacks_table(objects, spec))
}

// Whether the floor of a database is below its watermark.
fn is_floor_low(spec: &DbSpec) -> bool
    ensures { result ≡ opens.is_floor_low spec.now }
{
    spec.manifest.core.floor < spec.manifest.core.watermark()
}

// Whether this holds of one of the databases.
fn one_floor_is_low(specs: &[DbSpec]) -> bool
    ensures { result ≡ list_any opens.is_floor_low specs.now }
{
    specs.iter().any(|spec| is_floor_low(spec))
}

/// Why databases whose values have bytes can't be the beginning of a run, as these objects.
pub(crate) fn cause_beside(objects: &Objects, specs: &[DbSpec]) -> Option<ClusterCause>
    ensures { result ≡ opens.cause_beside objects.now.entries specs.now }
{
    if one_overlaps(specs) {
        return Some(ClusterCause::Segments);
    }
    if one_epoch_is_high(specs) {
        return Some(ClusterCause::Epoch);
    }
    if one_has_wrong_outputs(objects, specs) {
        return Some(ClusterCause::Outputs);
    }
    if one_names_other(specs) {
        return Some(ClusterCause::Checkpoints);
    }
    if one_lacks_table(objects, specs) {
        return Some(ClusterCause::Tables);
    }
    if one_floor_is_low(specs) {
        return Some(ClusterCause::Floor);
    }
    None
}
