//! Which tables a pass may delete.
ghost use Rattle.std.specs.Prelude.{◌≡◌, ◌++◌, List, IfOk, OnOk};
ghost use Rattle.slate_model.specs.Trees.{tables_of};
ghost use Rattle.slate_gc_picks.specs.TablePicks as tables;
ghost use Rattle.slate_model_tables.specs.declared.ss_table_id.SsTableId.{SsTableId as AnyTable};
ghost use Rattle.slate_state_updates.specs.TableSets.{IsTableSet};

use crate::keeping::push_if;
use slate_ids::{Listed, Millis, ObjectPath, OutOfMemory};
use slate_model::{Manifest, ManifestCore, SsTableId};
use slate_store::ObjectMetadata;
use std::alloc::Global;
use std::collections::{BTreeMap, BTreeSet};

/// Tables, in the order of their ids.
type TableSet = BTreeSet<SsTableId>;

// Adds the tables of all trees to a set.
fn note_tables(used: &mut TableSet, core: &ManifestCore) -> Result<(), OutOfMemory>
    ensures { OnOk result ((known : List AnyTable) → IsTableSet used.old known
        → IsTableSet used.new (known ++ tables_of core.now)) }
{
    for view in core.views() {
        used.insert(view.sst.id)?;
    }
    Ok(())
}

// The tables of the trees of these versions, as a set.
fn used_tables(alloc: Global, versions: &BTreeMap<u64, Manifest>) -> Result<TableSet, OutOfMemory>
    ensures { IfOk result (λ used. IsTableSet used (tables.used_tables versions.now.entries)) }
{
    let mut used = BTreeSet::new(alloc);
    for (_, manifest) in versions {
        note_tables(&mut used, &manifest.core)?;
    }
    Ok(used)
}

// Whether milliseconds are strictly below those of a moment less the least age, of the least compaction, and of the watermark.
fn is_early(min_age: u64, now: Millis, least: u64, watermark: u64, ms: u64) -> bool
    ensures { result ≡ tables.is_early min_age now least watermark ms }
{
    (ms as i128) < (now as i128) - (min_age as i128) && ms < least && ms < watermark
}

// Whether an object is an early table that isn't used.
fn may_go(
    min_age: u64,
    now: Millis,
    least: u64,
    watermark: u64,
    used: &TableSet,
    object: &ObjectMetadata,
) -> bool
    ensures { (ids : List AnyTable) → IsTableSet used.now ids
        → result ≡ tables.is_unused min_age now least watermark ids object.now.location }
{
    match &object.location {
        ObjectPath::Table(_, id) => {
            is_early(min_age, now, least, watermark, id.timestamp_ms())
                && !used.contains(&SsTableId::Compacted(*id))
        }
        _ => false,
    }
}

/// Of these objects the tables that no tree of these versions has and that are early: their ids' milliseconds are strictly below `now`
/// less `min_age`, below the least milliseconds `least` of a compaction of the record, and below the watermark of the manifest. They
/// come in their order.
pub fn unused_tables(
    alloc: Global,
    min_age: u64,
    now: Millis,
    least: u64,
    watermark: u64,
    versions: &BTreeMap<u64, Manifest>,
    found: &[ObjectMetadata],
) -> Result<Listed<ObjectMetadata>, OutOfMemory>
    ensures { IfOk result (λ objects. objects
        ≡ tables.unused_tables min_age now least watermark versions.now.entries found.now) }
{
    let used = used_tables(alloc, versions)?;
    let mut objects = Listed::new(alloc);
    for object in found {
        let keeps = may_go(min_age, now, least, watermark, &used, object);
        push_if(alloc, keeps, &mut objects, object)?;
    }
    drop(used);
    Ok(objects)
}
