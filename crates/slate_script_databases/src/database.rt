//! The database that an item of a script stands for.
ghost use Rattle.std.specs.Prelude.{◌≡◌, [], IfOk};
ghost use Rattle.serde_json.specs.View.{view};
ghost use Rattle.slate_script_json.specs.Fields.{Gives};
ghost use Rattle.slate_model.specs.Cores.{new_core};
ghost use Rattle.slate_model.specs.Segments.{IsAscending};
ghost use Rattle.slate_script_databases.specs.Databases as databases;
ghost use Rattle.slate_script_databases.specs.DatabaseFields.{opening_fields_in, database_in, objects_of, spec_of};

use crate::opening_record::first_record;
use crate::opening_tables::tables_of;
use crate::record_items::RecordItem;
use crate::tree_items::{TreeItems, read_tree_items};
use crate::trees::{segments_of, tree_of};
use serde_json::Value;
use slate_ids::{DbPath, Listed, Millis, OutOfMemory, Text, Ulid};
use slate_model::{
    Checkpoint, Compactions, LsmTreeState, Manifest, ManifestCore, Segment, SsTableInfo,
};
use slate_script_events::DbSpec;
use slate_script_json::{JsonError, defaulted, only, optional, required};
use std::alloc::Global;
use std::mem;

/// The fields that a manifest takes as they stand.
#[derive(Debug, Drop)]
pub(crate) struct OpeningFields {
    initialized: bool,
    writer_epoch: u64,
    compactor_epoch: u64,
    floor: u64,
    replay_after: u64,
    next_wal: u64,
    extractor: Option<Text>,
}

#[tactic(auto, unfolding(crate::specs::DatabaseFields::opening_fields_in))]
fn opening_fields(alloc: Global, d: &Value) -> Result<OpeningFields, JsonError>
    ensures { Gives result (opening_fields_in (view d.now)) }
{
    let initialized = defaulted(alloc, d, "initialized", true)?;
    let writer_epoch = defaulted(alloc, d, "writer_epoch", 0)?;
    let compactor_epoch = defaulted(alloc, d, "compactor_epoch", 0)?;
    let floor = defaulted(alloc, d, "floor", 0)?;
    let replay_after = defaulted(alloc, d, "replay_after", 0)?;
    let next_wal = defaulted(alloc, d, "next_wal", 1)?;
    let extractor = optional(alloc, d, "extractor")?;
    Ok(OpeningFields {
        initialized,
        writer_epoch,
        compactor_epoch,
        floor,
        replay_after,
        next_wal,
        extractor,
    })
}

// The tree of the keys that are in no segment, and the segments.
#[derive(Drop)]
struct OpeningTrees {
    tree: LsmTreeState,
    segments: Vec<Segment>,
}

// The trees of a database.
fn opening_trees(alloc: Global, items: &TreeItems) -> Result<OpeningTrees, OutOfMemory>
    ensures tree { IfOk result (λ trees. trees.tree ≡ databases.tree_of [] items.now) }
    ensures segments { IfOk result (λ trees. trees.segments.items ≡ databases.segments_of items.now) }
    ensures ascending { IfOk result (λ trees. IsAscending trees.segments.items) }
{
    let tree = tree_of(alloc, &[], items)?;
    match segments_of(alloc, items) {
        Ok(segments) => Ok(OpeningTrees { tree, segments }),
        Err(e) => {
            drop(tree);
            Err(e)
        }
    }
}

// What the manifest says of a database with these trees.
fn core_with(
    alloc: Global,
    fields: OpeningFields,
    tree: LsmTreeState,
    segments: Vec<Segment>,
    checkpoints: Listed<Checkpoint>,
) -> ManifestCore
    requires { IsAscending segments.items }
    ensures { result ≡ record new_core {
      initialized = fields.initialized;
      tree = tree;
      segments = segments.items;
      segment_extractor_name = fields.extractor;
      next_wal_sst_id = fields.next_wal;
      replay_after_wal_id = fields.replay_after;
      floor = fields.floor;
      checkpoints = checkpoints;
    } }
{
    let mut core = ManifestCore::new(alloc);
    core.set_segments(segments);
    drop(mem::replace(&mut core.tree, tree));
    core.initialized = fields.initialized;
    drop(mem::replace(&mut core.segment_extractor_name, fields.extractor));
    core.next_wal_sst_id = fields.next_wal;
    core.replay_after_wal_id = fields.replay_after;
    core.floor = fields.floor;
    drop(mem::replace(&mut core.checkpoints, checkpoints));
    core
}

// What the manifest says of the database.
fn core_of(
    alloc: Global,
    fields: OpeningFields,
    items: &TreeItems,
    checkpoints: Listed<Checkpoint>,
) -> Result<ManifestCore, OutOfMemory>
    ensures { IfOk result (λ core. core ≡ databases.core_of fields items.now checkpoints) }
{
    match opening_trees(alloc, items) {
        Ok(trees) => Ok(core_with(alloc, fields, trees.tree, trees.segments, checkpoints)),
        Err(e) => {
            drop(fields);
            drop(checkpoints);
            Err(e)
        }
    }
}

// The first manifest of a database.
fn manifest_of(
    alloc: Global,
    fields: OpeningFields,
    items: &TreeItems,
    checkpoints: Listed<Checkpoint>,
) -> Result<Manifest, OutOfMemory>
    ensures { IfOk result (λ manifest. manifest ≡ databases.manifest_of fields items.now checkpoints) }
{
    let (writer_epoch, compactor_epoch) = (fields.writer_epoch, fields.compactor_epoch);
    let mut manifest = Manifest::initial(alloc, core_of(alloc, fields, items, checkpoints)?);
    manifest.writer_epoch = writer_epoch;
    manifest.compactor_epoch = compactor_epoch;
    Ok(manifest)
}

// The first record of a database, where it has one, and its tables.
#[tactic(auto, unfolding(crate::specs::DatabaseFields::objects_of))]
fn objects_of(
    alloc: Global,
    items: &TreeItems,
    item: &Option<RecordItem>,
    strays: &[Ulid],
) -> Result<(Option<Compactions>, Listed<(Ulid, SsTableInfo)>), JsonError>
    ensures { Gives result (objects_of items.now item.now strays.now) }
{
    let compactions = first_record(alloc, item)?;
    match tables_of(alloc, items, item, strays) {
        Ok(tables) => Ok((compactions, tables)),
        Err(_) => {
            drop(compactions);
            Err(JsonError::OutOfMemory)
        }
    }
}

// The database that these say.
#[tactic(auto, unfolding(crate::specs::DatabaseFields::spec_of))]
fn spec_of(
    alloc: Global,
    path: DbPath,
    modified: Millis,
    fields: OpeningFields,
    items: TreeItems,
    checkpoints: Listed<Checkpoint>,
    item: Option<RecordItem>,
    strays: Listed<Ulid>,
) -> Result<DbSpec, JsonError>
    ensures { Gives result (spec_of path modified fields items checkpoints item strays) }
{
    let objects = objects_of(alloc, &items, &item, strays.as_slice());
    drop(item);
    drop(strays);
    match objects {
        Ok((compactions, tables)) => {
            let manifest = manifest_of(alloc, fields, &items, checkpoints);
            drop(items);
            match manifest {
                Ok(manifest) => Ok(DbSpec {
                    path,
                    manifest,
                    compactions,
                    tables,
                    modified,
                }),
                Err(_) => {
                    drop(compactions);
                    drop(tables);
                    Err(JsonError::OutOfMemory)
                }
            }
        }
        Err(e) => {
            drop(fields);
            drop(items);
            drop(checkpoints);
            Err(e)
        }
    }
}

/// A database, with its first manifest, its first record where it has one, and the tables that stand in the store.
#[tactic(auto, unfolding(crate::specs::DatabaseFields::database_in))]
pub fn read_database(alloc: Global, d: &Value) -> Result<DbSpec, JsonError>
    ensures { Gives result (database_in (view d.now)) }
{
    only(
        d,
        &[
            "path",
            "modified",
            "initialized",
            "writer_epoch",
            "compactor_epoch",
            "floor",
            "replay_after",
            "next_wal",
            "extractor",
            "l0",
            "runs",
            "markers",
            "checkpoints",
            "record",
            "strays",
        ],
    )?;
    let path = required(alloc, d, "path")?;
    let modified = defaulted(alloc, d, "modified", 0)?;
    let fields = opening_fields(alloc, d)?;
    let items = read_tree_items(alloc, d)?;
    let checkpoints = defaulted(alloc, d, "checkpoints", Listed::new(alloc))?;
    let item = optional(alloc, d, "record")?;
    let strays = defaulted(alloc, d, "strays", Listed::new(alloc))?;
    spec_of(
        alloc,
        path,
        modified,
        fields,
        items,
        checkpoints,
        item,
        strays,
    )
}
