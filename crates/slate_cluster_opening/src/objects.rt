//! The objects that stand as a run begins: of each database its first manifest, its first record and its tables.
ghost use Rattle.std.specs.Prelude.{◌≡◌, [], Some, None, IfOk, option_map, if◌then◌else◌};
ghost use Rattle.slate_cluster_protocol.specs.Specs as opens;

use slate_ids::{ByteList, Millis, ObjectCodec, ObjectPath, OutOfMemory, SlateDBError, Ulid};
use slate_layout::{CompactionsCodec, ManifestCodec, encode_info, is_normal};
use slate_layout_records::is_normal_record;
use slate_model::{Compactions, Manifest, SsTableInfo};
use slate_script_events::DbSpec;
use slate_store::{MemoryStore, ObjectStore};
use std::alloc::Global;
use std::collections::BTreeMap;

/// The bytes of the first objects, and when they were written, by path.
pub(crate) type Objects = BTreeMap<ObjectPath, (ByteList, Millis)>;

// The bytes of a first manifest. None where it has none, or isn't what is read back of them.
fn first_bytes(alloc: Global, manifest: &Manifest) -> Result<Option<ByteList>, OutOfMemory>
    ensures { IfOk result (λ o. o ≡ opens.first_bytes manifest.now) }
{
    match ManifestCodec.encode(alloc, manifest) {
        Ok(bytes) => {
            if is_normal(manifest) {
                Ok(Some(ByteList::new(bytes)))
            } else {
                Ok(None)
            }
        }
        Err(e) => {
            if e.is_memory() {
                Err(OutOfMemory)
            } else {
                Ok(None)
            }
        }
    }
}

// Adds the first manifest of a database. False where it has no bytes.
fn add_first(alloc: Global, firsts: &mut Objects, spec: &DbSpec) -> Result<bool, OutOfMemory>
    ensures { IfOk result (λ added. (if added then Some firsts.new.entries else None)
        ≡ opens.first_added firsts.old.entries spec.now (opens.first_bytes spec.now.manifest)) }
{
    match first_bytes(alloc, &spec.manifest)? {
        None => Ok(false),
        Some(bytes) => {
            firsts.insert(ObjectPath::Manifest(spec.path, 1), (bytes, spec.modified))?;
            Ok(true)
        }
    }
}

// The first manifests by path. None where one has no bytes.
fn open_firsts(alloc: Global, specs: &[DbSpec]) -> Result<Option<Objects>, OutOfMemory>
    ensures { IfOk result (λ o. option_map (λ f. f.entries) o ≡ opens.firsts_from [] specs.now) }
{
    let mut firsts = Objects::new(alloc);
    for spec in specs {
        if !add_first(alloc, &mut firsts, spec)? {
            return Ok(None);
        }
    }
    Ok(Some(firsts))
}

// The bytes of a first record. None where it has none, or isn't what is read back of them.
fn record_bytes(alloc: Global, compactions: &Compactions) -> Result<Option<ByteList>, OutOfMemory>
    ensures { IfOk result (λ o. o ≡ opens.record_bytes compactions.now) }
{
    match CompactionsCodec.encode(alloc, compactions) {
        Ok(bytes) => {
            if is_normal_record(compactions) {
                Ok(Some(ByteList::new(bytes)))
            } else {
                Ok(None)
            }
        }
        Err(e) => {
            if e.is_memory() {
                Err(OutOfMemory)
            } else {
                Ok(None)
            }
        }
    }
}

// Puts the first record of a database at its path. False where it has no bytes.
fn write_record(
    alloc: Global,
    firsts: &mut Objects,
    spec: &DbSpec,
    compactions: &Compactions,
) -> Result<bool, OutOfMemory>
    ensures { IfOk result (λ added. (if added then Some firsts.new.entries else None)
        ≡ opens.record_written firsts.old.entries spec.now (opens.record_bytes compactions.now)) }
{
    match record_bytes(alloc, compactions)? {
        None => Ok(false),
        Some(bytes) => {
            firsts.insert(ObjectPath::Record(spec.path, 1), (bytes, spec.modified))?;
            Ok(true)
        }
    }
}

// Adds the first record of a database, where it has one. False where it has no bytes.
fn add_record(alloc: Global, firsts: &mut Objects, spec: &DbSpec) -> Result<bool, OutOfMemory>
    ensures { IfOk result (λ added. (if added then Some firsts.new.entries else None)
        ≡ opens.record_added firsts.old.entries spec.now spec.now.compactions) }
{
    match &spec.compactions {
        None => Ok(true),
        Some(record) => write_record(alloc, firsts, spec, record),
    }
}

// Adds the first records of all databases. False where one has no bytes.
fn add_records(alloc: Global, firsts: &mut Objects, specs: &[DbSpec]) -> Result<bool, OutOfMemory>
    ensures { IfOk result (λ added. (if added then Some firsts.new.entries else None)
        ≡ opens.records_from firsts.old.entries specs.now) }
{
    for spec in specs {
        if !add_record(alloc, firsts, spec)? {
            return Ok(false);
        }
    }
    Ok(true)
}

// The bytes of what is known of a table. None where it has none.
fn table_bytes(alloc: Global, info: &SsTableInfo) -> Result<Option<ByteList>, OutOfMemory>
    ensures { IfOk result (λ o. o ≡ opens.table_bytes info.now) }
{
    match encode_info(alloc, info) {
        Ok(bytes) => Ok(Some(ByteList::new(bytes))),
        Err(e) => {
            if e.is_memory() {
                Err(OutOfMemory)
            } else {
                Ok(None)
            }
        }
    }
}

// Adds a table of a database. False where it has no bytes.
fn add_table(
    alloc: Global,
    objects: &mut Objects,
    spec: &DbSpec,
    table: &(Ulid, SsTableInfo),
) -> Result<bool, OutOfMemory>
    ensures { IfOk result (λ added. (if added then Some objects.new.entries else None)
        ≡ opens.table_added objects.old.entries spec.now table.now.0 (opens.table_bytes table.now.1)) }
{
    match table_bytes(alloc, &table.1)? {
        None => Ok(false),
        Some(bytes) => {
            objects.insert(
                ObjectPath::Table(spec.path, table.0),
                (bytes, spec.modified),
            )?;
            Ok(true)
        }
    }
}

// Adds these tables of a database. False where one has no bytes.
fn add_tables(
    alloc: Global,
    objects: &mut Objects,
    spec: &DbSpec,
    tables: &[(Ulid, SsTableInfo)],
) -> Result<bool, OutOfMemory>
    ensures { IfOk result (λ added. (if added then Some objects.new.entries else None)
        ≡ opens.tables_from objects.old.entries spec.now tables.now) }
{
    for table in tables {
        if !add_table(alloc, objects, spec, table)? {
            return Ok(false);
        }
    }
    Ok(true)
}

// Adds the tables of all databases. False where one has no bytes.
fn add_all_tables(
    alloc: Global,
    objects: &mut Objects,
    specs: &[DbSpec],
) -> Result<bool, OutOfMemory>
    ensures { IfOk result (λ added. (if added then Some objects.new.entries else None)
        ≡ opens.all_tables_from objects.old.entries specs.now) }
{
    for spec in specs {
        if !add_tables(alloc, objects, spec, spec.tables.as_slice())? {
            return Ok(false);
        }
    }
    Ok(true)
}

/// The first manifests, the first records and the tables by path. None where one has no bytes, or a manifest or a record isn't what is
/// read back of them.
pub(crate) fn open_objects(alloc: Global, specs: &[DbSpec]) -> Result<Option<Objects>, OutOfMemory>
    ensures { IfOk result (λ o. option_map (λ f. f.entries) o ≡ opens.objects_of specs.now) }
{
    let Some(mut objects) = open_firsts(alloc, specs)? else {
        return Ok(None);
    };
    if !add_records(alloc, &mut objects, specs)? {
        return Ok(None);
    }
    if add_all_tables(alloc, &mut objects, specs)? {
        Ok(Some(objects))
    } else {
        Ok(None)
    }
}

/// The store after puts of the first objects, in the order of their paths.
pub(crate) fn open_store(alloc: Global, objects: &Objects) -> Result<MemoryStore, OutOfMemory>
    ensures { IfOk result (λ s. s.store ≡ opens.store_from opens.no_objects objects.now.entries) }
{
    let mut store = MemoryStore::new(alloc, Vec::new(alloc));
    for (path, first) in objects {
        if store.put(alloc, path, first.0.as_slice(), first.1).is_err() {
            return Err(OutOfMemory);
        }
    }
    Ok(store)
}
