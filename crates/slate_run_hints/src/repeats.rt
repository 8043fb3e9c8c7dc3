//! What databases share that may not be shared: paths, ids of checkpoints, of compactions and of tables.

use crate::hint::{Fault, Hint, Shared};
use crate::name::Name;
use crate::records::{Compactions, compaction_spot, compactions_of, note_compactions};
use crate::scripts::items_of;
use crate::spot::Spot;
use crate::trees::{IdParts, id_of, same_id};
use serde_json::Value;
use slate_ids::{DbPath, OutOfMemory};
use std::alloc::Global;
use std::collections::BTreeMap;

// The spot of a database.
pub(crate) fn database_spot(i: usize) -> Spot {
    Spot::WHOLE.item(Name::Databases, i)
}

// The path of a database.
fn path_of(database: &Value) -> Result<Option<DbPath>, OutOfMemory> {
    match database.get("path").and_then(Value::as_str) {
        Some(text) => DbPath::from_text(text),
        None => Ok(None),
    }
}

/// A second database of one path.
pub(crate) fn path_fault(alloc: Global, databases: &[Value]) -> Result<Option<Hint>, OutOfMemory> {
    let mut seen: BTreeMap<DbPath, Spot> = BTreeMap::new(alloc);
    for (i, database) in databases.iter().enumerate() {
        let here = database_spot(i).at(Name::Path);
        if let Some(path) = path_of(database)? {
            if let Some(other) = seen.insert(path, here)? {
                return Ok(Some(Hint::at(here, Fault::Same(Shared::Path(path), other))));
            }
        }
    }
    Ok(None)
}

// Checkpoints of a database whose ids came before.
fn checkpoints_fault(
    seen: &mut BTreeMap<u64, Spot>,
    spot: Spot,
    database: &Value,
) -> Result<Option<Hint>, OutOfMemory> {
    for (i, item) in items_of(database, Name::Checkpoints).iter().enumerate() {
        let here = spot.item(Name::Checkpoints, i).at(Name::Id);
        if let Some(id) = item.get("id").and_then(Value::as_u64) {
            if let Some(other) = seen.insert(id, here)? {
                return Ok(Some(Hint::at(here, Fault::Same(Shared::Checkpoint(id), other))));
            }
        }
    }
    Ok(None)
}

/// A second checkpoint of one id.
pub(crate) fn checkpoint_fault(
    alloc: Global,
    databases: &[Value],
) -> Result<Option<Hint>, OutOfMemory> {
    let mut seen: BTreeMap<u64, Spot> = BTreeMap::new(alloc);
    for (i, database) in databases.iter().enumerate() {
        if let Some(hint) = checkpoints_fault(&mut seen, database_spot(i), database)? {
            return Ok(Some(hint));
        }
    }
    Ok(None)
}

/// A second compaction of one id.
pub(crate) fn compaction_fault(
    alloc: Global,
    databases: &[Value],
) -> Result<Option<Hint>, OutOfMemory> {
    let mut seen = Compactions::new(alloc);
    for (i, database) in databases.iter().enumerate() {
        if let Some(hint) = note_compactions(alloc, &mut seen, database_spot(i), database)? {
            return Ok(Some(hint));
        }
    }
    Ok(None)
}

// The tables that were named, each with the place of its database and where it is named.
type Named = BTreeMap<IdParts, (usize, Spot)>;

// Notes a table of a database. An earlier database may not name it.
fn note_table(
    alloc: Global,
    named: &mut Named,
    database: usize,
    here: Spot,
    value: &Value,
) -> Result<Option<Hint>, OutOfMemory> {
    let Some(id) = id_of(alloc, value)? else {
        return Ok(None);
    };
    match named.insert(id, (database, here))? {
        Some((before, other)) if before != database => Ok(Some(same_id(here, id, other))),
        _ => Ok(None),
    }
}

// Notes the tables of a database's flushed tables.
fn note_l0(
    alloc: Global,
    named: &mut Named,
    database: usize,
    value: &Value,
) -> Result<Option<Hint>, OutOfMemory> {
    for (i, item) in items_of(value, Name::L0).iter().enumerate() {
        let here = database_spot(database).item(Name::L0, i).at(Name::Table);
        if let Some(table) = item.get("table") {
            if let Some(hint) = note_table(alloc, named, database, here, table)? {
                return Ok(Some(hint));
            }
        }
    }
    Ok(None)
}

// Notes the tables of a run.
fn note_run(
    alloc: Global,
    named: &mut Named,
    database: usize,
    spot: Spot,
    run: &Value,
) -> Result<Option<Hint>, OutOfMemory> {
    for (i, table) in items_of(run, Name::Tables).iter().enumerate() {
        if let Some(hint) = note_table(alloc, named, database, spot.item(Name::Tables, i), table)? {
            return Ok(Some(hint));
        }
    }
    Ok(None)
}

// Notes the tables of a database's runs.
fn note_runs(
    alloc: Global,
    named: &mut Named,
    database: usize,
    value: &Value,
) -> Result<Option<Hint>, OutOfMemory> {
    for (i, run) in items_of(value, Name::Runs).iter().enumerate() {
        let spot = database_spot(database).item(Name::Runs, i);
        if let Some(hint) = note_run(alloc, named, database, spot, run)? {
            return Ok(Some(hint));
        }
    }
    Ok(None)
}

// Notes the strays of a database.
fn note_strays(
    alloc: Global,
    named: &mut Named,
    database: usize,
    value: &Value,
) -> Result<Option<Hint>, OutOfMemory> {
    for (i, table) in items_of(value, Name::Strays).iter().enumerate() {
        let here = database_spot(database).item(Name::Strays, i);
        if let Some(hint) = note_table(alloc, named, database, here, table)? {
            return Ok(Some(hint));
        }
    }
    Ok(None)
}

// Notes the outputs of a compaction.
fn note_outputs(
    alloc: Global,
    named: &mut Named,
    database: usize,
    spot: Spot,
    compaction: &Value,
) -> Result<Option<Hint>, OutOfMemory> {
    for (i, table) in items_of(compaction, Name::Outputs).iter().enumerate() {
        if let Some(hint) = note_table(
            alloc,
            named,
            database,
            spot.item(Name::Outputs, i),
            table,
        )? {
            return Ok(Some(hint));
        }
    }
    Ok(None)
}

// Notes the outputs of a database's compactions.
fn note_record(
    alloc: Global,
    named: &mut Named,
    database: usize,
    value: &Value,
) -> Result<Option<Hint>, OutOfMemory> {
    for (i, compaction) in compactions_of(value).iter().enumerate() {
        let spot = compaction_spot(database_spot(database), i);
        if let Some(hint) = note_outputs(alloc, named, database, spot, compaction)? {
            return Ok(Some(hint));
        }
    }
    Ok(None)
}

/// A table that two databases name.
pub(crate) fn table_fault(alloc: Global, databases: &[Value]) -> Result<Option<Hint>, OutOfMemory> {
    let mut named = BTreeMap::new(alloc);
    for (i, database) in databases.iter().enumerate() {
        if let Some(hint) = note_l0(alloc, &mut named, i, database)? {
            return Ok(Some(hint));
        }
        if let Some(hint) = note_runs(alloc, &mut named, i, database)? {
            return Ok(Some(hint));
        }
        if let Some(hint) = note_strays(alloc, &mut named, i, database)? {
            return Ok(Some(hint));
        }
        if let Some(hint) = note_record(alloc, &mut named, i, database)? {
            return Ok(Some(hint));
        }
    }
    Ok(None)
}
