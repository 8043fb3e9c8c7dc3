//! Lists of ids that calls carry.
ghost use Rattle.std.specs.Prelude.{◌≡◌, ◌∷◌, map, IfOk};
ghost use Rattle.std.specs.List.{filter_map};

use slate_ids::{Listed, OutOfMemory, Ulid};
use slate_script_events::FlushTable;
use std::alloc::Global;

/// Those that there are. Where there are none it takes no memory.
pub(crate) fn listed<K: Copy + Drop>(
    alloc: Global,
    ids: &[Option<K>],
) -> Result<Listed<K>, OutOfMemory>
    ensures { IfOk result (λ all. all ≡ filter_map (λ o. o) ids.now) }
{
    let mut all = Listed::new(alloc);
    for one in ids {
        if let Some(id) = one {
            all.push(*id)?;
        }
    }
    Ok(all)
}

/// The views of these tables.
pub(crate) fn views_of(alloc: Global, tables: &[FlushTable]) -> Result<Listed<Ulid>, OutOfMemory>
    ensures { IfOk result (λ all. all ≡ map (λ t. t.view) tables.now) }
{
    let mut all = Listed::new(alloc);
    for table in tables {
        all.push(table.view)?;
    }
    Ok(all)
}

/// The ids of these tables.
pub(crate) fn tables_of(alloc: Global, tables: &[FlushTable]) -> Result<Listed<Ulid>, OutOfMemory>
    ensures { IfOk result (λ all. all ≡ map (λ t. t.table) tables.now) }
{
    let mut all = Listed::new(alloc);
    for table in tables {
        all.push(table.table)?;
    }
    Ok(all)
}

/// An id, and others after it.
pub(crate) fn with_others(
    alloc: Global,
    id: Ulid,
    others: &[Ulid],
) -> Result<Listed<Ulid>, OutOfMemory>
    ensures { IfOk result (λ all. all ≡ id ∷ others.now) }
{
    let mut all = Listed::new(alloc);
    all.push(id)?;
    for other in others {
        all.push(*other)?;
    }
    Ok(all)
}
