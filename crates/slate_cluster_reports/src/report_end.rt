//! The end of a report.
ghost use Rattle.std.specs.Prelude.{◌≡◌, ◌++◌, OnOk, string_bytes};
ghost use Rattle.std.specs.List.{flat_map};
ghost use Rattle.slate_script_lines.specs.Lines.{end_line};
ghost use Rattle.slate_cluster_protocol.specs.Reports.{tally_line, state_text};
ghost use Rattle.slate_cluster_reports.specs.ReportParts.{world_of};

use slate_cluster_protocol::Tally;
use slate_ids::{DbPath, OutOfMemory};
use slate_script_lines::{push_commits, push_deleted, push_end, push_left};
use slate_store::MemoryStore;
use std::alloc::{AllocError, Global};
use std::collections::BTreeMap;

// Adds the greatest committed numbers of a database.
fn push_tally(out: &mut String, db: &DbPath, tally: &Tally) -> Result<(), AllocError>
    ensures { OnOk result (string_bytes out.new ≡ string_bytes out.old ++ tally_line (db.now, tally.now)) }
{
    push_commits(out, db, tally.manifest, tally.compactions)
}

// Adds the greatest committed numbers of each database.
fn push_tallies(out: &mut String, tallies: &BTreeMap<DbPath, Tally>) -> Result<(), AllocError>
    ensures { OnOk result (string_bytes out.new
        ≡ string_bytes out.old ++ flat_map tally_line tallies.now.entries) }
{
    for (db, tally) in tallies {
        push_tally(out, db, tally)?;
    }
    Ok(())
}

// Adds what stands at the end.
fn push_state(
    alloc: Global,
    out: &mut String,
    tallies: &BTreeMap<DbPath, Tally>,
    deleted: u64,
    store: &MemoryStore,
) -> Result<(), OutOfMemory>
    ensures { OnOk result (string_bytes out.new
        ≡ string_bytes out.old ++ state_text (world_of tallies.now.entries deleted store.now.store)) }
{
    let left = store.paths(alloc)?;
    push_tallies(out, tallies)?;
    push_deleted(out, deleted)?;
    push_left(out, left.as_slice())?;
    Ok(())
}

/// Adds what stands in a report below the lines of its events: the greatest committed numbers of the databases, the count of deletes and
/// the paths of the objects left, and how the run ended, with its first bad event.
pub fn push_rest(
    alloc: Global,
    out: &mut String,
    tallies: &BTreeMap<DbPath, Tally>,
    deleted: u64,
    store: &MemoryStore,
    bad: Option<u64>,
) -> Result<(), OutOfMemory>
    ensures { OnOk result (string_bytes out.new
        ≡ string_bytes out.old ++ state_text (world_of tallies.now.entries deleted store.now.store) ++ end_line bad) }
{
    push_state(alloc, out, tallies, deleted, store)?;
    push_end(out, bad)?;
    Ok(())
}
