//! The lines at the end of a report, and those of inputs and databases that are refused.
ghost use Rattle.std.specs.Prelude.{◌≡◌, ◌++◌, IfOk, OnOk, string_bytes};
ghost use Rattle.slate_script_lines.specs.Lines as lines;

use crate::report_lines::{push_cause, push_place};
use slate_ids::{DbPath, OutOfMemory};
use slate_script_events::{ClusterCause, ScriptPlace};
use std::alloc::{AllocError, Global};

/// Adds the line of the greatest committed numbers of a database's two logs.
pub fn push_commits(
    out: &mut String,
    db: &DbPath,
    manifest: u64,
    compactions: u64,
) -> Result<(), AllocError>
    ensures { OnOk result (string_bytes out.new
        ≡ string_bytes out.old ++ lines.commits_line db.now manifest compactions) }
{
    writeln!(
        out,
        "commits {db} manifest {manifest} compactions {compactions}"
    )
}

/// Adds the line that says how many deletes removed an object.
pub fn push_deleted(out: &mut String, deleted: u64) -> Result<(), AllocError>
    ensures { OnOk result (string_bytes out.new ≡ string_bytes out.old ++ lines.deleted_line deleted) }
{
    writeln!(out, "deleted {deleted}")
}

/// Adds the line that says how a run ended, with the place of its first bad event.
pub fn push_end(out: &mut String, bad: Option<u64>) -> Result<(), AllocError>
    ensures { OnOk result (string_bytes out.new ≡ string_bytes out.old ++ lines.end_line bad) }
{
    match bad {
        None => out.push_str("ok\n"),
        Some(place) => writeln!(out, "bad event {place}"),
    }
}

/// The line of databases that are refused.
pub fn bad_cluster(alloc: Global, cause: ClusterCause) -> Result<String, OutOfMemory>
    ensures { IfOk result (λ text. string_bytes text ≡ lines.bad_cluster_line cause) }
{
    let mut line = String::from_str(alloc, "bad cluster ")?;
    push_cause(&mut line, cause)?;
    line.push_str("\n")?;
    Ok(line)
}

/// The line of an input that is no script.
pub fn bad_script(alloc: Global, place: ScriptPlace) -> Result<String, OutOfMemory>
    ensures { IfOk result (λ text. string_bytes text ≡ lines.bad_script_line place) }
{
    let mut line = String::from_str(alloc, "bad script ")?;
    push_place(&mut line, place)?;
    line.push_str("\n")?;
    Ok(line)
}
