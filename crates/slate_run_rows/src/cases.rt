//! A case: a script, and the texts beside it.

use crate::runs::{push_lines, run, said};
use crate::texts::{Compared, compare, compare_with, read};
use slate_cluster::Status;
use slate_store::MemorySink;
use std::io;

// What the texts of a case say of a run.
#[derive(Clone, Copy)]
struct Texts {
    report: Compared,
    lines: Compared,
    status: Compared,
    said: Compared,
}

// Compares the lines of the report that tell of versions, replies and commits.
fn compare_lines(rt: &HostRuntime, name: &str, report: &[u8]) -> io::Result<Compared> {
    let mut lines = String::new(rt.alloc());
    let pushed = push_lines(&mut lines, report);
    let compared = match pushed {
        Ok(()) => compare(rt, name, ".lines", lines.as_str().as_bytes()),
        Err(e) => Err(io::Error::from(e)),
    };
    drop(lines);
    compared
}

// Compares how the run ended. A case without such a text ends well.
fn compare_status(rt: &HostRuntime, name: &str, status: Status) -> io::Result<Compared> {
    let found = format!(in rt.alloc(); "{status:?}\n")?;
    let compared = match compare(rt, name, ".status", found.as_str().as_bytes()) {
        Ok(Compared::Absent) if status != Status::Ok => {
            compare_with(
                rt,
                name,
                ".status",
                b"Ok\n".as_slice(),
                found.as_str().as_bytes(),
            )
        }
        compared => compared,
    };
    drop(found);
    compared
}

// Compares what stands on standard error.
fn compare_said(
    rt: &HostRuntime,
    name: &str,
    status: Status,
    script: &[u8],
) -> io::Result<Compared> {
    let found = said(rt.alloc(), status, script)?;
    let compared = compare(rt, name, ".err", found.as_str().as_bytes());
    drop(found);
    compared
}

fn compare_all(
    rt: &HostRuntime,
    name: &str,
    status: Status,
    script: &[u8],
    report: &[u8],
) -> io::Result<Texts> {
    let lines = compare_lines(rt, name, report)?;
    let report = compare(rt, name, ".txt", report)?;
    let said = compare_said(rt, name, status, script)?;
    let status = compare_status(rt, name, status)?;
    Ok(Texts {
        report,
        lines,
        status,
        said,
    })
}

// The word for a text that says the same, and nothing for one that isn't there.
fn word(compared: Compared, same: &'static str) -> &'static str {
    match compared {
        Compared::Same => same,
        _ => "",
    }
}

// Shows which texts say the same. Whether there is one, and no other one.
fn show(rt: &HostRuntime, name: &str, texts: Texts) -> io::Result<bool> {
    let all = [texts.report, texts.lines, texts.status, texts.said];
    if all.contains(&Compared::Other) {
        return Ok(false);
    }
    if !all.contains(&Compared::Same) {
        println!(rt; "{name} has no text")?;
        return Ok(false);
    }
    let report = word(texts.report, " report");
    let lines = word(texts.lines, " lines");
    let status = word(texts.status, " status");
    let said = word(texts.said, " error");
    println!(rt; "{name} ok:{report}{lines}{status}{said}")?;
    Ok(true)
}

fn is_met_by(rt: &HostRuntime, name: &str, script: &[u8]) -> io::Result<bool> {
    let mut sink = MemorySink::new(rt.alloc(), Vec::new(rt.alloc()));
    let texts = match run(rt.alloc(), script, &mut sink) {
        Ok(status) => compare_all(rt, name, status, script, sink.bytes()),
        Err(e) => Err(io::Error::from(e)),
    };
    drop(sink);
    show(rt, name, texts?)
}

/// Whether the program does with the script of a case what its texts say. Shows a line, or where they differ.
pub(crate) fn is_met(rt: &HostRuntime, name: &str) -> io::Result<bool> {
    match read(rt, name, ".json")? {
        None => {
            println!(rt; "{name} has no script")?;
            Ok(false)
        }
        Some(script) => {
            let met = is_met_by(rt, name, script.as_slice());
            drop(script);
            met
        }
    }
}
