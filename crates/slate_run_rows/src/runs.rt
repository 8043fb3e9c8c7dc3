//! The program on a script in memory, and what it says.

use slate_cluster::{Status, program};
use slate_run_hints::Why;
use slate_store::{MemorySink, MemorySource};
use std::alloc::{AllocError, Global};
use std::str;

fn push_word(alloc: Global, words: &mut Vec<String>, word: &str) -> Result<(), AllocError> {
    let word = String::from_str(alloc, word)?;
    words.push(word)?;
    Ok(())
}

// Runs the program on a source.
fn run_source(
    alloc: Global,
    source: &mut MemorySource,
    sink: &mut MemorySink,
) -> Result<Status, AllocError> {
    let mut words = Vec::new(alloc);
    let pushed = push_word(alloc, &mut words, "run");
    let status = match pushed {
        Ok(()) => Ok(program(alloc, words.as_slice(), source, sink)),
        Err(e) => Err(e),
    };
    drop(words);
    status
}

/// Runs the program on a script, and answers how it ended. The report is written to the sink.
pub(crate) fn run(
    alloc: Global,
    script: &[u8],
    sink: &mut MemorySink,
) -> Result<Status, AllocError> {
    let bytes = Vec::from_slice(alloc, script)?;
    let mut source = MemorySource::new(bytes, Vec::new(alloc));
    let status = run_source(alloc, &mut source, sink);
    drop(source);
    status
}

/// What the program says on standard error when it ends so on a script: nothing, or one line.
pub(crate) fn said(alloc: Global, status: Status, script: &[u8]) -> Result<String, AllocError> {
    if status == Status::Ok {
        return Ok(String::new(alloc));
    }
    let why = Why::of(alloc, status, script);
    let said = format!(in alloc; "{why}\n");
    drop(why);
    said
}

// Lines of new versions, of replies, of idle events, and of what is committed at the end.
fn is_told(line: &str) -> bool {
    line.contains(" put_new ")
        || line.contains(" reply ")
        || line.contains(" idle ")
        || line.starts_with("commits ")
}

fn push_told(out: &mut String, text: &str) -> Result<(), AllocError> {
    for line in text.lines() {
        if is_told(line) {
            out.push_str(line)?;
            out.push('\n')?;
        }
    }
    Ok(())
}

/// Adds the lines of new versions, replies, idle events and commits of a report. Each has its place, so the steps between are counted.
pub(crate) fn push_lines(out: &mut String, report: &[u8]) -> Result<(), AllocError> {
    match str::from_utf8(report) {
        Ok(text) => push_told(out, text),
        Err(_) => Ok(()),
    }
}
