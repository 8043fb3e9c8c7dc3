//! Texts of a case, compared with what was found.

use std::io::ErrorKind;
use std::{fs, io, str};

/// What a text of a case says of what was found.
#[derive(Clone, Copy, PartialEq, Eq)]
pub(crate) enum Compared {
    /// The case has no such text.
    Absent,
    Same,
    Other,
}

fn show_line(rt: &HostRuntime, word: &str, line: Option<&str>) -> io::Result<()> {
    match line {
        Some(line) => println!(rt; "  {word} {line}")?,
        None => println!(rt; "  {word} no more line")?,
    }
    Ok(())
}

// Shows the first line that differs.
fn show_first(rt: &HostRuntime, expected: &str, found: &str) -> io::Result<()> {
    let mut due = expected.split('\n');
    let mut come = found.split('\n');
    for place in 1..u64::MAX {
        let line = due.next();
        let other = come.next();
        if line != other {
            println!(rt; "  line {place}")?;
            show_line(rt, "expected:", line)?;
            return show_line(rt, "found:   ", other);
        }
        if line.is_none() {
            break;
        }
    }
    Ok(())
}

fn show(rt: &HostRuntime, expected: &[u8], found: &[u8]) -> io::Result<()> {
    match str::from_utf8(expected) {
        Err(_) => println!(rt; "  what is expected is no text")?,
        Ok(expected) => match str::from_utf8(found) {
            Err(_) => println!(rt; "  what was found is no text")?,
            Ok(found) => show_first(rt, expected, found)?,
        },
    }
    Ok(())
}

/// Compares what was found with this text, and shows where they differ.
pub(crate) fn compare_with(
    rt: &HostRuntime,
    name: &str,
    ending: &str,
    expected: &[u8],
    found: &[u8],
) -> io::Result<Compared> {
    if expected == found {
        return Ok(Compared::Same);
    }
    println!(rt; "{name}{ending} differs:")?;
    show(rt, expected, found)?;
    Ok(Compared::Other)
}

/// The bytes of a file of a case, none where there is no such file.
pub(crate) fn read(rt: &HostRuntime, name: &str, ending: &str) -> io::Result<Option<Vec<u8>>> {
    let path = format!(in rt.alloc(); "{name}{ending}")?;
    let read = fs::read(rt, path.as_str());
    drop(path);
    match read {
        Ok(bytes) => Ok(Some(bytes)),
        Err(e) if e.kind() == ErrorKind::NotFound => Ok(None),
        Err(e) => Err(e),
    }
}

/// Compares what was found with a text of a case.
pub(crate) fn compare(
    rt: &HostRuntime,
    name: &str,
    ending: &str,
    found: &[u8],
) -> io::Result<Compared> {
    match read(rt, name, ending)? {
        None => Ok(Compared::Absent),
        Some(bytes) => {
            let compared = compare_with(rt, name, ending, bytes.as_slice(), found);
            drop(bytes);
            compared
        }
    }
}
