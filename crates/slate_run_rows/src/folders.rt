//! The folders of cases, and the files in them.

use crate::cases::is_met;
use std::fs::DirEntry;
use std::io::ErrorKind;
use std::{fs, io};

/// How many cases there are, and how many cases or files are wrong.
#[derive(Clone, Copy)]
pub(crate) struct Counts {
    pub(crate) cases: u64,
    pub(crate) wrong: u64,
}

fn push_name(rt: &HostRuntime, entry: DirEntry, names: &mut Vec<String>) -> io::Result<()> {
    let name = String::from_str(rt.alloc(), entry.file_name());
    drop(entry);
    names.push(name?)?;
    Ok(())
}

// Adds the names of what stands in a folder, in order.
fn push_names(rt: &HostRuntime, folder: &str, names: &mut Vec<String>) -> io::Result<()> {
    for entry in fs::read_dir(rt, folder)? {
        push_name(rt, entry?, names)?;
    }
    names.sort()?;
    Ok(())
}

// Counts a file that belongs to no case.
fn refuse(rt: &HostRuntime, folder: &str, file: &str, counts: &mut Counts) -> io::Result<()> {
    counts.wrong = counts.wrong.saturating_add(1);
    println!(rt; "{folder}/{file} belongs to no case")?;
    Ok(())
}

fn check_case(rt: &HostRuntime, folder: &str, stem: &str, counts: &mut Counts) -> io::Result<()> {
    let name = format!(in rt.alloc(); "{folder}/{stem}")?;
    let met = is_met(rt, name.as_str());
    drop(name);
    counts.cases = counts.cases.saturating_add(1);
    if !met? {
        counts.wrong = counts.wrong.saturating_add(1);
    }
    Ok(())
}

fn has_script(rt: &HostRuntime, folder: &str, stem: &str) -> io::Result<bool> {
    let path = format!(in rt.alloc(); "{folder}/{stem}.json")?;
    let exists = fs::exists(rt, path.as_str());
    drop(path);
    exists
}

fn is_of_a_case(rt: &HostRuntime, folder: &str, stem: &str, ending: &str) -> io::Result<bool> {
    match ending {
        "txt" | "lines" | "status" | "err" => has_script(rt, folder, stem),
        _ => Ok(false),
    }
}

fn check_file(rt: &HostRuntime, folder: &str, file: &str, counts: &mut Counts) -> io::Result<()> {
    match file.rsplit_once('.') {
        Some((stem, "json")) => check_case(rt, folder, stem, counts),
        Some((stem, ending)) => {
            if is_of_a_case(rt, folder, stem, ending)? {
                Ok(())
            } else {
                refuse(rt, folder, file, counts)
            }
        }
        None => refuse(rt, folder, file, counts),
    }
}

fn check_files(
    rt: &HostRuntime,
    folder: &str,
    files: &[String],
    counts: &mut Counts,
) -> io::Result<()> {
    for file in files {
        check_file(rt, folder, file.as_str(), counts)?;
    }
    Ok(())
}

// Counts a file that stands among the folders.
fn refuse_beside(rt: &HostRuntime, file: &str, counts: &mut Counts) -> io::Result<()> {
    counts.wrong = counts.wrong.saturating_add(1);
    println!(rt; "{file} is no folder of cases")?;
    Ok(())
}

fn check_folder(rt: &HostRuntime, folder: &str, counts: &mut Counts) -> io::Result<()> {
    let mut files = Vec::new(rt.alloc());
    let named = push_names(rt, folder, &mut files);
    let checked = match named {
        Ok(()) => check_files(rt, folder, files.as_slice(), counts),
        Err(e) if e.kind() == ErrorKind::NotADirectory => refuse_beside(rt, folder, counts),
        Err(e) => Err(e),
    };
    drop(files);
    checked
}

fn check_each(rt: &HostRuntime, folders: &[String], counts: &mut Counts) -> io::Result<()> {
    for folder in folders {
        check_folder(rt, folder.as_str(), counts)?;
    }
    Ok(())
}

/// Goes through the cases of all folders here, in the order of their names.
pub(crate) fn check_folders(rt: &HostRuntime, counts: &mut Counts) -> io::Result<()> {
    let mut folders = Vec::new(rt.alloc());
    let named = push_names(rt, ".", &mut folders);
    let checked = match named {
        Ok(()) => check_each(rt, folders.as_slice(), counts),
        Err(e) => Err(e),
    };
    drop(folders);
    checked
}
