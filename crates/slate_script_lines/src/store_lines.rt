//! Store calls and answers as they stand in a report.
ghost use Rattle.std.specs.Prelude.{◌≡◌, ◌++◌, OnOk, string_bytes};
ghost use Rattle.slate_ids.specs.PathText.{path_text};
ghost use Rattle.slate_script_lines.specs.Lines.{dir_text, call_text, answer_text};

use slate_ids::{ByteList, ObjectPath};
use slate_store::{ListDir, StoreAnswer, StoreCall};
use std::alloc::AllocError;

/// Adds the text of a path.
pub fn push_path(out: &mut String, path: &ObjectPath) -> Result<(), AllocError>
    ensures { OnOk result (string_bytes out.new ≡ string_bytes out.old ++ path_text path.now) }
{
    write!(out, "{path}")
}

fn push_dir(out: &mut String, dir: &ListDir) -> Result<(), AllocError>
    ensures { OnOk result (string_bytes out.new ≡ string_bytes out.old ++ dir_text dir.now) }
{
    match dir {
        ListDir::Manifests(db) => write!(out, "{db}/manifest/"),
        ListDir::Records(db) => write!(out, "{db}/compactions/"),
        ListDir::Tables(db) => write!(out, "{db}/compacted/"),
        ListDir::Wals(db) => write!(out, "{db}/wal/"),
        ListDir::All(db) => write!(out, "{db}/"),
    }
}

fn length_of(bytes: &ByteList) -> usize
    ensures { result ≡ Rattle.std.specs.Prelude.length bytes.now }
{
    bytes.as_slice().len()
}

/// Adds a store call, with the lengths of what it writes.
pub(crate) fn push_call(out: &mut String, call: &StoreCall) -> Result<(), AllocError>
    ensures { OnOk result (string_bytes out.new ≡ string_bytes out.old ++ call_text call.now) }
{
    match call {
        StoreCall::List(dir) => {
            out.push_str("list ")?;
            push_dir(out, dir)
        }
        StoreCall::Get(path) => write!(out, "get {path}"),
        StoreCall::PutNew(path, bytes) => {
            let length = length_of(bytes);
            write!(out, "put_new {path} {length}")
        }
        StoreCall::Replace(path, tag, bytes) => {
            let length = length_of(bytes);
            write!(out, "replace {path} {tag} {length}")
        }
        StoreCall::Put(path, bytes) => {
            let length = length_of(bytes);
            write!(out, "put {path} {length}")
        }
        StoreCall::Delete(path) => write!(out, "delete {path}"),
    }
}

/// Adds an answer, with the count or the length of what was read.
pub(crate) fn push_answer(out: &mut String, answer: &StoreAnswer) -> Result<(), AllocError>
    ensures { OnOk result (string_bytes out.new ≡ string_bytes out.old ++ answer_text answer.now) }
{
    match answer {
        StoreAnswer::Found(objects) => {
            let count = objects.as_slice().len();
            write!(out, "found {count}")
        }
        StoreAnswer::Got(Some(object)) => {
            let length = length_of(&object.bytes);
            write!(out, "object {length}")
        }
        StoreAnswer::Got(None) => out.push_str("none"),
        StoreAnswer::Created(Some(tag)) => write!(out, "created {tag}"),
        StoreAnswer::Created(None) => out.push_str("exists"),
        StoreAnswer::Replaced(Some(tag)) => write!(out, "replaced {tag}"),
        StoreAnswer::Replaced(None) => out.push_str("changed"),
        StoreAnswer::Written(tag) => write!(out, "put {tag}"),
        StoreAnswer::Deleted => out.push_str("deleted"),
        StoreAnswer::Fault => out.push_str("fault"),
    }
}
