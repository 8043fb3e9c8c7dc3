//! Bytes of rows of hexadecimal texts, and equal values.

use slate_ids::{FieldName, SlateDBError};
use slate_model::Plain;
use std::alloc::Global;
use std::process::Abort;

/// Adds the bytes of a text at the end. A space stands between words of digits; an empty text has no bytes.
pub(crate) fn add(rt: &impl Abort, alloc: Global, bytes: &mut Vec<u8>, text: &str) {
    for word in text.split(' ') {
        extend(rt, bytes, hex::decode(alloc, word).expect(rt, "digits"));
    }
}

/// Adds bytes at the end.
pub(crate) fn extend(rt: &impl Abort, bytes: &mut Vec<u8>, part: Vec<u8>) {
    bytes
        .extend_from_slice(part.as_slice())
        .expect(rt, "memory");
    drop(part);
}

/// Adds the bytes of the text at a place of a row at the end: of the one that changes put there, or else of the old one.
fn add_at(
    rt: &impl Abort,
    alloc: Global,
    bytes: &mut Vec<u8>,
    changes: &[(usize, &str)],
    (place, old): (usize, &str),
) {
    for (at, text) in changes {
        if *at == place {
            add(rt, alloc, bytes, text);
            return;
        }
    }
    add(rt, alloc, bytes, old);
}

/// The bytes of a row, some of whose texts are changed.
pub(crate) fn changed(
    rt: &impl Abort,
    alloc: Global,
    row: &[&str],
    changes: &[(usize, &str)],
) -> Vec<u8> {
    let mut bytes = Vec::new(alloc);
    for (place, text) in row.iter().enumerate() {
        add_at(rt, alloc, &mut bytes, changes, (place, text));
    }
    bytes
}

/// The bytes of a row.
pub(crate) fn bytes_of(rt: &impl Abort, alloc: Global, row: &[&str]) -> Vec<u8> {
    changed(rt, alloc, row, &[])
}

/// Whether two lists of bytes, which are used up, are equal.
pub(crate) fn are_equal(one: Vec<u8>, other: Vec<u8>) -> bool {
    let is_so = one.as_slice() == other.as_slice();
    drop(other);
    drop(one);
    is_so
}

/// Whether two values, which are used up, are equal.
pub(crate) fn are_same<T: Plain + Drop>(one: T, other: T) -> bool {
    let is_so = one.is(&other);
    drop(other);
    drop(one);
    is_so
}

fn field_in(encoded: &Result<Vec<u8>, SlateDBError>) -> Option<FieldName> {
    match encoded {
        Ok(_) => None,
        Err(e) => match e {
            SlateDBError::Unencodable(field) => Some(*field),
            _ => None,
        },
    }
}

/// The field that has no bytes, by an answer, which is used up.
pub(crate) fn refused(encoded: Result<Vec<u8>, SlateDBError>) -> Option<FieldName> {
    let field = field_in(&encoded);
    drop(encoded);
    field
}

/// How many bytes a row has.
pub(crate) fn length_of(rt: &impl Abort, alloc: Global, row: &[&str]) -> usize {
    let bytes = bytes_of(rt, alloc, row);
    let length = bytes.len();
    drop(bytes);
    length
}
