//! Boundaries, as bytes and back.

use slate_layout::{decode_boundary, encode_boundary};
use std::alloc::Global;
use std::process::Abort;

/// Numbers and their bytes.
const NUMBERS: &[(u64, &[u8])] = &[(2, b"2"), (0, b"0"), (u64::MAX, b"18446744073709551615")];

// The table as a slice: a function that names a table has all of it written out.
fn numbers() -> &'static [(u64, &'static [u8])] {
    NUMBERS
}

/// Whether these are the bytes of a number, and are read back.
fn is_written(rt: &impl Abort, alloc: Global, number: u64, bytes: &[u8]) -> bool {
    let written = encode_boundary(alloc, number).expect(rt, "memory");
    let is_so = written.as_slice() == bytes;
    drop(written);
    is_so && is_read(bytes, number)
}

fn is_read(bytes: &[u8], number: u64) -> bool {
    let read = decode_boundary(bytes);
    let is_so = match &read {
        Ok(found) => *found == number,
        Err(_) => false,
    };
    drop(read);
    is_so
}

#[test]
fn a_boundary_has_its_digits(rt: HostRuntime) {
    for (number, bytes) in numbers() {
        assert!(rt; is_written(&rt, rt.alloc(), *number, bytes), "at {number}");
    }
}
