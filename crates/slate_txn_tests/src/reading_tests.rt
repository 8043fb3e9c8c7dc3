//! Reading whole inputs.

use slate_store::{ReadError, StdSource, read_all};
use std::alloc::Global;
use std::io::Cursor;

/// Whether a reader of std with these bytes, of which 3 may be there, is read so.
fn is_read(alloc: Global, bytes: &[u8], wanted: Result<&[u8], ReadError>) -> bool {
    match read_all(alloc, &mut StdSource::new(Cursor::new(bytes)), 3) {
        Ok(found) => {
            let so = wanted == Ok(found.as_slice());
            drop(found);
            so
        }
        Err(error) => wanted == Err(error),
    }
}

#[test]
fn reads_up_to_its_limit(rt: HostRuntime) {
    assert!(rt; is_read(rt.alloc(), b"abc", Ok(b"abc")));
    assert!(rt; is_read(rt.alloc(), b"abcd", Err(ReadError::TooLong)));
}
