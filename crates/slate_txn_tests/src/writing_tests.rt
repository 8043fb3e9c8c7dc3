//! Writing whole outputs.

use slate_store::{MemorySink, Sink, StdSink, WriteFault, write_all};
use std::alloc::Global;
use std::io::Cursor;

/// Whether a sink in memory takes two pieces, one after the other.
fn takes_two(alloc: Global) -> bool {
    let mut sink = MemorySink::new(alloc, Vec::new(alloc));
    let so = write_all(&mut sink, b"ab") == Ok(())
        && sink.write(b"c") == Ok(1)
        && sink.bytes() == b"abc".as_slice();
    drop(sink);
    so
}

#[test]
fn writes_to_memory(rt: HostRuntime) {
    assert!(rt; takes_two(rt.alloc()));
}

#[test]
fn a_writer_of_std_without_room_faults(rt: HostRuntime) {
    let mut block = [0u8; 3];
    let mut sink = StdSink::new(Cursor::new(&mut block[..]));
    assert!(rt; write_all(&mut sink, b"abcd") == Err(WriteFault));
}
