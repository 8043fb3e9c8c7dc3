//! The program on an input in memory, compared with what it must write.

use slate_cluster::{Status, program};
use slate_store::{MemorySink, MemorySource};
use std::alloc::Global;
use std::process::Abort;

fn owned(rt: &impl Abort, alloc: Global, words: &[&str]) -> Vec<String> {
    let mut all = Vec::new(alloc);
    for word in words {
        let word = String::from_str(alloc, word).expect(rt, "memory");
        all.push(word).expect(rt, "memory");
    }
    all
}

fn source(rt: &impl Abort, alloc: Global, input: &str, fails: &[u64]) -> MemorySource {
    let bytes = Vec::from_slice(alloc, input.as_bytes()).expect(rt, "memory");
    let fails = Vec::from_slice(alloc, fails).expect(rt, "memory");
    MemorySource::new(bytes, fails)
}

fn sink(rt: &impl Abort, alloc: Global, fails: &[u64]) -> MemorySink {
    let fails = Vec::from_slice(alloc, fails).expect(rt, "memory");
    MemorySink::new(alloc, fails)
}

/// Whether the program ends so on this input, and writes just this text. The reads of the input and the writes whose numbers are
/// in `fails` fail.
pub(crate) fn ends(
    rt: &impl Abort,
    alloc: Global,
    words: &[&str],
    input: &str,
    fails: (&[u64], &[u64]),
    status: Status,
    text: &str,
) -> bool {
    let words = owned(rt, alloc, words);
    let mut source = source(rt, alloc, input, fails.0);
    let mut sink = sink(rt, alloc, fails.1);
    let ended = program(alloc, words.as_slice(), &mut source, &mut sink);
    drop(words);
    drop(source);
    let written = sink.bytes() == text.as_bytes();
    drop(sink);
    ended == status && written
}
