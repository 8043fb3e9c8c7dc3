//! Makes the ends of the program and calls it, and says on standard error why it failed.
#![tactic(auto)]

mod kept;

use kept::Kept;
use slate_cluster::{Status, program};
use slate_run_hints::Why;
use slate_store::{StdSink, StdSource};
use std::io::ErrorKind;
use std::process::ExitCode;
use std::{env, io};

// The words of the command line, without the program's name. A word that is not UTF-8 belongs to no command.
fn words(rt: &HostRuntime) -> Result<Vec<String>, Status> {
    let given = match env::args(rt) {
        Ok(given) => given,
        Err(e) if e.kind() == ErrorKind::OutOfMemory => return Err(Status::OutOfMemory),
        Err(_) => return Err(Status::BadWords),
    };
    let mut words = Vec::new(rt.alloc());
    for word in given.skip(1) {
        if words.push(word).is_err() {
            return Err(Status::OutOfMemory);
        }
    }
    Ok(words)
}

// Runs the program on what standard input has, and answers how it ended and what it read.
fn run(rt: &HostRuntime, words: &[String]) -> (Status, Vec<u8>) {
    let mut source = Kept::new(rt.alloc(), StdSource::new(rt.reader()));
    let mut sink = StdSink::new(io::writer(rt));
    let status = program(rt.alloc(), words, &mut source, &mut sink);
    (status, source.into_bytes(rt.alloc()))
}

fn main(rt: HostRuntime) -> ExitCode {
    let (status, bytes) = match words(&rt) {
        Ok(words) => run(&rt, words.as_slice()),
        Err(status) => (status, Vec::new(rt.alloc())),
    };
    if status != Status::Ok {
        let _ = rt.eprintln(Why::of(rt.alloc(), status, bytes.as_slice()));
    }
    ExitCode::from(status.exit_code())
}
