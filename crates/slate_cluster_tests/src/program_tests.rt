//! The program by its words, by faults of its two ends, and by the limit on events.

use crate::test_runs::ends;
use slate_cluster::Status;
use slate_script::ScriptPlace;
use std::alloc::Global;
use std::process::Abort;

const EMPTY: &str = r#"{"databases":[{"path":"db"}],"events":[]}"#;

const BAD_EVENT: &str = r#"{"databases":[{"path":"db"}],"events":[{"step":1,"at":1}]}"#;

const BAD_AFTER_FLUSH: &str = r#"{"databases":[{"path":"db"}],"events":[
  {"open":1,"kind":"writer","db":"db"},{"start":1,"call":"open_writer"},{"step":1,"at":1000,"times":5},
  {"start":1,"call":"flush","tables":[]},{"step":1,"at":1000,"times":5},{"open":1,"kind":"writer","db":"db"}]}"#;

// An input, the reads and the writes that fail, and the status. Nothing is written.
const FAULTS: &[(&str, &[u64], &[u64], Status)] = &[
    (EMPTY, &[0], &[], Status::ReadFault),
    (EMPTY, &[1], &[], Status::ReadFault),
    (EMPTY, &[], &[0], Status::WriteFault),
    ("{", &[], &[0], Status::BadScript(ScriptPlace::Json)),
    (BAD_EVENT, &[], &[0], Status::BadEvent(0)),
    (BAD_AFTER_FLUSH, &[], &[0], Status::BadEvent(13)),
];

// The table as a slice: a function that names a table has all of it written out.
fn faults_rows() -> &'static [(&'static str, &'static [u64], &'static [u64], Status)] {
    FAULTS
}

// A fault of the sink is told only where the rest went well: not where the input is no script, nor after a bad event.
#[test]
fn faults_are_told(rt: HostRuntime) {
    for (input, reads, writes, status) in faults_rows() {
        let fails = (*reads, *writes);
        assert!(rt;
            ends(&rt, rt.alloc(), &["run"], input, fails, *status, ""),
            "{input}"
        );
    }
}

const NO_COMMAND: &[&[&str]] = &[
    &[],
    &["walk"],
    &["run", "run"],
    &["generate", "1", "2"],
    &["admin"],
    &["--help", "run"],
    &["run", "--version"],
    &["--help", "--help"],
    &["run", "--help", "run"],
];

// The table as a slice: a function that names a table has all of it written out.
fn no_command() -> &'static [&'static [&'static str]] {
    NO_COMMAND
}

// Nothing is read, so that a source whose first read would fail is no fault.
#[test]
fn other_words_are_no_command(rt: HostRuntime) {
    for words in no_command() {
        let fails: (&[u64], &[u64]) = (&[0], &[]);
        assert!(rt; ends(&rt, rt.alloc(), words, "{", fails, Status::BadWords, ""));
    }
}

const TEXTS: &[&[&str]] = &[&["--help"], &["run", "--help"], &["--version"]];

// The table as a slice: a function that names a table has all of it written out.
fn texts() -> &'static [&'static [&'static str]] {
    TEXTS
}

// What `--help`, `run --help` and `--version` write is exact in the contracts; here they are taken, so that the first write comes, and
// its fault is told. Nothing is read.
#[test]
fn words_of_texts_are_taken(rt: HostRuntime) {
    for words in texts() {
        let fails: (&[u64], &[u64]) = (&[0], &[0]);
        assert!(rt; ends(&rt, rt.alloc(), words, "{", fails, Status::WriteFault, ""));
    }
}

// A script with an open of a writer and then 1,000 events that stand for 1,000 steps each.
fn too_many(rt: &impl Abort, alloc: Global) -> String {
    let mut text = String::from_str(
        alloc,
        r#"{"databases":[{"path":"db"}],"events":[{"open":1,"kind":"writer","db":"db"}"#,
    )
    .expect(rt, "memory");
    for _ in 0..1000 {
        text.push_str(r#",{"step":1,"at":1000,"times":1000}"#)
            .expect(rt, "memory");
    }
    text.push_str("]}").expect(rt, "memory");
    text
}

// One event more than a script may have.
#[test]
fn a_script_has_at_most_a_million_events(rt: HostRuntime) {
    let script = too_many(&rt, rt.alloc());
    let status = Status::BadScript(ScriptPlace::Event(1_000_000));
    let text = "bad script event 1000000\n";
    let fails: (&[u64], &[u64]) = (&[], &[]);
    assert!(rt;
        ends(
            &rt,
            rt.alloc(),
            &["run"],
            script.as_str(),
            fails,
            status,
            text
        )
    );
    drop(script);
}
