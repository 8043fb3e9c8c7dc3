//! The top call.
ghost use Rattle.std.specs.Prelude.{◌≡◌, ◌≢◌, ◌↔◌, ◌<◌, List, None, Some, IfSome, length};
ghost use Rattle.slate_store.specs.FaultCounts.{Rose};
ghost use Rattle.slate_script.specs.Scripts.{script_of};
ghost use Rattle.slate_cluster_reports.specs.Commands.{command_of};
ghost use Rattle.slate_cluster_reports.specs.Endings.{end, limit, Answers, EndsTooLong, ExactlyRuns};
ghost use Rattle.slate_cluster_reports.specs.Endings.{IfAnswered, IsLawfulRun, Outcome, Runs};

use crate::answers::{Output, answer};
use slate_cluster_reports::{Command, Status, command_in, deliver, help, run_help, version};
use slate_store::{ReadError, Sink, Source, read_all};
use std::alloc::Global;

// The most bytes of an input.
const LIMIT: usize = 64 * 1024 * 1024;

// What was read is answered. The text is made whole before the first write.
fn answer_whole<K: Sink>(alloc: Global, bytes: &[u8], sink: &mut K) -> Status
    ensures written { Answers (script_of bytes.now) (end (K.written sink.old) (K.faults sink.old))
        (end (K.written sink.new) (K.faults sink.new)) result }
    ensures lawful { IfAnswered result (IsLawfulRun (script_of bytes.now)) }
{
    match answer(alloc, bytes) {
        Ok(Output { text, status }) => {
            let told = deliver(text.as_str(), status, sink);
            drop(text);
            told
        }
        Err(_) => Status::OutOfMemory,
    }
}

fn run<S: Source, K: Sink>(alloc: Global, source: &mut S, sink: &mut K) -> Status
    ensures { Runs
        (end (S.left source.old) (S.faults source.old)) (end (S.left source.new) (S.faults source.new))
        (end (K.written sink.old) (K.faults sink.old)) (end (K.written sink.new) (K.faults sink.new)) result }
{
    match read_all(alloc, source, LIMIT) {
        Ok(bytes) => {
            let told = answer_whole(alloc, &bytes, sink);
            drop(bytes);
            told
        }
        Err(ReadError::Fault) => Status::ReadFault,
        Err(ReadError::TooLong) => Status::TooLong,
        Err(ReadError::OutOfMemory) => Status::OutOfMemory,
    }
}

// How the program ends.
fn ended<S: Source, K: Sink>(
    alloc: Global,
    words: &[String],
    source: &mut S,
    sink: &mut K,
) -> Status
    ensures { Outcome (command_of words.now)
        (end (S.left source.old) (S.faults source.old)) (end (S.left source.new) (S.faults source.new))
        (end (K.written sink.old) (K.faults sink.old)) (end (K.written sink.new) (K.faults sink.new)) result }
{
    match command_in(words) {
        Some(Command::Run) => run(alloc, source, sink),
        Some(Command::RunHelp) => run_help(sink),
        Some(Command::Help) => help(sink),
        Some(Command::Version) => version(sink),
        None => Status::BadWords,
    }
}

/// All that the program does: one command, given by the words of the command line without the program's name.
///
/// `run` reads a script from the source to its end, does its events on a cluster of its own, and writes the report to the
/// sink. `run --help`, `--help` and `--version` write a text and read nothing. The text is made whole before the first write: where
/// memory runs out nothing was written, and where a write fails a front of the text was.
pub fn program<S: Source, K: Sink>(
    alloc: Global,
    words: &[String],
    source: &mut S,
    sink: &mut K,
) -> Status
    // What was read and what was written, by the status. The run that was reported is lawful.
    ensures outcome { Outcome (command_of words.now)
        (end (S.left source.old) (S.faults source.old)) (end (S.left source.new) (S.faults source.new))
        (end (K.written sink.old) (K.faults sink.old)) (end (K.written sink.new) (K.faults sink.new)) result }
    // The words are refused exactly where they are no command.
    ensures words { result ≡ Status.BadWords ↔ (command_of words.now ≡ None) }
    // A fault of the source is told exactly where it counted one.
    ensures read_fault { result ≡ Status.ReadFault → Rose (S.faults source.old) (S.faults source.new) }
    ensures no_read_fault { result ≢ Status.ReadFault → S.faults source.new ≡ S.faults source.old }
    // A fault of the sink is told only where it counted one, and no success is told then.
    ensures write_fault { result ≡ Status.WriteFault → Rose (K.faults sink.old) (K.faults sink.new) }
    ensures no_write_fault { result ≡ Status.Ok → K.faults sink.new ≡ K.faults sink.old }
    // The exact status and text, for each input that the source tells, where no end fails.
    ensures exact { ExactlyRuns (command_of words.now)
        (end (S.left source.old) (S.faults source.old)) (end (S.left source.new) (S.faults source.new))
        (end (K.written sink.old) (K.faults sink.old)) (end (K.written sink.new) (K.faults sink.new)) result }
    // What is too long is refused.
    ensures too_long { IfSome (S.left source.old) (λ input. command_of words.now ≡ Some Command.Run
        → limit < length input
        → ¬ (Rose (S.faults source.old) (S.faults source.new))
        → EndsTooLong result (end (K.written sink.old) (K.faults sink.old))
        (end (K.written sink.new) (K.faults sink.new))) }
{
    ended(alloc, words, source, sink)
}
