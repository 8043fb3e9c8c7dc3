//! The texts of the commands that read nothing, and how a text is written.
ghost use Rattle.slate_cluster_reports.specs.Commands.{help_text, run_help_text, version_text};
ghost use Rattle.slate_cluster_reports.specs.Endings.{end, Delivers};

use crate::status::Status;
use slate_store::{Sink, write_all};

// The script `slate` cuts these texts out where the program isn't built: each begins and ends on a line of its own.
const HELP: &str = "\
Runs a script of parties at an object store, and reports.

  slate run < script.json   reads a script, writes its report
  slate run --help          writes what a script has
  slate --help              writes this text
  slate --version           writes the version

Exit codes: 0 done, 2 no such command, 3 reading failed,
4 writing failed, 5 more than 64 MiB of input, 6 no script,
7 refused databases, 8 a bad event, 9 out of memory.
With each but 0, a line on standard error says why.

Example:
  echo '{\"databases\":[{\"path\":\"db\"}],\"events\":[]}' > script.json
  slate run < script.json
";

const RUN_HELP: &str = "\
Reads a script from standard input, one JSON text of at most 64 MiB:
an object with the arrays \"databases\" and \"events\". Writes a line for
each event, the greatest committed numbers, the count of deletes and
the paths of the objects left, and then ok or the first bad event.

  database   {\"path\":\"db\"}, and where wanted \"modified\",
             \"initialized\", \"writer_epoch\", \"compactor_epoch\",
             \"floor\", \"replay_after\", \"next_wal\", \"extractor\",
             the arrays \"l0\", \"runs\", \"markers\", \"checkpoints\"
             and \"strays\", and the object \"record\" of compactions
  open       {\"open\":1,\"kind\":\"writer\",\"db\":\"db\"}, or of a kind below
  step       {\"step\":1,\"at\":1000}, and where wanted \"times\":1000 for
             up to 1000 of them, and \"mark\":\"fail\" for a store call
             that faults, or \"mark\":\"lost\" for one of which the
             answer alone is lost
  stop       {\"stop\":1}

A start is one of these, by the kind of its party:

  writer     {\"start\":1,\"call\":\"open_writer\"}
             {\"start\":1,\"call\":\"upload\",\"table\":\"9:1\"}, and where
             wanted its keys \"first\":\"a\", \"last\":\"z\"
             {\"start\":1,\"call\":\"flush\",\"tables\":[t]}, and where wanted
             \"replay_after\":0, \"next_wal\":1, \"seq\":0, \"tick\":0; a t is
             {\"table\":\"9:1\",\"view\":\"9:2\"}, and where wanted \"prefix\":\"\"
  compactor  {\"start\":1,\"call\":\"open_compactor\"}
             {\"start\":1,\"call\":\"refresh\"}
             {\"start\":1,\"call\":\"schedule\",\"id\":\"8:1\"}
             {\"start\":1,\"call\":\"finish\",\"id\":\"8:1\"}
             {\"start\":1,\"call\":\"fail\",\"id\":\"8:1\"}
             {\"start\":1,\"call\":\"write_manifest\",\"checkpoint\":7}
             {\"start\":1,\"call\":\"write_record\"}
             {\"start\":1,\"call\":\"write_state\",\"checkpoint\":7}
  worker     {\"start\":1,\"call\":\"upload\",\"table\":\"9:1\"}, as a writer's
             {\"start\":1,\"call\":\"claim\",\"id\":\"8:1\"}
             {\"start\":1,\"call\":\"report\",\"id\":\"8:1\",\"tables\":[\"9:1\"]}
  holder     {\"start\":1,\"call\":\"write_checkpoint\",\"id\":7}, and where
             wanted \"lifetime\":60000, \"source\":6, \"name\":\"n\"
             {\"start\":1,\"call\":\"replace_checkpoint\",\"old\":6,\"id\":7},
             and where wanted \"lifetime\":60000, \"source\":6, \"name\":\"n\"
             {\"start\":1,\"call\":\"refresh_checkpoint\",\"id\":7,
             \"lifetime\":60000}
             {\"start\":1,\"call\":\"delete_checkpoint\",\"id\":7}
  collector  {\"start\":1,\"call\":\"pass\",\"pass\":\"manifest\"}, of which the
             pass is \"manifest\", \"compactions\" or \"compacted\", and
             where wanted \"min_age\":300000, \"dry_run\":false,
             \"filter\":\"all\"; a filter is \"all\", \"none\" or an array of
             paths

An id of a table, a view or a compaction is a text \"ms:tail\" of two
numbers below 2^48 and 2^80, one of a checkpoint a number below 2^64;
a party is a number below 2^32. Moments, ages and lifetimes are
milliseconds. A field of a call that is left out is as it stands here;
a lifetime, a source or a name is then none. The table of an upload,
the views of a flush and the checkpoint that a call makes are new ids.
A script has at most 1000000 events.
docs/FORMAT.md has all fields and lines.
";

const VERSION: &str = "\
buqtarel 0.1.0
rattle-kit-13f logic dac8208d650f15bf
";

/// Writes a text, and answers how the program ends: as it was asked, or with a fault of a write, which is told only where all
/// else went well; a front of the text was written then.
pub fn deliver<K: Sink>(text: &str, asked: Status, sink: &mut K) -> Status
    ensures { Delivers text.now asked (end (K.written sink.old) (K.faults sink.old))
        (end (K.written sink.new) (K.faults sink.new)) result }
{
    match (write_all(sink, text.as_bytes()), asked) {
        (Err(_), Status::Ok) => Status::WriteFault,
        _ => asked,
    }
}

/// Writes what the program does and how it is called.
#[tactic(auto, unfolding(crate::specs::Commands::help_text))]
pub fn help<K: Sink>(sink: &mut K) -> Status
    ensures { Delivers help_text Status.Ok (end (K.written sink.old) (K.faults sink.old))
        (end (K.written sink.new) (K.faults sink.new)) result }
{
    deliver(HELP, Status::Ok, sink)
}

/// Writes what a script has.
#[tactic(auto, unfolding(crate::specs::Commands::run_help_text))]
pub fn run_help<K: Sink>(sink: &mut K) -> Status
    ensures { Delivers run_help_text Status.Ok (end (K.written sink.old) (K.faults sink.old))
        (end (K.written sink.new) (K.faults sink.new)) result }
{
    deliver(RUN_HELP, Status::Ok, sink)
}

/// Writes the name and the version of the program.
#[tactic(auto, unfolding(crate::specs::Commands::version_text))]
pub fn version<K: Sink>(sink: &mut K) -> Status
    ensures { Delivers version_text Status.Ok (end (K.written sink.old) (K.faults sink.old))
        (end (K.written sink.new) (K.faults sink.new)) result }
{
    deliver(VERSION, Status::Ok, sink)
}
