//! How the program ends.
ghost use Rattle.std.specs.Prelude.{◌≡◌};
ghost use Rattle.slate_cluster_reports.specs.Endings.{exit_code_of};

use slate_script_events::{ClusterCause, ScriptPlace};

/// How the program ends.
#[derive(Clone, Copy, Debug, Drop, PartialEq, Eq)]
pub enum Status {
    /// The command was done, and its whole text was written.
    Ok,
    /// The words are no command. Nothing was read and nothing was written.
    BadWords,
    /// A read of the input failed. Nothing was written.
    ReadFault,
    /// A write failed, and nothing else did. A front of the text was written.
    WriteFault,
    /// The input has more than 64 MiB. Nothing was written.
    TooLong,
    /// The input is no script, and this is the first place. The line that says so was written, or where a write failed a
    /// front of it.
    BadScript(ScriptPlace),
    /// No run begins with the script's databases, and this is the first cause. The line that says so was written, or where a
    /// write failed a front of it.
    BadCluster(ClusterCause),
    /// The event at this place, counted from 0, is the first bad one. The report of the events before it was written, or
    /// where a write failed a front of it.
    BadEvent(u64),
    /// Memory ran out. Nothing was written.
    OutOfMemory,
}

impl Status {
    /// The exit code of the program.
    pub fn exit_code(self) -> u8
        ensures { result ≡ exit_code_of self }
    {
        match self {
            Status::Ok => 0,
            Status::BadWords => 2,
            Status::ReadFault => 3,
            Status::WriteFault => 4,
            Status::TooLong => 5,
            Status::BadScript(_) => 6,
            Status::BadCluster(_) => 7,
            Status::BadEvent(_) => 8,
            Status::OutOfMemory => 9,
        }
    }
}
