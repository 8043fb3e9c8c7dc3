//! Calls of parties.
ghost use Rattle.std.specs.Prelude.{◌≡◌, IfOk};
ghost use Rattle.slate_script_events.specs.declared.call.Call.TheVariants as calls;

use crate::filter_word::FilterWord;
use crate::flush_table::FlushTable;
use bytes::Bytes;
use slate_ids::{CheckpointId, GcMessage, Listed, Millis, OutOfMemory, Text, Ulid};
use slate_model::Plain;
use std::alloc::Global;

/// A call of a party. Lifetimes are in milliseconds; a checkpoint without one never expires.
#[derive(Debug, Drop)]
pub enum Call {
    /// Reads the latest manifest and commits its writer epoch plus one. The reply is that epoch.
    OpenWriter,
    /// Puts the object of a new table, which has these first and last keys. Refused with `Unencodable` at the start where the last key
    /// lies below the first one. From then on the party may flush the table, or report it. The reply is `done`.
    Upload {
        table: Ulid,
        first: Bytes,
        last: Bytes,
    },
    /// Reads the latest manifest and commits it with these tables, each in front of the tree of its prefix unless a tree has it already;
    /// with the last file of the write-ahead log that needs no replay, the number of the next one, and the sequence number and clock tick,
    /// in milliseconds, of the newest flushed table, whose pair the tracker takes where it is in order. Refused with `InvalidDBState` at
    /// the start before the party's open succeeded, and then where it has not uploaded one of the tables; with `Fenced` where the version
    /// read has a writer epoch above the party's; and by the rules on new versions. The reply is `done`.
    Flush {
        tables: Listed<FlushTable>,
        replay_after: u64,
        next_wal: u64,
        seq: u64,
        tick: Millis,
    },
    /// Reads the latest manifest and commits it with its compactor epoch plus one. Then reads the latest record: where there is none, the
    /// first one is committed, with epoch 0 and no compactions. Then the record is committed with the manifest's epoch, and once more with
    /// each compaction that is Scheduled Submitted, without a worker, and without those that are over, Completed or Failed, but for the last
    /// of them. Refused with `Exhausted` at the last epoch, and with `Fenced` where the record read has a greater one. From then on the
    /// party holds the trees of the manifest that it committed and the record that it committed last. The reply is that epoch.
    OpenCompactor,
    /// Reads the latest record and then the latest manifest. The party then holds the record read, with its own statuses of compactions that
    /// are over, and its trees merged with those of the manifest. Refused, as each call of a compactor but its open, with `InvalidDBState`
    /// at the start before the party's open succeeded, and with `Fenced` where a version read has a compactor epoch above the party's; as a
    /// claim where there is no record; and with `SegmentWithoutWriter` where a segment that it holds has tables and the manifest has none of
    /// its prefix. The reply is `done`.
    Refresh,
    /// Reads the latest record and commits it with this compaction Scheduled, from Submitted. The party then holds that record, with its own
    /// statuses of compactions that are over. Refused with `InvalidDBState` where the record read lacks the compaction or it isn't Submitted.
    /// The reply is `done`.
    Schedule {
        id: Ulid,
    },
    /// Makes no store call: in what the party holds, the sources of this compaction, which is Compacted, leave the tree of its segment, and
    /// the run of its outputs comes in their place; it is Completed. Refused with `InvalidDBState` at the start: where the party holds no
    /// such compaction, it isn't Compacted, or its sources are bad. The reply is `done`.
    Finish {
        id: Ulid,
    },
    /// Makes no store call: in what the party holds, this compaction is Failed. Refused with `InvalidDBState` at the start where the party
    /// holds no such compaction or it is over. The reply is `done`.
    Fail {
        id: Ulid,
    },
    /// Reads the latest manifest and commits it with this new checkpoint, for a quarter of an hour, and then with the party's trees merged
    /// into it. Where the checkpoint is there already, only the second is committed. The party then holds the trees committed. Refused with
    /// `InvalidDBState` where the database is not ready for use, and with `SegmentWithoutWriter` as a refresh. The reply is `done`.
    WriteManifest {
        checkpoint: CheckpointId,
    },
    /// Reads the latest record and commits it with the party's statuses of compactions that are over, without those that are over, but for the
    /// last of them, Completed or Failed, and those that no manifest has yet. The party then holds the record committed. The reply is `done`.
    WriteRecord,
    /// As `WriteManifest`, and then as `WriteRecord`.
    WriteState {
        checkpoint: CheckpointId,
    },
    /// Reads the latest record and commits it with this compaction Running, from Scheduled, under this party as its worker. Refused with
    /// `LatestTransactionalObjectVersionMissing` where there is no record, and with `InvalidDBState` where the record read lacks the
    /// compaction or it isn't Scheduled. The reply is `done`.
    Claim {
        id: Ulid,
    },
    /// Reads the latest record and commits it with this compaction Compacted, from Running under this party, with these tables as its
    /// outputs. Refused with `InvalidDBState` at the start where the party has not uploaded one of the tables, and where the record read
    /// lacks the compaction or it isn't Running under this party; as a claim where there is no record; and by the rules on new records,
    /// with `InvalidClockTick` where a table is older than the compaction. The reply is `done`.
    Report {
        id: Ulid,
        tables: Listed<Ulid>,
    },
    /// Reads the latest manifest and commits it with this new checkpoint at the end, which names the version of its source,
    /// or the version that is committed where there is no source. Where the id is there already, nothing is committed.
    /// Refused with `CheckpointMissing` where the source is not there, and with `InvalidDBState` where there is no source and
    /// the database is not ready for use. The reply is the checkpoint.
    WriteCheckpoint {
        id: CheckpointId,
        lifetime: Option<u64>,
        source: Option<CheckpointId>,
        name: Option<Text>,
    },
    /// As `WriteCheckpoint`; the same commit takes away the checkpoint `old`, where it is there.
    ReplaceCheckpoint {
        old: CheckpointId,
        id: CheckpointId,
        lifetime: Option<u64>,
        source: Option<CheckpointId>,
        name: Option<Text>,
    },
    /// Reads the latest manifest and commits it with a new moment of expiry of this checkpoint. Refused with
    /// `CheckpointMissing` where it is not there. The reply is the checkpoint.
    RefreshCheckpoint {
        id: CheckpointId,
        lifetime: Option<u64>,
    },
    /// Reads the latest manifest and commits it without this checkpoint. Where it is not there, nothing is committed. The
    /// reply is `done`.
    DeleteCheckpoint {
        id: CheckpointId,
    },
    /// Reads the latest manifest and, where it has expired checkpoints, commits it without them. Over a log it then lists the
    /// versions of that, manifests or records; of manifests it gets the greatest and the boundary. It moves the boundary of
    /// that log to the greatest candidate, and deletes one by one what is picked: the candidates that the filter allows, in the
    /// order of the list. A filter allows all of them, none, or those that lie at one of its paths, which are compared as
    /// texts: one at which no candidate lies allows nothing. Candidates are the listed numbers below the greatest whose age at
    /// the moment of the list is strictly above `min_age`, in milliseconds; a manifest that a checkpoint of the greatest names
    /// is none. Over tables it reads the latest record, the latest manifest and the versions that its checkpoints name, lists
    /// the tables, and moves no boundary. Candidates are the listed tables that no version read has in a tree, and whose
    /// milliseconds are below the watermark of that manifest, below the least compaction of that record, where it has one, and
    /// below the moment at which its read began less `min_age`; without a compaction there is none. A dry run picks nothing,
    /// but moves the boundary. A fault of a delete is counted, and the pass goes on; any other fault ends it. Refused with
    /// `LatestTransactionalObjectVersionMissing` where a list of manifests is empty, and with `ManifestMissing` where the
    /// greatest manifest listed is gone, or at or below the boundary, or a version that a checkpoint names is gone. The reply
    /// is the three counts.
    Pass {
        pass: GcMessage,
        min_age: u64,
        dry_run: bool,
        filter: FilterWord,
    },
}

// An upload of a table with these keys.
fn upload(alloc: Global, table: Ulid, first: &Bytes, last: &Bytes) -> Result<Call, OutOfMemory>
    ensures { IfOk result (λ call. call ≡ calls.Upload table first.now last.now) }
{
    Ok(Call::Upload {
        table,
        first: Plain::clone(first, alloc)?,
        last: Plain::clone(last, alloc)?,
    })
}

// A flush of these tables, with these numbers.
fn flush(
    alloc: Global,
    tables: &Listed<FlushTable>,
    replay_after: u64,
    next_wal: u64,
    seq: u64,
    tick: Millis,
) -> Result<Call, OutOfMemory>
    ensures { IfOk result (λ call. call ≡ calls.Flush tables.now replay_after next_wal seq tick) }
{
    Ok(Call::Flush {
        tables: Plain::clone(tables, alloc)?,
        replay_after,
        next_wal,
        seq,
        tick,
    })
}

// A report of a compaction with these outputs.
fn report(alloc: Global, id: Ulid, tables: &Listed<Ulid>) -> Result<Call, OutOfMemory>
    ensures { IfOk result (λ call. call ≡ calls.Report id tables.now) }
{
    Ok(Call::Report {
        id,
        tables: tables.copy(alloc)?,
    })
}

// A new checkpoint.
fn write_checkpoint(
    alloc: Global,
    id: CheckpointId,
    lifetime: Option<u64>,
    source: Option<CheckpointId>,
    name: &Option<Text>,
) -> Result<Call, OutOfMemory>
    ensures { IfOk result (λ call. call ≡ calls.WriteCheckpoint id lifetime source name.now) }
{
    Ok(Call::WriteCheckpoint {
        id,
        lifetime,
        source,
        name: Plain::clone(name, alloc)?,
    })
}

// A new checkpoint in the place of another.
fn replace_checkpoint(
    alloc: Global,
    old: CheckpointId,
    id: CheckpointId,
    lifetime: Option<u64>,
    source: Option<CheckpointId>,
    name: &Option<Text>,
) -> Result<Call, OutOfMemory>
    ensures { IfOk result (λ call. call ≡ calls.ReplaceCheckpoint old id lifetime source name.now) }
{
    Ok(Call::ReplaceCheckpoint {
        old,
        id,
        lifetime,
        source,
        name: Plain::clone(name, alloc)?,
    })
}

impl Call {
    /// An equal call.
    pub fn copy(&self, alloc: Global) -> Result<Call, OutOfMemory>
        ensures { IfOk result (λ copied. copied ≡ self.now) }
    {
        Ok(match self {
            Call::OpenWriter => Call::OpenWriter,
            Call::Upload { table, first, last } => upload(alloc, *table, first, last)?,
            Call::Flush {
                tables,
                replay_after,
                next_wal,
                seq,
                tick,
            } => flush(alloc, tables, *replay_after, *next_wal, *seq, *tick)?,
            Call::OpenCompactor => Call::OpenCompactor,
            Call::Refresh => Call::Refresh,
            Call::Schedule { id } => Call::Schedule { id: *id },
            Call::Finish { id } => Call::Finish { id: *id },
            Call::Fail { id } => Call::Fail { id: *id },
            Call::WriteManifest { checkpoint } => Call::WriteManifest {
                checkpoint: *checkpoint,
            },
            Call::WriteRecord => Call::WriteRecord,
            Call::WriteState { checkpoint } => Call::WriteState {
                checkpoint: *checkpoint,
            },
            Call::Claim { id } => Call::Claim { id: *id },
            Call::Report { id, tables } => report(alloc, *id, tables)?,
            Call::WriteCheckpoint {
                id,
                lifetime,
                source,
                name,
            } => write_checkpoint(alloc, *id, *lifetime, *source, name)?,
            Call::ReplaceCheckpoint {
                old,
                id,
                lifetime,
                source,
                name,
            } => replace_checkpoint(alloc, *old, *id, *lifetime, *source, name)?,
            Call::RefreshCheckpoint { id, lifetime } => Call::RefreshCheckpoint {
                id: *id,
                lifetime: *lifetime,
            },
            Call::DeleteCheckpoint { id } => Call::DeleteCheckpoint { id: *id },
            Call::Pass {
                pass,
                min_age,
                dry_run,
                filter,
            } => Call::Pass {
                pass: *pass,
                min_age: *min_age,
                dry_run: *dry_run,
                filter: filter.copy(alloc)?,
            },
        })
    }
}
