//! Records of their bytes.
ghost use Rattle.std.specs.Prelude.{◌≡◌, ◌++◌, ◌∷◌, [], map, true, IfOk, OnOk};
ghost use Rattle.slate_ids.specs.Answers.{Gives};
ghost use Rattle.slate_model_records.specs.Records.{are_ascending};
ghost use Rattle.slate_ids.specs.Ulids.{id_lt};
ghost use Rattle.slate_layout_records.specs.RecordBytes as records;
ghost use Rattle.slate_layout_records.specs.RecordBytes.{decoded_record};
ghost use Rattle.slate_layout_records.specs.RecordWritten.{OnlyWritten};

use slate_ids::{FormatName, Listed, OutOfMemory, SlateDBError, Ulid};
use slate_layout_parts::{Part, Reader, Scope, Tables, sources_of};
use slate_model_records::{
    Compaction, CompactionContext, CompactionSpec, CompactionStatus, Compactions, WorkerSpec,
};
use slate_model_tables::SsTableHandle;
use std::alloc::Global;

// Status, worker, outputs, and what a worker goes on with.
type Progress = (
    CompactionStatus,
    (
        Option<WorkerSpec>,
        (Listed<SsTableHandle>, Option<CompactionContext>),
    ),
);

// A compaction of version 2: its id, what it is to do, and how far it is.
type Raw = (Ulid, (CompactionSpec, Progress));

// A compaction of version 1: its id, its scope, and how far it is.
type Old = (Ulid, (Scope, Progress));

/// Whether a compaction of this status has outputs; those of others are let go.
pub(crate) fn has_outputs(status: CompactionStatus) -> bool
    ensures { result ≡ records.has_outputs status }
{
    match status {
        CompactionStatus::Submitted | CompactionStatus::Scheduled | CompactionStatus::Running => {
            false
        }
        CompactionStatus::Compacted | CompactionStatus::Completed | CompactionStatus::Failed => {
            true
        }
    }
}

// The outputs that are kept.
fn kept_outputs(
    alloc: Global,
    status: CompactionStatus,
    outputs: Listed<SsTableHandle>,
) -> Listed<SsTableHandle>
    ensures { result ≡ records.kept_outputs status outputs }
{
    if has_outputs(status) {
        outputs
    } else {
        drop(outputs);
        Listed::new(alloc)
    }
}

// The compaction of its parts.
fn compaction_of(alloc: Global, raw: Raw) -> Compaction
    ensures { result ≡ records.compaction_of raw }
{
    let (id, (spec, (status, (worker, (outputs, ctx))))) = raw;
    Compaction {
        id,
        spec,
        status,
        worker,
        output_ssts: kept_outputs(alloc, status, outputs),
        ctx,
    }
}

// Whether an id stands before another.
fn is_before(a: Ulid, b: Ulid) -> bool
    ensures { result ≡ id_lt a b }
{
    a.timestamp_ms() < b.timestamp_ms()
        || (a.timestamp_ms() == b.timestamp_ms() && a.tail() < b.tail())
}

// Whether the ids ascend strictly.
fn are_in_order(raws: &[Raw]) -> bool
    ensures { result ≡ records.raws_ascend raws.now }
{
    let Some((first, others)) = raws.split_first() else {
        return true;
    };
    let mut last = first;
    for raw in others {
        if !is_before(last.0, raw.0) {
            return false;
        }
        last = raw;
    }
    true
}

// The record of an epoch and compactions whose ids ascend strictly.
fn record_in_order(alloc: Global, epoch: u64, raws: Listed<Raw>) -> Result<Compactions, OutOfMemory>
    requires ascending { are_ascending (map records.compaction_of raws) ≡ true }
    ensures { IfOk result (λ made. made ≡ record { compactor_epoch = epoch; entries = map records.compaction_of raws }) }
{
    let mut made = Compactions::new(alloc, epoch);
    for raw in raws.into_vec() {
        match made.insert(compaction_of(alloc, raw)) {
            Ok(()) => {}
            Err(e) => {
                drop(made);
                return Err(e);
            }
        }
    }
    Ok(made)
}

// The record of an epoch and its compactions, where their ids ascend strictly.
#[tactic(auto, using(crate::proofs::RecordOrder::ascending_of))]
fn record_of(
    alloc: Global,
    epoch: u64,
    raws: Listed<Raw>,
) -> Result<Option<Compactions>, OutOfMemory>
    ensures { IfOk result (λ made. made ≡ records.record_of (epoch, raws)) }
{
    if are_in_order(raws.as_slice()) {
        Ok(Some(record_in_order(alloc, epoch, raws)?))
    } else {
        drop(raws);
        Ok(None)
    }
}

// The record of all these bytes, by version 2.
fn read_second(alloc: Global, from: Reader<'_>) -> Result<Option<Compactions>, OutOfMemory>
    ensures { IfOk result (λ read. read ≡ records.second_record from.entry) }
{
    let none = Tables::none(alloc);
    let read = <(u64, Listed<Raw>)>::read(alloc, &none, from);
    drop(none);
    match read? {
        Some(((epoch, raws), rest)) => {
            if rest.len() > 0 {
                drop(raws);
                Ok(None)
            } else {
                record_of(alloc, epoch, raws)
            }
        }
        None => Ok(None),
    }
}

// The least of these numbers; 0 where there is none.
fn least_or_zero(runs: &[u32]) -> u32
    ensures { result ≡ records.least_or_zero runs.now }
{
    let Some((first, others)) = runs.split_first() else {
        return 0;
    };
    let mut least = *first;
    for run in others {
        if least > *run {
            least = *run;
        }
    }
    least
}

// The compaction of version 2 that one of version 1 is: a merge into the least of its runs.
fn raw_of_old(alloc: Global, old: Old) -> Result<Raw, OutOfMemory>
    ensures { IfOk result (λ raw. raw ≡ records.raw_of_old old) }
{
    let (id, ((segment, (views, runs)), progress)) = old;
    let made = sources_of(alloc, views.as_slice(), runs.as_slice());
    let destination = least_or_zero(runs.as_slice());
    drop(views);
    drop(runs);
    match made {
        Ok(sources) => {
            let spec = CompactionSpec::Tiered {
                segment,
                sources,
                destination,
            };
            Ok((id, (spec, progress)))
        }
        Err(e) => {
            drop(segment);
            drop(progress);
            Err(e)
        }
    }
}

// Adds the compaction of version 2 that one of version 1 is at the end.
fn add_old(alloc: Global, raws: &mut Listed<Raw>, old: Old) -> Result<(), OutOfMemory>
    ensures { OnOk result (raws.new ≡ raws.old ++ records.raw_of_old old ∷ []) }
{
    let raw = raw_of_old(alloc, old)?;
    raws.push(raw)
}

// The same of each.
fn raws_of_old(alloc: Global, olds: Listed<Old>) -> Result<Listed<Raw>, OutOfMemory>
    ensures { IfOk result (λ raws. raws ≡ map records.raw_of_old olds) }
{
    let mut raws = Listed::new(alloc);
    for old in olds.into_vec() {
        match add_old(alloc, &mut raws, old) {
            Ok(()) => {}
            Err(e) => {
                drop(raws);
                return Err(e);
            }
        }
    }
    Ok(raws)
}

// The record of all these bytes, by version 1.
fn read_first(alloc: Global, from: Reader<'_>) -> Result<Option<Compactions>, OutOfMemory>
    ensures { IfOk result (λ read. read ≡ records.first_record from.entry) }
{
    let none = Tables::none(alloc);
    let read = <(u64, Listed<Old>)>::read(alloc, &none, from);
    drop(none);
    match read? {
        Some(((epoch, olds), rest)) => {
            if rest.len() == 0 {
                record_of(alloc, epoch, raws_of_old(alloc, olds)?)
            } else {
                drop(olds);
                Ok(None)
            }
        }
        None => Ok(None),
    }
}

// A record that was read; all other bytes are Corrupt.
fn or_corrupt(read: Option<Compactions>) -> Result<Compactions, SlateDBError>
    ensures { result ≡ records.record_or_corrupt read }
{
    match read {
        Some(record) => Ok(record),
        None => Err(SlateDBError::Corrupt(FormatName::Compactions)),
    }
}

// The record that bytes stand for, or why they stand for none.
fn decode(alloc: Global, bytes: &[u8]) -> Result<Compactions, SlateDBError>
    ensures { Gives result (decoded_record bytes.now) }
{
    let Some((version, from)) = Reader::new(bytes).u16() else {
        return Err(SlateDBError::InvalidCompaction);
    };
    match version {
        1 => or_corrupt(read_first(alloc, from)?),
        2 => or_corrupt(read_second(alloc, from)?),
        actual => Err(SlateDBError::InvalidVersion {
            format: FormatName::Compactions,
            actual,
        }),
    }
}

/// The record that bytes stand for, by version 1 or 2 of the layout. InvalidCompaction of fewer than two bytes; InvalidVersion of another
/// version; Corrupt of all other bytes that stand for no record. Outputs of compactions that are Submitted, Scheduled or Running are let
/// go: but for those, bytes of version 2 are the ones that `encode_compactions` gives of the record.
pub fn decode_compactions(alloc: Global, bytes: &[u8]) -> Result<Compactions, SlateDBError>
    ensures exact { Gives result (decoded_record bytes.now) }
    ensures only { IfOk result (λ read. OnlyWritten bytes.now read) }
{
    let read = decode(alloc, bytes)?;
    Ok(read)
}
