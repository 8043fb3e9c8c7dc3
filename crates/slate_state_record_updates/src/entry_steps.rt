//! What each step of a compaction makes of a record.
ghost use Rattle.std.specs.Prelude.{◌≡◌, IfOk, decimal};
ghost use Rattle.slate_ids.specs.Answers.{Gives};
ghost use Rattle.slate_state_record_updates.specs.EntrySteps as steps;
ghost use Rattle.slate_state_record_updates.specs.EntrySteps.{to_scheduled, to_running, to_compacted};

use slate_ids::{Listed, Millis, OutOfMemory, SlateDBError, StateCause, Text, Ulid};
use slate_model::{
    Compaction, CompactionSpec, CompactionStatus, Compactions, Plain, SsTableHandle, WorkerSpec,
};
use std::alloc::Global;
use std::mem;

// ---- workers

// A moment as a worker tells it: the greater of it and 0.
fn heartbeat(now: Millis) -> u64
    ensures { result ≡ steps.heartbeat now }
{
    if now < 0 { 0 } else { now as u64 }
}

// The name of the worker of this party number.
fn worker_name(alloc: Global, worker: u32) -> Result<Text, OutOfMemory>
    ensures { IfOk result (λ name. name ≡ decimal worker) }
{
    let mut text = String::new(alloc);
    write!(text, "{worker}")?;
    Ok(Text::from_string(text))
}

// The worker of this party number, heard of at this moment.
fn worker_at(alloc: Global, worker: u32, now: Millis) -> Result<WorkerSpec, OutOfMemory>
    ensures { IfOk result (λ spec. spec ≡ steps.worker_at worker now) }
{
    Ok(WorkerSpec {
        worker_id: worker_name(alloc, worker)?,
        last_heartbeat_ms: heartbeat(now),
    })
}

// Whether the worker of this party number has a compaction.
fn is_held_by(alloc: Global, worker: u32, spec: &Option<WorkerSpec>) -> Result<bool, OutOfMemory>
    ensures { IfOk result (λ held. held ≡ steps.is_held_by worker spec.now) }
{
    match spec {
        None => Ok(false),
        Some(spec) => {
            let name = worker_name(alloc, worker)?;
            let held = spec.worker_id.as_str() == name.as_str();
            drop(name);
            Ok(held)
        }
    }
}

// ---- steps

fn is_submitted(status: CompactionStatus) -> bool
    ensures { result ≡ steps.is_submitted status }
{
    matches!(status, CompactionStatus::Submitted)
}

fn is_scheduled(status: CompactionStatus) -> bool
    ensures { result ≡ steps.is_scheduled status }
{
    matches!(status, CompactionStatus::Scheduled)
}

fn is_running(status: CompactionStatus) -> bool
    ensures { result ≡ steps.is_running status }
{
    matches!(status, CompactionStatus::Running)
}

// From Submitted to Scheduled.
fn to_scheduled(alloc: Global, compaction: &Compaction) -> Result<Option<Compaction>, OutOfMemory>
    ensures { IfOk result (λ made. made ≡ to_scheduled compaction.now) }
{
    if !is_submitted(compaction.status) {
        return Ok(None);
    }
    let mut made = compaction.clone(alloc)?;
    made.status = CompactionStatus::Scheduled;
    Ok(Some(made))
}

// From Scheduled to Running: this worker has it.
fn to_running(
    alloc: Global,
    worker: u32,
    now: Millis,
    compaction: &Compaction,
) -> Result<Option<Compaction>, OutOfMemory>
    ensures { IfOk result (λ made. made ≡ to_running worker now compaction.now) }
{
    if !is_scheduled(compaction.status) {
        return Ok(None);
    }
    let spec = worker_at(alloc, worker, now)?;
    match compaction.clone(alloc) {
        Ok(copied) => {
            let mut made = copied;
            made.status = CompactionStatus::Running;
            drop(mem::replace(&mut made.worker, Some(spec)));
            Ok(Some(made))
        }
        Err(e) => {
            drop(spec);
            Err(e)
        }
    }
}

// From Running under this worker to Compacted: these are its outputs.
fn to_compacted(
    alloc: Global,
    worker: u32,
    outputs: Listed<SsTableHandle>,
    compaction: &Compaction,
) -> Result<Option<Compaction>, OutOfMemory>
    ensures { IfOk result (λ made. made ≡ to_compacted worker outputs compaction.now) }
{
    let held = match is_held_by(alloc, worker, &compaction.worker) {
        Ok(held) => held,
        Err(e) => {
            drop(outputs);
            return Err(e);
        }
    };
    if !is_running(compaction.status) || !held {
        drop(outputs);
        return Ok(None);
    }
    match compaction.clone(alloc) {
        Ok(copied) => {
            let mut made = copied;
            made.status = CompactionStatus::Compacted;
            drop(mem::replace(&mut made.output_ssts, outputs));
            Ok(Some(made))
        }
        Err(e) => {
            drop(outputs);
            Err(e)
        }
    }
}

// An equal record, in which this compaction is that of its id.
fn with_entry(
    alloc: Global,
    compactions: &Compactions,
    compaction: Compaction,
) -> Result<Compactions, OutOfMemory>
    ensures { IfOk result (λ r. r ≡ steps.with_entry compaction compactions.now) }
{
    match compactions.clone(alloc) {
        Ok(copied) => {
            let mut new = copied;
            match new.insert(compaction) {
                Ok(()) => Ok(new),
                Err(e) => {
                    drop(new);
                    Err(e)
                }
            }
        }
        Err(e) => {
            drop(compaction);
            Err(e)
        }
    }
}

// The record with what a step made of the compaction of an id.
fn put_in(
    alloc: Global,
    id: Ulid,
    compactions: &Compactions,
    made: Option<Compaction>,
) -> Result<Option<Compactions>, SlateDBError>
    ensures { Gives result (steps.put_in id compactions.now made) }
{
    match made {
        None => Err(SlateDBError::InvalidDBState(StateCause::CompactionState(id))),
        Some(compaction) => Ok(Some(with_entry(alloc, compactions, compaction)?)),
    }
}

fn no_such(id: Ulid) -> SlateDBError
    ensures { result ≡ steps.no_such id }
{
    SlateDBError::InvalidDBState(StateCause::NoSuchCompaction(id))
}

/// What a compactor makes of a record: the compaction of this id is Scheduled in place of Submitted. Refused with `InvalidDBState`:
/// `NoSuchCompaction` where it isn't there, `CompactionState` where its status is another.
pub fn schedule(
    alloc: Global,
    id: Ulid,
    compactions: &Compactions,
) -> Result<Option<Compactions>, SlateDBError>
    ensures { Gives result (steps.stepped id to_scheduled compactions.now) }
{
    match compactions.get(id) {
        None => Err(no_such(id)),
        Some(found) => put_in(alloc, id, compactions, to_scheduled(alloc, found)?),
    }
}

/// What a worker makes of a record: the compaction of this id is Running in place of Scheduled, under the worker of this party number,
/// whose heartbeat is the moment of the change in milliseconds since the Unix epoch, and 0 before it. Refused as `schedule`.
pub fn claim(
    alloc: Global,
    id: Ulid,
    worker: u32,
    now: Millis,
    compactions: &Compactions,
) -> Result<Option<Compactions>, SlateDBError>
    ensures { Gives result (steps.stepped id (to_running worker now) compactions.now) }
{
    match compactions.get(id) {
        None => Err(no_such(id)),
        Some(found) => put_in(
            alloc,
            id,
            compactions,
            to_running(alloc, worker, now, found)?,
        ),
    }
}

/// What a worker makes of a record: the compaction of this id, Running under it, is Compacted and has these outputs. Refused as
/// `schedule`, and with `CompactionState` where another worker has it.
pub fn report(
    alloc: Global,
    id: Ulid,
    worker: u32,
    outputs: Listed<SsTableHandle>,
    compactions: &Compactions,
) -> Result<Option<Compactions>, SlateDBError>
    ensures { Gives result (steps.stepped id (to_compacted worker outputs) compactions.now) }
{
    match compactions.get(id) {
        None => {
            drop(outputs);
            Err(no_such(id))
        }
        Some(found) => put_in(
            alloc,
            id,
            compactions,
            to_compacted(alloc, worker, outputs, found)?,
        ),
    }
}

/// What an admin makes of a record: one compaction more, Submitted, without worker, outputs or context. Nothing, where the id is there.
pub fn submit(
    alloc: Global,
    id: Ulid,
    spec: CompactionSpec,
    compactions: &Compactions,
) -> Result<Option<Compactions>, SlateDBError>
    ensures { Gives result (Ok (steps.one_more id spec compactions.now)) }
{
    if compactions.get(id).is_some() {
        drop(spec);
        return Ok(None);
    }
    let asked = Compaction {
        id,
        spec,
        status: CompactionStatus::Submitted,
        worker: None,
        output_ssts: Listed::new(alloc),
        ctx: None,
    };
    Ok(Some(with_entry(alloc, compactions, asked)?))
}
