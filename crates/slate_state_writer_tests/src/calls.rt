//! Calls of compactors and of others on a database in a store in memory, as rows of tables.

use crate::others::{Other, rewritten};
use crate::test_lives::{
    checkpoint, claimed, compacted, created, db, finished, id, latest, reported, shape, status,
    submitted,
};
use slate_ids::{SlateDBError, StateCause};
use slate_model::{Checkpoint, CompactionStatus, Compactions, Manifest};
use slate_state_holders::{StoredCompactions, StoredManifest};
use slate_state_reader::CompactorStateView;
use slate_state_writer::{CompactorStateMachine, CompactorStateWriter};
use slate_store::{MemoryStore, Step};
use std::alloc::Global;
use std::process::Abort;

/// A checkpoint's version, its making and its expiry, in milliseconds.
pub(crate) type KeptCheckpoint = Option<(u64, i64, Option<i64>)>;

/// What a call answers.
#[derive(Clone, Copy, Debug, PartialEq)]
pub(crate) enum Answer {
    Done,
    /// The number of a refusal.
    Refused(u8),
    /// The compaction isn't there.
    Absent,
    /// The compaction is in another state.
    OtherState,
    /// Its sources are bad.
    BadSources,
    Number(u64),
    /// Numbers of the manifest and of the record.
    Numbers(u64, u64),
    /// The status of the compaction, where there is one.
    Status(Option<CompactionStatus>),
    /// The same, and whether it has a worker.
    Stands(CompactionStatus, bool),
    /// The lengths of the root's L0 and of its runs, and the checkpoint that is kept before the trees.
    Trees(usize, usize, KeptCheckpoint),
    /// The same lengths, with the status of the compaction.
    View(usize, usize, Option<CompactionStatus>),
}

/// A call of a compactor, in one try where it takes tries.
#[derive(Clone, Copy, Debug)]
pub(crate) enum OnWriter {
    Refresh,
    Schedule,
    Finish,
    Fail,
    WriteManifest,
    WriteRecord,
    WriteState,
    /// The own epoch.
    Epoch,
    /// The numbers of the manifest and of the record that are held.
    Held,
    /// Their epochs.
    HeldEpochs,
    /// The lengths of the root of the manifest that is held.
    HeldTrees,
    /// How many compactions are pending.
    Pending,
    /// How many segments the local trees have.
    Segments,
    /// The status of the compaction in the local record.
    Local,
    /// What a view has that is made of what is local.
    View,
    /// The numbers of that view.
    ViewNumbers,
}

/// A call of a compactor by a machine.
#[derive(Clone, Copy, Debug)]
pub(crate) enum BySteps {
    Refresh,
    Schedule,
    WriteRecord,
    WriteState,
}

/// A call.
#[derive(Clone, Copy, Debug)]
pub(crate) enum Call {
    /// The first manifest.
    Create,
    /// A compactor opens.
    Open,
    /// The same by a machine, in so many steps.
    OpenBySteps(u8),
    /// A compactor whose compaction waits for its end.
    Compacted,
    /// A compactor that finished it.
    Finished,
    /// An admin submits the compaction.
    Submit,
    /// A worker claims it.
    Claim,
    /// And reports its output.
    Report,
    /// Another holder commits this manifest.
    Rewrite(Other),
    /// The greatest numbers of the manifest and of the record.
    Latest,
    /// What the latest record has of the compaction.
    InRecord,
    /// The trees of the latest manifest, and the checkpoint before them.
    InManifest,
    /// Of the compactor of this place in the order of the opens.
    Of(usize, OnWriter),
    /// The same by a machine, in so many steps.
    Machine(usize, BySteps, u8),
}

/// A call of a row, and its answer.
pub(crate) type Row = (Call, Answer);

fn refusal(e: &SlateDBError) -> Answer {
    match e {
        SlateDBError::InvalidDBState(StateCause::NoSuchCompaction(_)) => Answer::Absent,
        SlateDBError::InvalidDBState(StateCause::CompactionState(_)) => Answer::OtherState,
        SlateDBError::InvalidDBState(StateCause::BadSources(_)) => Answer::BadSources,
        _ => Answer::Refused(e.code()),
    }
}

fn refused(e: SlateDBError) -> Answer {
    let answer = refusal(&e);
    drop(e);
    answer
}

/// Whether a call is done.
fn done<T: Drop>(reply: Result<T, SlateDBError>) -> Answer {
    match reply {
        Ok(value) => {
            drop(value);
            Answer::Done
        }
        Err(e) => refused(e),
    }
}

/// Whether a hand's commit is done.
fn handed(number: u8) -> Answer {
    if number == 0 {
        Answer::Done
    } else {
        Answer::Refused(number)
    }
}

/// A compactor that opened.
fn keep(
    rt: &impl Abort,
    writers: &mut Vec<CompactorStateWriter>,
    reply: Result<CompactorStateWriter, SlateDBError>,
) -> Answer {
    match reply {
        Ok(writer) => {
            let epoch = writer.local_epoch();
            writers.push(writer).expect(rt, "memory");
            Answer::Number(epoch)
        }
        Err(e) => refused(e),
    }
}

/// Whether a machine goes on.
fn goes_on<T: Drop>(step: Step<T>) -> bool {
    match step {
        Step::Again => true,
        Step::Done(reply) => {
            drop(reply);
            false
        }
    }
}

/// What a machine answers that ends here.
fn end<T: Drop>(rt: &impl Abort, step: Step<T>) -> Result<T, SlateDBError> {
    match step {
        Step::Done(reply) => reply,
        Step::Again => None.expect(rt, "an end"),
    }
}

fn open_by_steps(
    rt: &impl Abort,
    alloc: Global,
    store: &mut MemoryStore,
    steps: u8,
) -> Result<CompactorStateWriter, SlateDBError> {
    let mut machine = CompactorStateWriter::start_new(db(rt));
    for _ in 1..steps {
        assert!(rt; machine.due());
        assert!(rt; goes_on(machine.next(alloc, store, 1000)));
    }
    assert!(rt; machine.due());
    let step = machine.next(alloc, store, 1000);
    assert!(rt; !machine.due());
    drop(machine);
    end(rt, step)
}

fn run(
    rt: &impl Abort,
    alloc: Global,
    store: &mut MemoryStore,
    writer: &mut CompactorStateWriter,
    machine: CompactorStateMachine,
    steps: u8,
) -> Answer {
    let mut machine = machine;
    for _ in 1..steps {
        assert!(rt; machine.due());
        assert!(rt; goes_on(machine.next(alloc, writer, store, 61_500)));
    }
    assert!(rt; machine.due());
    let step = machine.next(alloc, writer, store, 61_500);
    assert!(rt; !machine.due());
    drop(machine);
    done(end(rt, step))
}

fn started(writer: &CompactorStateWriter, call: BySteps) -> CompactorStateMachine {
    match call {
        BySteps::Refresh => writer.start_refresh(),
        BySteps::Schedule => writer.start_schedule(id(20)),
        BySteps::WriteRecord => writer.start_write_compactions_safely(),
        BySteps::WriteState => writer.start_write_state_safely(checkpoint()),
    }
}

fn in_record(rt: &impl Abort, alloc: Global, store: &mut MemoryStore) -> Answer {
    let record = StoredCompactions::load(alloc, store, db(rt), 1).expect(rt, "a record");
    let answer = match record.compactions().get(id(20)) {
        Some(compaction) => Answer::Stands(compaction.status, compaction.worker.is_some()),
        None => Answer::Status(None),
    };
    drop(record);
    answer
}

/// What is kept of the checkpoint before the trees.
fn kept(checkpoints: &[Checkpoint]) -> KeptCheckpoint {
    match checkpoints.first() {
        Some(kept) if kept.id.is(&checkpoint()) => {
            Some((kept.manifest_id, kept.create_time, kept.expire_time))
        }
        _ => None,
    }
}

fn in_manifest(rt: &impl Abort, alloc: Global, store: &mut MemoryStore) -> Answer {
    let holder = StoredManifest::load(alloc, store, db(rt), 1).expect(rt, "a manifest");
    let (views, runs) = shape(holder.db_state());
    let answer = Answer::Trees(views, runs, kept(holder.db_state().checkpoints.as_slice()));
    drop(holder);
    answer
}

/// What a view has.
fn seen(view: &CompactorStateView) -> Answer {
    let (views, runs) = shape(view.manifest().core());
    match view.compactions() {
        Some(version) => Answer::View(views, runs, status(version.compactions())),
        None => Answer::View(views, runs, None),
    }
}

/// The numbers of a view, 0 where it has no record.
fn numbers_seen(view: &CompactorStateView) -> Answer {
    match view.compactions() {
        Some(version) => Answer::Numbers(view.manifest().id(), version.id()),
        None => Answer::Numbers(view.manifest().id(), 0),
    }
}

fn viewed(rt: &impl Abort, alloc: Global, writer: &CompactorStateWriter, numbers: bool) -> Answer {
    let view = CompactorStateView::from_state(alloc, writer).expect(rt, "memory");
    let answer = if numbers {
        numbers_seen(&view)
    } else {
        seen(&view)
    };
    drop(view);
    answer
}

fn epochs_of(manifest: &Manifest, record: &Compactions) -> Answer {
    Answer::Numbers(manifest.compactor_epoch, record.compactor_epoch)
}

/// What a compactor holds.
fn held_by(
    rt: &impl Abort,
    alloc: Global,
    writer: &CompactorStateWriter,
    call: OnWriter,
) -> Answer {
    match call {
        OnWriter::Held => Answer::Numbers(writer.manifest().0, writer.compactions().0),
        OnWriter::HeldEpochs => epochs_of(writer.manifest().1, writer.compactions().1),
        OnWriter::HeldTrees => {
            let (views, runs) = shape(&writer.manifest().1.core);
            Answer::Trees(views, runs, None)
        }
        OnWriter::Pending => Answer::Number(writer.local().pending.as_slice().len() as u64),
        OnWriter::Segments => Answer::Number(writer.local().trees.segments().len() as u64),
        OnWriter::Local => Answer::Status(status(&writer.local().compactions)),
        OnWriter::View => viewed(rt, alloc, writer, false),
        OnWriter::ViewNumbers => viewed(rt, alloc, writer, true),
        _ => Answer::Number(writer.local_epoch()),
    }
}

fn on_writer(
    rt: &impl Abort,
    alloc: Global,
    store: &mut MemoryStore,
    writer: &mut CompactorStateWriter,
    call: OnWriter,
) -> Answer {
    match call {
        OnWriter::Refresh => done(writer.refresh(alloc, store, 1)),
        OnWriter::Schedule => done(writer.schedule(alloc, store, id(20), 2000, 1)),
        OnWriter::Finish => done(writer.finish(alloc, id(20))),
        OnWriter::Fail => done(writer.fail(alloc, id(20))),
        OnWriter::WriteManifest => {
            done(writer.write_manifest_safely(alloc, store, checkpoint(), 61_500, 1))
        }
        OnWriter::WriteRecord => done(writer.write_compactions_safely(alloc, store, 62_000, 1)),
        OnWriter::WriteState => {
            done(writer.write_state_safely(alloc, store, checkpoint(), 61_500, 1))
        }
        _ => held_by(rt, alloc, writer, call),
    }
}

fn by_machine(
    rt: &impl Abort,
    alloc: Global,
    store: &mut MemoryStore,
    writer: &mut CompactorStateWriter,
    call: BySteps,
    steps: u8,
) -> Answer {
    let machine = started(writer, call);
    run(rt, alloc, store, writer, machine, steps)
}

/// A call of others.
fn by_others(rt: &impl Abort, alloc: Global, store: &mut MemoryStore, call: Call) -> Answer {
    match call {
        Call::Create => {
            created(rt, alloc, store);
            Answer::Done
        }
        Call::Submit => handed(submitted(rt, alloc, store)),
        Call::Claim => handed(claimed(rt, alloc, store)),
        Call::Report => handed(reported(rt, alloc, store)),
        Call::Rewrite(other) => {
            rewritten(rt, alloc, store, other);
            Answer::Done
        }
        Call::InRecord => in_record(rt, alloc, store),
        Call::InManifest => in_manifest(rt, alloc, store),
        _ => {
            let (manifest, record) = latest(rt, alloc, store);
            Answer::Numbers(manifest, record)
        }
    }
}

fn made(
    rt: &impl Abort,
    alloc: Global,
    store: &mut MemoryStore,
    writers: &mut Vec<CompactorStateWriter>,
    call: Call,
) -> Answer {
    match call {
        Call::Open => keep(
            rt,
            writers,
            CompactorStateWriter::new(alloc, store, db(rt), 1000, 1),
        ),
        Call::OpenBySteps(steps) => keep(rt, writers, open_by_steps(rt, alloc, store, steps)),
        Call::Compacted => keep(rt, writers, Ok(compacted(rt, alloc, store))),
        Call::Finished => keep(rt, writers, Ok(finished(rt, alloc, store))),
        Call::Of(place, call) => {
            let writer = writers.get_mut(place).expect(rt, "a compactor");
            on_writer(rt, alloc, store, writer, call)
        }
        Call::Machine(place, call, steps) => {
            let writer = writers.get_mut(place).expect(rt, "a compactor");
            by_machine(rt, alloc, store, writer, call, steps)
        }
        _ => by_others(rt, alloc, store, call),
    }
}

/// Makes the calls of a table over an empty store, and compares their answers.
pub(crate) fn play(rt: &impl Abort, alloc: Global, name: &str, rows: &[Row]) {
    let mut store = MemoryStore::new(alloc, Vec::new(alloc));
    let mut writers = Vec::new(alloc);
    for (place, (call, wanted)) in rows.iter().enumerate() {
        let answer = made(rt, alloc, &mut store, &mut writers, *call);
        assert!(rt; answer == *wanted, "{name}, row {place}: {answer:?}");
    }
    drop(writers);
    drop(store);
}
