//! Phases of calls, whose answers and orders are given one by one.

use crate::calls::{Answer, above_one, plus_one, version};
use crate::test_logs::{
    Codec, First, Holder, Rising, Value, commit_of, db, end, ended, goes_on, log, puts, store_with,
};
use slate_ids::{Listed, ObjectPath, SlateDBError};
use slate_store::{MemoryStore, Step, StoreAnswer};
use slate_txn::{ApplyPhase, Stored, prepare_epoch, prepare_raise};
use slate_txn_log::{
    AdvancePhase, ListPhase, LogKind, Right, TryReadPhase, encode_boundary, next_epoch,
};
use std::alloc::Global;
use std::process::Abort;

/// The value plus one, whatever the codec.
fn change(_codec: &Codec, id: u64, value: &Value) -> Result<Option<Value>, SlateDBError> {
    plus_one(id, value)
}

/// A step of a commit that reads again after a conflict.
fn apply_step(
    rt: &impl Abort,
    alloc: Global,
    store: &mut MemoryStore,
    holder: &mut Holder,
    phase: &mut ApplyPhase<Value>,
) -> Step<()> {
    assert!(rt; phase.due());
    phase.next(alloc, holder, &change, &Right::Plain, store, 8)
}

/// Whether the call that is due puts these bytes as this version.
fn is_put(
    rt: &impl Abort,
    alloc: Global,
    holder: &Holder,
    phase: &ApplyPhase<Value>,
    number: u64,
    bytes: &[u8],
) -> bool {
    let call = phase.asks(alloc, holder).expect(rt, "memory");
    let so = puts(&call, Some(number), bytes);
    drop(call);
    so
}

/// A step of a put that found a version at its number.
fn conflict(alloc: Global, holder: &mut Holder, phase: &mut ApplyPhase<Value>) -> bool {
    let answer = StoreAnswer::Created(None);
    let step = phase.goes_on(alloc, holder, &change, &Right::Plain, &answer);
    drop(answer);
    goes_on(step)
}

/// A put that conflicts, the three calls of the read after it, and the two of the commit that follows.
fn apply_again(
    rt: &impl Abort,
    alloc: Global,
    store: &mut MemoryStore,
    holder: &mut Holder,
    phase: &mut ApplyPhase<Value>,
) {
    assert!(rt; is_put(rt, alloc, holder, phase, 2, &[0, 6]));
    assert!(rt; conflict(alloc, holder, phase) && phase.is_start());
    for _ in 0..3 {
        assert!(rt; goes_on(apply_step(rt, alloc, store, holder, phase)));
    }
    assert!(rt; is_put(rt, alloc, holder, phase, 3, &[0, 7]));
    assert!(rt; goes_on(apply_step(rt, alloc, store, holder, phase)));
    ended(rt, apply_step(rt, alloc, store, holder, phase));
}

#[test]
fn a_phase_reads_again_after_a_conflict(rt: HostRuntime) {
    let alloc = rt.alloc();
    let mut store = store_with(&rt, alloc, &[(1, [0, 5]), (2, [0, 6])], None);
    let mut holder = Stored::load(alloc, &mut store, log(&rt), Rising, 1).expect(&rt, "memory");
    let mut phase = ApplyPhase::Committing(commit_of(&rt, alloc, (0, 6)));
    apply_again(&rt, alloc, &mut store, &mut holder, &mut phase);
    drop(phase);
    assert!(rt; holder.id() == 3 && *holder.object() == (0, 7));
    drop(holder);
    drop(store);
}

/// Whether the boundary has this text.
fn has_boundary(rt: &impl Abort, store: &MemoryStore, text: &str) -> bool {
    let path = ObjectPath::ManifestBoundary(db(rt));
    let so = match store.object(&path) {
        Some(object) => object.bytes.as_slice() == text.as_bytes(),
        None => false,
    };
    drop(path);
    so
}

/// A step of an advance: whether it goes on.
fn advance(
    rt: &impl Abort,
    alloc: Global,
    store: &mut MemoryStore,
    phase: &mut AdvancePhase,
) -> bool {
    let log = log(rt);
    assert!(rt; phase.due());
    let step = phase.next(alloc, &log, store, 9);
    drop(log);
    match step {
        Step::Again => true,
        Step::Done(reply) => {
            reply.expect(rt, "an answer");
            false
        }
    }
}

// Both get the boundary before the first one writes, then the second one finds another boundary than it got, and goes on from the
// boundary that it gets then.
#[test]
fn a_lost_race_starts_again(rt: HostRuntime) {
    let alloc = rt.alloc();
    let mut store = store_with(&rt, alloc, &[], None);
    let log = log(&rt);
    let mut first = log.start_advance(2);
    let mut second = log.start_advance(3);
    drop(log);
    assert!(rt; advance(&rt, alloc, &mut store, &mut first));
    assert!(rt; advance(&rt, alloc, &mut store, &mut second));
    assert!(rt; !advance(&rt, alloc, &mut store, &mut first));
    assert!(rt; advance(&rt, alloc, &mut store, &mut second));
    assert!(rt; second.is_bounding() && has_boundary(&rt, &store, "2"));
    assert!(rt; advance(&rt, alloc, &mut store, &mut second));
    assert!(rt; !advance(&rt, alloc, &mut store, &mut second));
    assert!(rt; has_boundary(&rt, &store, "3"));
    drop(store);
}

#[test]
fn a_boundary_is_written_in_digits(rt: HostRuntime) {
    let alloc = rt.alloc();
    let log = log(&rt);
    let bytes = encode_boundary(alloc, 18446744073709551615).expect(&rt, "memory");
    assert!(rt; bytes.as_slice() == b"18446744073709551615".as_slice());
    drop(bytes);
    let call = AdvancePhase::Creating(2)
        .asks(alloc, &log)
        .expect(&rt, "memory");
    assert!(rt; puts(&call, None, b"2"));
    drop(call);
    let phase = log.start_advance(2).clone().expect(&rt, "memory");
    assert!(rt; phase.is_bounding());
    drop(log);
}

/// What a read ends with whose list finds nothing.
fn read_of_none(rt: &impl Abort, alloc: Global) -> Answer {
    let log = log(rt);
    let mut read = log.start_read_latest();
    let answer = StoreAnswer::Found(Listed::new(alloc));
    let step = read.goes_on(alloc, &log, &answer);
    drop(answer);
    drop(read);
    drop(log);
    version(end(rt, step))
}

#[test]
fn a_read_ends_where_nothing_is_found(rt: HostRuntime) {
    assert!(rt; read_of_none(&rt, rt.alloc()) == Answer::Nothing);
}

#[test]
fn small_values_are_cloned(rt: HostRuntime) {
    let log = log(&rt);
    let list: ListPhase = log.start_list(above_one()).clone().expect(&rt, "memory");
    let read: TryReadPhase = log.start_try_read(1).clone().expect(&rt, "memory");
    assert!(rt; list.due() && read.due());
    let kind = LogKind::Compactions.clone().expect(&rt, "memory");
    let path = ObjectPath::Record(log.db, 3);
    assert!(rt; kind.number_of(&path) == Some(3));
    drop(path);
    drop(log);
}

#[test]
fn an_epoch_is_raised_by_one(rt: HostRuntime) {
    let alloc = rt.alloc();
    let log = log(&rt);
    let raised = next_epoch(&First, 1, (3, 5)).expect(&rt, "raised");
    assert!(rt; raised == Some((4, 5)));
    let commit = prepare_raise(alloc, &Codec, &Rising, &First, 1, &(3, 5)).expect(&rt, "memory");
    let call = commit.asks(alloc, &log).expect(&rt, "memory");
    assert!(rt; puts(&call, Some(2), &[4, 5]));
    drop(call);
    drop(commit);
    drop(log);
}

#[test]
fn an_epoch_is_set(rt: HostRuntime) {
    let alloc = rt.alloc();
    let log = log(&rt);
    let commit = prepare_epoch(alloc, &Codec, &Rising, &First, 7, &Right::Plain, 1, &(3, 5)).expect(
        &rt, "memory",
    );
    let call = commit.asks(alloc, &log).expect(&rt, "memory");
    assert!(rt; puts(&call, Some(2), &[7, 5]));
    drop(call);
    drop(commit);
    drop(log);
}
