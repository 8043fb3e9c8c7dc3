//! Changes of a log's latest version: the plain call that makes one, and a change under way, step by step.
ghost use Rattle.std.specs.Prelude.{Ok, Some};
ghost use Rattle.slate_txn_changes.specs.Changes.{holder_fence};
ghost use Rattle.slate_txn_log.specs.declared.right.Right.TheVariants.{Plain};

use crate::calls::stands;
use crate::rival_store::RivalStore;
use crate::test_logs::{Rising, Value, Versions, ended, goes_on, log, store_marked, store_with};
use slate_ids::{Millis, OutOfMemory, SlateDBError};
use slate_store::{Mark, MemoryStore, ObjectStore, Step, perform};
use slate_txn_changes::{Change, Changing, LogEnd, change_latest, holder_fence};
use slate_txn_log::Right;
use std::alloc::Global;
use std::process::Abort;

/// The number of the version read takes the place of the second number, by a holder of this epoch.
#[derive(Clone, Copy, Debug)]
struct Numbering {
    own: Option<u64>,
}

impl Change<(u64, u64)> for Numbering {
    ghost made = { λ _ _ n v. Ok (Some (v.0, n)) };

    ghost right_of = { λ _. Plain };

    ghost fence_of = { λ change v. holder_fence change.own v.0 };

    fn right(&self, _alloc: Global) -> Result<Right, OutOfMemory> {
        Ok(Right::Plain)
    }

    fn refusal_at(&self, value: &(u64, u64)) -> Option<SlateDBError> {
        holder_fence(self.own, value.0)
    }

    fn make(
        &self,
        _alloc: Global,
        _now: Millis,
        n: u64,
        value: &(u64, u64),
    ) -> Result<Option<(u64, u64)>, SlateDBError> {
        Ok(Some((value.0, n)))
    }
}

/// What a change came to.
#[derive(Clone, Copy, Debug, PartialEq)]
enum Outcome {
    Absent,
    Unchanged(u64, Value),
    Committed(u64, Value),
    /// The number of the refusal.
    Refused(u8),
}

/// No change.
const NONE: Option<Numbering> = None;

/// That of a holder that hasn't opened the database.
const CLOSED: Option<Numbering> = Some(Numbering { own: None });

/// That of the holder of epoch 3.
const THIRD: Option<Numbering> = Some(Numbering { own: Some(3) });

const TWO: Versions = &[(1, [3, 0]), (2, [3, 1])];

/// The versions and the boundary of a log, a change, its tries, and what it comes to.
type Row = (
    &'static str,
    Versions,
    Option<&'static str>,
    Option<Numbering>,
    u32,
    Outcome,
);

const CHANGES: &[Row] = &[
    ("no version", &[], None, THIRD, 1, Outcome::Absent),
    (
        "the latest is followed",
        TWO,
        None,
        THIRD,
        1,
        Outcome::Committed(3, (3, 2)),
    ),
    (
        "a lower boundary",
        TWO,
        Some("1"),
        THIRD,
        1,
        Outcome::Committed(3, (3, 2)),
    ),
    (
        "no change",
        TWO,
        None,
        NONE,
        1,
        Outcome::Unchanged(2, (3, 1)),
    ),
    (
        "a lower epoch was read",
        &[(1, [2, 0])],
        None,
        THIRD,
        1,
        Outcome::Committed(2, (2, 1)),
    ),
    (
        "a greater epoch was read",
        &[(1, [4, 0])],
        None,
        THIRD,
        1,
        Outcome::Refused(2),
    ),
    (
        "the fence is asked before the rules",
        &[(1, [4, 5])],
        None,
        THIRD,
        1,
        Outcome::Refused(2),
    ),
    ("not opened", TWO, None, CLOSED, 1, Outcome::Refused(8)),
    (
        "the value falls",
        &[(1, [3, 5])],
        None,
        THIRD,
        1,
        Outcome::Refused(7),
    ),
    (
        "the value has no bytes",
        &[(256, [3, 5])],
        None,
        THIRD,
        1,
        Outcome::Refused(13),
    ),
    (
        "the last number",
        &[(18446744073709551615, [3, 5])],
        None,
        THIRD,
        1,
        Outcome::Refused(22),
    ),
    (
        "the latest at the boundary",
        TWO,
        Some("2"),
        THIRD,
        3,
        Outcome::Refused(21),
    ),
    (
        "a boundary that is none",
        TWO,
        Some("01"),
        THIRD,
        1,
        Outcome::Refused(13),
    ),
];

// The table as a slice: a function that names a table has all of it written out.
fn changes_rows() -> &'static [Row] {
    CHANGES
}

/// The bytes of the rival's versions, how many it puts, the tries of the change of epoch 3, and what it comes to after two versions.
const RACES: &[([u8; 2], u32, u32, Outcome)] = &[
    ([3, 2], 0, 1, Outcome::Committed(3, (3, 2))),
    ([3, 2], 1, 2, Outcome::Committed(4, (3, 3))),
    ([3, 2], 2, 3, Outcome::Committed(5, (3, 4))),
    ([3, 2], 1, 1, Outcome::Refused(21)),
    ([3, 2], 2, 2, Outcome::Refused(21)),
    // the version that the rival put is fenced, or breaks the rules, as any other
    ([4, 2], 1, 2, Outcome::Refused(2)),
    ([3, 9], 1, 2, Outcome::Refused(7)),
];

fn races_rows() -> &'static [([u8; 2], u32, u32, Outcome)] {
    RACES
}

/// How many calls are good, the mark of the next one, and whether version 3 stands after the change, which is refused with a fault.
const FAULTS: &[(usize, Mark, bool)] = &[
    (0, Mark::Fail, false),
    (2, Mark::Fail, false),
    (3, Mark::Fail, false),
    (3, Mark::Lost, true),
    (4, Mark::Fail, true),
];

fn faults_rows() -> &'static [(usize, Mark, bool)] {
    FAULTS
}

fn came_to(reply: Result<LogEnd<Value>, SlateDBError>) -> Outcome {
    match reply {
        Ok(LogEnd::Absent) => Outcome::Absent,
        Ok(LogEnd::Unchanged(n, value)) => Outcome::Unchanged(n, value),
        Ok(LogEnd::Committed(n, value)) => Outcome::Committed(n, value),
        Err(e) => {
            let code = e.code();
            drop(e);
            Outcome::Refused(code)
        }
    }
}

/// Makes the plain call.
fn changed<S: ObjectStore>(
    rt: &impl Abort,
    alloc: Global,
    store: &mut S,
    change: &Option<Numbering>,
    tries: u32,
) -> Outcome {
    assert!(rt; 0 < tries);
    let log = log(rt);
    let reply = change_latest(alloc, store, &log, &Rising, change, 8, tries);
    drop(log);
    came_to(reply)
}

/// What the change of a row comes to.
fn played(rt: &impl Abort, alloc: Global, row: &Row) -> Outcome {
    let (_, versions, boundary, change, tries, _) = *row;
    let mut store = store_with(rt, alloc, versions, boundary);
    let outcome = changed(rt, alloc, &mut store, &change, tries);
    drop(store);
    outcome
}

#[test]
fn the_latest_version_is_changed(rt: HostRuntime) {
    for row in changes_rows() {
        let (name, _, _, _, _, wanted) = *row;
        let made = played(&rt, rt.alloc(), row);
        assert!(rt; made == wanted, "{name}: {made:?}");
    }
}

/// What a change comes to after two versions while a rival puts so many of these bytes.
fn raced(rt: &impl Abort, alloc: Global, bytes: [u8; 2], left: u32, tries: u32) -> Outcome {
    let mut store = RivalStore {
        inner: store_with(rt, alloc, TWO, None),
        bytes,
        left,
    };
    let outcome = changed(rt, alloc, &mut store, &THIRD, tries);
    drop(store);
    outcome
}

#[test]
fn a_conflict_uses_a_try(rt: HostRuntime) {
    for (place, (bytes, left, tries, wanted)) in races_rows().iter().enumerate() {
        let made = raced(&rt, rt.alloc(), *bytes, *left, *tries);
        assert!(rt; made == *wanted, "row {place}: {made:?}");
    }
}

/// The marks of the puts of two versions, of so many good calls, and of the one after them.
fn marks(rt: &impl Abort, alloc: Global, good: usize, mark: Mark) -> Vec<Mark> {
    let mut marks = Vec::new(alloc);
    for _ in 0..good.saturating_add(TWO.len()) {
        marks.push(Mark::Good).expect(rt, "memory");
    }
    marks.push(mark).expect(rt, "memory");
    marks
}

/// Whether a change is refused with a fault at the call that isn't good, and then version 3 stands as it should.
fn faults_at(rt: &impl Abort, alloc: Global, good: usize, mark: Mark, stood: bool) -> bool {
    let marks = marks(rt, alloc, good, mark);
    let mut store = store_marked(rt, alloc, TWO, None, marks);
    let outcome = changed(rt, alloc, &mut store, &THIRD, 1);
    let so = outcome == Outcome::Refused(20) && stands(rt, &store, 3) == stood;
    drop(store);
    so
}

#[test]
fn a_put_stands_whose_answer_was_lost(rt: HostRuntime) {
    for (place, (good, mark, stood)) in faults_rows().iter().enumerate() {
        assert!(rt;
            faults_at(&rt, rt.alloc(), *good, *mark, *stood),
            "row {place}"
        );
    }
}

type Under = Changing<Option<Numbering>, Value>;

/// Makes the one call that is due.
fn step(
    rt: &impl Abort,
    alloc: Global,
    store: &mut MemoryStore,
    under: &mut Under,
) -> Step<LogEnd<Value>> {
    let log = log(rt);
    assert!(rt; under.due());
    let call = under.asks(alloc, &log).expect(rt, "memory");
    let answer = perform(alloc, store, &call, 8).expect(rt, "memory");
    drop(call);
    let step = under.goes_on(alloc, &log, &Rising, 8, &answer);
    drop(answer);
    drop(log);
    step
}

// The list, two gets and the put go on; the last get ends it, and once that was put back it ends so again.
#[test]
fn a_change_under_way_goes_by_steps(rt: HostRuntime) {
    let alloc = rt.alloc();
    let mut store = store_with(&rt, alloc, TWO, None);
    let mut under: Under = Changing::start(THIRD);
    assert!(rt; under.is_start());
    for _ in 0..4 {
        assert!(rt; goes_on(step(&rt, alloc, &mut store, &mut under)) && !under.is_start());
    }
    let end = ended(&rt, step(&rt, alloc, &mut store, &mut under));
    assert!(rt; !under.due());
    under.back(end);
    let again = ended(&rt, step(&rt, alloc, &mut store, &mut under));
    drop(under);
    drop(store);
    assert!(rt; came_to(Ok(again)) == Outcome::Committed(3, (3, 2)));
}
