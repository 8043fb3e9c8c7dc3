//! Compactions that end: what is refused, and what stays in the trees.

use crate::test_states::{
    Source, compaction, core, id, marker, opened, shown, spec, status, tree, tree_at,
};
use slate_ids::{SlateDBError, StateCause};
use slate_model::{CompactionSpec, CompactionStatus, Compactions};
use slate_state_compactor::LocalState;
use std::alloc::Global;
use std::process::Abort;

/// What the end of the compaction of tail 1 answers.
#[derive(Clone, Copy, PartialEq, Eq)]
enum Answer {
    /// The tails of the L0 that is left, the numbers of the runs, and the tail of the view marker.
    Tree(u64, u64, u128),
    Bad,
    NoSuch,
    State,
    Other,
}

/// A segment, its sources and the run that is written, of a tree with the views 3, 2 and 1 and the runs 5 and 2.
type Row = (&'static str, &'static [Source], Option<u32>, Answer);

const V1: Source = Source::View(1);

const V2: Source = Source::View(2);

const V3: Source = Source::View(3);

const R2: Source = Source::Run(2);

const R5: Source = Source::Run(5);

const ENDS: &[Row] = &[
    ("", &[V1], Some(0), Answer::Tree(32, 520, 1)),
    ("", &[V2, V1], Some(3), Answer::Tree(3, 532, 2)),
    ("", &[V1, V2], Some(9), Answer::Tree(3, 952, 2)),
    ("", &[V1, V3, V2], Some(6), Answer::Tree(0, 652, 3)),
    ("", &[V1, R2], Some(2), Answer::Tree(32, 52, 1)),
    ("", &[V1, R5, R2], Some(2), Answer::Tree(32, 2, 1)),
    ("", &[R5, R2], Some(4), Answer::Tree(321, 4, 7)),
    ("", &[R5], Some(5), Answer::Tree(321, 52, 7)),
    ("", &[V1, V1], Some(0), Answer::Tree(32, 520, 1)),
    ("", &[V3, V2, V1, R5, R2], None, Answer::Tree(0, 0, 3)),
    ("", &[], None, Answer::Tree(321, 52, 7)),
    ("p", &[V1], Some(0), Answer::Tree(32, 520, 1)),
    // no such segment
    ("q", &[V1], Some(0), Answer::Bad),
    // sources that aren't there
    ("", &[V1, Source::View(4)], Some(0), Answer::Bad),
    ("", &[V1, Source::Run(3)], Some(0), Answer::Bad),
    // views that aren't the oldest
    ("", &[V2], Some(0), Answer::Bad),
    ("", &[V3, V1], Some(0), Answer::Bad),
    ("", &[V3, V2], None, Answer::Bad),
    // a run that stays has the number
    ("", &[V1], Some(2), Answer::Bad),
    ("", &[V1, R2], Some(5), Answer::Bad),
];

// The table as a slice: a function that names a table has all of it written out.
fn ends_rows() -> &'static [Row] {
    ENDS
}

/// What is held of the two equal trees, with the compaction of tail 1 in this status.
fn held(
    rt: &impl Abort,
    alloc: Global,
    segment: &'static str,
    sources: &[Source],
    into: Option<u32>,
    status: CompactionStatus,
) -> LocalState {
    let root = tree(rt, alloc, &[3, 2, 1], &[5, 2]);
    let other = tree(rt, alloc, &[3, 2, 1], &[5, 2]);
    let core = core(rt, alloc, root, Some(other));
    let spec = spec(rt, alloc, segment, sources, into);
    opened(rt, alloc, core, record_of(rt, alloc, status, spec))
}

/// The record of one compaction.
fn record_of(
    rt: &impl Abort,
    alloc: Global,
    status: CompactionStatus,
    spec: CompactionSpec,
) -> Compactions {
    let mut record = Compactions::new(alloc, 4);
    record
        .insert(compaction(rt, alloc, 1, status, spec, 2))
        .expect(rt, "memory");
    record
}

fn refused(cause: StateCause) -> Answer {
    match cause {
        StateCause::BadSources(_) => Answer::Bad,
        StateCause::NoSuchCompaction(_) => Answer::NoSuch,
        StateCause::CompactionState(_) => Answer::State,
        _ => Answer::Other,
    }
}

fn told(
    rt: &impl Abort,
    reply: &Result<(), SlateDBError>,
    local: &LocalState,
    segment: &str,
) -> Answer {
    match reply {
        Ok(()) => {
            let tree = tree_at(rt, local, segment);
            let (l0, runs) = shown(tree);
            Answer::Tree(l0, runs, marker(tree))
        }
        Err(e) => match e {
            SlateDBError::InvalidDBState(cause) => refused(*cause),
            _ => Answer::Other,
        },
    }
}

/// What the end of a compaction answers: that it is finished, or that it failed. What was held is used up.
fn end_of(
    rt: &impl Abort,
    alloc: Global,
    local: LocalState,
    tail: u8,
    fails: bool,
    segment: &str,
) -> Answer {
    let mut local = local;
    let reply = if fails {
        local.fail(alloc, id(tail))
    } else {
        local.finish(alloc, id(tail))
    };
    let answer = told(rt, &reply, &local, segment);
    drop(reply);
    drop(local);
    answer
}

fn ended(rt: &impl Abort, alloc: Global, row: &Row) -> Answer {
    let (segment, sources, into, _) = *row;
    let local = held(
        rt,
        alloc,
        segment,
        sources,
        into,
        CompactionStatus::Compacted,
    );
    end_of(rt, alloc, local, 1, false, segment)
}

#[test]
fn sources_leave_the_tree_and_a_run_comes(rt: HostRuntime) {
    for (place, row) in ends_rows().iter().enumerate() {
        assert!(rt; ended(&rt, rt.alloc(), row) == row.3, "at row {place}");
    }
}

/// The statuses of a compaction, and whether it may be finished, and whether it may fail.
const STATUSES: [(CompactionStatus, bool, bool); 6] = [
    (CompactionStatus::Submitted, false, true),
    (CompactionStatus::Scheduled, false, true),
    (CompactionStatus::Running, false, true),
    (CompactionStatus::Compacted, true, true),
    (CompactionStatus::Completed, false, false),
    (CompactionStatus::Failed, false, false),
];

fn ends(rt: &impl Abort, alloc: Global, status: CompactionStatus, fails: bool) -> Answer {
    let local = held(rt, alloc, "", &[V1], Some(0), status);
    end_of(rt, alloc, local, 1, fails, "")
}

#[test]
fn statuses_decide(rt: HostRuntime) {
    for (status, finishes_it, fails_it) in &STATUSES {
        let finished = ends(&rt, rt.alloc(), *status, false);
        assert!(rt; (finished == Answer::State) != *finishes_it, "{status:?}");
        let failed = ends(&rt, rt.alloc(), *status, true);
        assert!(rt; (failed == Answer::State) != *fails_it, "{status:?}");
    }
}

/// What is held once the merge of the view 1 into the run 0 was finished.
fn after_end(rt: &impl Abort, alloc: Global) -> LocalState {
    let mut local = held(rt, alloc, "", &[V1], Some(0), CompactionStatus::Compacted);
    local.finish(alloc, id(1)).expect(rt, "finished");
    local
}

#[test]
fn a_finished_compaction_is_completed_and_pending(rt: HostRuntime) {
    let after = after_end(&rt, rt.alloc());
    assert!(rt; status(&after.compactions, 1) == Some(CompactionStatus::Completed));
    assert!(rt; after.pending.as_slice() == [id(1)].as_slice());
    assert!(rt; after.compactions.compactor_epoch == 4);
    assert!(rt; shown(tree_at(&rt, &after, "p")) == (321, 52));
    assert!(rt; written(&rt, &after) == (0, 2));
    drop(after);
}

/// The number of the run that was written, and how many views it has.
fn written(rt: &impl Abort, local: &LocalState) -> (u32, usize) {
    let runs = tree_at(rt, local, "").compacted.as_slice();
    let last = runs.last().expect(rt, "a run");
    (last.id, last.sst_views().len())
}

/// Once it was finished: the end of a compaction of this tail, whether it fails, and what that answers.
const AFTER: [(u8, bool, Answer); 3] = [
    (1, false, Answer::State),
    (2, false, Answer::NoSuch),
    (2, true, Answer::NoSuch),
];

#[test]
fn a_compaction_that_is_over_or_not_there_does_not_end(rt: HostRuntime) {
    for (tail, fails, wanted) in &AFTER {
        let after = after_end(&rt, rt.alloc());
        let answer = end_of(&rt, rt.alloc(), after, *tail, *fails, "");
        assert!(rt; answer == *wanted, "{tail} {fails}");
    }
}

/// What is held once the compaction failed.
fn after_failure(rt: &impl Abort, alloc: Global) -> LocalState {
    let mut local = held(rt, alloc, "", &[V1], Some(0), CompactionStatus::Running);
    local.fail(alloc, id(1)).expect(rt, "failed");
    local
}

#[test]
fn a_failed_compaction_leaves_the_trees(rt: HostRuntime) {
    let after = after_failure(&rt, rt.alloc());
    assert!(rt; status(&after.compactions, 1) == Some(CompactionStatus::Failed));
    assert!(rt; after.pending.as_slice().is_empty());
    assert!(rt; shown(tree_at(&rt, &after, "")) == (321, 52));
    drop(after);
}
