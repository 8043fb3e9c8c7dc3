//! Moments of sequence numbers.

use slate_ids::Millis;
use slate_model::{FindOption, SequenceTracker};
use std::alloc::Global;
use std::process::Abort;

type Pairs = &'static [(u64, Millis)];

/// Pairs, a sequence number, and the moments that it rounds down and up to.
const MOMENTS: [(Pairs, u64, Option<Millis>, Option<Millis>); 4] = [
    (&[(10, 1000), (20, 2000)], 15, Some(1000), Some(2000)),
    (&[(10, 1000), (20, 2000)], 5, None, Some(1000)),
    (&[(10, 1000), (20, 2000)], 20, Some(2000), Some(2000)),
    (&[(10, 1000), (20, 2000)], 21, Some(2000), None),
];

/// Pairs, a moment, and the sequence numbers that it rounds down and up to.
const NUMBERS: [(Pairs, Millis, Option<u64>, Option<u64>); 4] = [
    (&[(10, 1000), (20, 2000)], 1500, Some(10), Some(20)),
    (&[(10, 1000), (20, 2000)], -1, None, Some(10)),
    (&[(10, 1000), (20, 2000)], 2001, Some(20), None),
    (
        &[(1, -5), (2, 7), (3, 7), (4, 7), (9, 8)],
        7,
        Some(4),
        Some(2),
    ),
];

/// A tracker of these pairs, one after the other.
fn tracker_of(rt: &impl Abort, alloc: Global, pairs: &[(u64, Millis)]) -> SequenceTracker {
    let mut tracker = SequenceTracker::new(alloc);
    for pair in pairs {
        tracker.insert(pair.0, pair.1).expect(rt, "memory");
    }
    tracker
}

/// The moments of a number, rounded down and up.
fn moments(
    rt: &impl Abort,
    alloc: Global,
    pairs: &[(u64, Millis)],
    number: u64,
) -> (Option<Millis>, Option<Millis>) {
    let tracker = tracker_of(rt, alloc, pairs);
    let found = (
        tracker.find_ts(number, FindOption::RoundDown),
        tracker.find_ts(number, FindOption::RoundUp),
    );
    drop(tracker);
    found
}

/// The numbers of a moment, rounded down and up.
fn numbers(
    rt: &impl Abort,
    alloc: Global,
    pairs: &[(u64, Millis)],
    moment: Millis,
) -> (Option<u64>, Option<u64>) {
    let tracker = tracker_of(rt, alloc, pairs);
    let found = (
        tracker.find_seq(moment, FindOption::RoundDown),
        tracker.find_seq(moment, FindOption::RoundUp),
    );
    drop(tracker);
    found
}

#[test]
fn rounds_to_a_neighbour(rt: HostRuntime) {
    for (pairs, number, down, up) in &MOMENTS {
        let found = moments(&rt, rt.alloc(), pairs, *number);
        assert!(rt; found == (*down, *up), "at {number}");
    }
    for (pairs, moment, down, up) in &NUMBERS {
        let found = numbers(&rt, rt.alloc(), pairs, *moment);
        assert!(rt; found == (*down, *up), "at {moment}");
    }
}

/// Whether pairs that are added leave these.
fn leave(rt: &impl Abort, alloc: Global, pairs: &[(u64, Millis)], left: &[(u64, Millis)]) -> bool {
    let tracker = tracker_of(rt, alloc, pairs);
    let are_so = tracker.pairs() == left;
    drop(tracker);
    are_so
}

#[test]
fn adds_pairs_in_order_alone(rt: HostRuntime) {
    let pairs = [(5, 10), (0, 0), (5, 11), (6, 9), (6, 10)];
    assert!(rt; leave(&rt, rt.alloc(), &pairs, &[(5, 10), (6, 10)]));
}
