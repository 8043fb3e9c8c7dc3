//! The orders of the last steps of a pass over records and of an open of a compactor. After each what it left of the records is read off the store.

use crate::test_clusters::{after, bytes_at, db, does, has};
use slate_cluster::Cluster;
use slate_ids::ObjectPath;
use slate_layout::decode_compactions;
use slate_script::{Entry, Event};
use slate_store::Mark;
use slate_txn_log::decode_boundary;
use std::alloc::Global;
use std::process::Abort;

// How many orders left the boundary of the records at 2, at 3 and at 4.
#[derive(Clone, Copy)]
struct Counts {
    at_two: u32,
    at_three: u32,
    at_four: u32,
}

fn boundary_of(rt: &impl Abort, cluster: &Cluster) -> u64 {
    match bytes_at(cluster, ObjectPath::RecordBoundary(db(rt))) {
        None => 0,
        Some(bytes) => decode_boundary(bytes).expect(rt, "a boundary"),
    }
}

fn epoch_in(rt: &impl Abort, alloc: Global, bytes: &[u8]) -> u64 {
    let record = decode_compactions(alloc, bytes).expect(rt, "a record");
    let epoch = record.compactor_epoch;
    drop(record);
    epoch
}

// The epoch of a record, where it stands.
fn epoch_of(rt: &impl Abort, alloc: Global, cluster: &Cluster, number: u64) -> Option<u64> {
    match bytes_at(cluster, ObjectPath::Record(db(rt), number)) {
        None => None,
        Some(bytes) => Some(epoch_in(rt, alloc, bytes)),
    }
}

// Whether just the records from one number up to 5 stand, each with its epoch: 1 is that of the first open, 2 that of the other.
fn stand_from(rt: &impl Abort, alloc: Global, cluster: &Cluster, first: u64) -> bool {
    for number in 1..7u64 {
        let epoch = epoch_of(rt, alloc, cluster, number);
        let wanted = if number < first || number > 5 {
            None
        } else if number == 3 {
            Some(1)
        } else {
            Some(2)
        };
        if epoch != wanted {
            return false;
        }
    }
    true
}

// Whether a party's call ended here.
fn is_end(entry: &Entry, party: u32) -> bool {
    match entry {
        Entry::Called {
            party: caller,
            reply,
            ..
        } => *caller == party && reply.is_some(),
        _ => false,
    }
}

// Whether the last call of a party that ended did so with this text.
fn ends_with(rt: &impl Abort, alloc: Global, cluster: &Cluster, party: u32, text: &str) -> bool {
    let mut good = false;
    for entry in cluster.trail() {
        if is_end(entry, party) {
            good = has(rt, alloc, entry, text, "");
        }
    }
    good
}

// Whether the open is done, and the pass with this reply left the boundary there and just the records above it.
fn is_left_at(
    rt: &impl Abort,
    alloc: Global,
    cluster: &Cluster,
    boundary: u64,
    reply: &str,
) -> bool {
    boundary_of(rt, cluster) == boundary
        && stand_from(rt, alloc, cluster, boundary.saturating_add(1))
        && ends_with(rt, alloc, cluster, 0, "reply epoch 2")
        && ends_with(rt, alloc, cluster, 1, reply)
}

// The number of records that the pass deleted, where both calls ended as they should: all up to the boundary that it left.
fn deleted_in(rt: &impl Abort, alloc: Global, cluster: &Cluster) -> u32 {
    if is_left_at(rt, alloc, cluster, 2, "reply pass 2 2 0") {
        2
    } else if is_left_at(rt, alloc, cluster, 3, "reply pass 3 3 0") {
        3
    } else if is_left_at(rt, alloc, cluster, 4, "reply pass 4 4 0") {
        4
    } else {
        0
    }
}

// One order more.
fn one_more(counts: Counts, deleted: u32) -> Counts {
    let mut counts = counts;
    match deleted {
        2 => counts.at_two = counts.at_two.saturating_add(1),
        3 => counts.at_three = counts.at_three.saturating_add(1),
        4 => counts.at_four = counts.at_four.saturating_add(1),
        _ => {}
    }
    counts
}

// One step of a party more, at a later moment.
fn push_step(rt: &impl Abort, events: &mut Vec<Event>, party: u32) {
    let moment = 2000i64.saturating_add(events.len() as i64);
    let step = Event::Step {
        party,
        moment,
        mark: Mark::Good,
    };
    events.push(step).expect(rt, "memory");
}

// A cluster after the events of a text, and these.
fn after_both(rt: &impl Abort, alloc: Global, text: &str, events: Vec<Event>) -> Cluster {
    let mut cluster = after(rt, alloc, text);
    does(rt, alloc, &mut cluster, events.as_slice());
    drop(events);
    cluster
}

// A compactor has opened, so that there are three records. The open of compactor 0 and the pass of collector 1 are at their lists of
// records.
const ONE_OPEN: &str =
    r#"{"databases":[{"path":"db","record":{"epoch":0,"compactions":[]}}],"events":[
  {"open":2,"kind":"compactor","db":"db"},{"start":2,"call":"open_compactor"},{"step":2,"at":1000,"times":12},
  {"open":0,"kind":"compactor","db":"db"},{"start":0,"call":"open_compactor"},{"step":0,"at":1000,"times":5},
  {"open":1,"kind":"collector","db":"db"},{"start":1,"call":"pass","pass":"compactions","min_age":0},
  {"step":1,"at":1000,"times":3}]}"#;

// Of the last twelve steps those of the pass are the ones of this mask; what is left of the pass follows.
fn open_and_pass(rt: &impl Abort, alloc: Global, mask: u32) -> Cluster {
    let mut events = Vec::new(alloc);
    let mut rest = mask;
    for _ in 0..12 {
        push_step(rt, &mut events, rest % 2);
        rest /= 2;
    }
    push_step(rt, &mut events, 1);
    push_step(rt, &mut events, 1);
    after_both(rt, alloc, ONE_OPEN, events)
}

fn deleted_by(rt: &impl Abort, alloc: Global, mask: u32) -> u32 {
    let cluster = open_and_pass(rt, alloc, mask);
    let deleted = deleted_in(rt, alloc, &cluster);
    drop(cluster);
    deleted
}

// All 792 orders of the last seven steps of an open and the last five of a pass, from their lists of records on. The pass deletes what
// is below the greatest record that it lists: the third one before the first put of the open, then the fourth, and then the fifth.
#[test]
fn an_open_is_done_beside_a_pass_over_records(rt: HostRuntime) {
    let mut counts = Counts {
        at_two: 0,
        at_three: 0,
        at_four: 0,
    };
    for mask in 0..4096u32 {
        if mask.count_ones() == 5 {
            let deleted = deleted_by(&rt, rt.alloc(), mask);
            assert!(rt; deleted > 0, "{mask}");
            counts = one_more(counts, deleted);
        }
    }
    assert!(rt; counts.at_two == 736 && counts.at_three == 50 && counts.at_four == 6);
}
