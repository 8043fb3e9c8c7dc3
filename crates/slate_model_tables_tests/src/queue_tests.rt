//! Queues.

use crate::test_values::is_copied;
use slate_model_tables::{Queue, SsTableId};
use std::alloc::Global;
use std::collections::VecDeque;
use std::process::Abort;

/// A queue of tables 2 and 3, behind 1.
fn queue_of_three(rt: &impl Abort, alloc: Global) -> Queue<SsTableId> {
    let mut queue = Queue::new(alloc);
    queue.push_back(SsTableId::Wal(2)).expect(rt, "memory");
    queue.push_back(SsTableId::Wal(3)).expect(rt, "memory");
    queue.push_front(SsTableId::Wal(1)).expect(rt, "memory");
    queue
}

/// Whether tables are 1 to 3.
fn are_three(tables: &VecDeque<SsTableId>) -> bool {
    tables.len() == 3
        && tables[0] == SsTableId::Wal(1)
        && tables[1] == SsTableId::Wal(2)
        && tables[2] == SsTableId::Wal(3)
}

#[test]
fn takes_at_both_ends(rt: HostRuntime) {
    let queue = queue_of_three(&rt, rt.alloc());
    let are_so = are_three(queue.as_deque());
    drop(queue);
    assert!(rt; are_so);
}

#[test]
fn a_copy_of_a_queue_is_equal(rt: HostRuntime) {
    assert!(rt; is_copied(&rt, rt.alloc(), queue_of_three(&rt, rt.alloc())));
}
