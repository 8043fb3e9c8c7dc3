//! Every order of a few calls. After each the chain is read off the store.

use crate::test_clusters::{after, count, does, is_chain, steps};
use slate_cluster::Cluster;
use slate_ids::Listed;
use slate_script::{Call, Event};
use std::alloc::Global;
use std::process::Abort;

// Writers that come, and each starts to open.
const THREE: &str = r#"{"databases":[{"path":"db"}],"events":[
  {"open":0,"kind":"writer","db":"db"},{"start":0,"call":"open_writer"},{"open":1,"kind":"writer","db":"db"},
  {"start":1,"call":"open_writer"},{"open":2,"kind":"writer","db":"db"},{"start":2,"call":"open_writer"}]}"#;

const TWO: &str = r#"{"databases":[{"path":"db"}],"events":[
  {"open":0,"kind":"writer","db":"db"},{"start":0,"call":"open_writer"},{"open":1,"kind":"writer","db":"db"},
  {"start":1,"call":"open_writer"}]}"#;

// Whether the twelve digits of a number in base 3 have each of them four times.
fn is_four_each(code: u32) -> bool {
    let mut counts = [0u8; 3];
    let mut rest = code;
    for _ in 0..12 {
        let digit = (rest % 3) as usize;
        counts[digit] = counts[digit].saturating_add(1);
        rest /= 3;
    }
    counts == [4, 4, 4]
}

// Whether three opens make one chain, their steps in the order of these digits.
fn three_make_a_chain(rt: &impl Abort, alloc: Global, code: u32) -> bool {
    let mut cluster = after(rt, alloc, THREE);
    let mut rest = code;
    for _ in 0..12 {
        steps(rt, alloc, &mut cluster, rest % 3, 1000, 1);
        rest /= 3;
    }
    let chain = is_chain(rt, alloc, &cluster);
    drop(cluster);
    chain
}

// How many orders of three opens up to their puts begin with these two steps, the digits of a number in base 3. Each makes one chain.
fn orders_from(rt: &impl Abort, alloc: Global, two: u32) -> u32 {
    let mut orders = 0u32;
    for code in 0..531441u32 {
        if code % 9 == two && is_four_each(code) {
            assert!(rt; three_make_a_chain(rt, alloc, code), "{code}");
            orders = orders.saturating_add(1);
        }
    }
    orders
}

// Three opens of four steps each have 34,650 orders: 3,150 for each writer that may step first and second, and 4,200 for each
// two that may do so one after the other.
#[test]
fn three_opens_and_writer_0_steps_twice(rt: HostRuntime) {
    assert!(rt; orders_from(&rt, rt.alloc(), 0) == 3150);
}

#[test]
fn three_opens_and_writer_0_steps_before_writer_1(rt: HostRuntime) {
    assert!(rt; orders_from(&rt, rt.alloc(), 3) == 4200);
}

#[test]
fn three_opens_and_writer_0_steps_before_writer_2(rt: HostRuntime) {
    assert!(rt; orders_from(&rt, rt.alloc(), 6) == 4200);
}

#[test]
fn three_opens_and_writer_1_steps_before_writer_0(rt: HostRuntime) {
    assert!(rt; orders_from(&rt, rt.alloc(), 1) == 4200);
}

#[test]
fn three_opens_and_writer_1_steps_twice(rt: HostRuntime) {
    assert!(rt; orders_from(&rt, rt.alloc(), 4) == 3150);
}

#[test]
fn three_opens_and_writer_1_steps_before_writer_2(rt: HostRuntime) {
    assert!(rt; orders_from(&rt, rt.alloc(), 7) == 4200);
}

#[test]
fn three_opens_and_writer_2_steps_before_writer_0(rt: HostRuntime) {
    assert!(rt; orders_from(&rt, rt.alloc(), 2) == 4200);
}

#[test]
fn three_opens_and_writer_2_steps_before_writer_1(rt: HostRuntime) {
    assert!(rt; orders_from(&rt, rt.alloc(), 5) == 4200);
}

#[test]
fn three_opens_and_writer_2_steps_twice(rt: HostRuntime) {
    assert!(rt; orders_from(&rt, rt.alloc(), 8) == 3150);
}

// How many puts of two opens found their number taken: the steps of writer 1 are those of the ones of this mask. Each such put is
// refused, and the opens make one chain.
fn taken_in(rt: &impl Abort, alloc: Global, mask: u32) -> u64 {
    let mut cluster = after(rt, alloc, TWO);
    let mut rest = mask;
    for _ in 0..10 {
        steps(rt, alloc, &mut cluster, rest % 2, 1000, 1);
        rest /= 2;
    }
    let refusal = "reply refused 1 TransactionalObjectVersionExists 2";
    let taken = count(rt, alloc, &cluster, "put_new", "-> exists");
    assert!(rt; count(rt, alloc, &cluster, "-> exists", refusal) == taken);
    assert!(rt; is_chain(rt, alloc, &cluster), "{mask}");
    drop(cluster);
    taken
}

// Of the 252 orders of two opens all but 12 let both read before the first put, and there the second put is refused.
#[test]
fn the_second_put_of_a_number_is_refused(rt: HostRuntime) {
    let mut orders = 0u32;
    let mut taken = 0u64;
    for mask in 0..1024u32 {
        if mask.count_ones() == 5 {
            orders = orders.saturating_add(1);
            taken = taken.saturating_add(taken_in(&rt, rt.alloc(), mask));
        }
    }
    assert!(rt; orders == 252 && taken == 240);
}

// A writer starts a flush.
fn flushes(rt: &impl Abort, alloc: Global, cluster: &mut Cluster, party: u32) {
    let call = Call::Flush {
        tables: Listed::new(alloc),
        replay_after: 0,
        next_wal: 1,
        seq: 0,
        tick: 0,
    };
    let start = [Event::start(alloc, party, call).expect(rt, "memory")];
    does(rt, alloc, cluster, &start);
    drop(start);
}

// Writer 0 opens and then flushes, and writer 1 opens: the steps of writer 1 are those of the ones of this mask.
fn opens_and_flush(rt: &impl Abort, alloc: Global, mask: u32) -> Cluster {
    let mut cluster = after(rt, alloc, TWO);
    let mut own = 0u32;
    let mut rest = mask;
    for _ in 0..15 {
        let party = rest % 2;
        rest /= 2;
        steps(rt, alloc, &mut cluster, party, 1000, 1);
        if party == 0 {
            own = own.saturating_add(1);
        }
        if party == 0 && own == 5 {
            flushes(rt, alloc, &mut cluster, party);
        }
    }
    cluster
}

// How many flushes were done, and how many read a greater epoch. The calls make one chain.
fn flushed_in(rt: &impl Abort, alloc: Global, mask: u32) -> (u64, u64) {
    let cluster = opens_and_flush(rt, alloc, mask);
    assert!(rt; is_chain(rt, alloc, &cluster), "{mask}");
    let done = count(rt, alloc, &cluster, "call 0", "reply done");
    let fenced = count(rt, alloc, &cluster, "call 0", "reply refused 2 Fenced 1 2");
    drop(cluster);
    (done, fenced)
}

// All 3,003 orders of an open and a flush of one writer, and an open of another: in 2,447 the flush is done, and in 31 it
// reads the other's epoch.
#[test]
fn two_opens_and_a_flush_make_one_chain(rt: HostRuntime) {
    let mut orders = 0u32;
    let mut flushed = 0u64;
    let mut fenced = 0u64;
    for mask in 0..32768u32 {
        if mask.count_ones() == 5 {
            let (done, refused) = flushed_in(&rt, rt.alloc(), mask);
            orders = orders.saturating_add(1);
            flushed = flushed.saturating_add(done);
            fenced = fenced.saturating_add(refused);
        }
    }
    assert!(rt; orders == 3003 && flushed == 2447 && fenced == 31);
}
