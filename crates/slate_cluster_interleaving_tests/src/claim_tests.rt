//! Every order of two workers' claims of one compaction.

use crate::test_clusters::{after, count, steps};
use std::alloc::Global;
use std::process::Abort;

// Workers that come, and each starts to claim the compaction.
const TWO: &str = r#"{"databases":[{"path":"db","record":{"epoch":0,"compactions":[
  {"id":"100:1","status":"scheduled","views":[],"runs":[],"drain":true,"outputs":[]}]}}],"events":[
  {"open":0,"kind":"worker","db":"db"},{"start":0,"call":"claim","id":"100:1"},{"open":1,"kind":"worker","db":"db"},
  {"start":1,"call":"claim","id":"100:1"}]}"#;

// Of two claims one is done, and its record alone is committed. How often the other found its number taken, and how often the compaction
// claimed: the steps of worker 1 are those of the ones of this mask.
fn refused_in(rt: &impl Abort, alloc: Global, mask: u32) -> (u64, u64) {
    let mut cluster = after(rt, alloc, TWO);
    let mut rest = mask;
    for _ in 0..10 {
        steps(rt, alloc, &mut cluster, rest % 2, 1000, 1);
        rest /= 2;
    }
    assert!(rt; count(rt, alloc, &cluster, "reply done", "") == 1, "{mask}");
    assert!(rt;
        count(rt, alloc, &cluster, "put_new", "-> created") == 1,
        "{mask}"
    );
    let refusal = "reply refused 1 TransactionalObjectVersionExists 2";
    let taken = count(rt, alloc, &cluster, "-> exists", refusal);
    let claimed = count(
        rt,
        alloc,
        &cluster,
        "-> none reply",
        "refused 8 InvalidDBState",
    );
    (taken, claimed)
}

// Of the 252 orders of two claims all but 12 let both read before the first put, and there the second put is refused; in those 12 the
// second reads that the compaction has a worker.
#[test]
fn one_of_two_claims_is_done(rt: HostRuntime) {
    let mut orders = 0u32;
    let mut taken = 0u64;
    let mut claimed = 0u64;
    for mask in 0..1024u32 {
        if mask.count_ones() == 5 {
            let (late, held) = refused_in(&rt, rt.alloc(), mask);
            orders = orders.saturating_add(1);
            taken = taken.saturating_add(late);
            claimed = claimed.saturating_add(held);
        }
    }
    assert!(rt; orders == 252 && taken == 240 && claimed == 12);
}
