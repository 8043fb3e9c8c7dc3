//! A pass as a plain call, over the layout.

use crate::test_filters::{Fixed, database};
use crate::test_stores::{End, NOW, Put, Told, are_left, store_of, told_by};
use slate_gc::{GarbageCollectorDirectoryOptions, GcMessage, GcPass};
use slate_gc_picks::PlainWalGc;
use slate_ids::{DbPath, Millis};
use slate_store::{MemoryStore, Step};
use std::alloc::Global;
use std::process::Abort;

const THREE: [Put; 3] = [Put::Plain(1), Put::Plain(2), Put::Plain(3)];

fn step(
    rt: &impl Abort,
    alloc: Global,
    pass: &mut GcPass,
    store: &mut MemoryStore,
    moment: Millis,
) -> Option<Told> {
    let filter: Option<&Fixed> = None;
    let wal: Option<&PlainWalGc> = None;
    assert!(rt; pass.due());
    match pass.next(alloc, store, filter, wal, moment) {
        Step::Again => None,
        Step::Done(reply) => Some(told_by(reply)),
    }
}

/// How a pass ends.
fn run(rt: &impl Abort, alloc: Global, pass: &mut GcPass, store: &mut MemoryStore) -> Option<End> {
    for steps in 0..20u8 {
        if let Some((counts, code)) = step(rt, alloc, pass, store, NOW + steps as i64) {
            return Some((steps + 1, counts, code));
        }
    }
    None
}

/// How a pass over the manifests ends, and whether a call is due then.
fn collected(
    rt: &impl Abort,
    alloc: Global,
    db: DbPath,
    store: &mut MemoryStore,
) -> (Option<End>, bool) {
    let options = GarbageCollectorDirectoryOptions {
        min_age: 1000,
        interval: None,
        dry_run: false,
    };
    let mut pass = GcPass::new(db, GcMessage::Manifest, options, true);
    let end = run(rt, alloc, &mut pass, store);
    let due = pass.due();
    drop(pass);
    (end, due)
}

#[test]
fn a_pass_over_three_manifests_leaves_the_greatest(rt: HostRuntime) {
    let db = database(&rt);
    let mut store = store_of(&rt, rt.alloc(), db, &THREE);
    let (end, due) = collected(&rt, rt.alloc(), db, &mut store);
    let are_so = are_left(db, &store, &THREE, &[false, false, true]);
    drop(store);
    assert!(rt; end == Some((10, (2, 2, 0, 1), 0)), "it ends");
    assert!(rt; !due);
    assert!(rt; are_so);
}
