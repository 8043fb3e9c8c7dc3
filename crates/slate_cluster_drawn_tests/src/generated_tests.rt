//! Runs of drawn lists of events, each audited.

use crate::test_audit::{Run, audited};
use crate::test_clusters::{cluster_of, does};
use crate::test_counts::{Counts, check_least};
use crate::test_lists::{Mix, generated};
use slate_store::MemoryStore;
use std::alloc::Global;
use std::process::Abort;

// A new database, without a record.
const NEW: &str = r#"{"databases":[{"path":"db"}],"events":[]}"#;

// A database with four views in the root and two in a segment, each the source of a compaction. The oldest view of both trees has a
// compaction that may be finished.
const RECORDED: &str = r#"{"databases":[{"path":"db","compactor_epoch":3,"floor":9,
"l0":[
{"view":"5:14","table":"6:14"},{"view":"5:13","table":"6:13"},{"view":"5:12","table":"6:12"},{"view":"5:11","table":"6:11"},
{"view":"5:16","table":"6:16","prefix":"p"},{"view":"5:15","table":"6:15","prefix":"p"}],
"record":{"epoch":2,"compactions":[
{"id":"10:1","status":"compacted","views":["5:11"],"runs":[],"destination":1,"outputs":["20:1"]},
{"id":"10:2","status":"submitted","views":["5:12"],"runs":[],"destination":2,"outputs":[]},
{"id":"10:3","status":"scheduled","views":["5:13"],"runs":[],"destination":3,"outputs":[]},
{"id":"10:4","status":"submitted","views":["5:14"],"runs":[],"destination":4,"outputs":[]},
{"id":"10:5","status":"compacted","segment":"p","views":["5:15"],"runs":[],"destination":5,"outputs":["20:5"]},
{"id":"10:6","status":"submitted","segment":"p","views":["5:16"],"runs":[],"destination":6,"outputs":[]}]}}],
"events":[]}"#;

// The lists of a text's databases, of a mix: so many seeds from the first one on.
#[derive(Clone, Copy)]
struct Lists {
    text: &'static str,
    mix: Mix,
    first: u64,
    times: u64,
}

// Runs the list of a seed on the databases of a text, and counts on.
fn counts_of(
    rt: &impl Abort,
    alloc: Global,
    lists: Lists,
    seed: u64,
    before: &MemoryStore,
    counts: Counts,
) -> Counts {
    let events = generated(rt, alloc, lists.mix, seed);
    let mut cluster = cluster_of(rt, alloc, lists.text);
    does(rt, alloc, &mut cluster, events.as_slice());
    let run = Run {
        events: events.as_slice(),
        trail: cluster.trail(),
        before,
        after: cluster.store(),
    };
    let counted = audited(rt, alloc, run, counts);
    drop(cluster);
    drop(events);
    counted
}

// Runs all lists, each audited.
fn counts(rt: &impl Abort, alloc: Global, lists: Lists) -> Counts {
    let before = cluster_of(rt, alloc, lists.text);
    let mut counts = Counts::new();
    for i in 0..lists.times {
        let seed = lists.first.saturating_add(i);
        counts = counts_of(rt, alloc, lists, seed, before.store(), counts);
    }
    drop(before);
    counts
}

// Runs the lists of 500 seeds from this one on. They have passes that delete, late puts, flushed tables and late ones.
fn check_passes(rt: &impl Abort, alloc: Global, first: u64) {
    let lists = Lists {
        text: NEW,
        mix: Mix::Collectors,
        first,
        times: 500,
    };
    let counts = counts(rt, alloc, lists);
    check_least(
        rt,
        &[
            ("passes", counts.passes, 100),
            ("late puts", counts.late_puts, 1),
            ("late tables", counts.late_tables, 1),
            ("tables", counts.tables, 100),
        ],
    );
}

#[test]
fn lists_1_to_500_keep_what_is_reachable(rt: HostRuntime) {
    check_passes(&rt, rt.alloc(), 1);
}

#[test]
fn lists_501_to_1000_keep_what_is_reachable(rt: HostRuntime) {
    check_passes(&rt, rt.alloc(), 501);
}

#[test]
fn lists_1001_to_1500_keep_what_is_reachable(rt: HostRuntime) {
    check_passes(&rt, rt.alloc(), 1001);
}

#[test]
fn lists_1501_to_2000_keep_what_is_reachable(rt: HostRuntime) {
    check_passes(&rt, rt.alloc(), 1501);
}

// Runs the lists of 20 seeds from this one on, of compactors on the databases of a text.
fn compactions(rt: &impl Abort, alloc: Global, text: &'static str, first: u64) -> Counts {
    let lists = Lists {
        text,
        mix: Mix::Compactors,
        first,
        times: 20,
    };
    counts(rt, alloc, lists)
}

// Runs lists on the database with compactions. Calls of all kinds are done, some are refused, and passes delete of both logs.
fn check_compactions(rt: &impl Abort, alloc: Global, first: u64) {
    let counts = compactions(rt, alloc, RECORDED, first);
    check_least(
        rt,
        &[
            ("opens", counts.opens, 30),
            ("fenced", counts.fenced, 15),
            ("conflicts", counts.conflicts, 5),
            ("schedules", counts.schedules, 4),
            ("claims", counts.claims, 8),
            ("reports", counts.reports, 4),
            ("finishes", counts.finishes, 4),
            ("states", counts.states, 3),
            ("flushes", counts.flushes, 3),
            ("passes", counts.passes, 10),
            ("passes over records", counts.record_passes, 20),
            ("late records", counts.late_records, 1),
            ("opens after another party's", counts.rivals, 20),
            ("entries dropped by resets", counts.reset_drops, 3),
            ("entries trimmed", counts.trims, 5),
            ("entries that end", counts.ends, 10),
            ("finished ones", counts.compacted, 10),
            ("records beside pending ones", counts.pending, 10),
        ],
    );
}

#[test]
fn lists_1_to_20_keep_both_logs(rt: HostRuntime) {
    check_compactions(&rt, rt.alloc(), 1);
}

#[test]
fn lists_21_to_40_keep_both_logs(rt: HostRuntime) {
    check_compactions(&rt, rt.alloc(), 21);
}

#[test]
fn lists_41_to_60_keep_both_logs(rt: HostRuntime) {
    check_compactions(&rt, rt.alloc(), 41);
}

#[test]
fn lists_61_to_80_keep_both_logs_of_a_new_database(rt: HostRuntime) {
    let counts = compactions(&rt, rt.alloc(), NEW, 61);
    check_least(
        &rt,
        &[
            ("opens", counts.opens, 25),
            ("fenced", counts.fenced, 10),
            ("conflicts", counts.conflicts, 5),
            ("states", counts.states, 3),
            ("flushes", counts.flushes, 3),
            ("passes", counts.passes, 10),
            ("passes over records", counts.record_passes, 20),
            ("late records", counts.late_records, 1),
        ],
    );
}
