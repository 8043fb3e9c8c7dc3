//! Epochs, flushes, and the numbers of new versions.

use crate::test_values::With::{Compactor, Floor, Names, Writer};
use crate::test_values::{With, broken, manifest_of};
use slate_ids::{Epochs, Listed, SlateDBError};
use slate_model::{Manifest, ManifestCore};
use slate_state_updates::{FlushBatch, ManifestEpochs, flush_tables, raise_epoch};
use slate_txn_log::Right;
use std::alloc::Global;
use std::process::Abort;

/// What version 7 has, what the next one has, and the rule that it breaks: of its epochs and its floor, and of what it names.
const NUMBERS: &[(&[With], &[With], u8)] = &[
    (
        &[Writer(2), Compactor(3), Floor(4)],
        &[Writer(1), Compactor(3), Floor(4)],
        1,
    ),
    (
        &[Writer(2), Compactor(3), Floor(4)],
        &[Writer(2), Compactor(2), Floor(4)],
        1,
    ),
    (
        &[Writer(2), Compactor(3), Floor(4)],
        &[Writer(2), Compactor(3), Floor(3)],
        1,
    ),
    (
        &[Writer(2), Compactor(3), Floor(4)],
        &[Writer(2), Compactor(3), Floor(4)],
        0,
    ),
    (
        &[Writer(2), Compactor(3), Floor(4)],
        &[Writer(3), Compactor(4), Floor(5)],
        0,
    ),
    (&[Names(3)], &[Names(8)], 0),
    (&[Names(3)], &[Names(3)], 0),
    (&[Names(3)], &[Names(7)], 2),
    (&[Names(3)], &[Names(9)], 2),
    (&[Names(3)], &[Names(0)], 2),
];

// The table as a slice: a function that names a table has all of it written out.
fn numbers() -> &'static [(&'static [With], &'static [With], u8)] {
    NUMBERS
}

/// The writer's epoch, and the one after an open, where there is one.
const RAISED: [(u64, Option<u64>); 3] = [(0, Some(1)), (7, Some(8)), (u64::MAX, None)];

/// What is flushed after the pair (5, 50), and how many pairs the tracker has then.
const FLUSHED: [(u64, i64, usize); 3] = [(6, 50, 2), (6, 49, 1), (5, 60, 1)];

#[test]
fn numbers_do_not_fall_and_names_are_known(rt: HostRuntime) {
    for (row, (old, new, rule)) in numbers().iter().enumerate() {
        let found = broken(&rt, rt.alloc(), &[*old], &[*new], &Right::Plain);
        assert!(rt; found == *rule, "at row {row}");
    }
}

fn epoch_in(made: &Result<Option<Manifest>, SlateDBError>) -> Option<u64> {
    match made {
        Ok(Some(manifest)) => Some(ManifestEpochs::Writer.get(manifest)),
        _ => None,
    }
}

/// The writer's epoch once it was raised.
fn raised(rt: &impl Abort, alloc: Global, epoch: u64) -> Option<u64> {
    let manifest = manifest_of(rt, alloc, &[&[Writer(epoch)]]);
    let made = raise_epoch(alloc, ManifestEpochs::Writer, 1, &manifest);
    drop(manifest);
    let raised = epoch_in(&made);
    drop(made);
    raised
}

#[test]
fn an_open_raises_the_epoch(rt: HostRuntime) {
    for (epoch, next) in &RAISED {
        assert!(rt; raised(&rt, rt.alloc(), *epoch) == *next);
    }
}

/// A manifest whose tracker has the pair (5, 50).
fn tracking(rt: &impl Abort, alloc: Global) -> Manifest {
    let mut manifest = Manifest::initial(alloc, ManifestCore::new(alloc));
    manifest
        .core
        .sequence_tracker
        .insert(5, 50)
        .expect(rt, "memory");
    manifest
}

/// A flush of no table, at this number and this tick.
pub(crate) fn no_tables(alloc: Global, seq: u64, tick: i64) -> FlushBatch {
    FlushBatch {
        tables: Listed::new(alloc),
        replay_after: 0,
        next_wal: 1,
        seq,
        tick,
    }
}

/// Whether a manifest has these numbers of the newest flushed table, and so many pairs.
fn has(manifest: &Manifest, seq: u64, tick: i64, pairs: usize) -> bool {
    manifest.core.last_l0_seq == seq
        && manifest.core.last_l0_clock_tick == tick
        && manifest.core.sequence_tracker.pairs().len() == pairs
}

fn flushes(rt: &impl Abort, alloc: Global, seq: u64, tick: i64, pairs: usize) -> bool {
    let manifest = tracking(rt, alloc);
    let batch = no_tables(alloc, seq, tick);
    let made = flush_tables(alloc, &batch, &manifest).expect(rt, "memory");
    drop(batch);
    drop(manifest);
    let is_so = has(&made, seq, tick, pairs);
    drop(made);
    is_so
}

#[test]
fn a_flush_puts_its_numbers(rt: HostRuntime) {
    for (seq, tick, pairs) in &FLUSHED {
        assert!(rt; flushes(&rt, rt.alloc(), *seq, *tick, *pairs));
    }
}
