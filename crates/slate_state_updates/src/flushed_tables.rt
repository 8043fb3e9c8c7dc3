//! Tables that flushes add, from one version of a manifest to the next.
ghost use Rattle.std.specs.Prelude.{◌≡◌, ◌&&◌, not, option_copied, IfOk};
ghost use Rattle.std.specs.List.{find};
ghost use Rattle.slate_ids.specs.Answers.{Gives, refused};
ghost use Rattle.slate_state_updates.specs.FlushedTables as flushed;
ghost use Rattle.slate_state_updates.specs.FlushedTables.{tick_refusal};
ghost use Rattle.slate_state_updates.specs.TableSets.{has_table};

use crate::tables::{TableSet, flushed_tables, set_of};
use slate_ids::{Millis, OutOfMemory, SlateDBError};
use slate_model::{Manifest, SsTableId};
use std::alloc::Global;

// Whether a table is from before a moment.
fn is_before(moment: u64, id: &SsTableId) -> bool
    ensures { result ≡ flushed.is_before moment id.now }
{
    match id {
        SsTableId::Wal(_) => false,
        SsTableId::Compacted(id) => id.timestamp_ms() < moment,
    }
}

// The first of these tables that isn't in the set and is from before a moment.
fn first_early(moment: u64, old: &TableSet, ids: &[SsTableId]) -> Option<SsTableId>
    ensures { result
        ≡ find (λ id. flushed.is_before moment id && not (has_table old.now id)) ids.now }
{
    for id in ids {
        if is_before(moment, id) && !old.contains(id) {
            return Some(*id);
        }
    }
    None
}

// The moment from which on new tables may be.
fn least_tick(manifest: &Manifest) -> u64
    ensures { result ≡ flushed.least_tick manifest.now }
{
    manifest.core.floor.max(manifest.core.watermark())
}

// A moment as a clock tick: the last tick for one above it.
fn as_tick(moment: u64) -> Millis
    ensures { result ≡ flushed.as_tick moment }
{
    moment.min(9_223_372_036_854_775_807) as i64
}

// The refusal of a table that is from before a moment.
fn early_refusal(moment: u64, early: Option<&SsTableId>) -> Result<(), SlateDBError>
    ensures { result ≡ refused (flushed.early_refusal moment (option_copied early.entry)) }
{
    match early {
        Some(SsTableId::Compacted(id)) => Err(SlateDBError::InvalidClockTick {
            last_tick: as_tick(moment),
            next_tick: id.timestamp_ms() as i64,
        }),
        _ => Ok(()),
    }
}

// The first flushed table that the old manifest hasn't among its own, from before a moment.
fn first_new(
    alloc: Global,
    moment: u64,
    old: &Manifest,
    new: &Manifest,
) -> Result<Option<SsTableId>, OutOfMemory>
    ensures { IfOk result (λ early. early
        ≡ find (flushed.is_early moment (flushed.flushed_tables old.now.core)) (flushed.flushed_tables new.now.core)) }
{
    let known = flushed_tables(alloc, &old.core)?;
    let set = set_of(alloc, known.as_slice())?;
    let ids = flushed_tables(alloc, &new.core)?;
    Ok(first_early(moment, &set, ids.as_slice()))
}

/// Whether each flushed table of `dirty` that no tree of `current` has among its flushed tables is from the greater of `current`'s
/// floor and watermark on, in milliseconds. Files of the write-ahead log pass. Else InvalidClockTick: `last_tick` is that moment, or
/// 2^63 - 1 where it is above it, and `next_tick` that of the first such table, of the root's tree and then the segments', in each the
/// newest first.
pub fn l0_ulid_cutoff(
    alloc: Global,
    dirty: &Manifest,
    current: &Manifest,
) -> Result<(), SlateDBError>
    ensures { Gives result (refused (tick_refusal current.now dirty.now)) }
{
    let moment = least_tick(current);
    let early = first_new(alloc, moment, current, dirty)?;
    early_refusal(moment, early.as_ref())
}
