//! The files of the write-ahead log that a pass may delete.
ghost use Rattle.std.specs.Prelude.{◌≡◌, IfOk, option_copied};
ghost use Rattle.slate_gc_picks.specs.WalPicks as walled;

use crate::wal_gc::{WalGc, WalGcMode};
use crate::wal_ranges::WalFileRange;
use slate_ids::{Listed, Millis, OutOfMemory};
use slate_store::ObjectMetadata;
use std::alloc::Global;

/// The files that may go: what was handed in picks them, or else the plain one of all files.
pub fn wal_candidates<W: WalGc>(
    alloc: Global,
    wal: Option<&W>,
    ranges: &[WalFileRange],
    listed: &[ObjectMetadata],
    min_age: u64,
    now: Millis,
) -> Result<Listed<ObjectMetadata>, OutOfMemory>
    ensures { IfOk result (λ found. found ≡ walled.wal_candidates W.picked
        (option_copied wal.entry) ranges.now listed.now min_age now) }
{
    match wal {
        Some(wal) => Ok(Listed::from_vec(wal.picks(alloc, ranges, listed, min_age, now)?)),
        None => WalGcMode::Regular.collected(alloc, ranges, listed, min_age, now),
    }
}
