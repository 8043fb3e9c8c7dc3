//! The files of the write-ahead log that versions of a manifest have to keep.
ghost use Rattle.std.specs.Prelude.{◌≡◌, IfOk};
ghost use Rattle.slate_gc_picks.specs.WalRanges as ranges;

use slate_ids::{NumberRange, OutOfMemory};
use slate_model::Manifest;
use std::alloc::Global;
use std::collections::BTreeMap;
use std::ops::Bound;

/// A range of numbers of files of the write-ahead log. Either side may be open.
pub type WalFileRange = NumberRange;

// The range of one version.
fn wal_range(latest: u64, number: u64, manifest: &Manifest) -> WalFileRange
    ensures { result ≡ ranges.wal_range latest (number, manifest.now) }
{
    let replayed = manifest.core.replay_after_wal_id;
    if number == latest {
        NumberRange {
            start: Bound::Included(replayed),
            end: Bound::Unbounded,
        }
    } else {
        NumberRange {
            start: Bound::Excluded(replayed),
            end: Bound::Excluded(manifest.core.next_wal_sst_id),
        }
    }
}

/// The numbers of the files that these versions have to keep, ascending by version: of the latest all from `replay_after_wal_id` on,
/// of the others those strictly between `replay_after_wal_id` and `next_wal_sst_id`.
pub fn referenced_wal_ranges(
    alloc: Global,
    latest: u64,
    active: &BTreeMap<u64, Manifest>,
) -> Result<Vec<WalFileRange>, OutOfMemory>
    ensures { IfOk result (λ found. found.items ≡ ranges.wal_ranges latest active.now.entries) }
{
    let mut found = Vec::new(alloc);
    for (number, manifest) in active {
        found.push(wal_range(latest, *number, manifest))?;
    }
    Ok(found)
}
