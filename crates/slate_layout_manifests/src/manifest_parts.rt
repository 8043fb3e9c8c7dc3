//! The bytes of checkpoints, of entries of other databases, and of trackers.
ghost use Rattle.std.specs.Prelude.{◌≡◌, ◌++◌, OnOk};
ghost use Rattle.std.proofs.Common.{arith};
ghost use Rattle.slate_layout_parts.specs.Bytes.{option_bytes, u32_bytes};
ghost use Rattle.slate_layout_manifests.specs.CheckpointParts as parts;
ghost use Rattle.slate_layout_manifests.specs.TypedManifests as typed;
ghost use Rattle.slate_layout_manifests.specs.laws.Checkpoints as laws;

use slate_ids::{CheckpointId, DbPath, Listed, Millis, OutOfMemory, Text};
use slate_layout_parts::{Form, Part, Reader, Tables, write_count, write_items};
use slate_model::{Checkpoint, ExternalDb, SequenceTracker, SsTableId};
use std::alloc::Global;

// The second of a moment in milliseconds, cut down; 0 before the first.
fn second_of(moment: Millis) -> u64
    ensures { result ≡ parts.second_of moment }
{
    if moment < 0 { 0 } else { moment as u64 / 1000 }
}

// The expiry at a second, which isn't 0; never, where there is none.
fn expiry_of(second: Option<u32>) -> Option<Option<Millis>>
    ensures { result ≡ parts.expiry_of second }
{
    match second {
        None => Some(None),
        Some(0) => None,
        Some(second) => Some(Some(second as i64 * 1000)),
    }
}

// Adds the bytes of the second of an expiry at the end.
fn write_expiry(expiry: Option<Millis>, out: &mut Vec<u8>) -> Result<(), OutOfMemory>
    ensures { OnOk result (out.new.items ≡ out.old.items ++ option_bytes u32_bytes (parts.expiry_second expiry)) }
{
    match expiry {
        None => false.write(out),
        Some(moment) => {
            true.write(out)?;
            write_count(second_of(moment) as usize, out)
        }
    }
}

// The id, the version that it names, the seconds of expiry and creation, and the name.
type CheckpointParts = (CheckpointId, (u64, (Option<u32>, (u32, Option<Text>))));

// The checkpoint of its parts.
fn checkpoint_of(read: CheckpointParts) -> Option<Checkpoint>
    ensures { result ≡ parts.checkpoint_of read }
{
    let (id, (manifest_id, (expiry, (creation, name)))) = read;
    match expiry_of(expiry) {
        Some(expire_time) => Some(Checkpoint {
            id,
            manifest_id,
            expire_time,
            create_time: creation as i64 * 1000,
            name,
        }),
        None => {
            drop(name);
            None
        }
    }
}

/// The form of checkpoints.
pub struct CheckpointForm;

impl Form<Checkpoint> for CheckpointForm {
    ghost bytes = { parts.checkpoint_bytes };

    ghost in_front = { λ tables. parts.checkpoint_in };

    ghost Fits = { λ tables. parts.CheckpointFits };

    ghost is_typed = { typed.is_checkpoint };

    ghost LEAST = { 16 };

    const LEAST: usize = 16;

    ghost few = { omega arith };

    ghost reads = { λ tables. laws.checkpoint_reads };

    fn write(checkpoint: &Checkpoint, out: &mut Vec<u8>) -> Result<(), OutOfMemory> {
        checkpoint.id.write(out)?;
        checkpoint.manifest_id.write(out)?;
        write_expiry(checkpoint.expire_time, out)?;
        write_count(second_of(checkpoint.create_time) as usize, out)?;
        checkpoint.name.write(out)
    }

    fn read<'a>(
        alloc: Global,
        tables: &Tables,
        from: Reader<'a>,
    ) -> Result<Option<(Checkpoint, Reader<'a>)>, OutOfMemory> {
        let Some((read, from)) = CheckpointParts::read(alloc, tables, from)? else {
            return Ok(None);
        };
        match checkpoint_of(read) {
            Some(checkpoint) => Ok(Some((checkpoint, from))),
            None => Ok(None),
        }
    }
}

// The path, the source, the pin, and the tables.
type EntryParts = (
    DbPath,
    (CheckpointId, (Option<CheckpointId>, Listed<SsTableId>)),
);

/// The form of entries of other databases.
pub struct EntryForm;

impl Form<ExternalDb> for EntryForm {
    ghost bytes = { parts.entry_bytes };

    ghost in_front = { λ tables. parts.entry_in };

    ghost Fits = { λ tables. parts.EntryFits };

    ghost is_typed = { typed.is_entry };

    ghost LEAST = { 4 };

    const LEAST: usize = 4;

    ghost few = { omega arith };

    ghost reads = { λ tables. laws.entry_reads };

    fn write(entry: &ExternalDb, out: &mut Vec<u8>) -> Result<(), OutOfMemory> {
        entry.path.write(out)?;
        entry.source_checkpoint_id.write(out)?;
        entry.final_checkpoint_id.write(out)?;
        entry.sst_ids.write(out)
    }

    fn read<'a>(
        alloc: Global,
        tables: &Tables,
        from: Reader<'a>,
    ) -> Result<Option<(ExternalDb, Reader<'a>)>, OutOfMemory> {
        match EntryParts::read(alloc, tables, from)? {
            Some(((path, (source_checkpoint_id, (final_checkpoint_id, sst_ids))), from)) => {
                let entry = ExternalDb {
                    path,
                    source_checkpoint_id,
                    final_checkpoint_id,
                    sst_ids,
                };
                Ok(Some((entry, from)))
            }
            None => Ok(None),
        }
    }
}

/// The form of trackers.
pub struct TrackerForm;

impl Form<SequenceTracker> for TrackerForm {
    ghost bytes = { parts.tracker_bytes };

    ghost in_front = { λ tables. parts.tracker_in };

    ghost Fits = { λ tables. parts.TrackerFits };

    ghost is_typed = { typed.is_tracker };

    ghost LEAST = { 4 };

    const LEAST: usize = 4;

    ghost few = { omega arith };

    ghost reads = { λ tables. laws.tracker_reads };

    fn write(tracker: &SequenceTracker, out: &mut Vec<u8>) -> Result<(), OutOfMemory> {
        let pairs = tracker.pairs();
        write_count(pairs.len(), out)?;
        write_items(pairs, out)
    }

    fn read<'a>(
        alloc: Global,
        tables: &Tables,
        from: Reader<'a>,
    ) -> Result<Option<(SequenceTracker, Reader<'a>)>, OutOfMemory> {
        let Some((pairs, from)) = Listed::<(u64, i64)>::read(alloc, tables, from)? else {
            return Ok(None);
        };
        match SequenceTracker::from_pairs(pairs.into_vec()) {
            Some(tracker) => Ok(Some((tracker, from))),
            None => Ok(None),
        }
    }
}
