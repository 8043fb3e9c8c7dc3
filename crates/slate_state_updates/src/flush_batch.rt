//! What a flush of uploaded tables makes of a manifest.
ghost use Rattle.std.specs.Prelude.{◌≡◌, IfOk, IfErr, OnOk, true};
ghost use Rattle.slate_ids.specs.Answers.{is_memory};
ghost use Rattle.slate_model.specs.Trees.{tables_of};
ghost use Rattle.slate_state_updates.specs.Flushes as flushes;
ghost use Rattle.slate_state_updates.specs.Flushes.{tables_flushed, PutsNew};
ghost use Rattle.slate_state_updates.specs.TableSets.{Notes};

use crate::placing::push_newest;
use crate::tables::{TableSet, known_set};
use bytes::Bytes;
use slate_ids::{Listed, Millis, OutOfMemory, SlateDBError, Ulid};
use slate_model::{Manifest, ManifestCore, Plain, SsTableHandle, SsTableId, SsTableView};
use slate_state_merges::merge_remote_manifest;
use std::alloc::Global;

/// A table that a flush puts into a tree.
#[derive(Debug, Drop)]
pub struct FlushedTable {
    /// The id of its view, which shows all of it.
    pub view: Ulid,
    /// The prefix whose tree takes it: the root's where it is empty.
    pub prefix: Bytes,
    /// The table.
    pub sst: SsTableHandle,
}

/// What a flush puts.
#[derive(Debug, Drop)]
pub struct FlushBatch {
    /// The tables, in the order in which they come in front of L0.
    pub tables: Listed<FlushedTable>,
    /// The last file of the write-ahead log whose rows are all in tables.
    pub replay_after: u64,
    /// The number of the next file of the write-ahead log.
    pub next_wal: u64,
    /// The last sequence number of the newest flushed table.
    pub seq: u64,
    /// The last clock tick of the newest flushed table, in milliseconds.
    pub tick: Millis,
}

// Adds a table to a set, and tells whether it is new there.
fn note(set: &mut TableSet, id: SsTableId) -> Result<bool, OutOfMemory>
    ensures { IfOk result (λ new. Notes set.old set.new id new) }
{
    Ok(set.insert(id)?)
}

// Puts a flushed table in front of the L0 of its prefix, where it is new in the set, which has it then.
fn push_if_new(
    alloc: Global,
    core: &mut ManifestCore,
    set: &mut TableSet,
    table: &FlushedTable,
) -> Result<(), SlateDBError>
    ensures ok { OnOk result (PutsNew set.old set.new core.old core.new table.now) }
    ensures memory { IfErr result (λ e. is_memory e ≡ true) }
{
    if note(set, table.sst.id)? {
        let sst = Plain::clone(&table.sst, alloc)?;
        push_newest(
            alloc,
            core,
            &table.prefix,
            SsTableView::new(table.view, sst),
        )
    } else {
        Ok(())
    }
}

// Puts each flushed table that no tree has yet in front of the L0 of its prefix, one after the other.
fn push_all(
    alloc: Global,
    core: &mut ManifestCore,
    tables: &[FlushedTable],
) -> Result<(), SlateDBError>
    ensures ok { OnOk result (core.new
        ≡ flushes.with_all_flushed core.old (flushes.fresh_tables (tables_of core.old) tables.now)) }
    ensures memory { IfErr result (λ e. is_memory e ≡ true) }
{
    let mut set = known_set(alloc, core)?;
    for table in tables {
        if let Err(e) = push_if_new(alloc, core, &mut set, table) {
            drop(set);
            return Err(e);
        }
    }
    drop(set);
    Ok(())
}

// Puts the tables of a batch that no tree has yet, and its numbers.
fn put_batch(alloc: Global, core: &mut ManifestCore, batch: &FlushBatch) -> Result<(), SlateDBError>
    ensures ok { OnOk result (core.new ≡ flushes.with_batch batch.now core.old) }
    ensures memory { IfErr result (λ e. is_memory e ≡ true) }
{
    push_all(alloc, core, batch.tables.as_slice())?;
    core.replay_after_wal_id = batch.replay_after;
    core.next_wal_sst_id = batch.next_wal;
    core.last_l0_clock_tick = batch.tick;
    core.last_l0_seq = batch.seq;
    Ok(core.sequence_tracker.insert(batch.seq, batch.tick)?)
}

/// What a flush makes of a manifest: that one merged with itself, with each table of the batch in front of the L0 of its prefix unless a
/// tree has it already, in a new segment where the prefix has none, and with the batch's numbers. A table that comes twice is put once.
/// The tracker takes the pair of sequence number and tick where it is in order. A prefix that nests with another gets its segment too:
/// the rules on updates refuse it. Nothing else is refused but for want of memory.
pub fn flush_tables(
    alloc: Global,
    batch: &FlushBatch,
    manifest: &Manifest,
) -> Result<Manifest, SlateDBError>
    ensures ok { IfOk result (λ m. m ≡ tables_flushed batch.now manifest.now) }
    ensures memory { IfErr result (λ e. is_memory e ≡ true) }
{
    let mut new = merge_remote_manifest(alloc, &manifest.core, manifest)?;
    match put_batch(alloc, &mut new.core, batch) {
        Ok(()) => Ok(new),
        Err(e) => {
            drop(new);
            Err(e)
        }
    }
}
