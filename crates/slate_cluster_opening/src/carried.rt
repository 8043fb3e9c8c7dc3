//! The ids that events and opening values carried.
ghost use Rattle.std.specs.Prelude.{◌≡◌, IfOk, OnOk, OnErr};
ghost use Rattle.slate_cluster_protocol.specs.Ids as ids;
ghost use Rattle.slate_cluster_opening.specs.Pools.{uncarried, without};
ghost use Rattle.slate_ids.specs.Ulids.{id_cmp as ulid_cmp};

use crate::pools::{Pool, add_ids, is_stale_among, take_back};
use slate_cluster_protocol::CallIds;
use slate_ids::{CheckpointId, OutOfMemory, Ulid};
use std::alloc::Global;
use std::marker::Model;

/// What is known of each id that was carried: of checkpoints, and of tables, views and compactions.
#[derive(Drop)]
pub struct Carried {
    pub(crate) checkpoints: Pool<CheckpointId>,
    pub(crate) ulids: Pool<Ulid>,
}

impl Model for Carried {
    ghost use Rattle.slate_cluster_protocol.specs.Ids as ids;

    ghost Value = { ids.Carried };

    ghost view = { λ a. record { checkpoints = a.checkpoints.entries; ulids = a.ulids.entries } };
}

// Whether a fresh id of a checkpoint was carried before, or comes twice.
fn is_checkpoint_stale(
    alloc: Global,
    pool: &Pool<CheckpointId>,
    own: &CallIds,
) -> Result<bool, OutOfMemory>
    ensures { IfOk result (λ b. b ≡ ids.is_stale_among ids.checkpoint_cmp
        own.now.fresh_checkpoints own.now.named_checkpoints pool.now.entries) }
{
    let fresh = own.fresh_checkpoints.as_slice();
    is_stale_among(alloc, pool, fresh, own.named_checkpoints.as_slice())
}

// Whether a fresh id of a table, view or compaction was carried before, or comes twice.
fn is_ulid_stale(alloc: Global, pool: &Pool<Ulid>, own: &CallIds) -> Result<bool, OutOfMemory>
    ensures { IfOk result (λ b. b ≡ ids.is_stale_among ulid_cmp
        own.now.fresh_ulids own.now.named_ulids pool.now.entries) }
{
    let fresh = own.fresh_ulids.as_slice();
    is_stale_among(alloc, pool, fresh, own.named_ulids.as_slice())
}

/// Whether a fresh one of these ids was carried before, or comes twice among them. Where there are none it takes no memory.
pub fn are_stale(alloc: Global, carried: &Carried, own: &CallIds) -> Result<bool, OutOfMemory>
    ensures { IfOk result (λ b. b ≡ ids.are_stale carried.now own.now) }
{
    if is_checkpoint_stale(alloc, &carried.checkpoints, own)? {
        return Ok(true);
    }
    is_ulid_stale(alloc, &carried.ulids, own)
}

/// The ids that a call was the first to carry: taken out again, they leave what was carried before it.
#[derive(Drop)]
pub struct Noted {
    pub checkpoints: Vec<CheckpointId>,
    pub ulids: Vec<Ulid>,
}

// Notes the ids of tables, views and compactions that a call of a party carries, or none of them. Gives the new ones.
fn carry_ulids(
    alloc: Global,
    pool: &mut Pool<Ulid>,
    number: u32,
    own: &CallIds,
) -> Result<Vec<Ulid>, OutOfMemory>
    ensures ok { OnOk result (pool.new.entries ≡ ids.with_ids ulid_cmp
        (ids.ids_of number own.now.fresh_ulids own.now.named_ulids) pool.old.entries) }
    ensures back { IfOk result (λ added. without ulid_cmp added.items pool.new.entries ≡ pool.old.entries) }
    ensures err { OnErr result (pool.new.entries ≡ pool.old.entries) }
{
    let fresh = own.fresh_ulids.as_slice();
    add_ids(alloc, pool, number, fresh, own.named_ulids.as_slice())
}

/// Notes the ids that a call of a party carries, and gives those that weren't carried before. Running out of memory changes nothing.
pub fn carry(
    alloc: Global,
    carried: &mut Carried,
    number: u32,
    own: &CallIds,
) -> Result<Noted, OutOfMemory>
    ensures ok { OnOk result (carried.new ≡ ids.with_call_ids number own.now carried.old) }
    ensures back { IfOk result (λ noted. uncarried noted carried.new ≡ carried.old) }
    ensures err { OnErr result (carried.new ≡ carried.old) }
{
    let fresh = own.fresh_checkpoints.as_slice();
    let named = own.named_checkpoints.as_slice();
    let checkpoints = add_ids(alloc, &mut carried.checkpoints, number, fresh, named)?;
    match carry_ulids(alloc, &mut carried.ulids, number, own) {
        Ok(ulids) => Ok(Noted { checkpoints, ulids }),
        Err(e) => {
            take_back(&mut carried.checkpoints, checkpoints);
            Err(e)
        }
    }
}

/// Takes the ids out again that a call was the first to carry. Takes no memory.
pub fn uncarry(carried: &mut Carried, noted: Noted)
    ensures { carried.new ≡ uncarried noted carried.old }
{
    take_back(&mut carried.checkpoints, noted.checkpoints);
    take_back(&mut carried.ulids, noted.ulids);
}
