//! Pools of ids: what is known of each id that was carried.
ghost use Rattle.std.specs.Prelude.{◌≡◌, ◌||◌, map, IfOk, OnOk, OnErr};
ghost use Rattle.std.specs.List.{list_any};
ghost use Rattle.std.specs.BTreeMap.{is_at};
ghost use Rattle.std.specs.BTreeSet.{contains};
ghost use Rattle.slate_cluster_protocol.specs.Ids as ids;
ghost use Rattle.slate_cluster_opening.specs.Pools.{unpinned, without};

use slate_cluster_protocol::Carrier;
use slate_ids::OutOfMemory;
use std::alloc::Global;
use std::collections::{BTreeMap, BTreeSet};

/// What is known of each id, by id.
pub(crate) type Pool<K> = BTreeMap<K, Carrier>;

/// An id that nobody brings.
pub(crate) fn only_named<K: Copy>(id: K) -> (K, Carrier)
    ensures { result ≡ ids.only_named id }
{
    let carrier = Carrier {
        party: None,
        pin: false,
    };
    (id, carrier)
}

/// A pin that nobody brings.
pub(crate) fn only_pinned<K: Copy>(id: K) -> (K, Carrier)
    ensures { result ≡ ids.only_pinned id }
{
    let carrier = Carrier {
        party: None,
        pin: true,
    };
    (id, carrier)
}

// What is known of an id once it is carried again.
fn carried_again(old: Carrier, new: Carrier) -> Carrier
    ensures { result ≡ ids.carried_again old new }
{
    Carrier {
        party: old.party,
        pin: old.pin || new.pin,
    }
}

// Notes an id.
fn add_id<K: Ord + Copy + Drop>(pool: &mut Pool<K>, id: &(K, Carrier)) -> Result<(), OutOfMemory>
    ensures { OnOk result (pool.new.entries ≡ ids.with_id K.cmp id.now pool.old.entries) }
{
    if let Some(carrier) = pool.get_mut(&id.0) {
        let old = *carrier;
        *carrier = carried_again(old, id.1);
        return Ok(());
    }
    pool.insert(id.0, id.1)?;
    Ok(())
}

/// Notes these ids: who brought an id stays, and a pin stays one. Where memory runs out some of them are noted.
pub(crate) fn note_ids<K: Ord + Copy + Drop>(
    pool: &mut Pool<K>,
    all: &[(K, Carrier)],
) -> Result<(), OutOfMemory>
    ensures { OnOk result (pool.new.entries ≡ ids.with_ids K.cmp all.now pool.old.entries) }
{
    for id in all {
        add_id(pool, id)?;
    }
    Ok(())
}

// Notes an id that is no pin. Where it isn't there yet, it first goes to the end of the new ones.
fn add_new<K: Ord + Copy + Drop>(
    pool: &mut Pool<K>,
    added: &mut Vec<K>,
    party: Option<u32>,
    id: K,
) -> Result<(), OutOfMemory>
    ensures ok { OnOk result (pool.new.entries ≡ ids.with_id K.cmp (unpinned party id) pool.old.entries) }
    ensures back { without K.cmp added.new.items pool.new.entries ≡ without K.cmp added.old.items pool.old.entries }
{
    if pool.contains_key(&id) {
        return Ok(());
    }
    added.push(id)?;
    let carrier = Carrier { party, pin: false };
    pool.insert(id, carrier)?;
    Ok(())
}

// Notes these ids, none of them a pin. Those that aren't there yet go to the end of the new ones.
fn add_each<K: Ord + Copy + Drop>(
    pool: &mut Pool<K>,
    added: &mut Vec<K>,
    party: Option<u32>,
    all: &[K],
) -> Result<(), OutOfMemory>
    ensures ok { OnOk result (pool.new.entries ≡ ids.with_ids K.cmp (map (unpinned party) all.now) pool.old.entries) }
    ensures back { without K.cmp added.new.items pool.new.entries ≡ without K.cmp added.old.items pool.old.entries }
{
    for id in all {
        add_new(pool, added, party, *id)?;
    }
    Ok(())
}

// Notes the ids that a party brings, and the others that it names. Those that aren't there yet go to the end of the new ones.
fn add_all<K: Ord + Copy + Drop>(
    pool: &mut Pool<K>,
    added: &mut Vec<K>,
    number: u32,
    fresh: &[K],
    named: &[K],
) -> Result<(), OutOfMemory>
    ensures ok { OnOk result (pool.new.entries ≡ ids.with_ids K.cmp (ids.ids_of number fresh.now named.now) pool.old.entries) }
    ensures back { without K.cmp added.new.items pool.new.entries ≡ without K.cmp added.old.items pool.old.entries }
{
    add_each(pool, added, Some(number), fresh)?;
    add_each(pool, added, None, named)?;
    Ok(())
}

/// Takes these ids out, the last one first.
pub(crate) fn take_back<K: Ord + Copy + Drop>(pool: &mut Pool<K>, mut added: Vec<K>)
    ensures { pool.new.entries ≡ without K.cmp added.items pool.old.entries }
{
    while let Some(id) = added.pop() {
        pool.remove(&id);
    }
}

/// Notes the ids that a party brings and the others that it names, or none of them. Gives the new ones: once they are taken out again,
/// the last one first, the pool is as it was.
pub(crate) fn add_ids<K: Ord + Copy + Drop>(
    alloc: Global,
    pool: &mut Pool<K>,
    number: u32,
    fresh: &[K],
    named: &[K],
) -> Result<Vec<K>, OutOfMemory>
    ensures ok { OnOk result (pool.new.entries ≡ ids.with_ids K.cmp (ids.ids_of number fresh.now named.now) pool.old.entries) }
    ensures back { IfOk result (λ added. without K.cmp added.items pool.new.entries ≡ pool.old.entries) }
    ensures err { OnErr result (pool.new.entries ≡ pool.old.entries) }
{
    let mut added = Vec::new(alloc);
    match add_all(pool, &mut added, number, fresh, named) {
        Ok(()) => Ok(added),
        Err(e) => {
            take_back(pool, added);
            Err(e)
        }
    }
}

// These ids, in order.
fn set_of<K: Ord + Copy + Drop>(alloc: Global, all: &[K]) -> Result<BTreeSet<K>, OutOfMemory>
    ensures { IfOk result (λ set. (id : K) → contains K.cmp set id ≡ list_any (is_at (K.cmp id)) all.now) }
{
    let mut set = BTreeSet::new(alloc);
    for id in all {
        set.insert(*id)?;
    }
    Ok(set)
}

// Whether an id is in the pool or in the set.
fn is_known<K: Ord + Copy + Drop>(pool: &Pool<K>, seen: &BTreeSet<K>, id: &K) -> bool
    ensures { result ≡ (ids.is_carried K.cmp id.now pool.now.entries || contains K.cmp seen.now id.now) }
{
    pool.contains_key(id) || seen.contains(id)
}

/// Whether one of the fresh ids is in the pool, or comes again among themselves or the named ones.
pub(crate) fn is_stale_among<K: Ord + Copy + Drop>(
    alloc: Global,
    pool: &Pool<K>,
    fresh: &[K],
    named: &[K],
) -> Result<bool, OutOfMemory>
    ensures { IfOk result (λ stale. stale ≡ ids.is_stale_among K.cmp fresh.now named.now pool.now.entries) }
{
    let mut seen = set_of(alloc, named)?;
    for id in fresh {
        if is_known(pool, &seen, id) {
            return Ok(true);
        }
        seen.insert(*id)?;
    }
    Ok(false)
}
