//! The tables that a database owns, and those that it shares with others.

use crate::test_values::{core_with, entry_of, segment_of, table, tables, tree_of};
use slate_ids::DbPath;
use slate_model::{ExternalDb, Manifest, ManifestCore, Segment, SsTableId};
use std::alloc::Global;
use std::mem;
use std::process::Abort;

type Moments = &'static [u32];

/// The tables that an entry lists, and those that are left of them when it is pruned.
const PRUNED: [(Moments, Moments); 4] = [
    (&[1, 2], &[2]),
    (&[7, 6], &[]),
    (&[4, 8, 5], &[4, 5]),
    (&[], &[]),
];

/// The tables that an entry lists, and those that the database owns.
const OWNED: [(Moments, Moments); 3] = [
    (&[2, 3, 4, 5, 9], &[]),
    (&[1, 2], &[5, 3, 5, 9, 4]),
    (&[5], &[3, 2, 9, 4]),
];

/// The segments `a` and `c` with tables 2, and 9 and 4.
fn segments(rt: &impl Abort, alloc: Global) -> Vec<Segment> {
    let mut segments = Vec::new(alloc);
    let first = segment_of(rt, alloc, "a", &[table(2)], &[]);
    segments.push(first).expect(rt, "memory");
    let second = segment_of(rt, alloc, "c", &[], &[table(9), table(4)]);
    segments.push(second).expect(rt, "memory");
    segments
}

/// A manifest whose root has table 5 twice, newer and in a run, whose segments `a` and `c` have tables 2, and 9 and 4, and whose
/// one entry has path `p` and lists these tables.
fn manifest_of(rt: &impl Abort, alloc: Global, listed: &[u32]) -> Manifest {
    let mut core = core_with(rt, alloc, segments(rt, alloc));
    let root = tree_of(rt, alloc, &[table(5), table(3)], &[table(5)]);
    drop(mem::replace(&mut core.tree, root));
    with_entry(rt, alloc, core, listed)
}

/// A manifest of this database, whose one entry lists these tables.
fn with_entry(rt: &impl Abort, alloc: Global, core: ManifestCore, listed: &[u32]) -> Manifest {
    let mut manifest = Manifest::initial(alloc, core);
    let entry = entry_of(rt, "p", tables(rt, alloc, listed));
    manifest.external_dbs.push(entry).expect(rt, "memory");
    manifest
}

/// Whether the only entry has path `p` and lists these tables.
fn is_only(entries: &[ExternalDb], ids: &[SsTableId]) -> bool {
    match entries {
        [entry] => entry.path.as_str() == "p" && entry.sst_ids.as_slice() == ids,
        _ => false,
    }
}

/// The manifest with an entry of these tables, after it is pruned.
fn pruned(rt: &impl Abort, alloc: Global, listed: &[u32]) -> Manifest {
    let mut manifest = manifest_of(rt, alloc, listed);
    manifest.prune_external_sst_ids();
    manifest
}

/// Whether pruning leaves these of the tables that are listed, and the entry.
fn leaves(rt: &impl Abort, alloc: Global, listed: &[u32], left: &[u32]) -> bool {
    let manifest = pruned(rt, alloc, listed);
    let left = tables(rt, alloc, left);
    let is_so = is_only(manifest.external_dbs.as_slice(), left.as_slice());
    drop(left);
    drop(manifest);
    is_so
}

#[test]
fn a_pruned_entry_lists_what_views_use(rt: HostRuntime) {
    for (listed, left) in &PRUNED {
        assert!(rt; leaves(&rt, rt.alloc(), listed, left), "at {listed:?}");
    }
}

/// The tables that a database with an entry of these owns.
fn owned_of(rt: &impl Abort, alloc: Global, listed: &[u32]) -> Vec<SsTableId> {
    let manifest = manifest_of(rt, alloc, listed);
    let owned = manifest.owned_ssts(alloc);
    drop(manifest);
    owned.expect(rt, "memory")
}

/// Whether a database with an entry of these tables owns those.
fn owns(rt: &impl Abort, alloc: Global, listed: &[u32], owned: &[u32]) -> bool {
    let found = owned_of(rt, alloc, listed);
    let owned = tables(rt, alloc, owned);
    let is_so = found.as_slice() == owned.as_slice();
    drop(owned);
    drop(found);
    is_so
}

#[test]
fn owns_what_no_entry_lists(rt: HostRuntime) {
    for (listed, owned) in &OWNED {
        assert!(rt; owns(&rt, rt.alloc(), listed, owned), "at {listed:?}");
    }
}

/// Whether the only shared table is this one, of path `p`.
fn is_shared(shared: &[(SsTableId, DbPath)], id: SsTableId) -> bool {
    match shared {
        [(found, path)] => *found == id && path.as_str() == "p",
        _ => false,
    }
}

/// The tables that a database with an entry of these shares.
fn shared_of(rt: &impl Abort, alloc: Global, listed: &[u32]) -> Vec<(SsTableId, DbPath)> {
    let manifest = manifest_of(rt, alloc, listed);
    let shared = manifest.external_ssts(alloc);
    drop(manifest);
    shared.expect(rt, "memory")
}

#[test]
fn shares_tables_by_path(rt: HostRuntime) {
    let shared = shared_of(&rt, rt.alloc(), &[1]);
    let is_so = is_shared(shared.as_slice(), table(1));
    drop(shared);
    assert!(rt; is_so);
}
