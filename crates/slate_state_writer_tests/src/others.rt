//! What other holders make of the manifest.

use crate::test_lives::db;
use bytes::Bytes;
use slate_model::{ManifestCore, Plain, Queue};
use slate_state_holders::StoredManifest;
use slate_store::MemoryStore;
use slate_txn_log::Right;
use std::alloc::Global;
use std::mem;
use std::process::Abort;

/// What another holder makes of the manifest.
#[derive(Clone, Copy, Debug)]
pub(crate) enum Other {
    /// It isn't initialised.
    Uninitialised,
    /// Its root has no views.
    NoViews,
    /// It has the segment `p`, with the views of its root.
    Segment,
    /// It has no segments.
    NoSegments,
}

/// Gives a manifest the segment `p`.
fn segmented(rt: &impl Abort, alloc: Global, core: &mut ManifestCore) {
    let prefix = Bytes::from("p");
    let tree = Plain::clone(&core.tree, alloc).expect(rt, "memory");
    let place = core.maybe_insert_tree(alloc, &prefix).expect(rt, "memory");
    drop(mem::replace(place, tree));
    drop(prefix);
}

/// Commits it.
pub(crate) fn rewritten(rt: &impl Abort, alloc: Global, store: &mut MemoryStore, other: Other) {
    let mut holder = StoredManifest::load(alloc, store, db(rt), 1).expect(rt, "a manifest");
    let mut dirty = holder.prepare_dirty(alloc).expect(rt, "memory");
    let core = &mut dirty.value.core;
    match other {
        Other::Uninitialised => core.initialized = false,
        Other::NoViews => drop(mem::replace(&mut core.tree.l0, Queue::new(alloc))),
        Other::NoSegments => core.set_segments(Vec::new(alloc)),
        Other::Segment => segmented(rt, alloc, core),
    }
    holder
        .update(alloc, store, dirty, &Right::Plain, 2200)
        .expect(rt, "a version");
    drop(holder);
}
