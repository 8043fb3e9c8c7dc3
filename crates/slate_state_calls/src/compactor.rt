//! What a compactor holds of a database that it opened.
ghost use Rattle.std.specs.Prelude.{◌≡◌, IfOk};
ghost use Rattle.slate_state_compactor.specs.Local.{opened};
ghost use Rattle.slate_state_calls.specs.Compactors.{with_local, with_manifest, with_record};

use slate_ids::OutOfMemory;
use slate_model::{Compactions, Manifest, Plain};
use slate_state_compactor::LocalState;
use std::alloc::Global;
use std::mem;

/// What a compactor holds of a database that it opened: the epoch that it committed in the manifest and in the record, the versions of both
/// that a phrase of its calls last ended well with, and what it holds between its calls.
#[derive(Drop)]
pub struct Compactor {
    /// The epoch that it committed in both logs.
    pub epoch: u64,
    /// The number of the record that it holds.
    pub record_id: u64,
    /// That record.
    pub compactions: Compactions,
    /// The number of the manifest that it holds.
    pub manifest_id: u64,
    /// That manifest.
    pub manifest: Manifest,
    /// Its trees, its record, and the compactions that no manifest has yet.
    pub local: LocalState,
}

impl Compactor {
    /// Holds this version of the record. Takes no memory.
    pub fn hold_record(&mut self, id: u64, compactions: Compactions)
        ensures { self.new ≡ with_record (id, compactions) self.old }
    {
        self.record_id = id;
        drop(mem::replace(&mut self.compactions, compactions));
    }

    /// Holds this version of the manifest. Takes no memory.
    pub fn hold_manifest(&mut self, id: u64, manifest: Manifest)
        ensures { self.new ≡ with_manifest (id, manifest) self.old }
    {
        self.manifest_id = id;
        drop(mem::replace(&mut self.manifest, manifest));
    }

    /// Has this local state. Takes no memory.
    pub fn hold_local(&mut self, local: LocalState)
        ensures { self.new ≡ with_local local self.old }
    {
        drop(mem::replace(&mut self.local, local));
    }
}

/// What a compactor holds between its calls after an open, of the manifest and the record that it committed last.
pub(crate) fn local_at_open(
    alloc: Global,
    manifest: &Manifest,
    compactions: &Compactions,
) -> Result<LocalState, OutOfMemory>
    ensures { IfOk result (λ local. local ≡ opened manifest.now.core compactions.now) }
{
    let copied = Plain::clone(compactions, alloc)?;
    LocalState::opened(alloc, &manifest.core, copied)
}
