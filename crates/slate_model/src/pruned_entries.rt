//! Entries of other databases without the tables that no view uses.
ghost use Rattle.std.specs.Prelude.{◌≡◌, map, filter};
ghost use Rattle.slate_model.specs.Externals as externals;
ghost use Rattle.slate_model.specs.Externals.{pruned};

use crate::external_db::ExternalDb;
use crate::manifest::Manifest;
use crate::manifest_core::ManifestCore;
use crate::owned_tables::same_table;
use slate_ids::Listed;
use slate_model_tables::SsTableId;
use std::mem;

// Whether a view of any tree is of this table.
fn is_used(core: &ManifestCore, id: &SsTableId) -> bool
    ensures { result ≡ externals.is_used core.now id.now }
{
    for view in core.views() {
        if same_table(id, &view.sst.id) {
            return true;
        }
    }
    false
}

// The values of a list, which has none then.
fn taken<T>(list: &mut Listed<T>) -> Vec<T>
    ensures { result.items ≡ list.old }
{
    let alloc = *list.as_vec().allocator();
    mem::replace(list, Listed::new(alloc)).into_vec()
}

// Leaves out the tables that no view uses.
fn keep_used(core: &ManifestCore, ids: &mut Vec<SsTableId>)
    ensures { ids.new.items ≡ filter (externals.is_used core.now) ids.old.items }
{
    ids.retain(|id| is_used(core, id));
}

// Leaves out of an entry the tables that no view uses.
fn prune(core: &ManifestCore, entry: &mut ExternalDb)
    ensures { entry.new ≡ externals.pruned_entry core.now entry.old }
{
    let mut ids = taken(&mut entry.sst_ids);
    keep_used(core, &mut ids);
    drop(mem::replace(&mut entry.sst_ids, Listed::from_vec(ids)));
}

// Leaves out of each entry the tables that no view uses.
fn prune_all(core: &ManifestCore, entries: &mut [ExternalDb])
    ensures { entries.new ≡ map (externals.pruned_entry core.now) entries.old }
{
    for entry in entries.iter_mut() {
        prune(core, entry);
    }
}

impl Manifest {
    /// Leaves out of each entry the tables that no view of this manifest uses. An entry stays, also without tables. Takes no memory.
    pub fn prune_external_sst_ids(&mut self)
        ensures { self.new ≡ pruned self.old }
    {
        let mut entries = taken(&mut self.external_dbs);
        prune_all(&self.core, entries.as_mut_slice());
        drop(mem::replace(&mut self.external_dbs, Listed::from_vec(entries)));
    }
}
