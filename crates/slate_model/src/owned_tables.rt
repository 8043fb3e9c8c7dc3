//! Which tables a database owns, and which it shares with others.
ghost use Rattle.std.specs.Prelude.{◌≡◌, ◌++◌, IfOk, OnOk};
ghost use Rattle.std.specs.List.{list_any};
ghost use Rattle.slate_model.specs.Externals as externals;
ghost use Rattle.slate_model.specs.Externals.{owned, external, shared_by};

use crate::external_db::ExternalDb;
use crate::manifest::Manifest;
use slate_ids::{DbPath, OutOfMemory};
use slate_model_tables::SsTableId;
use std::alloc::Global;

// Whether two ids are of one table.
pub(crate) fn same_table(a: &SsTableId, b: &SsTableId) -> bool
    ensures { result ≡ externals.same_table a.now b.now }
{
    a == b
}

// Whether one of these entries lists this table.
fn is_listed(id: &SsTableId, entries: &[ExternalDb]) -> bool
    ensures { result ≡ list_any (externals.lists id.now) entries.now }
{
    entries.iter().any(|entry| entry.lists(id))
}

// Whether no entry lists this table.
fn is_owned(entries: &[ExternalDb], id: &SsTableId) -> bool
    ensures { result ≡ externals.is_owned entries.now id.now }
{
    !is_listed(id, entries)
}

// Adds the tables of an entry, with its path.
fn push_shared(shared: &mut Vec<(SsTableId, DbPath)>, entry: &ExternalDb) -> Result<(), OutOfMemory>
    ensures { OnOk result (shared.new.items ≡ shared.old.items ++ shared_by entry.now) }
{
    for id in entry.sst_ids.as_slice() {
        shared.push((*id, entry.path))?;
    }
    Ok(())
}

impl Manifest {
    /// The tables of views that no entry of another database lists, as often as views are of them: tree by tree, those that flushes
    /// wrote first, the newest before the others, then those of the sorted runs.
    pub fn owned_ssts(&self, alloc: Global) -> Result<Vec<SsTableId>, OutOfMemory>
        ensures { IfOk result (λ ids. ids.items ≡ owned self.now) }
    {
        let mut ids = Vec::new(alloc);
        for view in self.core.views() {
            if is_owned(self.external_dbs.as_slice(), &view.sst.id) {
                match ids.push(view.sst.id) {
                    Ok(()) => {}
                    Err(e) => {
                        drop(ids);
                        return Err(OutOfMemory::from(e));
                    }
                }
            }
        }
        Ok(ids)
    }

    /// The tables that the entries of other databases list, each with the path of its entry, in order.
    pub fn external_ssts(&self, alloc: Global) -> Result<Vec<(SsTableId, DbPath)>, OutOfMemory>
        ensures { IfOk result (λ shared. shared.items ≡ external self.now) }
    {
        let mut shared = Vec::new(alloc);
        for entry in self.external_dbs.as_slice() {
            match push_shared(&mut shared, entry) {
                Ok(()) => {}
                Err(e) => {
                    drop(shared);
                    return Err(e);
                }
            }
        }
        Ok(shared)
    }
}
