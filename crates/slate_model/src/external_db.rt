//! What a database shares with another.
ghost use Rattle.std.specs.Prelude.{◌≡◌, IfOk};
ghost use Rattle.slate_model.specs.Externals as externals;

use crate::owned_tables::same_table;
use slate_ids::{CheckpointId, DbPath, Listed, OutOfMemory};
use slate_model_tables::{Plain, SsTableId};
use std::alloc::Global;

/// An entry of a manifest: another database, of whose tables this one uses some.
#[derive(Debug, Drop)]
pub struct ExternalDb {
    /// Where the other database is.
    pub path: DbPath,
    /// The checkpoint of the other database that it was made from.
    pub source_checkpoint_id: CheckpointId,
    /// The checkpoint of the other database that keeps the tables, once it is made.
    pub final_checkpoint_id: Option<CheckpointId>,
    /// The tables.
    pub sst_ids: Listed<SsTableId>,
}

impl ExternalDb {
    /// Whether the entry lists a table.
    pub fn lists(&self, id: &SsTableId) -> bool
        ensures { result ≡ externals.lists id.now self.now }
    {
        let ids = self.sst_ids.as_slice();
        ids.iter().any(|listed| same_table(id, listed))
    }

    /// An equal value. It shares the keys.
    pub fn clone(&self, alloc: Global) -> Result<ExternalDb, OutOfMemory>
        ensures { IfOk result (λ copied. copied ≡ self.now) }
    {
        Ok(ExternalDb {
            path: self.path,
            source_checkpoint_id: self.source_checkpoint_id,
            final_checkpoint_id: self.final_checkpoint_id,
            sst_ids: self.sst_ids.copy(alloc)?,
        })
    }
}

impl Plain for ExternalDb {
    fn clone(&self, alloc: Global) -> Result<ExternalDb, OutOfMemory> {
        ExternalDb::clone(self, alloc)
    }

    fn is(&self, other: &ExternalDb) -> bool {
        Plain::is(&self.path, &other.path)
            && Plain::is(&self.source_checkpoint_id, &other.source_checkpoint_id)
            && self.final_checkpoint_id.is(&other.final_checkpoint_id)
            && self.sst_ids.is(&other.sst_ids)
    }
}
