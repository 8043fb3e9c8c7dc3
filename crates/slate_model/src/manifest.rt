//! A manifest.
ghost use Rattle.std.specs.Prelude.{◌≡◌, IfOk};
ghost use Rattle.slate_model.specs.Manifests.{initial_manifest};

use crate::external_db::ExternalDb;
use crate::manifest_core::ManifestCore;
use slate_ids::{Listed, OutOfMemory, clone_both};
use slate_model_tables::Plain;
use std::alloc::Global;

/// What a version of a database's log holds.
#[derive(Debug, Drop)]
pub struct Manifest {
    /// The other databases whose tables this one uses.
    pub external_dbs: Listed<ExternalDb>,
    /// What it says of the database itself.
    pub core: ManifestCore,
    /// The epoch of the last writer that opened the database.
    pub writer_epoch: u64,
    /// The epoch of the last compactor that opened the database.
    pub compactor_epoch: u64,
}

impl Manifest {
    /// The first manifest of a database: epochs 0, no other databases. Takes no memory.
    pub fn initial(alloc: Global, core: ManifestCore) -> Manifest
        ensures { result ≡ initial_manifest core }
    {
        Manifest {
            external_dbs: Listed::new(alloc),
            core,
            writer_epoch: 0,
            compactor_epoch: 0,
        }
    }

    /// An equal value. It shares the keys.
    pub fn clone(&self, alloc: Global) -> Result<Manifest, OutOfMemory>
        ensures { IfOk result (λ copied. copied ≡ self.now) }
    {
        let (external_dbs, core) = clone_both(alloc, &self.external_dbs, &self.core)?;
        Ok(Manifest {
            external_dbs,
            core,
            writer_epoch: self.writer_epoch,
            compactor_epoch: self.compactor_epoch,
        })
    }
}

impl Plain for Manifest {
    fn clone(&self, alloc: Global) -> Result<Manifest, OutOfMemory> {
        Manifest::clone(self, alloc)
    }

    fn is(&self, other: &Manifest) -> bool {
        self.external_dbs.is(&other.external_dbs)
            && self.core.is(&other.core)
            && self.writer_epoch == other.writer_epoch
            && self.compactor_epoch == other.compactor_epoch
    }
}
