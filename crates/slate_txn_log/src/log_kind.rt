//! The two logs of a database.
ghost use Rattle.std.specs.Prelude.{◌≡◌};
ghost use Rattle.slate_txn_log.specs.LogPaths.{version_path, boundary_path, folder, number_of};

use slate_ids::{DbPath, ObjectPath};
use slate_store::ListDir;

/// Which log of a database.
#[derive(Clone, Copy, Debug)]
pub enum LogKind {
    /// The manifests.
    Manifest,
    /// The compaction records.
    Compactions,
}

impl LogKind {
    /// Where a version lies.
    pub fn version_path(&self, db: DbPath, number: u64) -> ObjectPath
        ensures { result ≡ version_path self.now db number }
    {
        match self {
            LogKind::Manifest => ObjectPath::Manifest(db, number),
            LogKind::Compactions => ObjectPath::Record(db, number),
        }
    }

    /// Where the boundary lies.
    pub fn boundary_path(&self, db: DbPath) -> ObjectPath
        ensures { result ≡ boundary_path self.now db }
    {
        match self {
            LogKind::Manifest => ObjectPath::ManifestBoundary(db),
            LogKind::Compactions => ObjectPath::RecordBoundary(db),
        }
    }

    /// The folder of the versions.
    pub fn folder(&self, db: DbPath) -> ListDir
        ensures { result ≡ folder self.now db }
    {
        match self {
            LogKind::Manifest => ListDir::Manifests(db),
            LogKind::Compactions => ListDir::Records(db),
        }
    }

    /// The number of a version of this log.
    pub fn number_of(&self, path: &ObjectPath) -> Option<u64>
        ensures { result ≡ number_of self.now path.now }
    {
        match (self, path) {
            (LogKind::Manifest, ObjectPath::Manifest(_, n)) => Some(*n),
            (LogKind::Compactions, ObjectPath::Record(_, n)) => Some(*n),
            _ => None,
        }
    }
}
