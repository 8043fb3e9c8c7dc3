//! Folders that can be listed.
ghost use Rattle.std.specs.Prelude.{◌≡◌};
ghost use Rattle.slate_store.specs.Folders.{is_in};

use slate_ids::{DbPath, ObjectPath};

/// The objects of one kind of a database, or all of them.
#[derive(Clone, Copy, Debug)]
pub enum ListDir {
    Manifests(DbPath),
    Records(DbPath),
    Tables(DbPath),
    Wals(DbPath),
    All(DbPath),
}

impl ListDir {
    /// Whether the folder lists this path.
    #[tactic(auto, using(crate::proofs::Folders::same_name))]
    pub fn lists(&self, path: &ObjectPath) -> bool
        ensures { result ≡ is_in self.now path.now }
    {
        match (self, path) {
            (ListDir::Manifests(db), ObjectPath::Manifest(of, _)) => db == of,
            (ListDir::Records(db), ObjectPath::Record(of, _)) => db == of,
            (ListDir::Tables(db), ObjectPath::Table(of, _)) => db == of,
            (ListDir::Wals(db), ObjectPath::Wal(of, _)) => db == of,
            (ListDir::All(db), any) => db == any.db(),
            _ => false,
        }
    }
}
