//! Paths of objects.
ghost use Rattle.std.specs.Prelude.{◌≡◌, IfOk, refl};
ghost use Rattle.std.specs.Ordering.{eq_by_cmp, as_partial_cmp};
ghost use Rattle.std.specs.Cmp.{partial_equiv_from_equiv, partial_order_from_total};
ghost use Rattle.std.specs.Cmp.Lexicographic.{on_texts};
ghost use Rattle.std.proofs.lemmas.Cmp.{eq_by_cmp_equiv};
ghost use Rattle.slate_ids.specs.PathText.{db_of, path_cmp, path_text};

use crate::db_path::DbPath;
use crate::out_of_memory::OutOfMemory;
use crate::path_order::compare;
use crate::path_pieces::{Name, Pieces};
use crate::path_rest::PathRest;
use crate::ulid::Ulid;
use std::alloc::Global;
use std::cmp::Ordering;
use std::fmt;

/// Where an object lies: its kind, its database, and what tells it from others of its kind.
#[derive(Debug, Drop)]
pub enum ObjectPath {
    /// A version of the manifest.
    Manifest(DbPath, u64),
    /// A version of the compaction record.
    Record(DbPath, u64),
    /// The number up to which manifests were collected.
    ManifestBoundary(DbPath),
    /// The number up to which records were collected.
    RecordBoundary(DbPath),
    /// A table.
    Table(DbPath, Ulid),
    /// A file of the write-ahead log.
    Wal(DbPath, u64),
    /// The mark of a database that is being deleted.
    Marker(DbPath),
    /// Any other object of a database.
    Other(DbPath, PathRest),
}

impl ObjectPath {
    /// The database.
    pub fn db(&self) -> &DbPath
        ensures { result.now ≡ db_of self.now }
    {
        match self {
            ObjectPath::Manifest(db, _) => db,
            ObjectPath::Record(db, _) => db,
            ObjectPath::ManifestBoundary(db) => db,
            ObjectPath::RecordBoundary(db) => db,
            ObjectPath::Table(db, _) => db,
            ObjectPath::Wal(db, _) => db,
            ObjectPath::Marker(db) => db,
            ObjectPath::Other(db, _) => db,
        }
    }

    /// An equal value.
    pub fn copy(&self, alloc: Global) -> Result<ObjectPath, OutOfMemory>
        ensures { IfOk result (λ copied. copied ≡ self.now) }
    {
        Ok(match self {
            ObjectPath::Manifest(db, n) => ObjectPath::Manifest(*db, *n),
            ObjectPath::Record(db, n) => ObjectPath::Record(*db, *n),
            ObjectPath::ManifestBoundary(db) => ObjectPath::ManifestBoundary(*db),
            ObjectPath::RecordBoundary(db) => ObjectPath::RecordBoundary(*db),
            ObjectPath::Table(db, id) => ObjectPath::Table(*db, *id),
            ObjectPath::Wal(db, n) => ObjectPath::Wal(*db, *n),
            ObjectPath::Marker(db) => ObjectPath::Marker(*db),
            ObjectPath::Other(db, rest) => ObjectPath::Other(*db, rest.copy(alloc)?),
        })
    }
}

impl PartialEq for ObjectPath {
    ghost eq = { eq_by_cmp path_cmp };

    ghost laws = { partial_equiv_from_equiv (eq_by_cmp_equiv (on_texts path_text)) };

    fn eq(&self, other: &ObjectPath) -> bool {
        self.cmp(other).is_eq()
    }
}

impl Eq for ObjectPath {
    ghost laws = { eq_by_cmp_equiv (on_texts path_text) };
}

impl PartialOrd for ObjectPath {
    ghost partial_cmp = { as_partial_cmp path_cmp };

    ghost laws = { partial_order_from_total (on_texts path_text) };

    fn partial_cmp(&self, other: &ObjectPath) -> Option<Ordering> {
        Some(self.cmp(other))
    }
}

/// Paths order as their texts, byte by byte.
impl Ord for ObjectPath {
    ghost cmp = { path_cmp };

    ghost total = { on_texts path_text };

    ghost matches_partial_cmp = { λ _ _. refl };

    ghost matches_eq = { λ _ _. refl };

    fn cmp(&self, other: &ObjectPath) -> Ordering {
        compare(self, other)
    }
}

impl fmt::Display for ObjectPath {
    ghost use Rattle.std.specs.Prelude.{Some};

    ghost output = { λ p. Some (path_text p) };

    fn fmt<W: fmt::Write>(&self, f: &mut fmt::Formatter<W>) -> fmt::Result {
        let name = Name::of(self);
        let pieces = Pieces::of(self, &name);
        write!(f, "{pieces}")
    }
}
