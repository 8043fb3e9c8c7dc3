//! Paths of objects as texts, both ways.
ghost use Rattle.std.specs.Prelude.{◌≡◌, ◌<◌, ◌^◌, Some, None, IfOk, IfSome, string_bytes};
ghost use Rattle.slate_ids.specs.PathText.{path_text};
ghost use Rattle.slate_ids.specs.PathOf.{parts_path, path_of, path_with};

use crate::db_path::DbPath;
use crate::object_path::ObjectPath;
use crate::out_of_memory::OutOfMemory;
use crate::path_kind::{PathKind, kind_of};
use crate::path_rest::PathRest;
use std::alloc::Global;

// The path of a kind in a database.
fn path_with(db: DbPath, kind: PathKind) -> ObjectPath
    ensures { result ≡ path_with db kind }
{
    match kind {
        PathKind::Manifest(n) => ObjectPath::Manifest(db, n),
        PathKind::Record(n) => ObjectPath::Record(db, n),
        PathKind::ManifestBoundary => ObjectPath::ManifestBoundary(db),
        PathKind::RecordBoundary => ObjectPath::RecordBoundary(db),
        PathKind::Table(id) => ObjectPath::Table(db, id),
        PathKind::Wal(n) => ObjectPath::Wal(db, n),
        PathKind::Marker => ObjectPath::Marker(db),
    }
}

// The path of a database's name and what follows it.
#[tactic(auto, unfolding(crate::specs::PathOf::parts_path, crate::specs::PathKind::is_rest))]
fn parts_path(alloc: Global, db: &str, rest: &str) -> Result<Option<ObjectPath>, OutOfMemory>
    ensures { IfOk result (λ path. path ≡ parts_path db.now rest.now) }
{
    let Some(db) = DbPath::from_letters(db.as_bytes()) else {
        return Ok(None);
    };
    if rest.is_empty() {
        return Ok(None);
    }
    Ok(Some(match kind_of(rest.as_bytes()) {
        Some(kind) => path_with(db, kind),
        None => ObjectPath::Other(db, PathRest::copy_of(alloc, rest)?),
    }))
}

// A number is below 2^64.
fn fits(n: u64)
    ensures { n < 2 ^ 64 }
{}

impl ObjectPath {
    /// Says that a path is read back from its text, so that paths of equal texts are equal. Changes nothing, takes no memory.
    pub fn read_back(&self)
        ensures { path_of (path_text self.now) ≡ Some self.now }
    {
        match self {
            ObjectPath::Manifest(db, n) => {
                db.letters();
                fits(*n);
            }
            ObjectPath::Record(db, n) => {
                db.letters();
                fits(*n);
            }
            ObjectPath::ManifestBoundary(db) => {
                db.letters();
            }
            ObjectPath::RecordBoundary(db) => {
                db.letters();
            }
            ObjectPath::Table(db, id) => {
                db.letters();
                id.letters();
            }
            ObjectPath::Wal(db, n) => {
                db.letters();
                fits(*n);
            }
            ObjectPath::Marker(db) => {
                db.letters();
            }
            ObjectPath::Other(db, rest) => {
                db.letters();
                rest.as_str();
            }
        }
    }

    /// The path's text, which is read back as the path.
    pub fn to_text(&self, alloc: Global) -> Result<String, OutOfMemory>
        ensures text { IfOk result (λ text. string_bytes text ≡ path_text self.now) }
        ensures read_back { path_of (path_text self.now) ≡ Some self.now }
    {
        self.read_back();
        let mut text = String::new(alloc);
        write!(text, "{self}")?;
        Ok(text)
    }

    /// The path of a text: none exactly where the text before the first `/` names no database or nothing follows it. Its kind is
    /// the one whose form the text has, and any other text is the path of some other object.
    pub fn from_text(alloc: Global, text: &str) -> Result<Option<ObjectPath>, OutOfMemory>
        ensures path { IfOk result (λ path. path ≡ path_of text.now) }
        ensures shown { IfOk result (λ path. IfSome path (λ p. path_text p ≡ text.now)) }
    {
        match text.split_once('/') {
            Some((db, rest)) => parts_path(alloc, db, rest),
            None => Ok(None),
        }
    }
}
