//! A path's text in pieces, with no memory taken.
ghost use Rattle.std.specs.Prelude.{◌≡◌};
ghost use Rattle.std.specs.Ordering.{nat_cmp};
ghost use Rattle.std.specs.Cmp.Lexicographic.{slice_cmp};
ghost use Rattle.std.specs.Str.{IsUtf8};
ghost use Rattle.slate_ids.specs.PathText.{path_text};
ghost use Rattle.slate_ids.specs.Twenty.{twenty};
ghost use Rattle.slate_ids.specs.Pieces.{joined, name_letters, name_of};

use crate::folder::{Folder, MANIFEST_BOUNDARY, MARKER, RECORD_BOUNDARY};
use crate::letters::text_of;
use crate::numeral::write_numeral;
use crate::object_path::ObjectPath;
use std::cmp::Ordering;
use std::fmt;

/// The digits of a path's number or id.
#[derive(Clone, Copy)]
pub(crate) enum Name {
    Number([u8; 20]),
    Id([u8; 26]),
    Nothing,
}

/// A path's text: its database, and after a `/` what stands before its name, its name and what ends it.
#[derive(Clone, Copy)]
pub(crate) struct Pieces<'a> {
    db: &'a str,
    front: &'a str,
    name: &'a str,
    suffix: &'a str,
}

// Twenty digits of a number.
fn twenty_digits(n: u64) -> [u8; 20]
    ensures digits { result ≡ twenty n }
    ensures text { IsUtf8 (twenty n) }
{
    let mut block = [0; 20];
    write_numeral(&mut block, b"0123456789", n as u128);
    block
}

impl Name {
    /// The digits of a path's number or id.
    pub(crate) fn of(path: &ObjectPath) -> Name
        ensures name { name_letters result ≡ name_of path.now }
        ensures text { IsUtf8 (name_of path.now) }
    {
        match path {
            ObjectPath::Manifest(_, n) | ObjectPath::Record(_, n) | ObjectPath::Wal(_, n) => {
                Name::Number(twenty_digits(*n))
            }
            ObjectPath::Table(_, id) => Name::Id(id.letters()),
            _ => Name::Nothing,
        }
    }

    fn as_str(&self) -> &str
        requires { IsUtf8 (name_letters self.now) }
        ensures { result.now ≡ name_letters self.now }
    {
        match self {
            Name::Number(block) => text_of(block),
            Name::Id(block) => text_of(block),
            Name::Nothing => "",
        }
    }
}

impl<'a> Pieces<'a> {
    /// The pieces of a path with this name.
    pub(crate) fn of(path: &'a ObjectPath, name: &'a Name) -> Pieces<'a>
        requires name { name_letters name.now ≡ name_of path.now }
        requires text { IsUtf8 (name_of path.now) }
        ensures { joined result ≡ path_text path.now }
    {
        let db = path.db().as_str();
        let name = name.as_str();
        let (front, suffix): (&str, &str) = match path {
            ObjectPath::Manifest(_, _) => (Folder::Manifests.front(), Folder::Manifests.suffix()),
            ObjectPath::Record(_, _) => (Folder::Records.front(), Folder::Records.suffix()),
            ObjectPath::ManifestBoundary(_) => (MANIFEST_BOUNDARY, ""),
            ObjectPath::RecordBoundary(_) => (RECORD_BOUNDARY, ""),
            ObjectPath::Table(_, _) => (Folder::Tables.front(), Folder::Tables.suffix()),
            ObjectPath::Wal(_, _) => (Folder::Wals.front(), Folder::Wals.suffix()),
            ObjectPath::Marker(_) => (MARKER, ""),
            ObjectPath::Other(_, rest) => (rest.as_str(), ""),
        };
        Pieces {
            db,
            front,
            name,
            suffix,
        }
    }

    /// Compares the texts.
    pub(crate) fn compare(&self, other: &Pieces<'_>) -> Ordering
        ensures { result ≡ slice_cmp nat_cmp (joined self.now) (joined other.now) }
    {
        let own = self
            .db
            .as_bytes()
            .iter()
            .chain(b"/".as_slice())
            .chain(self.front.as_bytes())
            .chain(self.name.as_bytes())
            .chain(self.suffix.as_bytes());
        let others = other
            .db
            .as_bytes()
            .iter()
            .chain(b"/".as_slice())
            .chain(other.front.as_bytes())
            .chain(other.name.as_bytes())
            .chain(other.suffix.as_bytes());
        own.cmp(others)
    }
}

impl fmt::Display for Pieces<'_> {
    ghost use Rattle.std.specs.Prelude.{Some};

    ghost output = { λ p. Some (joined p) };

    fn fmt<W: fmt::Write>(&self, f: &mut fmt::Formatter<W>) -> fmt::Result {
        let db = self.db;
        let front = self.front;
        let name = self.name;
        let suffix = self.suffix;
        write!(f, "{db}/{front}{name}{suffix}")
    }
}
