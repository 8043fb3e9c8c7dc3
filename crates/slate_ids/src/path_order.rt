//! How paths order: as their texts, which are made only where no shorter look decides.
ghost use Rattle.std.specs.Prelude.{◌≡◌, ◌<◌, ◌^◌, length};
ghost use Rattle.std.specs.Ordering.{nat_cmp};
ghost use Rattle.std.specs.Cmp.Lexicographic.{slice_cmp};
ghost use Rattle.std.specs.declared.cmp.Ordering.TheVariants.{Equal};
ghost use Rattle.slate_ids.specs.PathText.{db_of, path_cmp};

use crate::object_path::ObjectPath;
use crate::path_pieces::{Name, Pieces};
use std::cmp::Ordering;

fn compare_texts(own: &ObjectPath, other: &ObjectPath) -> Ordering
    ensures { result ≡ path_cmp own.now other.now }
{
    let name = Name::of(own);
    let others = Name::of(other);
    Pieces::of(own, &name).compare(&Pieces::of(other, &others))
}

fn compare_numbers(n: u64, m: u64) -> Ordering
    ensures order { result ≡ nat_cmp n m }
    ensures fits { n < 2 ^ 64 }
    ensures fits_too { m < 2 ^ 64 }
{
    n.cmp(&m)
}

// Compares paths of one database. Numbers order as their digits.
#[tactic(auto, using(crate::proofs::Orders::manifests_order, crate::proofs::Orders::records_order, crate::proofs::Orders::wals_order))]
fn compare_in_one(own: &ObjectPath, other: &ObjectPath) -> Ordering
    requires long { length (db_of own.now) ≡ length (db_of other.now) }
    requires same { slice_cmp nat_cmp (db_of own.now) (db_of other.now) ≡ Equal }
    ensures { result ≡ path_cmp own.now other.now }
{
    match (own, other) {
        (ObjectPath::Manifest(_, n), ObjectPath::Manifest(_, m)) => compare_numbers(*n, *m),
        (ObjectPath::Record(_, n), ObjectPath::Record(_, m)) => compare_numbers(*n, *m),
        (ObjectPath::Wal(_, n), ObjectPath::Wal(_, m)) => compare_numbers(*n, *m),
        _ => compare_texts(own, other),
    }
}

/// Compares paths as their texts. Takes no memory.
#[tactic(auto, using(crate::proofs::Orders::paths_by_db))]
pub(crate) fn compare(own: &ObjectPath, other: &ObjectPath) -> Ordering
    ensures { result ≡ path_cmp own.now other.now }
{
    let db = own.db().letters();
    let others = other.db().letters();
    if db.len() != others.len() {
        return compare_texts(own, other);
    }
    match db.cmp(others) {
        Ordering::Less => Ordering::Less,
        Ordering::Equal => compare_in_one(own, other),
        Ordering::Greater => Ordering::Greater,
    }
}
