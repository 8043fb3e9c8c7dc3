//! The greatest committed numbers, and the count of deletes.
ghost use Rattle.std.specs.Prelude.{◌≡◌};
ghost use Rattle.slate_cluster_protocol.specs.World.{raise_tally, tally_of, to_manifest, to_record, committed as committed_by, tallied, counted};

use slate_cluster_protocol::Tally;
use slate_ids::{DbPath, ObjectPath};
use slate_store::StoreCall;
use std::collections::BTreeMap;

/// The databases by path, with their greatest committed numbers.
pub type Tallies = BTreeMap<DbPath, Tally>;

fn raise_manifest(tallies: &mut Tallies, db: DbPath, n: u64)
    ensures { tallies.new.entries ≡ raise_tally (tally_of db tallies.old.entries) db
        (to_manifest n) tallies.old.entries }
{
    if let Some(tally) = tallies.get_mut(&db) {
        tally.manifest = tally.manifest.max(n);
    }
}

fn raise_record(tallies: &mut Tallies, db: DbPath, n: u64)
    ensures { tallies.new.entries ≡ raise_tally (tally_of db tallies.old.entries) db
        (to_record n) tallies.old.entries }
{
    if let Some(tally) = tallies.get_mut(&db) {
        tally.compactions = tally.compactions.max(n);
    }
}

// Counts a new object at a path.
fn commit(tallies: &mut Tallies, path: &ObjectPath)
    ensures { tallies.new.entries ≡ committed_by path.now tallies.old.entries }
{
    match path {
        ObjectPath::Manifest(db, n) => raise_manifest(tallies, *db, *n),
        ObjectPath::Record(db, n) => raise_record(tallies, *db, *n),
        _ => {}
    }
}

/// Counts what a store call committed, where it wrote.
pub fn tally(tallies: &mut Tallies, call: &StoreCall, wrote: bool)
    ensures { tallies.new.entries ≡ tallied call.now wrote tallies.old.entries }
{
    match call {
        StoreCall::PutNew(path, _) => {
            if wrote {
                commit(tallies, path);
            }
        }
        _ => {}
    }
}

/// Counts a delete that removed an object.
pub fn count(deleted: u64, call: &StoreCall, lost: bool) -> u64
    ensures { result ≡ counted call.now lost deleted }
{
    match call {
        StoreCall::Delete(_) => {
            if lost {
                deleted.saturating_add(1)
            } else {
                deleted
            }
        }
        _ => deleted,
    }
}
