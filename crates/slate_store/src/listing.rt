//! What a folder lists of a map of objects.
ghost use Rattle.std.specs.Prelude.{◌≡◌, true, map, filter, IfOk};
ghost use Rattle.slate_ids.specs.PathKind.{is_rest};
ghost use Rattle.slate_ids.specs.declared.object_path.ObjectPath.TheVariants.{Other};
ghost use Rattle.slate_store.specs.Folders.{is_in, from_to, bounds_of as bounds_in};
ghost use Rattle.slate_store.specs.Store.{metadata};

use crate::list_dir::ListDir;
use crate::object::{ObjectMetadata, StoredObject};
use slate_ids::{DbPath, Folder, ObjectPath, OutOfMemory, PathRest};
use std::alloc::Global;
use std::collections::BTreeMap;
use std::ops::Bound;

type Bounds = (Bound<ObjectPath>, Bound<ObjectPath>);

fn metadata_of(
    alloc: Global,
    path: &ObjectPath,
    object: &StoredObject,
) -> Result<ObjectMetadata, OutOfMemory>
    ensures { IfOk result (λ found. found ≡ metadata (path.now, object.now)) }
{
    Ok(ObjectMetadata {
        location: path.copy(alloc)?,
        last_modified: object.last_modified,
        size: object.bytes.as_slice().len() as u64,
        e_tag: object.e_tag,
    })
}

// The path of a rest that has the form of no kind.
fn other(alloc: Global, db: &DbPath, rest: &str) -> Result<ObjectPath, OutOfMemory>
    requires { is_rest rest.now ≡ true }
    ensures { IfOk result (λ path. path ≡ Other db.now rest.now) }
{
    match PathRest::from_text(alloc, rest)? {
        Some(rest) => Ok(ObjectPath::Other(*db, rest)),
        None => unreachable!(),
    }
}

// Between which paths those of a folder stand.
#[tactic(auto, using(crate::proofs::Folders::front_is_rest, crate::proofs::Folders::past_is_rest))]
fn from_to(alloc: Global, db: &DbPath, folder: Folder) -> Result<Bounds, OutOfMemory>
    ensures { IfOk result (λ bounds. bounds ≡ from_to db.now folder) }
{
    let from = other(alloc, db, folder.front())?;
    match other(alloc, db, folder.past()) {
        Ok(to) => Ok((Bound::Included(from), Bound::Excluded(to))),
        Err(e) => {
            drop(from);
            Err(e)
        }
    }
}

// Between which paths those of a list stand.
fn bounds_of(alloc: Global, dir: &ListDir) -> Result<Bounds, OutOfMemory>
    ensures { IfOk result (λ bounds. bounds ≡ bounds_in dir.now) }
{
    match dir {
        ListDir::Manifests(db) => from_to(alloc, db, Folder::Manifests),
        ListDir::Records(db) => from_to(alloc, db, Folder::Records),
        ListDir::Tables(db) => from_to(alloc, db, Folder::Tables),
        ListDir::Wals(db) => from_to(alloc, db, Folder::Wals),
        ListDir::All(_) => Ok((Bound::Unbounded, Bound::Unbounded)),
    }
}

/// What a folder lists, in order. Of the map only the paths between its bounds are looked at, twice: they are counted, so that the room
/// for them is taken once.
#[tactic(auto, using(crate::proofs::Folders::within, crate::proofs::Folders::forward))]
pub(crate) fn listing(
    alloc: Global,
    objects: &BTreeMap<ObjectPath, StoredObject>,
    dir: &ListDir,
) -> Result<Vec<ObjectMetadata>, OutOfMemory>
    ensures { IfOk result (λ found. found.items
        ≡ map metadata (filter (λ o. is_in dir.now o.0) objects.now.entries)) }
{
    let bounds = bounds_of(alloc, dir)?;
    let within = objects.range(bounds);
    let count = within.clone()?.filter(|entry| dir.lists(entry.0)).count();
    let mut found = Vec::with_capacity(alloc, count)?;
    for (path, object) in within {
        if dir.lists(path) {
            found.push(metadata_of(alloc, path, object)?)?;
        }
    }
    Ok(found)
}
