//! Fields of manifests that have no bytes.

use crate::test_texts::refused;
use bytes::Bytes;
use slate_ids::{CheckpointId, DbPath, FieldName, Listed, Ulid};
use slate_layout::encode_manifest;
use slate_model::{
    Checkpoint, ExternalDb, LsmTreeState, Manifest, ManifestCore, SsTableHandle, SsTableId,
    SsTableInfo, SsTableView,
};
use std::alloc::Global;
use std::mem;
use std::process::Abort;

/// The field of a manifest that has no bytes. The manifest is used up.
fn refused_of(alloc: Global, manifest: Manifest) -> Option<FieldName> {
    let encoded = encode_manifest(alloc, &manifest);
    drop(manifest);
    refused(encoded)
}

/// A checkpoint of these moments.
fn checkpoint(expiry: Option<i64>, creation: i64) -> Checkpoint {
    Checkpoint {
        id: CheckpointId::from_u64(8),
        manifest_id: 3,
        expire_time: expiry,
        create_time: creation,
        name: None,
    }
}

/// The core of a new manifest, with a checkpoint of these moments.
fn core_with(rt: &impl Abort, alloc: Global, expiry: Option<i64>, creation: i64) -> ManifestCore {
    let mut core = ManifestCore::new(alloc);
    core.checkpoints
        .push(checkpoint(expiry, creation))
        .expect(rt, "memory");
    core
}

/// Moments of expiry and creation, and the field that has no bytes.
const MOMENTS: &[(Option<i64>, i64, Option<FieldName>)] = &[
    (Some(999), 0, Some(FieldName::ExpireTime)),
    (Some(-1), 0, Some(FieldName::ExpireTime)),
    (Some(4294967296000), -1, Some(FieldName::ExpireTime)),
    (Some(1000), -1, Some(FieldName::CreateTime)),
    (None, 4294967296000, Some(FieldName::CreateTime)),
    (Some(1999), 4294967295999, None),
    (Some(4294967295999), 0, None),
];

// The table as a slice: a function that names a table has all of it written out.
fn moments() -> &'static [(Option<i64>, i64, Option<FieldName>)] {
    MOMENTS
}

/// The field without bytes of a manifest with a checkpoint of these moments.
fn refused_moment(
    rt: &impl Abort,
    alloc: Global,
    expiry: Option<i64>,
    creation: i64,
) -> Option<FieldName> {
    let core = core_with(rt, alloc, expiry, creation);
    refused_of(alloc, Manifest::initial(alloc, core))
}

#[test]
fn moments_without_a_second_have_no_bytes(rt: HostRuntime) {
    for (expiry, creation, field) in moments() {
        assert!(rt;
            refused_moment(&rt, rt.alloc(), *expiry, *creation) == *field,
            "at {expiry:?}"
        );
    }
}

/// The key of these letters.
fn key(letters: Option<&'static str>) -> Option<Bytes> {
    match letters {
        Some(letters) => Some(Bytes::from(letters)),
        None => None,
    }
}

/// A view of a table with these keys.
fn view(id: SsTableId, first: Option<&'static str>, last: Option<&'static str>) -> SsTableView {
    let mut info = SsTableInfo::default();
    info.first_entry = key(first);
    info.last_entry = key(last);
    let sst = SsTableHandle {
        id,
        format_version: 2,
        info,
    };
    SsTableView::new(Ulid::from_parts(4, 4), sst)
}

/// A compacted table of this number; a file of the write-ahead log, where there is none.
fn table(number: Option<u32>) -> SsTableId {
    match number {
        Some(number) => SsTableId::Compacted(Ulid::from_parts(number as u64, 0)),
        None => SsTableId::Wal(1),
    }
}

/// Tables with their first and last key, and the field that has no bytes.
const TABLES: [(Option<u32>, Option<&str>, Option<&str>, Option<FieldName>); 5] = [
    (Some(1), Some("a"), Some("b"), None),
    (Some(1), Some("a"), None, None),
    (Some(1), None, None, Some(FieldName::NoKeys)),
    (Some(1), Some("b"), Some("a"), Some(FieldName::NoKeys)),
    (None, Some("a"), None, Some(FieldName::WalId)),
];

/// A manifest of a tree with this view.
fn with_view(rt: &impl Abort, alloc: Global, view: SsTableView) -> Manifest {
    let mut core = ManifestCore::new(alloc);
    core.tree.l0.push_back(view).expect(rt, "memory");
    Manifest::initial(alloc, core)
}

#[test]
fn tables_without_keys_have_no_bytes(rt: HostRuntime) {
    for (number, first, last, field) in &TABLES {
        let manifest = with_view(&rt, rt.alloc(), view(table(*number), *first, *last));
        let found = refused_of(rt.alloc(), manifest);
        assert!(rt; found == *field, "at {first:?}");
    }
}

/// An entry that lists a file of the write-ahead log.
fn entry(rt: &impl Abort, alloc: Global) -> ExternalDb {
    let mut sst_ids = Listed::new(alloc);
    sst_ids.push(SsTableId::Wal(1)).expect(rt, "memory");
    let path = DbPath::from_text("p").expect(rt, "memory");
    ExternalDb {
        path: path.expect(rt, "a path"),
        source_checkpoint_id: CheckpointId::from_u64(1),
        final_checkpoint_id: None,
        sst_ids,
    }
}

/// A new manifest with that entry.
fn with_entry(rt: &impl Abort, alloc: Global) -> Manifest {
    let mut manifest = Manifest::initial(alloc, ManifestCore::new(alloc));
    manifest
        .external_dbs
        .push(entry(rt, alloc))
        .expect(rt, "memory");
    manifest
}

#[test]
fn entries_of_the_log_have_no_bytes(rt: HostRuntime) {
    let manifest = with_entry(&rt, rt.alloc());
    let found = refused_of(rt.alloc(), manifest);
    assert!(rt; found == Some(FieldName::WalId));
}

/// The fields in their order.
const FIELDS: &[Option<FieldName>] = &[
    Some(FieldName::ExpireTime),
    Some(FieldName::CreateTime),
    Some(FieldName::WalId),
    Some(FieldName::Handles),
    Some(FieldName::NoKeys),
    Some(FieldName::NextWal),
    None,
];

// The table as a slice: a function that names a table has all of it written out.
fn fields() -> &'static [Option<FieldName>] {
    FIELDS
}

/// Tables and their first keys, each the cause of a refusal of the field of its place: a file of the write-ahead log, two unequal handles
/// of table 3, and a table without keys.
const CAUSES: [(usize, Option<u32>, Option<&str>); 4] = [
    (2, None, Some("a")),
    (3, Some(3), Some("a")),
    (3, Some(3), Some("b")),
    (4, Some(4), None),
];

/// A tree with the tables that are causes from a place on.
fn tree_from(rt: &impl Abort, alloc: Global, from: usize) -> LsmTreeState {
    let mut tree = LsmTreeState::new(alloc);
    for (place, number, first) in &CAUSES {
        if *place >= from {
            tree.l0
                .push_back(view(table(*number), *first, None))
                .expect(rt, "memory");
        }
    }
    tree
}

/// The field without bytes of a manifest that has the causes of refusals of all fields from a place on.
fn refused_from(rt: &impl Abort, alloc: Global, from: usize) -> Option<FieldName> {
    let expiry = if from > 0 { 1000 } else { 0 };
    let creation = if from > 1 { 0 } else { -1 };
    let mut core = core_with(rt, alloc, Some(expiry), creation);
    drop(mem::replace(&mut core.tree, tree_from(rt, alloc, from)));
    core.next_wal_sst_id = if from > 5 { 1 } else { 0 };
    refused_of(alloc, Manifest::initial(alloc, core))
}

#[test]
fn the_first_field_without_bytes_is_named(rt: HostRuntime) {
    for (from, field) in fields().iter().enumerate() {
        assert!(rt;
            refused_from(&rt, rt.alloc(), from) == *field,
            "from {from}"
        );
    }
}
