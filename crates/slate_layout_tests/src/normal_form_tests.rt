//! What is read back of a manifest.

use crate::manifest_test_rows::{OF_OLD, OLD, WHOLE, read};
use crate::test_texts::are_same;
use bytes::Bytes;
use slate_ids::{CheckpointId, Text, Ulid};
use slate_layout::{decode_manifest, encode_manifest, normal_form_manifest};
use slate_model::{Checkpoint, LsmTreeState, Manifest, ManifestCore, Plain, Segment};
use std::alloc::Global;
use std::process::Abort;

/// Moments of expiry and creation.
type Moments = (Option<i64>, i64);

/// Moments of a checkpoint, and those that are read back.
const MOMENTS: [(Moments, Moments); 4] = [
    ((Some(1999), 2500), (Some(1000), 2000)),
    ((Some(1000), 999), (Some(1000), 0)),
    ((None, 7000), (None, 7000)),
    (
        (Some(4294967295999), 4294967295001),
        (Some(4294967295000), 4294967295000),
    ),
];

/// A new manifest with a checkpoint of these moments.
fn with_checkpoint(rt: &impl Abort, alloc: Global, moments: Moments) -> Manifest {
    let mut core = ManifestCore::new(alloc);
    let checkpoint = Checkpoint {
        id: CheckpointId::from_u64(8),
        manifest_id: 3,
        expire_time: moments.0,
        create_time: moments.1,
        name: None,
    };
    core.checkpoints.push(checkpoint).expect(rt, "memory");
    Manifest::initial(alloc, core)
}

/// What is read back of a manifest.
fn read_back(rt: &impl Abort, alloc: Global, manifest: &Manifest) -> Manifest {
    let bytes = encode_manifest(alloc, manifest).expect(rt, "bytes");
    let read = decode_manifest(alloc, bytes.as_slice()).expect(rt, "a manifest");
    drop(bytes);
    read
}

/// Whether the second manifest is the normal form of the first, and is read back of it. Both are used up.
fn is_normal(rt: &impl Abort, alloc: Global, manifest: Manifest, expected: Manifest) -> bool {
    let normal = normal_form_manifest(alloc, &manifest).expect(rt, "memory");
    let read = read_back(rt, alloc, &manifest);
    drop(manifest);
    let is_so = normal.is(&expected);
    drop(normal);
    is_so & are_same(read, expected)
}

/// Whether the second moments are the whole seconds of the first.
fn are_seconds(rt: &impl Abort, alloc: Global, moments: Moments, seconds: Moments) -> bool {
    let manifest = with_checkpoint(rt, alloc, moments);
    let expected = with_checkpoint(rt, alloc, seconds);
    is_normal(rt, alloc, manifest, expected)
}

#[test]
fn seconds_are_read_back(rt: HostRuntime) {
    for (moments, seconds) in &MOMENTS {
        assert!(rt;
            are_seconds(&rt, rt.alloc(), *moments, *seconds),
            "at {moments:?}"
        );
    }
}

/// A new manifest with this store of the write-ahead log.
fn with_store(alloc: Global, store: Option<Text>) -> Manifest {
    let mut core = ManifestCore::new(alloc);
    core.wal_object_store_uri = store;
    Manifest::initial(alloc, core)
}

#[test]
fn a_store_of_the_log_is_not_kept(rt: HostRuntime) {
    let store = Text::copy_of(rt.alloc(), "w").expect(&rt, "memory");
    let manifest = with_store(rt.alloc(), Some(store));
    let is_so = is_normal(&rt, rt.alloc(), manifest, with_store(rt.alloc(), None));
    assert!(rt; is_so);
}

/// A new manifest with a segment of this marker of tables.
fn with_segment(rt: &impl Abort, alloc: Global, marker: Option<Ulid>) -> Manifest {
    let mut tree = LsmTreeState::new(alloc);
    tree.last_compacted_l0_sst_id = marker;
    let mut segments = Vec::new(alloc);
    segments
        .push(Segment::new(Bytes::from("p"), tree))
        .expect(rt, "memory");
    assert!(rt; Segment::are_ascending(segments.as_slice()));
    let mut core = ManifestCore::new(alloc);
    core.set_segments(segments);
    Manifest::initial(alloc, core)
}

#[test]
fn a_marker_of_tables_is_not_kept(rt: HostRuntime) {
    let manifest = with_segment(&rt, rt.alloc(), Some(Ulid::from_parts(2, 2)));
    let expected = with_segment(&rt, rt.alloc(), None);
    let is_so = is_normal(&rt, rt.alloc(), manifest, expected);
    assert!(rt; is_so);
}

#[test]
fn version_1_is_read_back_as_version_2(rt: HostRuntime) {
    let manifest = read(&rt, rt.alloc(), &OLD, &[]);
    let expected = read(&rt, rt.alloc(), &WHOLE, OF_OLD);
    let is_so = is_normal(&rt, rt.alloc(), manifest, expected);
    assert!(rt; is_so);
}
