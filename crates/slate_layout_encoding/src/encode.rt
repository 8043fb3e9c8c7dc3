//! The bytes of a manifest.
ghost use Rattle.std.specs.Prelude.{◌≡◌, ◌++◌, ◌∷◌, [], ◌&&◌, map, true, Some, Ok, OnOk, IfOk};
ghost use Rattle.slate_ids.specs.Answers.{GivesList};
ghost use Rattle.slate_layout_parts.specs.Bytes.{list_bytes};
ghost use Rattle.slate_layout_parts.specs.InfoParts.{handle_bytes};
ghost use Rattle.slate_layout_manifests.specs.ManifestParts as parts;
ghost use Rattle.slate_layout_manifests.specs.Decoding.{decoded_manifest};
ghost use Rattle.slate_layout_encodable.specs.Normal.{normal_manifest};
ghost use Rattle.slate_layout_manifests.specs.TypedManifests as typed;
ghost use Rattle.slate_layout_encoding.specs.Encoding.{encoded_with, encoded_manifest};

use slate_ids::{FieldName, OutOfMemory, SlateDBError};
use slate_layout_encodable::{early_field, late_field};
use slate_layout_manifests::{
    CheckpointForm, EntryForm, Gathered, SegmentForm, TrackerForm, TreeForm,
};
use slate_layout_parts::{Form, Part, write_list};
use slate_model::{Checkpoint, ExternalDb, Manifest, Segment};
use std::alloc::Global;

// Adds the bytes of the head: the flag, the epochs, and the files of the write-ahead log.
fn write_head(manifest: &Manifest, out: &mut Vec<u8>) -> Result<(), OutOfMemory>
    ensures bytes { OnOk result (out.new.items ≡ out.old.items ++ parts.head_bytes (parts.head_of manifest.now)) }
    ensures typed { OnOk result (typed.is_front manifest.now ≡ true) }
{
    let core = &manifest.core;
    let epochs = (manifest.writer_epoch, manifest.compactor_epoch);
    let files = (
        core.replay_after_wal_id,
        core.next_wal_sst_id.saturating_sub(1),
    );
    (core.initialized, (epochs, files)).write(out)
}

// Adds the bytes of the middle: the extractor's name, the tick, and the sequence numbers.
fn write_middle(manifest: &Manifest, out: &mut Vec<u8>) -> Result<(), OutOfMemory>
    ensures bytes { OnOk result (out.new.items ≡ out.old.items ++ parts.middle_bytes (parts.middle_of manifest.now)) }
    ensures typed { OnOk result (typed.is_middle (parts.middle_of manifest.now) ≡ true) }
{
    let core = &manifest.core;
    core.segment_extractor_name.write(out)?;
    core.last_l0_clock_tick.write(out)?;
    (core.last_l0_seq, core.recent_snapshot_min_seq).write(out)
}

// Adds the bytes of the tail: the tracker, the checkpoints, the entries, and the floor.
fn write_tail(manifest: &Manifest, out: &mut Vec<u8>) -> Result<(), OutOfMemory>
    ensures bytes { OnOk result (out.new.items ≡ out.old.items ++ parts.tail_bytes (parts.tail_of manifest.now)) }
    ensures typed { OnOk result (typed.is_tail (parts.tail_of manifest.now) ≡ true) }
{
    let checkpoints = manifest.core.checkpoints.as_slice();
    let entries = manifest.external_dbs.as_slice();
    TrackerForm::write(&manifest.core.sequence_tracker, out)?;
    write_list::<Checkpoint, CheckpointForm>(checkpoints, out)?;
    write_list::<ExternalDb, EntryForm>(entries, out)?;
    manifest.core.floor.write(out)
}

// Adds the bytes of the root tree and of the segments.
fn write_trees(manifest: &Manifest, out: &mut Vec<u8>) -> Result<(), OutOfMemory>
    ensures bytes { OnOk result (out.new.items ≡ out.old.items ++ parts.trees_bytes (parts.trees_of manifest.now)) }
    ensures typed { OnOk result (typed.are_trees (parts.trees_of manifest.now) ≡ true) }
{
    let core = &manifest.core;
    TreeForm::write(&core.tree, out)?;
    write_list::<Segment, SegmentForm>(core.segments(), out)
}

// Adds the bytes of a manifest after those of its tables.
fn write_body(manifest: &Manifest, out: &mut Vec<u8>) -> Result<(), OutOfMemory>
    ensures bytes { OnOk result (out.new.items ≡ out.old.items ++ parts.body_bytes (parts.body_of manifest.now)) }
    ensures typed { OnOk result (typed.is_body manifest.now ≡ true) }
{
    write_head(manifest, out)?;
    write_trees(manifest, out)?;
    write_middle(manifest, out)?;
    write_tail(manifest, out)
}

// Adds the version and the bytes of a manifest with these tables at the end.
fn write_whole(tables: &Gathered, manifest: &Manifest, out: &mut Vec<u8>) -> Result<(), OutOfMemory>
    ensures bytes { OnOk result (out.new.items ≡ ((out.old.items ++ 0 ∷ 2 ∷ [])
        ++ list_bytes handle_bytes (map (λ e. e.1) tables.now)) ++ parts.body_bytes (parts.body_of manifest.now)) }
    ensures typed { OnOk result ((typed.is_body manifest.now && typed.are_tables (Some tables.now)) ≡ true) }
{
    out.extend_from_slice(&[0, 2])?;
    tables.write(out)?;
    write_body(manifest, out)
}

// The bytes of a manifest with these tables.
fn encode_with(
    alloc: Global,
    tables: &Gathered,
    manifest: &Manifest,
) -> Result<Vec<u8>, SlateDBError>
    ensures bytes { GivesList result (encoded_with (Some tables.now) manifest.now) }
    ensures typed { OnOk result ((typed.is_body manifest.now && typed.are_tables (Some tables.now)) ≡ true) }
{
    if let Some(field) = late_field(tables.len(), manifest) {
        return Err(SlateDBError::Unencodable(field));
    }
    let mut out = Vec::new(alloc);
    match write_whole(tables, manifest, &mut out) {
        Ok(()) => Ok(out),
        Err(e) => {
            drop(out);
            Err(SlateDBError::from(e))
        }
    }
}

// The bytes of a manifest, or the first field that has none.
fn encode(alloc: Global, manifest: &Manifest) -> Result<Vec<u8>, SlateDBError>
    ensures exact { GivesList result (encoded_manifest manifest.now) }
    ensures typed { OnOk result (typed.is_manifest manifest.now ≡ true) }
{
    if let Some(field) = early_field(manifest) {
        return Err(SlateDBError::Unencodable(field));
    }
    match Gathered::of_core(alloc, &manifest.core)? {
        Some(tables) => {
            let bytes = encode_with(alloc, &tables, manifest);
            drop(tables);
            bytes
        }
        None => Err(SlateDBError::Unencodable(FieldName::Handles)),
    }
}

/// The bytes of a manifest, by version 2 of the layout. Unencodable names the first field that has none, in this order: ExpireTime,
/// CreateTime, WalId, Handles, NoKeys, NextWal, Length. The bytes are read back as the normal form, which has the same bytes.
#[tactic(auto, using(crate::proofs::RoundTrip::round_trip, crate::proofs::NormalKept::encoded_kept))]
pub fn encode_manifest(alloc: Global, manifest: &Manifest) -> Result<Vec<u8>, SlateDBError>
    ensures exact { GivesList result (encoded_manifest manifest.now) }
    ensures typed { OnOk result (typed.is_manifest manifest.now ≡ true) }
    ensures read_back { IfOk result (λ bytes. decoded_manifest bytes.items ≡ Ok (normal_manifest manifest.now)) }
    ensures same { IfOk result (λ bytes. encoded_manifest (normal_manifest manifest.now) ≡ Ok bytes.items) }
{
    let bytes = encode(alloc, manifest)?;
    Ok(bytes)
}
