//! The changes that are put of manifests and of records.
ghost use Rattle.std.specs.Prelude.{Option};
ghost use Rattle.slate_layout_manifests.specs.Decoding.{decoded_manifest};
ghost use Rattle.slate_layout_records.specs.RecordBytes.{decoded_record};
ghost use Rattle.slate_state_calls.specs.Commits.{manifest_put, record_put};
ghost use Rattle.slate_state_record_updates.specs.declared.record_change.RecordChange.{RecordChange};
ghost use Rattle.slate_state_updates.specs.declared.manifest_change.ManifestChange.{ManifestChange};
ghost use Rattle.slate_txn_changes_laws.specs.Works.{PlainWork};

/// Each change of a manifest, and of a record, refuses a version for no reason from outside, and is put at the next number: so it meets the
/// premise of `change_latest_ends`.
pub fn changes_are_plain()
    ensures manifests { (change : Option ManifestChange) → PlainWork decoded_manifest (manifest_put change) }
    ensures records { (change : Option RecordChange) → PlainWork decoded_record (record_put change) }
{}
