//! The bytes of records.
ghost use Rattle.std.specs.Prelude.{◌≡◌, ◌++◌, ◌∷◌, [], map, true, Ok, OnOk, IfOk};
ghost use Rattle.std.specs.List.{flat_map, list_all};
ghost use Rattle.slate_ids.specs.Answers.{GivesList};
ghost use Rattle.slate_layout_parts.specs.Bytes.{list_bytes};
ghost use Rattle.slate_layout_parts.specs.InfoParts.{handle_bytes};
ghost use Rattle.slate_layout_parts.specs.Typed.{is_handle};
ghost use Rattle.slate_layout_records.specs.RecordBytes as records;
ghost use Rattle.slate_layout_records.specs.RecordBytes.{decoded_record};
ghost use Rattle.slate_layout_records.specs.RecordNormal.{normal_record};
ghost use Rattle.slate_layout_records.specs.RecordFields as fields;
ghost use Rattle.slate_layout_records.specs.RecordFields.{encoded_record};

use crate::record_fields::unencodable;
use crate::record_reading::has_outputs;
use slate_ids::{OutOfMemory, SlateDBError};
use slate_layout_parts::{Part, write_count};
use slate_model_records::{Compaction, Compactions, CompactionsIter};
use std::alloc::Global;

// Adds the bytes of the outputs that are kept at the end.
fn write_outputs(compaction: &Compaction, out: &mut Vec<u8>) -> Result<(), OutOfMemory>
    ensures bytes { OnOk result (out.new.items ≡ out.old.items ++ list_bytes handle_bytes (records.kept_of compaction.now)) }
    ensures typed { OnOk result (list_all is_handle (records.kept_of compaction.now) ≡ true) }
{
    if has_outputs(compaction.status) {
        compaction.output_ssts.write(out)
    } else {
        write_count(0, out)
    }
}

// Adds the bytes of a compaction at the end.
fn write_compaction(compaction: &Compaction, out: &mut Vec<u8>) -> Result<(), OutOfMemory>
    ensures bytes { OnOk result (out.new.items ≡ out.old.items ++ records.compaction_bytes compaction.now) }
    ensures typed { OnOk result (fields.is_compaction compaction.now ≡ true) }
{
    compaction.id.write(out)?;
    compaction.spec.write(out)?;
    compaction.status.write(out)?;
    compaction.worker.write(out)?;
    write_outputs(compaction, out)?;
    compaction.ctx.write(out)
}

// Adds the bytes of the compactions that are left at the end.
fn write_entries(entries: CompactionsIter<'_>, out: &mut Vec<u8>) -> Result<(), OutOfMemory>
    ensures bytes { OnOk result (out.new.items ≡ out.old.items ++ flat_map records.raw_bytes (map records.raw_of entries.entry)) }
    ensures typed { OnOk result (list_all fields.is_compaction entries.entry ≡ true) }
{
    for compaction in entries {
        write_compaction(compaction, out)?;
    }
    Ok(())
}

// Adds the epoch and the compactions of a record at the end.
fn write_record(compactions: &Compactions, out: &mut Vec<u8>) -> Result<(), OutOfMemory>
    ensures bytes { OnOk result (out.new.items ≡ out.old.items ++ records.entries_bytes (records.entries_of compactions.now)) }
    ensures typed { OnOk result (fields.is_record compactions.now ≡ true) }
{
    compactions.compactor_epoch.write(out)?;
    write_count(compactions.len(), out)?;
    write_entries(compactions.iter(), out)
}

// Adds the version and the bytes of a record at the end.
fn write_whole(compactions: &Compactions, out: &mut Vec<u8>) -> Result<(), OutOfMemory>
    ensures bytes { OnOk result (out.new.items
        ≡ (out.old.items ++ 0 ∷ 2 ∷ []) ++ records.entries_bytes (records.entries_of compactions.now)) }
    ensures typed { OnOk result (fields.is_record compactions.now ≡ true) }
{
    out.extend_from_slice(&[0, 2])?;
    write_record(compactions, out)
}

// The bytes of a record, or the first field that has none.
fn encode(alloc: Global, compactions: &Compactions) -> Result<Vec<u8>, SlateDBError>
    ensures exact { GivesList result (encoded_record compactions.now) }
    ensures typed { OnOk result (fields.is_record compactions.now ≡ true) }
{
    if let Some(field) = unencodable(compactions) {
        return Err(SlateDBError::Unencodable(field));
    }
    let mut out = Vec::new(alloc);
    match write_whole(compactions, &mut out) {
        Ok(()) => Ok(out),
        Err(e) => {
            drop(out);
            Err(SlateDBError::from(e))
        }
    }
}

/// The bytes of a record, by version 2 of the layout. Unencodable names the first field that has none, in this order: WalId, NoKeys,
/// Length; outputs that aren't kept are asked too. The bytes are read back as the normal form, which has the same bytes.
#[tactic(auto, using(crate::proofs::RecordTrip::record_trip, crate::proofs::RecordKept::record_same))]
pub fn encode_compactions(alloc: Global, compactions: &Compactions) -> Result<Vec<u8>, SlateDBError>
    ensures exact { GivesList result (encoded_record compactions.now) }
    ensures typed { OnOk result (fields.is_record compactions.now ≡ true) }
    ensures read_back { IfOk result (λ bytes. decoded_record bytes.items ≡ Ok (normal_record compactions.now)) }
    ensures same { IfOk result (λ bytes. encoded_record (normal_record compactions.now) ≡ Ok bytes.items) }
{
    let bytes = encode(alloc, compactions)?;
    Ok(bytes)
}
