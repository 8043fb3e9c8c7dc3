//! What is known of a table, as bytes.
ghost use Rattle.std.specs.Prelude.{◌≡◌, IfOk, Ok, None, true};
ghost use Rattle.slate_ids.specs.Answers.{Gives, GivesList};
ghost use Rattle.slate_layout_parts.specs.Bytes.{is_u64};
ghost use Rattle.slate_layout_parts.specs.InfoParts.{info_bytes};
ghost use Rattle.slate_layout_parts.specs.InfoCodec as codec;
ghost use Rattle.slate_layout_parts.specs.InfoCodec.{info_field, encoded_info, decoded_info, IsTyped};

use crate::infos::are_entries;
use crate::part::Part;
use crate::reader::Reader;
use crate::tables::Tables;
use bytes::Bytes;
use slate_ids::{FieldName, FormatName, SlateDBError};
use slate_model_tables::SsTableInfo;
use std::alloc::Global;

/// Whether a key, where there is one, has 32 bits of length.
pub fn is_short(key: &Option<Bytes>) -> bool
    ensures { result ≡ codec.is_short key.now }
{
    match key {
        None => true,
        Some(key) => key.len() < 1 << 32,
    }
}

// The first field of what is known of a table that has no bytes.
fn unencodable(info: &SsTableInfo) -> Option<FieldName>
    ensures { result ≡ info_field info.now }
{
    if !are_entries(&info.first_entry, &info.last_entry) {
        return Some(FieldName::NoKeys);
    }
    if is_short(&info.first_entry) && is_short(&info.last_entry) {
        None
    } else {
        Some(FieldName::Length)
    }
}

// A number has 64 bits.
fn is_number(n: u64)
    ensures { is_u64 n ≡ true }
{}

// The numbers of what is known have 64 bits.
fn are_numbers(info: &SsTableInfo)
    ensures { IsTyped info.now }
{
    is_number(info.index_offset);
    is_number(info.index_len);
    is_number(info.filter_offset);
    is_number(info.filter_len);
    is_number(info.stats_offset);
    is_number(info.stats_len);
}

/// The bytes of what is known of a table: its keys, where its parts lie, and how it is written. Unencodable where the last key is there
/// without a first one, or lies below it (NoKeys), or where a key has 2^32 bytes or more (Length). The bytes are read back.
#[tactic(auto, using(crate::proofs::InfoTrip::info_back))]
pub fn encode_info(alloc: Global, info: &SsTableInfo) -> Result<Vec<u8>, SlateDBError>
    ensures exact { GivesList result (encoded_info info.now) }
    ensures read_back { info_field info.now ≡ None → decoded_info (info_bytes info.now) ≡ Ok info.now }
{
    are_numbers(info);
    if let Some(field) = unencodable(info) {
        return Err(SlateDBError::Unencodable(field));
    }
    let mut bytes = Vec::new(alloc);
    match info.write(&mut bytes) {
        Ok(()) => Ok(bytes),
        Err(e) => {
            drop(bytes);
            Err(SlateDBError::from(e))
        }
    }
}

/// What is known of a table, of its bytes. All bytes that `encode_info` doesn't write are Corrupt.
pub fn decode_info(alloc: Global, bytes: &[u8]) -> Result<SsTableInfo, SlateDBError>
    ensures exact { Gives result (decoded_info bytes.now) }
    ensures only { IfOk result (λ info. encoded_info info ≡ Ok bytes.now) }
{
    match SsTableInfo::read(alloc, &Tables::none(alloc), Reader::new(bytes))? {
        Some((info, rest)) if rest.len() == 0 => Ok(info),
        _ => Err(SlateDBError::Corrupt(FormatName::Info)),
    }
}
