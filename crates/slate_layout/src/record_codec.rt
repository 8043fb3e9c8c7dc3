//! The codec of records.
ghost use Rattle.slate_layout_records.specs.RecordBytes.{decoded_record};
ghost use Rattle.slate_layout.specs.RecordCodec.{record_encoded};
ghost use Rattle.slate_layout.specs.laws.Codecs.{record_codec_trip};
ghost use Rattle.slate_layout_records.specs.RecordNormal.{normal_record};

use slate_ids::{ObjectCodec, OutOfMemory, SlateDBError};
use slate_layout_records::{decode_compactions, encode_compactions};
use slate_model::Plain;
use slate_model_records::Compactions;
use std::alloc::Global;

/// The bytes of records: written by version 2 of the layout, read by versions 1 and 2. What is read back is the normal form.
#[derive(Clone, Copy, Debug)]
pub struct CompactionsCodec;

impl ObjectCodec<Compactions> for CompactionsCodec {
    ghost encoded = { λ _ r. record_encoded r };

    ghost decoded = { λ _ bytes. decoded_record bytes };

    ghost normal = { λ _ r. normal_record r };

    fn encode(&self, alloc: Global, value: &Compactions) -> Result<Vec<u8>, SlateDBError> {
        encode_compactions(alloc, value)
    }

    fn decode(&self, alloc: Global, bytes: &[u8]) -> Result<Compactions, SlateDBError> {
        decode_compactions(alloc, bytes)
    }

    fn copy(&self, alloc: Global, value: &Compactions) -> Result<Compactions, OutOfMemory> {
        value.clone(alloc)
    }

    ghost round_trip = { λ _ r bytes h. record_codec_trip r bytes h };
}
