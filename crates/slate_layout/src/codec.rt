//! The codec of manifests.
ghost use Rattle.slate_layout_manifests.specs.Decoding.{decoded_manifest};
ghost use Rattle.slate_layout.specs.Codec.{encoded};
ghost use Rattle.slate_layout.specs.laws.Codecs.{codec_round_trip};
ghost use Rattle.slate_layout_encodable.specs.Normal.{normal_manifest};

use slate_ids::{ObjectCodec, OutOfMemory, SlateDBError};
use slate_layout_decoding::decode_manifest;
use slate_layout_encoding::encode_manifest;
use slate_model::{Manifest, Plain};
use std::alloc::Global;

/// The bytes of manifests: written by version 2 of the layout, read by versions 1 and 2. What is read back is the normal form.
#[derive(Clone, Copy, Debug)]
pub struct ManifestCodec;

impl ObjectCodec<Manifest> for ManifestCodec {
    ghost encoded = { λ _ manifest. encoded manifest };

    ghost decoded = { λ _ bytes. decoded_manifest bytes };

    ghost normal = { λ _ manifest. normal_manifest manifest };

    fn encode(&self, alloc: Global, value: &Manifest) -> Result<Vec<u8>, SlateDBError> {
        encode_manifest(alloc, value)
    }

    fn decode(&self, alloc: Global, bytes: &[u8]) -> Result<Manifest, SlateDBError> {
        decode_manifest(alloc, bytes)
    }

    fn copy(&self, alloc: Global, value: &Manifest) -> Result<Manifest, OutOfMemory> {
        value.clone(alloc)
    }

    ghost round_trip = { λ _ manifest bytes h. codec_round_trip manifest bytes h };
}
