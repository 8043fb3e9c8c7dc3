//! Manifests of their bytes.
ghost use Rattle.std.specs.Prelude.{IfOk};
ghost use Rattle.slate_ids.specs.Answers.{Gives};
ghost use Rattle.slate_layout_manifests.specs.Decoding.{decoded_manifest};
ghost use Rattle.slate_layout.specs.Written.{OnlyWritten};

use slate_ids::SlateDBError;
use slate_model::Manifest;
use std::alloc::Global;

/// The manifest of bytes, by version 1 or 2 of the layout. EmptyManifest of fewer than two bytes; InvalidVersion of another version;
/// Corrupt of all other bytes that stand for no manifest. Bytes of version 2 are those that `encode_manifest` gives of the manifest.
pub fn decode_manifest(alloc: Global, bytes: &[u8]) -> Result<Manifest, SlateDBError>
    ensures exact { Gives result (decoded_manifest bytes.now) }
    ensures only { IfOk result (λ read. OnlyWritten bytes.now read) }
{
    let read = slate_layout_decoding::decode_manifest(alloc, bytes)?;
    Ok(read)
}
