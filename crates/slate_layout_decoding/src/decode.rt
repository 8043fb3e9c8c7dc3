//! The manifest that bytes stand for.
ghost use Rattle.std.specs.Prelude.{◌≡◌};
ghost use Rattle.slate_ids.specs.Answers.{Gives};
ghost use Rattle.slate_layout_manifests.specs.Decoding.{decoded_manifest, or_corrupt};

use crate::first_version::read_first_version;
use crate::second_version::read_second_version;
use slate_ids::{FormatName, SlateDBError};
use slate_layout_parts::Reader;
use slate_model::Manifest;
use std::alloc::Global;

// A manifest that was read; all other bytes are Corrupt.
fn or_corrupt(read: Option<Manifest>) -> Result<Manifest, SlateDBError>
    ensures { result ≡ or_corrupt read }
{
    match read {
        Some(manifest) => Ok(manifest),
        None => Err(SlateDBError::Corrupt(FormatName::Manifest)),
    }
}

/// The manifest of bytes, by version 1 or 2 of the layout. EmptyManifest of fewer than two bytes; InvalidVersion of another version;
/// Corrupt of all other bytes that stand for no manifest.
pub fn decode_manifest(alloc: Global, bytes: &[u8]) -> Result<Manifest, SlateDBError>
    ensures { Gives result (decoded_manifest bytes.now) }
{
    let Some((version, from)) = Reader::new(bytes).u16() else {
        return Err(SlateDBError::EmptyManifest);
    };
    match version {
        1 => or_corrupt(read_first_version(alloc, from)?),
        2 => or_corrupt(read_second_version(alloc, from)?),
        actual => Err(SlateDBError::InvalidVersion {
            format: FormatName::Manifest,
            actual,
        }),
    }
}
