//! The boundary of a log, as bytes.
ghost use Rattle.std.specs.Prelude.{◌≡◌, IfOk, Ok, decimal};
ghost use Rattle.slate_ids.specs.Answers.{GivesList};
ghost use Rattle.slate_layout.specs.BoundaryCodec.{decoded_boundary, IsWritten};

use slate_ids::{FormatName, SlateDBError};
use std::alloc::Global;

/// The bytes of a boundary: its number in decimal. They are read back.
#[tactic(auto, using(crate::proofs::Boundaries::boundary_back))]
pub fn encode_boundary(alloc: Global, number: u64) -> Result<Vec<u8>, SlateDBError>
    ensures exact { GivesList result (Ok (decimal number)) }
    ensures read_back { decoded_boundary (decimal number) ≡ Ok number }
{
    Ok(slate_txn_log::encode_boundary(alloc, number)?.into_vec())
}

/// The boundary of its bytes. All bytes but the decimal text of a number below 2^64, without a leading zero, are Corrupt. Takes no
/// memory.
pub fn decode_boundary(bytes: &[u8]) -> Result<u64, SlateDBError>
    ensures exact { result ≡ decoded_boundary bytes.now }
    ensures only { IfOk result (λ number. IsWritten number bytes.now) }
{
    match slate_txn_log::decode_boundary(bytes) {
        Some(number) => Ok(number),
        None => Err(SlateDBError::Corrupt(FormatName::Boundary)),
    }
}
