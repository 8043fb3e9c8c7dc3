//! The boundary of a log, and the greatest number of a list.
ghost use Rattle.std.specs.Prelude.{◌≡◌, decimal, IfOk};
ghost use Rattle.slate_ids.specs.Decimals.{ReadsDecimal};
ghost use Rattle.slate_txn_log.specs.Boundary.{boundary_of, boundary_got, greatest};

use crate::log_kind::LogKind;
use slate_ids::{ByteList, OutOfMemory, decimal_of};
use slate_store::{ObjectMetadata, StoredObject};
use std::alloc::Global;

/// The number that these bytes write in decimal, without a leading zero and below 2^64.
pub fn decode_boundary(bytes: &[u8]) -> Option<u64>
    ensures value { result ≡ boundary_of bytes.now }
    ensures decimal { ReadsDecimal bytes.now result }
{
    decimal_of(bytes)
}

/// The bytes of a boundary: its number in decimal.
pub fn encode_boundary(alloc: Global, number: u64) -> Result<ByteList, OutOfMemory>
    ensures { IfOk result (λ bytes. bytes ≡ decimal number) }
{
    let mut text = String::new(alloc);
    write!(text, "{number}")?;
    Ok(ByteList::new(text.into_bytes()))
}

/// The boundary that was got, where the bytes are one. An absent boundary is 0.
pub fn boundary_in(object: &Option<StoredObject>) -> Option<u64>
    ensures { result ≡ boundary_got object.now }
{
    match object {
        None => Some(0),
        Some(object) => decode_boundary(object.bytes.as_slice()),
    }
}

/// The greater of two numbers, of which each may be absent.
pub fn greater(best: Option<u64>, number: Option<u64>) -> Option<u64>
    ensures { result ≡ Rattle.slate_txn_log.specs.Boundary.greater best number }
{
    match (best, number) {
        (None, n) => n,
        (Some(m), None) => Some(m),
        (Some(m), Some(n)) => Some(m.max(n)),
    }
}

/// The greatest number of a version of this log that a list has.
pub fn greatest(log: LogKind, found: &[ObjectMetadata]) -> Option<u64>
    ensures { result ≡ greatest log found.now }
{
    let mut best = None;
    for metadata in found {
        best = greater(best, log.number_of(&metadata.location));
    }
    best
}
