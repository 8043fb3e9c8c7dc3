//! Reading whole inputs.
ghost use Rattle.std.specs.Prelude.{◌≡◌, ◌≢◌, ℕ, ◌+◌, ◌^◌, ◌<◌, ◌≤◌, List, length, Err, IfOk, OnOk};
ghost use Rattle.std.specs.Io.KnownBytes.{IsAtEnd, Consumes};
ghost use Rattle.slate_store.specs.FaultCounts.{Rose};

use crate::source::Source;
use std::alloc::{AllocError, Global};

/// Why an input was not read whole.
#[derive(Clone, Copy, Debug, Drop, PartialEq, Eq)]
pub enum ReadError {
    /// A read failed. What was read before it is lost.
    Fault,
    /// The input has more bytes than the limit. One byte above the limit was taken, and no more.
    TooLong,
    /// Memory ran out. What was read before is lost.
    OutOfMemory,
}

impl From<AllocError> for ReadError {
    ghost use Rattle.slate_store.specs.declared.reading.ReadError.TheVariants.{OutOfMemory};

    ghost from_gives = { λ _ e. e ≡ OutOfMemory };

    fn from(_e: AllocError) -> ReadError {
        ReadError::OutOfMemory
    }
}

// The greatest piece that one read asks for, in bytes.
const CHUNK: usize = 4096;

/// Reads to the end of the input, a fault, or the first byte above the limit, which is in bytes. The bytes are all of
/// the input. A fault comes exactly where the source counted one.
pub fn read_all<S: Source>(
    alloc: Global,
    source: &mut S,
    limit: usize,
) -> Result<Vec<u8>, ReadError>
    requires { limit < 2 ^ 32 }
    ensures whole { IfOk result (λ v. Consumes (S.left source.old) (S.left source.new) v.items) }
    ensures end { OnOk result (IsAtEnd (S.left source.new)) }
    ensures short { IfOk result (λ v. length v.items ≤ limit) }
    ensures long { result ≡ Err ReadError.TooLong → (bs : List ℕ) × (length bs ≡ limit + 1)
        × Consumes (S.left source.old) (S.left source.new) bs }
    ensures fault { result ≡ Err ReadError.Fault → Rose (S.faults source.old) (S.faults source.new) }
    ensures no_fault { result ≢ Err ReadError.Fault → S.faults source.new ≡ S.faults source.old }
{
    let mut bytes = Vec::new(alloc);
    let mut buf = [0u8; CHUNK];
    loop {
        let room = (limit + 1 - bytes.len()).min(CHUNK);
        let Ok(count) = source.read(&mut buf[..room]) else {
            drop(bytes);
            return Err(ReadError::Fault);
        };
        if count == 0 {
            return Ok(bytes);
        }
        match bytes.extend_from_slice(&buf[..count]) {
            Ok(()) => {}
            Err(e) => {
                drop(bytes);
                return Err(ReadError::from(e));
            }
        }
        if bytes.len() > limit {
            drop(bytes);
            return Err(ReadError::TooLong);
        }
    }
}
