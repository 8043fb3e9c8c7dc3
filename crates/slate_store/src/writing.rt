//! Writing whole outputs.
ghost use Rattle.std.specs.Prelude.{ℕ, ◌≤◌, length, take, OnOk, OnErr};
ghost use Rattle.std.specs.Io.KnownBytes.{Appends};
ghost use Rattle.slate_store.specs.FaultCounts.{CountsFault};

use crate::sink::{Sink, WriteFault};

/// Writes all of the bytes. A fault comes where a write failed or took nothing; a front of the bytes was written then.
pub fn write_all<K: Sink>(sink: &mut K, bytes: &[u8]) -> Result<(), WriteFault>
    ensures whole { OnOk result (Appends (K.written sink.old) (K.written sink.new) bytes.now) }
    ensures front { OnErr result ((n : ℕ) × (n ≤ length bytes.now)
        × Appends (K.written sink.old) (K.written sink.new) (take n bytes.now)) }
    ensures counted { CountsFault result (K.faults sink.old) (K.faults sink.new) }
{
    let mut place = 0;
    while place < bytes.len() {
        let count = sink.write(&bytes[place..])?;
        if count == 0 {
            return Err(WriteFault);
        }
        place += count;
    }
    Ok(())
}
