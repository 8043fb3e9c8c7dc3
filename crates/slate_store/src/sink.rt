//! Where bytes go to.
ghost use Rattle.std.specs.Prelude.{◌≡◌, ℕ, List, [], length, Option, Some, true, IfOk, IsErr};
ghost use Rattle.std.specs.Io.{WritesAtMost};
ghost use Rattle.std.specs.Io.KnownBytes.{WriteAppends};
ghost use Rattle.slate_store.specs.FaultCounts.{CountsFault, CountsWrite, MemoryEnd, fails_next};

use std::alloc::Global;
use std::marker::Model;

/// A write failed. It wrote nothing.
#[derive(Clone, Copy, Debug, Drop, PartialEq, Eq)]
pub struct WriteFault;

/// Where bytes go to. A fault comes only where its count of faults rose.
pub trait Sink {
    /// The bytes that were written, where the sink tells them.
    ghost written: { Self → Option (List ℕ) };

    /// How often a write has failed or has taken nothing.
    ghost faults: { Self → ℕ };

    /// Writes some bytes from the front of `bytes` and answers how many. A fault writes nothing.
    fn write(&mut self, bytes: &[u8]) -> Result<usize, WriteFault>
        ensures bound { WritesAtMost result bytes.now }
        ensures bytes { WriteAppends (written self.old) (written self.new) result bytes.now }
        ensures counted { CountsWrite result (length bytes.now) (faults self.old) (faults self.new) };
}

/// Bytes in memory. The writes whose numbers, counted from 0, are listed at its start answer a fault, and so does one
/// for which memory runs out.
#[derive(Drop)]
pub struct MemorySink {
    bytes: Vec<u8>,
    fails: Vec<u64>,
    calls: u64,
    faults: u64,
}

impl Model for MemorySink {
    ghost use Rattle.slate_store.specs.FaultCounts.{MemoryEnd};

    ghost Value = { MemoryEnd };

    ghost view = { λ a. record {
      bytes = a.bytes.items;
      fails = a.fails.items;
      calls = a.calls;
      faults = a.faults;
    } };
}

impl MemorySink {
    /// No bytes. The writes whose numbers are in `fails` will answer a fault. Takes no memory.
    pub fn new(alloc: Global, fails: Vec<u64>) -> MemorySink
        ensures { result ≡ record { bytes = []; fails = fails.items; calls = 0; faults = 0 } }
    {
        MemorySink {
            bytes: Vec::new(alloc),
            fails,
            calls: 0,
            faults: 0,
        }
    }

    /// The bytes that were written.
    pub fn bytes(&self) -> &[u8]
        ensures { result.now ≡ self.now.bytes }
    {
        self.bytes.as_slice()
    }
}

impl Sink for MemorySink {
    ghost written = { λ s. Some s.bytes };

    ghost faults = { λ s. s.faults };

    /// Writes all of the bytes. It fails where its number is one of those that fail, or where memory runs out.
    fn write(&mut self, bytes: &[u8]) -> Result<usize, WriteFault>
        ensures bound { WritesAtMost result bytes.now }
        ensures bytes { WriteAppends (Some self.old.bytes) (Some self.new.bytes) result bytes.now }
        ensures counted { CountsFault result self.old.faults self.new.faults }
        ensures whole { IfOk result (λ count. count ≡ length bytes.now) }
        ensures fails { fails_next self.old ≡ true → IsErr result }
    {
        let fails = self.fails.contains(&self.calls);
        self.calls = self.calls.saturating_add(1);
        if fails || self.bytes.extend_from_slice(bytes).is_err() {
            self.faults = self.faults.saturating_add(1);
            return Err(WriteFault);
        }
        Ok(bytes.len())
    }
}
