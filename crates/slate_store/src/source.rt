//! Where bytes come from.
ghost use Rattle.std.specs.Prelude.{◌≡◌, ℕ, min, List, length, take, drop, Option, Some, is_err};
ghost use Rattle.std.specs.Io.{ReadsAtMost};
ghost use Rattle.std.specs.Io.KnownBytes.{ReadConsumes};
ghost use Rattle.slate_store.specs.FaultCounts.{CountsFault, MemoryEnd, fails_next};

use std::marker::Model;

/// A read failed. It took nothing.
#[derive(Clone, Copy, Debug, Drop, PartialEq, Eq)]
pub struct ReadFault;

/// Where bytes come from. A fault comes only where its count of faults rose.
pub trait Source {
    /// The bytes that are left, where the source tells them.
    ghost left: { Self → Option (List ℕ) };

    /// How often a read has failed.
    ghost faults: { Self → ℕ };

    /// Reads some bytes to the front of `buf` and answers how many. 0 is the end of input, or a `buf` with no room. A
    /// fault takes no byte of the source.
    fn read(&mut self, buf: &mut [u8]) -> Result<usize, ReadFault>
        ensures bound { ReadsAtMost result buf.new }
        ensures bytes { ReadConsumes (left self.old) (left self.new) result buf.new }
        ensures counted { CountsFault result (faults self.old) (faults self.new) };
}

/// Bytes in memory. The reads whose numbers, counted from 0, are listed at its start answer a fault.
#[derive(Drop)]
pub struct MemorySource {
    bytes: Vec<u8>,
    place: usize,
    fails: Vec<u64>,
    calls: u64,
    faults: u64,
}

impl Model for MemorySource {
    ghost use Rattle.std.specs.Prelude.{◌≤◌, vec_len, drop};
    ghost use Rattle.slate_store.specs.FaultCounts.{MemoryEnd};

    ghost Value = { MemoryEnd };

    ghost view = { λ a. record {
      bytes = drop a.place a.bytes.items;
      fails = a.fails.items;
      calls = a.calls;
      faults = a.faults;
    } };

    ghost invariant = { λ a. a.place ≤ vec_len a.bytes };
}

impl MemorySource {
    /// These bytes, all of them left. The reads whose numbers are in `fails` will answer a fault. Takes no memory.
    pub fn new(bytes: Vec<u8>, fails: Vec<u64>) -> MemorySource
        ensures { result ≡ record { bytes = bytes.items; fails = fails.items; calls = 0; faults = 0 } }
    {
        MemorySource {
            bytes,
            place: 0,
            fails,
            calls: 0,
            faults: 0,
        }
    }
}

impl Source for MemorySource {
    ghost left = { λ s. Some s.bytes };

    ghost faults = { λ s. s.faults };

    /// Reads some bytes to the front of `buf` and answers how many. 0 is the end of input, or a `buf` with no room. It
    /// fails exactly where its number is one of those that fail.
    fn read(&mut self, buf: &mut [u8]) -> Result<usize, ReadFault>
        ensures bound { ReadsAtMost result buf.new }
        ensures bytes { ReadConsumes (Some self.old.bytes) (Some self.new.bytes) result buf.new }
        ensures counted { CountsFault result self.old.faults self.new.faults }
        ensures fails { is_err result ≡ fails_next self.old }
    {
        let fails = self.fails.contains(&self.calls);
        self.calls = self.calls.saturating_add(1);
        if fails {
            self.faults = self.faults.saturating_add(1);
            return Err(ReadFault);
        }
        let rest = &self.bytes[self.place..];
        let count = copy_front(rest, buf);
        self.place += count;
        Ok(count)
    }
}

// Copies as many bytes as there are and fit.
fn copy_front(from: &[u8], to: &mut [u8]) -> usize
    ensures count { result ≡ min (length from.now) (length to.old) }
    ensures copied { take result to.new ≡ take result from.now }
{
    let count = from.len().min(to.len());
    to[..count].copy_from_slice(&from[..count]);
    count
}
