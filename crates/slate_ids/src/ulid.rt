//! Ids that sort by time.
ghost use Rattle.std.specs.Prelude.{◌≡◌, ◌<◌, ◌^◌, ◌*◌, ◌+◌, ◌/◌, ◌%◌, Some, IfOk, IfSome, string_bytes};
ghost use Rattle.slate_ids.specs.UlidText.{id_letters, ulid_of, ulid_text};
ghost use Rattle.slate_ids.specs.Numerals.{numeral};

use crate::letters::text_of;
use crate::numeral::{read_numeral, write_numeral};
use crate::out_of_memory::OutOfMemory;
use std::alloc::Global;
use std::fmt;
use std::marker::Model;

// The letters of ids, which are the digits of base 32.
const ID_LETTERS: &[u8] = b"0123456789ABCDEFGHJKMNPQRSTVWXYZ";

/// An id: milliseconds since the Unix epoch, below 2^48, and a tail below 2^80. Ids order by milliseconds, then by tail.
#[derive(Clone, Copy, Debug, PartialEq, Eq, PartialOrd, Ord, Hash)]
pub struct Ulid {
    ms: u64,
    tail: u128,
}

impl Model for Ulid {
    ghost use Rattle.std.specs.Prelude.{ℕ, ◌<◌, ◌^◌};

    ghost Value = { ℕ × ℕ };

    ghost view = { λ a. (a.ms, a.tail) };

    ghost invariant = { λ a. (a.ms < 2 ^ 48) × (a.tail < 2 ^ 80) };

    ghost inverse = { λ d. record { ms = d.0; tail = d.1 } };
}

impl Ulid {
    /// The id of these parts.
    pub fn from_parts(ms: u64, tail: u128) -> Ulid
        requires ms_fits { ms < 2 ^ 48 }
        requires tail_fits { tail < 2 ^ 80 }
        ensures { result ≡ (ms, tail) }
    {
        Ulid { ms, tail }
    }

    /// Milliseconds since the Unix epoch.
    pub fn timestamp_ms(&self) -> u64
        ensures value { result ≡ self.now.0 }
        ensures fits { result < 2 ^ 48 }
    {
        self.ms
    }

    /// The part that isn't time.
    pub fn tail(&self) -> u128
        ensures value { result ≡ self.now.1 }
        ensures fits { result < 2 ^ 80 }
    {
        self.tail
    }

    /// The id whose number is `n`: its milliseconds are the upper 48 bits.
    pub fn from_u128(n: u128) -> Ulid
        ensures { result ≡ (n / 2 ^ 80, n % 2 ^ 80) }
    {
        Ulid {
            ms: (n >> 80) as u64,
            tail: n & 0xffff_ffff_ffff_ffff_ffff,
        }
    }

    /// The id's number: `from_u128` of it is the id.
    pub fn as_u128(&self) -> u128
        ensures { result ≡ self.now.0 * 2 ^ 80 + self.now.1 }
    {
        ((self.ms as u128) << 80) + self.tail
    }

    /// The id's 26 letters. They are read back as the id.
    pub fn letters(&self) -> [u8; 26]
        ensures letters { result ≡ ulid_text self.now }
        ensures digits { ulid_text self.now
            ≡ numeral id_letters 26 (self.now.0 * 2 ^ 80 + self.now.1) }
        ensures read_back { ulid_of (ulid_text self.now) ≡ Some self.now }
    {
        let mut block = [0; 26];
        write_numeral(&mut block[10..], ID_LETTERS, self.tail());
        write_numeral(&mut block[..10], ID_LETTERS, self.timestamp_ms() as u128);
        block
    }

    /// The id's 26 letters as text. They are read back as the id.
    pub fn to_text(&self, alloc: Global) -> Result<String, OutOfMemory>
        ensures text { IfOk result (λ text. string_bytes text ≡ ulid_text self.now) }
        ensures read_back { ulid_of (ulid_text self.now) ≡ Some self.now }
    {
        let letters = self.letters();
        Ok(String::from_str(alloc, text_of(&letters))?)
    }

    /// The id of 26 letters, where the text is one: letters of ids in upper case, of which the first is at most 7. Takes no memory.
    pub fn from_text(text: &str) -> Option<Ulid>
        ensures id { result ≡ ulid_of text.now }
        ensures shown { IfSome result (λ id. ulid_text id ≡ text.now) }
    {
        Ulid::from_letters(text.as_bytes())
    }

    /// The id of 26 letters, as `from_text`.
    pub(crate) fn from_letters(letters: &[u8]) -> Option<Ulid>
        ensures id { result ≡ ulid_of letters.now }
        ensures shown { IfSome result (λ id. ulid_text id ≡ letters.now) }
    {
        if letters.len() != 26 {
            return None;
        }
        let (ms, tail) = letters.split_at(10);
        let ms = read_numeral(ID_LETTERS, ms)?;
        let tail = read_numeral(ID_LETTERS, tail)?;
        if ms < 1 << 48 {
            Some(Ulid {
                ms: ms as u64,
                tail,
            })
        } else {
            None
        }
    }
}

impl fmt::Display for Ulid {
    ghost use Rattle.std.specs.Prelude.{Some};

    ghost output = { λ id. Some (ulid_text id) };

    fn fmt<W: fmt::Write>(&self, f: &mut fmt::Formatter<W>) -> fmt::Result {
        let letters = self.letters();
        f.write_str(text_of(&letters))
    }
}
