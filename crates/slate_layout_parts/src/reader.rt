//! Reading bytes from the front.
ghost use Rattle.std.specs.Prelude.{◌≡◌, length, option_map};
ghost use Rattle.slate_layout_parts.specs.Reading.{byte_in, flag_in, u16_in, u32_in, u64_in, i64_in, bytes_in, counted_in};

use std::marker::Model;

/// The bytes that are still to be read.
#[derive(Drop)]
pub struct Reader<'a> {
    rest: &'a [u8],
}

impl<'a> Model for Reader<'a> {
    ghost use Rattle.std.specs.Prelude.{List, ℕ};

    ghost Value = { List ℕ };

    ghost view = { λ a. a.rest.now };
}

impl<'a> Reader<'a> {
    /// Nothing is read yet.
    pub fn new(rest: &'a [u8]) -> Reader<'a>
        ensures { result ≡ rest.now }
    {
        Reader { rest }
    }

    /// How many bytes are left.
    pub fn len(&self) -> usize
        ensures { result ≡ length self.now }
    {
        self.rest.len()
    }

    /// One byte.
    pub fn byte(self) -> Option<(u8, Reader<'a>)>
        ensures { result ≡ byte_in self.entry }
    {
        if self.rest.is_empty() {
            return None;
        }
        let (front, rest) = self.rest.split_at(1);
        Some((front[0], Reader { rest }))
    }

    /// One byte, 0 for no and 1 for yes.
    pub fn flag(self) -> Option<(bool, Reader<'a>)>
        ensures { result ≡ flag_in self.entry }
    {
        let (byte, rest) = self.byte()?;
        match byte {
            0 => Some((false, rest)),
            1 => Some((true, rest)),
            _ => None,
        }
    }

    /// Two bytes, the highest first.
    #[tactic(auto, unfolding(crate::specs::Reading::u16_in))]
    pub fn u16(self) -> Option<(u16, Reader<'a>)>
        ensures { result ≡ u16_in self.entry }
    {
        if self.rest.len() < 2 {
            return None;
        }
        let (front, rest) = self.rest.split_at(2);
        Some((u16::from_be_bytes([front[0], front[1]]), Reader { rest }))
    }

    /// Four bytes, the highest first.
    #[tactic(auto, unfolding(crate::specs::Reading::u32_in))]
    pub fn u32(self) -> Option<(u32, Reader<'a>)>
        ensures { result ≡ u32_in self.entry }
    {
        if self.rest.len() < 4 {
            return None;
        }
        let (front, rest) = self.rest.split_at(4);
        let number = u32::from_be_bytes([front[0], front[1], front[2], front[3]]);
        Some((number, Reader { rest }))
    }

    /// Eight bytes, the highest first.
    #[tactic(auto, unfolding(crate::specs::Reading::u64_in))]
    pub fn u64(self) -> Option<(u64, Reader<'a>)>
        ensures { result ≡ u64_in self.entry }
    {
        if self.rest.len() < 8 {
            return None;
        }
        let (front, rest) = self.rest.split_at(8);
        let number = u64::from_be_bytes([
            front[0], front[1], front[2], front[3], front[4], front[5], front[6], front[7],
        ]);
        Some((number, Reader { rest }))
    }

    /// Eight bytes, the highest first, in two's complement.
    pub fn i64(self) -> Option<(i64, Reader<'a>)>
        ensures { result ≡ i64_in self.entry }
    {
        let (bits, rest) = self.u64()?;
        Some((bits.cast_signed(), rest))
    }

    /// So many bytes.
    pub fn take(self, count: usize) -> Option<(&'a [u8], Reader<'a>)>
        ensures { option_map (λ p. (p.0.now, p.1)) result ≡ bytes_in count self.entry }
    {
        if self.rest.len() < count {
            return None;
        }
        let (front, rest) = self.rest.split_at(count);
        Some((front, Reader { rest }))
    }

    /// A length, and as many bytes.
    pub fn counted(self) -> Option<(&'a [u8], Reader<'a>)>
        ensures { option_map (λ p. (p.0.now, p.1)) result ≡ counted_in self.entry }
    {
        let (count, rest) = self.u32()?;
        rest.take(count as usize)
    }
}
