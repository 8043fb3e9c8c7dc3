//! The bytes of texts, ids and paths.
ghost use Rattle.std.specs.Prelude.{◌≡◌, ◌++◌, true, length, option_map, OnOk};
ghost use Rattle.std.specs.Str.{is_utf8};
ghost use Rattle.slate_ids.specs.Ids.{is_db_path};
ghost use Rattle.slate_ids.specs.Ulids as ulids;
ghost use Rattle.std.proofs.Common.{arith};
ghost use Rattle.slate_layout_parts.specs.Bytes as bytes;
ghost use Rattle.slate_layout_parts.specs.Reading as reading;
ghost use Rattle.slate_layout_parts.specs.laws.Atoms as atoms;
ghost use Rattle.slate_layout_parts.specs.laws.Texts as laws;
ghost use Rattle.slate_layout_parts.specs.Texts as texts;
ghost use Rattle.slate_layout_parts.specs.Typed as typed;

use crate::numbers::write_count;
use crate::part::Part;
use crate::reader::Reader;
use crate::tables::Tables;
use bytes::Bytes;
use slate_ids::{CheckpointId, DbPath, OutOfMemory, Text, Ulid};
use std::alloc::Global;

impl Part for Bytes {
    ghost bytes = { bytes.counted_bytes };

    ghost in_front = { λ tables. reading.counted_in };

    ghost Fits = { λ tables. texts.IsShort };

    ghost is_typed = { typed.any };

    ghost LEAST = { 4 };

    const LEAST: usize = 4;

    ghost few = { omega arith };

    ghost reads = { λ tables. atoms.counted_reads };

    fn write(&self, out: &mut Vec<u8>) -> Result<(), OutOfMemory> {
        write_count(self.len(), out)?;
        out.extend_from_slice(self.as_slice())?;
        Ok(())
    }

    fn read<'a>(
        alloc: Global,
        _tables: &Tables,
        from: Reader<'a>,
    ) -> Result<Option<(Bytes, Reader<'a>)>, OutOfMemory> {
        match from.counted() {
            Some((bytes, from)) => Ok(Some((Bytes::copy_from_slice(alloc, bytes)?, from))),
            None => Ok(None),
        }
    }
}

// The text that bytes are, where they are UTF-8.
fn text_of(bytes: &[u8]) -> Option<&str>
    ensures { option_map (λ t. t.now) result ≡ texts.tested is_utf8 bytes.now }
{
    match str::from_utf8(bytes) {
        Ok(text) => Some(text),
        Err(_) => None,
    }
}

// A text with its length, where bytes begin with one.
fn text_in_front(from: Reader<'_>) -> Option<(&str, Reader<'_>)>
    ensures { option_map (λ p. (p.0.now, p.1)) result ≡ texts.text_in from.entry }
{
    let (bytes, from) = from.counted()?;
    let text = text_of(bytes)?;
    Some((text, from))
}

// Adds a text's length and its bytes at the end.
fn write_text(text: &str, out: &mut Vec<u8>) -> Result<(), OutOfMemory>
    ensures bytes { OnOk result (out.new.items ≡ out.old.items ++ bytes.counted_bytes text.now) }
    ensures typed { OnOk result (is_utf8 text.now ≡ true) }
{
    let bytes = text.as_bytes();
    write_count(bytes.len(), out)?;
    out.extend_from_slice(bytes)?;
    Ok(())
}

impl Part for Text {
    ghost bytes = { bytes.counted_bytes };

    ghost in_front = { λ tables. texts.text_in };

    ghost Fits = { λ tables. texts.TextFits };

    ghost is_typed = { is_utf8 };

    ghost LEAST = { 4 };

    const LEAST: usize = 4;

    ghost few = { omega arith };

    ghost reads = { λ tables. laws.text_reads };

    fn write(&self, out: &mut Vec<u8>) -> Result<(), OutOfMemory> {
        write_text(self.as_str(), out)
    }

    fn read<'a>(
        alloc: Global,
        _tables: &Tables,
        from: Reader<'a>,
    ) -> Result<Option<(Text, Reader<'a>)>, OutOfMemory> {
        match text_in_front(from) {
            Some((text, from)) => Ok(Some((Text::copy_of(alloc, text)?, from))),
            None => Ok(None),
        }
    }
}

// The letters of a path are those of one.
fn is_name(path: &DbPath)
    ensures { is_db_path path.now ≡ true }
{
    let _letters = path.letters();
}

impl Part for DbPath {
    ghost bytes = { bytes.counted_bytes };

    ghost in_front = { λ tables. texts.path_in };

    ghost Fits = { λ tables. texts.PathFits };

    ghost is_typed = { typed.is_path };

    ghost LEAST = { 4 };

    const LEAST: usize = 4;

    ghost few = { omega arith };

    ghost reads = { λ tables. laws.path_reads };

    fn write(&self, out: &mut Vec<u8>) -> Result<(), OutOfMemory> {
        is_name(self);
        write_text(self.as_str(), out)
    }

    fn read<'a>(
        _alloc: Global,
        _tables: &Tables,
        from: Reader<'a>,
    ) -> Result<Option<(DbPath, Reader<'a>)>, OutOfMemory> {
        let Some((text, from)) = text_in_front(from) else {
            return Ok(None);
        };
        match DbPath::from_text(text)? {
            Some(path) => Ok(Some((path, from))),
            None => Ok(None),
        }
    }
}

// An id has 48 bits of milliseconds, and 80 of the tail.
fn is_id(id: Ulid)
    ensures { ulids.is_id id ≡ true }
{
    let _milliseconds = id.timestamp_ms();
    let _tail = id.tail();
}

impl Part for Ulid {
    ghost bytes = { texts.id_bytes };

    ghost in_front = { λ tables. texts.id_in };

    ghost Fits = { λ tables. texts.IdFits };

    ghost is_typed = { ulids.is_id };

    ghost LEAST = { 8 };

    const LEAST: usize = 8;

    ghost few = { omega arith };

    ghost reads = { λ tables. laws.id_reads };

    fn write(&self, out: &mut Vec<u8>) -> Result<(), OutOfMemory> {
        is_id(*self);
        let number = self.as_u128();
        let low = (number & 0xffff_ffff_ffff_ffff) as u64;
        ((number >> 64) as u64, low).write(out)
    }

    fn read<'a>(
        alloc: Global,
        tables: &Tables,
        from: Reader<'a>,
    ) -> Result<Option<(Ulid, Reader<'a>)>, OutOfMemory> {
        match <(u64, u64)>::read(alloc, tables, from)? {
            Some(((high, low), from)) => {
                let number = ((high as u128) << 64) + low as u128;
                Ok(Some((Ulid::from_u128(number), from)))
            }
            None => Ok(None),
        }
    }
}

impl Part for CheckpointId {
    ghost bytes = { λ id. id };

    ghost in_front = { λ tables. reading.bytes_in 16 };

    ghost Fits = { λ tables. λ id. length id ≡ 16 };

    ghost is_typed = { typed.is_sixteen };

    ghost LEAST = { 16 };

    const LEAST: usize = 16;

    ghost few = { omega arith };

    ghost reads = { λ tables. atoms.sixteen_reads };

    fn write(&self, out: &mut Vec<u8>) -> Result<(), OutOfMemory> {
        out.extend_from_slice(self.as_bytes())?;
        Ok(())
    }

    fn read<'a>(
        _alloc: Global,
        _tables: &Tables,
        from: Reader<'a>,
    ) -> Result<Option<(CheckpointId, Reader<'a>)>, OutOfMemory> {
        match from.take(16) {
            Some((bytes, from)) => {
                let mut id = [0; 16];
                id.copy_from_slice(bytes);
                Ok(Some((CheckpointId::from_bytes(id), from)))
            }
            None => Ok(None),
        }
    }
}
