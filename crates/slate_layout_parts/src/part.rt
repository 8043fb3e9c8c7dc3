//! Parts of a layout: values that bytes begin with.
ghost use Rattle.std.specs.Prelude.{◌≡◌, ◌<◌, ◌^◌, ◌++◌, ℕ, Bool, true, List, Option, OnOk, IfOk};
ghost use Rattle.slate_model_tables.specs.declared.ss_table_handle.SsTableHandle.{SsTableHandle};
ghost use Rattle.slate_layout_parts.specs.Reads.{Reads};

use crate::reader::Reader;
use crate::tables::Tables;
use slate_ids::OutOfMemory;
use std::alloc::Global;

/// A value that bytes begin with. What is written is read back, and only what was written is read.
pub trait Part: Drop {
    /// The bytes of a value.
    ghost bytes: { Self → List ℕ };

    /// The value that bytes begin with, among these tables, and the bytes after it.
    ghost in_front: { List SsTableHandle → List ℕ → Option (Self × List ℕ) };

    /// Whether a value has bytes, among these tables.
    ghost Fits: { List SsTableHandle → Self → Type 0 };

    /// Whether a value is one of its type: numbers have their bits, texts are UTF-8. Each that a program holds is.
    ghost is_typed: { Self → Bool };

    /// How many bytes a value has at least.
    ghost LEAST: { ℕ };

    const LEAST: usize;

    /// It has 16 bits.
    ghost few: { LEAST < 2 ^ 16 };

    /// What fits is read as it was written; what is read fits, and was written so.
    ghost reads: { (tables : List SsTableHandle) → Reads (in_front tables) bytes (Fits tables) LEAST };

    /// Adds the bytes of a value at the end.
    fn write(&self, out: &mut Vec<u8>) -> Result<(), OutOfMemory>
        ensures bytes { OnOk result (out.new.items ≡ out.old.items ++ bytes self.now) }
        ensures typed { OnOk result (is_typed self.now ≡ true) };

    /// The value that bytes begin with, where they begin with one. Views are of these tables.
    fn read<'a>(
        alloc: Global,
        tables: &Tables,
        from: Reader<'a>,
    ) -> Result<Option<(Self, Reader<'a>)>, OutOfMemory>
        ensures { IfOk result (λ read. read ≡ in_front tables.now from.entry) };
}
