//! What follows from the definitions of parts alone.
ghost use Rattle.std.specs.Prelude.{◌≡◌, ℕ, List};
ghost use Rattle.slate_model_tables.specs.declared.ss_table_handle.SsTableHandle.{SsTableHandle};
ghost use Rattle.slate_layout_parts.specs.Reading.{list_in};
ghost use Rattle.slate_layout_parts.specs.Reads.{AreBytes};
ghost use Rattle.slate_layout_parts.specs.Shortcut.{counted_items_in};

use crate::form::Form;

/// A list whose count is refused by the number of bytes that are left, before any item is read, has an item that can't be read: so the
/// look at the bytes that are left loses no list of a form.
pub fn lists_are_whole<T: Drop, F: Form<T>>()
    ensures { (tables : List SsTableHandle) (bytes : List ℕ) → AreBytes bytes
        → list_in (F.in_front tables) F.LEAST bytes ≡ counted_items_in (F.in_front tables) bytes }
{}
