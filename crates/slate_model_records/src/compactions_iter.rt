//! The compactions of a record, one after the other.
ghost use Rattle.std.specs.Iterator.{YieldsFirstRef, item_count};
ghost use Rattle.std.specs.Prelude.{◌≡◌, true};
ghost use Rattle.slate_model_records.specs.Entries.{compactions_of, UnderOwnIds};
ghost use Rattle.slate_model_records.specs.Records.{are_ascending};

use crate::compaction::Compaction;
use crate::entries::Entries;
use slate_ids::Ulid;
use std::collections::btree_map::Values;
use std::marker::Model;

/// The compactions that are left of those of a record, ascending by id.
#[derive(Drop)]
pub struct CompactionsIter<'a> {
    values: Values<'a, Ulid, Compaction>,
}

impl<'a> Model for CompactionsIter<'a> {
    ghost use Rattle.std.specs.Prelude.{List};
    ghost use Rattle.slate_model_records.specs.declared.compaction.Compaction.{Compaction};

    ghost Value = { List Compaction };

    ghost view = { λ a. a.values };
}

impl<'a> CompactionsIter<'a> {
    /// The compactions of these entries.
    pub(crate) fn over(entries: &'a Entries) -> CompactionsIter<'a>
        requires { UnderOwnIds entries.now.entries }
        ensures rest { result ≡ compactions_of entries.now.entries }
        ensures ascending { are_ascending (compactions_of entries.now.entries) ≡ true }
    {
        CompactionsIter {
            values: entries.values(),
        }
    }
}

impl<'a> Iterator for CompactionsIter<'a> {
    type Item = &'a Compaction;

    ghost next_gives = { YieldsFirstRef (λ rest. rest) };

    ghost remaining = { item_count (λ rest. rest) };

    fn next(&mut self) -> Option<&'a Compaction> {
        self.values.next()
    }
}
