//! A record of compactions.
ghost use Rattle.std.specs.Prelude.{◌≡◌, ℕ, [], length, true, false, None, IfSome, IsTrue, ◌↔◌, OnOk, OnErr, option_copied};
ghost use Rattle.std.specs.List.{list_any};
ghost use Rattle.slate_model_records.specs.Records.{are_ascending, entry_of, first_id, found_after, inserted};
ghost use Rattle.slate_ids.specs.Ulids.{id_lt};
ghost use Rattle.slate_model_records.specs.Retaining.{retained};

use crate::compaction::Compaction;
use crate::compactions_iter::CompactionsIter;
use crate::entries::{Entries, copies, find, keep, least};
use crate::retained::retain;
use slate_ids::{OutOfMemory, Plain, Ulid, are_same};
use std::alloc::Global;
use std::collections::BTreeMap;
use std::marker::Model;

/// What a version of a database's log of records holds: compactions, each under its own id.
#[derive(Debug, Drop)]
pub struct Compactions {
    /// The epoch of the last compactor that opened the database.
    pub compactor_epoch: u64,
    entries: Entries,
}

impl Model for Compactions {
    ghost use Rattle.slate_model_records.specs.Records.{Record};
    ghost use Rattle.slate_model_records.specs.Entries.{compactions_of, UnderOwnIds};

    ghost Value = { Record };

    ghost view = { λ a. record {
      compactor_epoch = a.compactor_epoch;
      entries = compactions_of a.entries.entries;
    } };

    ghost invariant = { λ a. UnderOwnIds a.entries.entries };
}

impl Compactions {
    /// A record of this epoch without compactions. Takes no memory.
    pub fn new(alloc: Global, compactor_epoch: u64) -> Compactions
        ensures { result ≡ record { compactor_epoch = compactor_epoch; entries = [] } }
    {
        Compactions {
            compactor_epoch,
            entries: BTreeMap::new(alloc),
        }
    }

    /// How many compactions there are.
    pub fn len(&self) -> usize
        ensures { result ≡ length self.now.entries }
    {
        self.entries.len()
    }

    /// Whether there are none.
    pub fn is_empty(&self) -> bool
        ensures { IsTrue result ↔ (length self.now.entries ≡ 0) }
    {
        self.entries.is_empty()
    }

    /// The compaction of an id, where there is one.
    pub fn get(&self, id: Ulid) -> Option<&Compaction>
        ensures { option_copied result ≡ entry_of id self.now.entries }
    {
        find(&self.entries, id)
    }

    /// The least id, where there are compactions.
    pub fn least_id(&self) -> Option<Ulid>
        ensures first { result ≡ first_id self.now.entries }
        ensures least { IfSome result (λ id. list_any (λ c. id_lt c.id id) self.now.entries ≡ false) }
    {
        least(&self.entries)
    }

    /// The compactions, ascending by id. Takes no memory.
    pub fn iter(&self) -> CompactionsIter<'_>
        ensures rest { result ≡ self.now.entries }
        ensures ascending { are_ascending self.now.entries ≡ true }
    {
        CompactionsIter::over(&self.entries)
    }

    /// Makes this compaction the one of its id, in the place of one that was there. All others stay. Memory is asked for only where
    /// the id is new; running out of memory changes nothing, and the compaction is let go.
    pub fn insert(&mut self, compaction: Compaction) -> Result<(), OutOfMemory>
        ensures ok { OnOk result (self.new ≡ record self.old { entries = inserted compaction self.old.entries }) }
        ensures err { OnErr result (self.new ≡ self.old) }
        ensures found { OnOk result ((id : ℕ × ℕ)
            → entry_of id self.new.entries ≡ found_after compaction self.old.entries id) }
        ensures absent { OnErr result (entry_of compaction.id self.old.entries ≡ None) }
    {
        keep(&mut self.entries, compaction)
    }

    /// Lets go all compactions but these: those that aren't over (submitted, scheduled, running or compacted), the one of the greatest
    /// id of those that are over (completed or failed), and those whose id is in `pending`. The epoch stays. Takes no memory. For each
    /// compaction that is over, it looks through `pending`, which is to be short.
    pub fn retain_active_and_last_finished(&mut self, pending: &[Ulid])
        ensures { self.new ≡ record self.old { entries = retained pending.now self.old.entries } }
    {
        retain(&mut self.entries, pending);
    }
}

impl Plain for Compactions {
    fn clone(&self, alloc: Global) -> Result<Compactions, OutOfMemory> {
        Ok(Compactions {
            compactor_epoch: self.compactor_epoch,
            entries: copies(alloc, &self.entries)?,
        })
    }

    fn is(&self, other: &Compactions) -> bool {
        self.compactor_epoch == other.compactor_epoch
            && are_same(self.entries.values(), other.entries.values())
    }
}
