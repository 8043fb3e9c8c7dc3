//! Compactions by their ids.
ghost use Rattle.std.specs.Prelude.{◌≡◌, ℕ, None, false, IfOk, IfSome, OnOk, OnErr, option_copied};
ghost use Rattle.std.specs.List.{list_any};
ghost use Rattle.slate_model_records.specs.Entries.{compactions_of, UnderOwnIds};
ghost use Rattle.slate_model_records.specs.Records.{entry_of, first_id, found_after, inserted};
ghost use Rattle.slate_ids.specs.Ulids.{id_lt};

use crate::compaction::Compaction;
use slate_ids::{OutOfMemory, Ulid};
use slate_model_tables::Plain;
use std::alloc::Global;
use std::collections::BTreeMap;

/// Compactions by their ids.
pub(crate) type Entries = BTreeMap<Ulid, Compaction>;

/// The compaction of an id.
pub(crate) fn find(entries: &Entries, id: Ulid) -> Option<&Compaction>
    requires { UnderOwnIds entries.now.entries }
    ensures { option_copied result ≡ entry_of id (compactions_of entries.now.entries) }
{
    entries.get(&id)
}

/// The least id.
pub(crate) fn least(entries: &Entries) -> Option<Ulid>
    requires { UnderOwnIds entries.now.entries }
    ensures first { result ≡ first_id (compactions_of entries.now.entries) }
    ensures least { IfSome result
        (λ id. list_any (λ c. id_lt c.id id) (compactions_of entries.now.entries) ≡ false) }
{
    match entries.first_key_value() {
        Some((id, _)) => Some(*id),
        None => None,
    }
}

/// Puts a compaction under its own id. Running out of memory changes nothing.
pub(crate) fn keep(entries: &mut Entries, compaction: Compaction) -> Result<(), OutOfMemory>
    requires { UnderOwnIds entries.old.entries }
    ensures own { UnderOwnIds entries.new.entries }
    ensures ok { OnOk result
        (compactions_of entries.new.entries ≡ inserted compaction (compactions_of entries.old.entries)) }
    ensures found { OnOk result ((id : ℕ × ℕ) → entry_of id (compactions_of entries.new.entries)
        ≡ found_after compaction (compactions_of entries.old.entries) id) }
    ensures err { OnErr result (entries.new.entries ≡ entries.old.entries) }
    ensures absent { OnErr result (entry_of compaction.id (compactions_of entries.old.entries) ≡ None) }
{
    drop(entries.insert(compaction.id, compaction)?);
    Ok(())
}

// Puts an equal compaction under its own id.
fn keep_copy(
    alloc: Global,
    entries: &mut Entries,
    compaction: &Compaction,
) -> Result<(), OutOfMemory>
    requires { UnderOwnIds entries.old.entries }
    ensures own { UnderOwnIds entries.new.entries }
    ensures ok { OnOk result
        (compactions_of entries.new.entries ≡ inserted compaction.now (compactions_of entries.old.entries)) }
{
    let compaction = compaction.clone(alloc)?;
    keep(entries, compaction)
}

/// Equal compactions.
pub(crate) fn copies(alloc: Global, entries: &Entries) -> Result<Entries, OutOfMemory>
    requires { UnderOwnIds entries.now.entries }
    ensures own { IfOk result (λ copied. UnderOwnIds copied.entries) }
    ensures same { IfOk result
        (λ copied. compactions_of copied.entries ≡ compactions_of entries.now.entries) }
{
    let mut copied = BTreeMap::new(alloc);
    for compaction in entries.values() {
        match keep_copy(alloc, &mut copied, compaction) {
            Ok(()) => {}
            Err(e) => {
                drop(copied);
                return Err(e);
            }
        }
    }
    Ok(copied)
}
