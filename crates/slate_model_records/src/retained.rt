//! Which compactions a trim keeps.
ghost use Rattle.std.specs.Prelude.{◌≡◌};
ghost use Rattle.slate_model_records.specs.Entries.{compactions_of, UnderOwnIds};
ghost use Rattle.slate_model_records.specs.LastFinished as finished;
ghost use Rattle.slate_model_records.specs.LastFinished.{is_kept_by};
ghost use Rattle.slate_model_records.specs.Retaining.{has_id, retained};

use crate::compaction::Compaction;
use crate::entries::Entries;
use slate_ids::Ulid;

// The id of the last compaction that is over.
fn last_finished(entries: &Entries) -> Option<Ulid>
    requires { UnderOwnIds entries.now.entries }
    ensures { result ≡ finished.last_finished (compactions_of entries.now.entries) }
{
    let mut last = None;
    for compaction in entries.values() {
        if compaction.status.is_terminal() {
            last = Some(compaction.id);
        }
    }
    last
}

// Whether ids have this one.
fn has(ids: &[Ulid], id: Ulid) -> bool
    ensures { result ≡ has_id ids.now id }
{
    for other in ids {
        if *other == id {
            return true;
        }
    }
    false
}

// Whether a compaction stays: it isn't over, or is the last one that is, or is pending.
fn stays(pending: &[Ulid], last: Option<Ulid>, compaction: &Compaction) -> bool
    ensures { result ≡ is_kept_by pending.now last compaction.now }
{
    !compaction.status.is_terminal() || last == Some(compaction.id) || has(pending, compaction.id)
}

/// Lets go all compactions but those that a trim keeps. Takes no memory.
pub(crate) fn retain(entries: &mut Entries, pending: &[Ulid])
    requires { UnderOwnIds entries.old.entries }
    ensures own { UnderOwnIds entries.new.entries }
    ensures retained { compactions_of entries.new.entries
        ≡ retained pending.now (compactions_of entries.old.entries) }
{
    let last = last_finished(entries);
    entries.retain(|_, compaction| stays(pending, last, compaction));
}
