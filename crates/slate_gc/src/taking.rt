//! The passes that ticks ask for.
ghost use Rattle.std.specs.Prelude.{◌≡◌, ◌<◌, ◌≤◌, ◌+◌, ◌++◌, ◌∷◌, [], length, vec_len, vec_capacity};
ghost use Rattle.slate_gc.specs.Collector.{at_once, setup_of};
ghost use Rattle.slate_gc.specs.GcPass.{layout_ways};
ghost use Rattle.slate_gc.specs.Taking.{Adds};
ghost use Rattle.slate_gc.specs.declared.tick.Tick.TheVariants as ticks;
ghost use Rattle.slate_gc_picks.specs.Filter.{allowed};
ghost use Rattle.slate_gc_picks.specs.WalPicks.{wal_candidates};

use crate::setup::Setup;
use crate::stats::GcStats;
use slate_gc_passes::PassCounts;
use slate_gc_picks::{GcFilter, WalGc};
use slate_ids::{GcMessage, Millis, SlateDBError};
use slate_store::ObjectStore;
use std::alloc::Global;

/// What a report says of a pass.
pub(crate) type Entry = (GcMessage, Result<PassCounts, SlateDBError>);

// Adds an entry for which there is room.
fn keep(entries: &mut Vec<Entry>, entry: Entry)
    requires { vec_len entries.old < vec_capacity entries.old }
    ensures items { entries.new.items ≡ entries.old.items ++ entry ∷ [] }
    ensures len { vec_len entries.new ≡ vec_len entries.old + 1 }
    ensures capacity { vec_capacity entries.old ≤ vec_capacity entries.new }
{
    let _ = entries.push(entry);
}

/// Runs a pass at this moment, where it is configured: its entry is added, for which there is room, and it is counted. Takes no memory
/// but the pass's own.
pub(crate) fn take<S: ObjectStore, F: GcFilter, W: WalGc>(
    alloc: Global,
    setup: &Setup<F, W>,
    stats: &mut GcStats,
    pass: GcMessage,
    moment: Millis,
    store: &mut S,
    tries: u32,
    entries: &mut Vec<Entry>,
)
    requires tries { 0 < tries }
    requires room { vec_len entries.old < vec_capacity entries.old }
    ensures adds { Adds (setup_of setup.now.db setup.now.options
        (layout_ways (allowed F.returns setup.now.filter) (wal_candidates W.picked setup.now.wal))) tries (ticks.At pass moment ∷ []) (S.told store.old) (S.told store.new)
        stats.old stats.new entries.old.items entries.new.items }
    ensures len { vec_len entries.new ≤ vec_len entries.old + 1 }
    ensures capacity { vec_capacity entries.old ≤ vec_capacity entries.new }
{
    if let Some(settings) = setup.options.settings(pass) {
        let end = setup.run_pass(alloc, settings, store, moment, tries);
        stats.add_pass(settings.pass, &end.result, end.deleted);
        keep(entries, (settings.pass, end.result));
    }
}

/// Runs those of the passes that are configured, in their order and all at this moment. There is room for an entry of each.
pub(crate) fn take_all<S: ObjectStore, F: GcFilter, W: WalGc>(
    alloc: Global,
    setup: &Setup<F, W>,
    stats: &mut GcStats,
    passes: &[GcMessage],
    moment: Millis,
    store: &mut S,
    tries: u32,
    entries: &mut Vec<Entry>,
)
    requires tries { 0 < tries }
    requires room { vec_len entries.old + length passes.now ≤ vec_capacity entries.old }
    ensures adds { Adds (setup_of setup.now.db setup.now.options
        (layout_ways (allowed F.returns setup.now.filter) (wal_candidates W.picked setup.now.wal))) tries (at_once moment passes.now) (S.told store.old) (S.told store.new)
        stats.old stats.new entries.old.items entries.new.items }
{
    for pass in passes {
        take(alloc, setup, stats, *pass, moment, store, tries, entries);
    }
}
