//! Passes, and the reports on them.
ghost use Rattle.std.specs.Prelude.{◌≡◌, ◌<◌, ℕ, ℤ, IfSome, List, Option, true};
ghost use Rattle.slate_gc.specs.Collector.{at_once, OnceRan, RunRan, Setup};
ghost use Rattle.slate_gc.specs.Ended.{Ended, Entry};
ghost use Rattle.slate_gc.specs.GcPass.{layout_ways};
ghost use Rattle.slate_gc.specs.Options.{all_passes, asked};
ghost use Rattle.slate_gc.specs.PassTurns.{PassRan};
ghost use Rattle.slate_gc.specs.Ticks.{Source};
ghost use Rattle.slate_gc.specs.declared.report.RunEnd.{RunEnd as End};
ghost use Rattle.slate_gc.specs.declared.stats.GcStats.{GcStats as Stats};
ghost use Rattle.slate_gc_complete.specs.PassEnds.{LeavesBoth, PassEnds, PicksListed, PicksOfListed, PlainWays};
ghost use Rattle.slate_gc_complete.specs.ReportEnds.{ReportEnds};
ghost use Rattle.slate_gc_passes.specs.Ways.{Ways};
ghost use Rattle.slate_gc_passes.specs.declared.pass_settings.PassSettings.{PassSettings as Settings};
ghost use Rattle.slate_gc_picks.specs.Filter.{allowed};
ghost use Rattle.slate_gc_picks.specs.WalPicks.{wal_candidates};
ghost use Rattle.slate_ids.specs.Ids.{is_db_path};
ghost use Rattle.slate_ids.specs.declared.number_range.NumberRange.{NumberRange as Range};
ghost use Rattle.slate_store.specs.Store.{Store};
ghost use Rattle.slate_store.specs.StoreCalls.{Told};
ghost use Rattle.slate_store.specs.declared.object.ObjectMetadata.{ObjectMetadata as Metadata};
ghost use Rattle.slate_txn_changes_laws.specs.BothLogs.{AreReady};
ghost use Rattle.slate_txn_laws.specs.Serving.{Serves};

/// Over a store that serves it and in which both logs are ready, a pass ends in its first try with its counts, and none of its deletes
/// failed; or it is refused for a reason that the contents have that it leaves (`PassRefused`): there is no manifest, the codec refuses
/// what is read, a version that a checkpoint names is gone, the removal of expired checkpoints is refused, or a boundary is not a number.
/// It answers no fault, no conflict, and not that its tries are used up. Or memory ran out. However it ends, it leaves both logs ready,
/// where the filter allows candidates alone and the picker picks of the listed files.
pub fn pass_ends()
    ensures ends { (ways : Ways) → PlainWays ways → (db : List ℕ) → is_db_path db ≡ true → (settings : Settings) (moment : ℤ) (tries : ℕ)
        → 0 < tries → (old new : Told) (ended : Ended) → PassRan ways db settings moment tries old new ended
        → (s : Store) → Serves old new s → AreReady db s → PassEnds ways db moment new ended.result }
    ensures leaves { (ways : Ways) → PlainWays ways → PicksListed ways → (db : List ℕ) → is_db_path db ≡ true
        → (settings : Settings) (moment : ℤ) (tries : ℕ) → 0 < tries → (old new : Told) (ended : Ended)
        → PassRan ways db settings moment tries old new ended → (s : Store) → Serves old new s → AreReady db s → LeavesBoth db new }
{}

/// The codecs of the layout meet the premise of `pass_ends`, whatever the filter and the picker of files.
pub fn layout_ways_are_plain()
    ensures { (allows : List Metadata → List Metadata) (files : List Range → List Metadata → ℕ → ℤ → List Metadata)
        → PlainWays (layout_ways allows files) }
{}

/// A collector allows candidates alone, whatever its filter returns, and picks of the listed files: by itself, or where a picker was
/// handed in that does so.
pub fn collectors_pick_listed<F, W>()
    ensures { (returns : F → List Metadata → List Metadata)
        (picks : W → List Range → List Metadata → ℕ → ℤ → List Metadata) (filter : Option F) (wal : Option W)
        → IfSome wal (λ w. PicksOfListed (picks w)) → PicksListed (layout_ways (allowed returns filter) (wal_candidates picks wal)) }
{}

/// So says a report over whose passes the store serves, and as which begins both logs are ready, and at its end both logs are ready: of a
/// collector that runs all its passes at once (`once`), and of one that runs the pass of each tick (`run`).
pub fn report_ends()
    ensures once { (setup : Setup) (tries : ℕ) (moment : ℤ) (old new : Told) (before after : Stats) (report : List Entry)
        → PlainWays setup.ways → PicksListed setup.ways → is_db_path setup.db ≡ true → 0 < tries
        → OnceRan setup tries moment old new before after report → (s : Store) → Serves old new s → AreReady setup.db s
        → ReportEnds setup (asked setup.options (at_once moment all_passes)) old new report }
    ensures run { (setup : Setup) (tries turns : ℕ) (first last : Source) (old new : Told) (before after : Stats) (end : End)
        (report : List Entry) → PlainWays setup.ways → PicksListed setup.ways → is_db_path setup.db ≡ true → 0 < tries
        → (ran : RunRan setup tries turns first last old new before after end report) → (s : Store) → Serves old new s
        → AreReady setup.db s → ReportEnds setup (asked setup.options ran.taken) old new report }
{}
