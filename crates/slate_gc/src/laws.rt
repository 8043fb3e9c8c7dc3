//! What holds of every report.
ghost use Rattle.std.specs.Prelude.{ℕ, ℤ, List};
ghost use Rattle.slate_gc.specs.Collector.{at_once, OnceRan, RunRan, Setup};
ghost use Rattle.slate_gc.specs.Ended.{Entry};
ghost use Rattle.slate_gc.specs.ExactReports.{ExactReport};
ghost use Rattle.slate_gc.specs.Options.{all_passes, asked};
ghost use Rattle.slate_gc.specs.Ticks.{Source};
ghost use Rattle.slate_gc.specs.declared.report.RunEnd.{RunEnd as End};
ghost use Rattle.slate_gc.specs.declared.stats.GcStats.{GcStats as Stats};
ghost use Rattle.slate_store.specs.StoreCalls.{Told};

/// A report tells the truth: an entry with counts is of a pass that, in its last turn, deleted what its rule picks of what it read there,
/// all of it, in order and nothing else, and its counts are those of its picks and of the answers to its deletes. So it is of the report
/// of a collector that runs all its passes at once (`once`), and of one that runs the pass of each tick (`run`).
pub fn reported_passes_are_exact()
    ensures once { (setup : Setup) (tries : ℕ) (moment : ℤ) (old new : Told) (before after : Stats) (report : List Entry)
        → OnceRan setup tries moment old new before after report
        → ExactReport setup (asked setup.options (at_once moment all_passes)) old new report }
    ensures run { (setup : Setup) (tries turns : ℕ) (first last : Source) (old new : Told) (before after : Stats) (end : End)
        (report : List Entry) → (ran : RunRan setup tries turns first last old new before after end report)
        → ExactReport setup (asked setup.options ran.taken) old new report }
{}
