//! The collector.
ghost use Rattle.std.specs.Prelude.{◌≡◌, ◌<◌, IfOk, OnErr};
ghost use Rattle.slate_gc.specs.Collector.{set_up, OnceRan, RunAnswers, RunBegan};
ghost use Rattle.slate_gc.specs.Faults.{all_faults, RoseBy};
ghost use Rattle.slate_gc.specs.Stats.{no_stats};
ghost use Rattle.slate_gc.specs.Ticks.{stopped};

use crate::options::{GarbageCollectorOptions, PASSES};
use crate::report::{GcReport, RunEnd};
use crate::setup::Setup;
use crate::stats::GcStats;
use crate::taking::{take, take_all};
use crate::tick::Tick;
use crate::ticks::Ticks;
use slate_gc_picks::{GcFilter, WalGc};
use slate_ids::{DbPath, Listed, Millis, OutOfMemory};
use slate_store::ObjectStore;
use std::alloc::Global;

/// The collector of a database. It holds nothing of the store: each call is given it.
#[derive(Drop)]
pub struct GarbageCollector {
    /// What it was made with. No call changes it.
    pub setup: Setup<Box<dyn GcFilter>, Box<dyn WalGc>>,
    /// What it did since it was made.
    pub stats: GcStats,
}

impl GarbageCollector {
    /// A collector of a database that has done nothing. The passes that are configured in the options are run, each by its own.
    /// `filter` is asked which candidates of a pass may go, and without one all of them may; `wal` picks the files of the write-ahead
    /// log of the pass over them, and without one those go that no needed version keeps and that are older than the least age. Takes no
    /// memory.
    pub fn new(
        db: DbPath,
        options: GarbageCollectorOptions,
        filter: Option<Box<dyn GcFilter>>,
        wal: Option<Box<dyn WalGc>>,
    ) -> GarbageCollector
        ensures db { result.setup.db ≡ db }
        ensures options { result.setup.options ≡ options }
        ensures filter { result.setup.filter ≡ filter }
        ensures wal { result.setup.wal ≡ wal }
        ensures stats { result.stats ≡ no_stats }
    {
        GarbageCollector {
            setup: Setup {
                db,
                options,
                filter,
                wal,
            },
            stats: GcStats::new(),
        }
    }

    /// Runs each configured pass to its end, in the order manifest, files of the write-ahead log, empty ones of these, tables, records of
    /// compactions, all at this moment. The report has an entry for each, in this order: its counts, or the refusal that ended it. A pass
    /// that is refused, for want of memory too, is reported, and the next one runs. No pass detaches clones yet, whatever the options
    /// say.
    ///
    /// A pass begins again after a conflict, and a read of a latest version or the advance of a boundary starts again where it lost a
    /// race: in each pass so often together as there are tries, then that pass is refused with `Contended`.
    ///
    /// The statistics count what each pass did, and then one run more. `OutOfMemory` where there is no memory for the report, which is
    /// taken first: then no pass was run, and nothing changed.
    pub fn run_gc_once<S: ObjectStore>(
        &mut self,
        alloc: Global,
        store: &mut S,
        moment: Millis,
        tries: u32,
    ) -> Result<GcReport, OutOfMemory>
        requires { 0 < tries }
        ensures ran { IfOk result (λ report. OnceRan (set_up (λ boxed. (GcFilter-box boxed).returns boxed.value)
            (λ boxed. (WalGc-box boxed).picked boxed.value) self.old.setup) tries moment (S.told store.old) (S.told store.new)
            self.old.stats self.new.stats report.passes) }
        ensures faults { IfOk result (λ report. RoseBy (all_faults report.passes)
            (S.told store.old).faults (S.told store.new).faults) }
        ensures setup { self.new.setup ≡ self.old.setup }
        ensures unchanged { OnErr result ((S.told store.new ≡ S.told store.old) × (self.new.stats ≡ self.old.stats)) }
    {
        let mut entries = Vec::with_capacity(alloc, PASSES.len())?;
        take_all(
            alloc,
            &self.setup,
            &mut self.stats,
            &PASSES,
            moment,
            store,
            tries,
            &mut entries,
        );
        self.stats.add_run();
        Ok(GcReport {
            passes: Listed::from_vec(entries),
        })
    }

    /// Runs the pass of each tick, one after the other, until the ticks answer `Stop` or so many were taken as there are turns. A pass
    /// runs to its end, at its tick's moment and with so many tries, as in `run_gc_once`; the tick of one that isn't configured does
    /// nothing. The report has an entry for each tick of a configured pass, in their order. The statistics count what each pass did, and
    /// no run.
    ///
    /// `OutOfMemory` where there is no memory for a further entry of the report, which is taken before its tick: then the ticks before
    /// it were taken, their passes were run and counted, and their results are lost with the report.
    pub fn run<S: ObjectStore, T: Ticks>(
        &mut self,
        alloc: Global,
        store: &mut S,
        ticks: &mut T,
        turns: u64,
        tries: u32,
    ) -> Result<(RunEnd, GcReport), OutOfMemory>
        requires { 0 < tries }
        ensures ran { IfOk result (λ ended. RunAnswers (set_up (λ boxed. (GcFilter-box boxed).returns boxed.value)
            (λ boxed. (WalGc-box boxed).picked boxed.value) self.old.setup) tries turns (T.told ticks.old) (T.told ticks.new)
            (S.told store.old) (S.told store.new) self.old.stats self.new.stats ended) }
        ensures faults { IfOk result (λ ended. RoseBy (all_faults ended.1.passes)
            (S.told store.old).faults (S.told store.new).faults) }
        ensures setup { self.new.setup ≡ self.old.setup }
        ensures began { OnErr result (RunBegan (set_up (λ boxed. (GcFilter-box boxed).returns boxed.value)
            (λ boxed. (WalGc-box boxed).picked boxed.value) self.old.setup) tries turns (T.told ticks.old) (T.told ticks.new)
            (S.told store.old) (S.told store.new) self.old.stats self.new.stats) }
    {
        let mut entries = Vec::new(alloc);
        'ticks: for i in 0..turns {
            entries.reserve(1)?;
            match ticks.next() {
                Tick::Stop => {
                    let passes = Listed::from_vec(entries);
                    return Ok((RunEnd::Stopped, GcReport { passes }));
                }
                Tick::At(pass, moment) => take(
                    alloc,
                    &self.setup,
                    &mut self.stats,
                    pass,
                    moment,
                    store,
                    tries,
                    &mut entries,
                ),
            }
        }
        let passes = Listed::from_vec(entries);
        Ok((RunEnd::Turns, GcReport { passes }))
    }

    /// Stops a source of ticks: a run over it ends at its next tick. Takes no memory.
    pub fn stop<T: Ticks>(&self, ticks: &mut T)
        ensures { T.told ticks.new ≡ stopped (T.told ticks.old) }
    {
        ticks.stop();
    }

    /// What it did since it was made.
    pub fn stats(&self) -> &GcStats
        ensures { result.now ≡ self.now.stats }
    {
        &self.stats
    }
}
