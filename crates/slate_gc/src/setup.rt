//! What a collector was made with.
ghost use Rattle.std.specs.Prelude.{◌<◌};
ghost use Rattle.slate_gc.specs.Ended.{ended_with};
ghost use Rattle.slate_gc.specs.GcPass.{layout_ways};
ghost use Rattle.slate_gc.specs.PassTurns.{PassRan};
ghost use Rattle.slate_gc_picks.specs.Filter.{allowed};
ghost use Rattle.slate_gc_picks.specs.WalPicks.{wal_candidates};

use crate::options::GarbageCollectorOptions;
use crate::pass_run::{PassEnd, run_pass};
use slate_gc_passes::PassSettings;
use slate_gc_picks::{GcFilter, WalGc};
use slate_ids::{DbPath, Millis};
use slate_store::ObjectStore;
use std::alloc::Global;

/// What a collector was made with.
#[derive(Drop)]
pub struct Setup<F, W> {
    /// The database.
    pub db: DbPath,
    /// Which passes are configured, and how each goes.
    pub options: GarbageCollectorOptions,
    /// What is asked which candidates may go; without it all of them may.
    pub filter: Option<F>,
    /// What picks the files of the write-ahead log that may go; without it those go that no needed version keeps and that are old
    /// enough.
    pub wal: Option<W>,
}

impl<F: GcFilter, W: WalGc> Setup<F, W> {
    /// Runs the pass of these settings to its end, at this moment.
    pub(crate) fn run_pass<S: ObjectStore>(
        &self,
        alloc: Global,
        settings: PassSettings,
        store: &mut S,
        moment: Millis,
        tries: u32,
    ) -> PassEnd
        requires { 0 < tries }
        ensures { PassRan (layout_ways (allowed F.returns self.now.filter) (wal_candidates W.picked self.now.wal))
            self.now.db settings moment tries
            (S.told store.old) (S.told store.new) (ended_with settings.pass result.result result.deleted) }
    {
        run_pass(
            alloc,
            self.db,
            settings,
            store,
            self.filter.as_ref(),
            self.wal.as_ref(),
            moment,
            tries,
        )
    }
}
