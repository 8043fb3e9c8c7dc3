//! One pass as a machine.
ghost use Rattle.std.specs.Prelude.{◌≡◌, option_copied, true, false};
ghost use Rattle.slate_gc.specs.GcPass.{is_detach, layout_ways, PassSteps};
ghost use Rattle.slate_txn_log.specs.Due.{FaultRose, StillDue, WhereOut};
ghost use Rattle.slate_gc_passes.specs.GcPhase.{gc_asks, gc_due, gc_start, WroteNothing};
ghost use Rattle.slate_gc_passes.specs.Stages.{GcFalls};
ghost use Rattle.slate_gc_picks.specs.Filter.{allowed};
ghost use Rattle.slate_gc_picks.specs.WalPicks.{wal_candidates};
ghost use Rattle.slate_store.specs.Machines.{IsAgain};

use slate_gc_passes::{GarbageCollectorDirectoryOptions, GcPhase, Logs, PassCounts, PassSettings};
use slate_gc_picks::{GcFilter, WalGc};
use slate_ids::{DbPath, GcMessage, Millis};
use slate_layout::{CompactionsCodec, ManifestCodec};
use slate_store::{ObjectStore, Step};
use std::alloc::Global;

/// One pass over a database. It holds nothing of the store: each call is given it.
#[derive(Debug, Drop)]
pub struct GcPass {
    /// The database.
    pub db: DbPath,
    /// Which pass, and how.
    pub settings: PassSettings,
    /// Where it stands.
    pub phase: GcPhase,
}

impl GcPass {
    /// A pass at its start. Without boundary files it moves no boundary before it deletes versions, and all else is the same. No pass
    /// detaches clones yet. Takes no memory.
    pub fn new(
        db: DbPath,
        pass: GcMessage,
        options: GarbageCollectorDirectoryOptions,
        boundary_files_enabled: bool,
    ) -> GcPass
        requires { is_detach pass ≡ false }
        ensures db { result.db ≡ db }
        ensures settings { result.settings
            ≡ record { pass = pass; options = options; boundary_files_enabled = boundary_files_enabled } }
        ensures phase { result.phase ≡ gc_start }
    {
        GcPass {
            db,
            settings: PassSettings {
                pass,
                options,
                boundary_files_enabled,
            },
            phase: GcPhase::start(),
        }
    }

    /// Whether a call is due. None is after an end, unless memory ran out.
    pub fn due(&self) -> bool
        ensures { result ≡ gc_due self.now.phase }
    {
        self.phase.due()
    }

    /// Makes the one store call that is due; the moment is that of the call. The counts, where it ends without a refusal: how many
    /// objects were picked, deleted and not deleted because of a fault, and how many versions are left.
    ///
    /// First the expired checkpoints are removed in one commit, where there are any; then the pass reads, lists, moves the boundary up
    /// to the greatest candidate, and deletes its picks: the candidates that the filter allows, and none in a dry run. The filter is
    /// asked once, before the boundary moves, so that want of memory never follows a write. `wal` picks the candidates of the pass over
    /// the files of the write-ahead log; without it those that no version keeps and that are older than the least age.
    ///
    /// Want of memory leaves store and pass as before, and the call may be made again. A fault or another refusal ends the pass with
    /// no further delete; a delete that faults is counted, and the next follows. Without a manifest it is refused with
    /// `LatestTransactionalObjectVersionMissing`, and where a version that a checkpoint names, or the greatest one listed, is gone,
    /// with `ManifestMissing`.
    pub fn next<S: ObjectStore, F: GcFilter, W: WalGc>(
        &mut self,
        alloc: Global,
        store: &mut S,
        filter: Option<&F>,
        wal: Option<&W>,
        moment: Millis,
    ) -> Step<PassCounts>
        requires due { gc_due self.now.phase ≡ true }
        ensures steps { PassSteps (layout_ways (allowed F.returns (option_copied filter.entry))
            (wal_candidates W.picked (option_copied wal.entry))) moment
            (S.told store.old) (S.told store.new) self.old self.new result }
        ensures falls { IsAgain result → GcFalls self.old.phase self.new.phase }
        ensures db { self.new.db ≡ self.old.db }
        ensures settings { self.new.settings ≡ self.old.settings }
        ensures due { StillDue result (gc_due self.new.phase) }
        ensures memory { WhereOut result (WroteNothing (S.told store.old) (S.told store.new)
            (gc_asks self.old.db self.old.settings.pass self.old.phase)) }
        ensures fault { FaultRose (S.told store.old) (S.told store.new) result }
    {
        let logs = Logs {
            db: self.db,
            manifests: ManifestCodec,
            records: CompactionsCodec,
        };
        self.phase
            .next(alloc, &logs, filter, wal, &self.settings, store, moment)
    }
}
