//! A pass, from the end of the removal of expired checkpoints on.
ghost use Rattle.std.specs.Prelude.{◌≡◌, true, option_copied, IfOk};
ghost use Rattle.slate_txn_log.specs.Due.{StillDue, WhereOut};
ghost use Rattle.slate_gc_passes.specs.Pass.{delete_asks, first_phase, is_reading_phase, pass_asks, pass_due, pass_goes};
ghost use Rattle.slate_gc_passes.specs.Stages.{PassFalls};
ghost use Rattle.slate_gc_passes.specs.Ways.{ways};
ghost use Rattle.slate_gc_picks.specs.Filter.{allowed};
ghost use Rattle.slate_gc_picks.specs.WalPicks.{wal_candidates};
ghost use Rattle.slate_store.specs.Machines.{GoesOn, IsAgain};

use crate::collecting::{after_advance, after_delete};
use crate::heads::Heads;
use crate::lists::after_list;
use crate::logs::Logs;
use crate::manifests::{after_bound, after_get};
use crate::pass_counts::PassCounts;
use crate::pass_settings::PassSettings;
use crate::reads::{after_fetch, after_manifest_read, after_record_read};
use crate::rows::{advanced_log, folder_of};
use slate_gc_picks::{GcFilter, Objects, WalGc};
use slate_ids::{DbPath, GcMessage, Listed, Millis, ObjectCodec, OutOfMemory, SlateDBError};
use slate_model::{Compactions, Manifest};
use slate_state_referenced::{ManifestMap, ReferencedPhase};
use slate_store::{ObjectMetadata, Step, StoreAnswer, StoreCall};
use slate_txn_log::{AdvancePhase, LogKind, ReadPhase, Sequenced};
use std::alloc::Global;
use std::mem;

/// Where a pass stands, from the end of the removal of expired checkpoints on.
#[derive(Debug, Drop)]
pub enum PassPhase {
    /// The latest record is read.
    ReadingRecord(ReadPhase<Compactions>),
    /// The latest manifest is read. This is the least milliseconds of an id of the record's compactions; 0 where none was read.
    ReadingManifest(u64, ReadPhase<Manifest>),
    /// The versions that the latest manifest's checkpoints name are read.
    Fetching(Heads, ReferencedPhase),
    /// The objects are to be listed. These versions were read.
    Listing(Heads, ManifestMap),
    /// So many manifests were listed, of which these are aged. The greatest number is this one, and its version is to be got.
    Getting(u64, u64, Listed<ObjectMetadata>),
    /// The greatest version, which this is, was read. So many were listed, and these are the candidates. The boundary is to be got.
    Bounding(u64, u64, Listed<ObjectMetadata>),
    /// The boundary is moved up to the greatest candidate. These are the picks. The counts before the first delete.
    Advancing(AdvancePhase, Objects, PassCounts),
    /// These are left to be deleted, the first one next. The counts so far.
    Deleting(Objects, PassCounts),
    /// It ended.
    Over,
}

// The call of the deletes: of the first object that is left.
fn delete_asks(
    alloc: Global,
    db: DbPath,
    first: Option<&ObjectMetadata>,
) -> Result<StoreCall, OutOfMemory>
    ensures { IfOk result (λ call. call ≡ delete_asks db (option_copied first.entry)) }
{
    match first {
        Some(object) => Ok(StoreCall::Delete(object.location.copy(alloc)?)),
        None => Ok(StoreCall::Get(LogKind::Manifest.boundary_path(db))),
    }
}

impl PassPhase {
    /// Where a pass begins.
    pub fn first(alloc: Global, pass: GcMessage) -> PassPhase
        ensures { result ≡ first_phase pass }
    {
        match pass {
            GcMessage::Compacted => PassPhase::ReadingRecord(ReadPhase::Listing),
            GcMessage::Wal | GcMessage::WalFence => {
                PassPhase::ReadingManifest(0, ReadPhase::Listing)
            }
            GcMessage::Manifest | GcMessage::Compactions | GcMessage::Detach => {
                PassPhase::Listing(Heads::none(), ManifestMap::new(alloc))
            }
        }
    }

    /// The call that is due.
    pub fn asks(&self, alloc: Global, db: DbPath, pass: GcMessage) -> Result<StoreCall, OutOfMemory>
        ensures { IfOk result (λ call. call ≡ pass_asks db pass self.now) }
    {
        let manifests: Sequenced<Manifest, ()> = Sequenced::new(db, LogKind::Manifest, ());
        match self {
            PassPhase::ReadingRecord(phase) => {
                let records: Sequenced<Compactions, ()> = Sequenced::new(
                    db,
                    LogKind::Compactions,
                    (),
                );
                Ok(phase.asks(&records))
            }
            PassPhase::ReadingManifest(_, phase) => Ok(phase.asks(&manifests)),
            PassPhase::Fetching(_, phase) => Ok(phase.asks(&manifests)),
            PassPhase::Listing(_, _) => Ok(StoreCall::List(folder_of(pass, db))),
            PassPhase::Getting(n, _, _) => {
                Ok(StoreCall::Get(LogKind::Manifest.version_path(db, *n)))
            }
            PassPhase::Bounding(_, _, _) => {
                Ok(StoreCall::Get(LogKind::Manifest.boundary_path(db)))
            }
            PassPhase::Advancing(phase, _, _) => {
                let log: Sequenced<Manifest, ()> = Sequenced::new(db, advanced_log(pass), ());
                phase.asks(alloc, &log)
            }
            PassPhase::Deleting(left, _) => delete_asks(alloc, db, left.first()),
            PassPhase::Over => Ok(StoreCall::Get(LogKind::Manifest.boundary_path(db))),
        }
    }

    /// Whether a call is due. None is after an end, unless memory ran out.
    pub fn due(&self) -> bool
        ensures { result ≡ pass_due self.now }
    {
        match self {
            PassPhase::ReadingRecord(phase) => phase.due(),
            PassPhase::ReadingManifest(_, phase) => phase.due(),
            PassPhase::Fetching(_, phase) => phase.due(),
            PassPhase::Advancing(phase, _, _) => phase.due(),
            PassPhase::Deleting(left, _) => !left.is_empty(),
            PassPhase::Over => false,
            PassPhase::Listing(_, _) | PassPhase::Getting(_, _, _) | PassPhase::Bounding(_, _, _) =>
                true,
        }
    }

    // The phase after the answer to the call of this one, and the step.
    #[tactic(auto, using(crate::proofs::Falling::fewer_stages))]
    fn after<C: ObjectCodec<Manifest>, R: ObjectCodec<Compactions>, F: GcFilter, W: WalGc>(
        self,
        alloc: Global,
        logs: &Logs<C, R>,
        filter: Option<&F>,
        wal: Option<&W>,
        settings: &PassSettings,
        now: Millis,
        answer: &StoreAnswer,
    ) -> (PassPhase, Step<PassCounts>)
        ensures goes { GoesOn (pass_goes (ways (C.decoded logs.now.manifests) (C.encoded logs.now.manifests)
            (R.decoded logs.now.records) (allowed F.returns (option_copied filter.entry))
            (wal_candidates W.picked (option_copied wal.entry))) settings.now now self answer.now)
            self result.0 result.1 }
        ensures due { StillDue result.1 (pass_due result.0) }
        ensures falls { IsAgain result.1 → PassFalls self result.0 }
        ensures memory { WhereOut result.1 (result.0 ≡ self) }
        ensures writes { WhereOut result.1 (is_reading_phase self ≡ true) }
    {
        match self {
            PassPhase::ReadingRecord(phase) => after_record_read(alloc, logs, phase, answer),
            PassPhase::ReadingManifest(least, phase) => {
                after_manifest_read(alloc, logs, least, phase, answer)
            }
            PassPhase::Fetching(heads, phase) => { after_fetch(alloc, logs, heads, phase, answer) }
            PassPhase::Listing(heads, versions) => {
                after_list(alloc, filter, wal, settings, now, heads, versions, answer)
            }
            PassPhase::Getting(n, listed, found) => {
                after_get(alloc, &logs.manifests, n, listed, found, answer)
            }
            PassPhase::Bounding(n, listed, candidates) => {
                after_bound(alloc, filter, settings, n, listed, candidates, answer)
            }
            PassPhase::Advancing(phase, picked, counts) => {
                after_advance(phase, picked, counts, answer)
            }
            PassPhase::Deleting(left, counts) => after_delete(left, counts, answer),
            PassPhase::Over => (PassPhase::Over, Step::Done(Err(SlateDBError::StoreFault))),
        }
    }

    /// Goes on from the answer to that call; `now` is the moment of the pass's first call. Running out of memory comes only after a list
    /// or a get, while the pass reads, and leaves the phase as it was.
    pub fn goes_on<C: ObjectCodec<Manifest>, R: ObjectCodec<Compactions>, F: GcFilter, W: WalGc>(
        &mut self,
        alloc: Global,
        logs: &Logs<C, R>,
        filter: Option<&F>,
        wal: Option<&W>,
        settings: &PassSettings,
        now: Millis,
        answer: &StoreAnswer,
    ) -> Step<PassCounts>
        ensures goes { GoesOn (pass_goes (ways (C.decoded logs.now.manifests) (C.encoded logs.now.manifests)
            (R.decoded logs.now.records) (allowed F.returns (option_copied filter.entry))
            (wal_candidates W.picked (option_copied wal.entry))) settings.now now self.old answer.now)
            self.old self.new result }
        ensures due { StillDue result (pass_due self.new) }
        ensures falls { IsAgain result → PassFalls self.old self.new }
        ensures memory { WhereOut result (self.new ≡ self.old) }
        ensures writes { WhereOut result (is_reading_phase self.old ≡ true) }
    {
        let (phase, step) = mem::replace(self, PassPhase::Over).after(
            alloc, logs, filter, wal, settings, now, answer,
        );
        *self = phase;
        step
    }
}
