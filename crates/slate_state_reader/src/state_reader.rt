//! The reader of a compactor's state.
ghost use Rattle.std.specs.Prelude.{◌≡◌, ◌<◌, true};
ghost use Rattle.slate_state_reader.specs.BothReads.{both_asks, both_due};
ghost use Rattle.slate_state_reader.specs.declared.both_phase.BothPhase.TheVariants.{First};
ghost use Rattle.slate_state_reader.specs.StateViews as views;
ghost use Rattle.slate_state_reader.specs.StateViews.{view_goes, ViewRead};
ghost use Rattle.slate_txn_log.specs.Due.{FaultOf, FaultRose, StillDue};
ghost use Rattle.slate_txn_log.specs.declared.log_kind.LogKind.TheVariants as logs;
ghost use Rattle.slate_txn_log.specs.declared.read_phase.ReadPhase.TheVariants.{Listing};
ghost use Rattle.slate_txn_laws.specs.Replies.{step_as};
ghost use Rattle.slate_store.specs.Machines.{Steps};

use crate::both_phase::{Both, BothPhase};
use crate::both_read::read_both;
use crate::state_view::{CompactorStateView, viewed};
use slate_ids::{DbPath, Millis, SlateDBError};
use slate_layout::{CompactionsCodec, ManifestCodec};
use slate_model::{Compactions, Manifest};
use slate_store::{ObjectStore, Step};
use slate_txn_log::{LogKind, ReadPhase, Sequenced};
use std::alloc::Global;
use std::marker::Model;

/// Reads a compactor's state. It holds nothing of the store: each call is given it.
#[derive(Drop)]
pub struct CompactorStateReader {
    records: Sequenced<Compactions, CompactionsCodec>,
    manifests: Sequenced<Manifest, ManifestCodec>,
}

impl Model for CompactorStateReader {
    ghost use Rattle.slate_state_reader.specs.StateViews.{Logs};

    ghost Value = { Logs };

    ghost view = { λ a. record { records = a.records; manifests = a.manifests } };
}

/// The machine of a read of a compactor's state, in one try. It doesn't keep its reader: each step is given it.
#[derive(Drop)]
pub struct ReadViewMachine {
    pub phase: BothPhase<Compactions, Manifest>,
}

// The step with the reply of its end told as a view.
fn viewed_step(step: Step<Both<Compactions, Manifest>>) -> Step<CompactorStateView>
    ensures { result ≡ step_as views.viewed step }
{
    match step {
        Step::Again => Step::Again,
        Step::Done(reply) => Step::Done(viewed(reply)),
    }
}

impl CompactorStateReader {
    /// The reader of this database. Takes no memory.
    pub fn new(db: DbPath) -> CompactorStateReader
        ensures records { result.records.db ≡ db }
        ensures record_log { result.records.log ≡ logs.Compactions }
        ensures manifests { result.manifests.db ≡ db }
        ensures manifest_log { result.manifests.log ≡ logs.Manifest }
    {
        CompactorStateReader {
            records: Sequenced::new(db, LogKind::Compactions, CompactionsCodec),
            manifests: Sequenced::new(db, LogKind::Manifest, ManifestCodec),
        }
    }

    /// The latest version of the record, where there is one, and then that of the manifest, each above its log's boundary. Refused with
    /// `LatestTransactionalObjectVersionMissing` where there is no manifest. A read starts again where its version is gone when it is got,
    /// or is at or below the boundary: of both logs together so often as there are tries, then `Contended`. What others commit while the
    /// manifest is read is seen of the manifest alone.
    pub fn read_view<S: ObjectStore>(
        &self,
        alloc: Global,
        store: &mut S,
        tries: u32,
    ) -> Result<CompactorStateView, SlateDBError>
        requires { 0 < tries }
        ensures read { ViewRead self.now tries (S.told store.old) (S.told store.new) result }
        ensures fault { FaultOf (S.told store.old) (S.told store.new) result }
    {
        viewed(read_both(alloc, &self.records, &self.manifests, store, tries))
    }

    /// The machine of `read_view`, which makes one try.
    pub fn start_read_view(&self) -> ReadViewMachine
        ensures { result.phase ≡ First Listing }
    {
        ReadViewMachine {
            phase: BothPhase::First(ReadPhase::Listing),
        }
    }
}

impl ReadViewMachine {
    /// Whether a call is due. None is after an end, unless memory ran out.
    pub fn due(&self) -> bool
        ensures { result ≡ both_due self.now.phase }
    {
        self.phase.due()
    }

    /// Makes the one call that is due. Running out of memory leaves the machine as it was, and any other end leaves none due.
    pub fn next<S: ObjectStore>(
        &mut self,
        alloc: Global,
        reader: &CompactorStateReader,
        store: &mut S,
        moment: Millis,
    ) -> Step<CompactorStateView>
        requires due { both_due self.now.phase ≡ true }
        ensures steps { Steps (S.told store.old) (S.told store.new)
            (both_asks reader.now.records reader.now.manifests self.old.phase) moment
            (view_goes reader.now self.old.phase)
            self.old.phase self.new.phase result }
        ensures due { StillDue result (both_due self.new.phase) }
        ensures fault { FaultRose (S.told store.old) (S.told store.new) result }
    {
        viewed_step(
            self.phase
                .next(alloc, &reader.records, &reader.manifests, store, moment),
        )
    }
}
