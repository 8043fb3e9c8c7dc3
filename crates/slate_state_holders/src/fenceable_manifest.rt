//! A fenced holder of a manifest.
ghost use Rattle.std.specs.Prelude.{◌≡◌, ◌<◌, IfOk, true};
ghost use Rattle.slate_state_holders.specs.Holders.{raise_machine};
ghost use Rattle.slate_state_holders.specs.ManifestHolders.{FencedChanged, FencesDb};
ghost use Rattle.slate_state_logs.specs.ManifestLog.{manifest_encoded, manifest_rules};
ghost use Rattle.slate_txn_log.specs.Due.{FaultOf};
ghost use Rattle.slate_txn.specs.Fencing.{held_fence, FencedOnly};
ghost use Rattle.slate_txn.specs.Initing.{init_open};
ghost use Rattle.slate_state_updates.specs.Writers.{epoch_of, with_epoch};
ghost use Rattle.slate_state_updates.specs.declared.epochs.ManifestEpochs.TheVariants as kinds;

use crate::changes::make;
use crate::db_fenced::DbFenced;
use crate::db_fenced_machines::{DbFencedRefreshMachine, DbFencedUpdateMachine, DbInitMachine};
use crate::stored_manifest::StoredManifest;
use slate_ids::{Millis, OutOfMemory, SlateDBError};
use slate_model::Manifest;
use slate_state_logs::Manifests;
use slate_state_updates::{ManifestChange, ManifestEpochs};
use slate_store::ObjectStore;
use slate_txn_log::Right;
use std::alloc::Global;

/// A holder of a database's manifest that committed an epoch of its kind, which fences older holders of that kind.
pub type FenceableManifest = DbFenced<Manifests>;

/// The machine of one try of a fence. It owns the holder until it ends.
pub type InitManifestMachine = DbInitMachine<Manifests>;

/// The machine of a refresh, in one try.
pub type FencedRefreshManifestMachine = DbFencedRefreshMachine<Manifests>;

/// The machine of a commit of another manifest, in one try.
pub type FencedUpdateManifestMachine = DbFencedUpdateMachine<Manifests>;

impl FenceableManifest {
    /// Commits the manifest held with its writer epoch plus one, which fences older writers. After a conflict it reads the latest
    /// version and raises that: so often as there are tries, then `Contended`. `Exhausted` at the last epoch. A refusal drops
    /// the holder. `moment` is in milliseconds since the Unix epoch.
    pub fn init_writer<S: ObjectStore>(
        alloc: Global,
        stored: StoredManifest,
        store: &mut S,
        moment: Millis,
        tries: u32,
    ) -> Result<FenceableManifest, SlateDBError>
        requires { 0 < tries }
        ensures fenced { FencesDb kinds.Writer moment tries (S.told store.old) (S.told store.new) stored result }
        ensures fault { FaultOf (S.told store.old) (S.told store.new) result }
    {
        DbFenced::fence(alloc, stored, ManifestEpochs::Writer, store, moment, tries)
    }

    /// Commits the manifest held with its compactor epoch plus one, which fences older compactors. After a conflict it reads the latest
    /// version and raises that: so often as there are tries, then `Contended`. `Exhausted` at the last epoch. A refusal drops
    /// the holder. `moment` is in milliseconds since the Unix epoch.
    pub fn init_compactor<S: ObjectStore>(
        alloc: Global,
        stored: StoredManifest,
        store: &mut S,
        moment: Millis,
        tries: u32,
    ) -> Result<FenceableManifest, SlateDBError>
        requires { 0 < tries }
        ensures fenced { FencesDb kinds.Compactor moment tries (S.told store.old) (S.told store.new) stored result }
        ensures fault { FaultOf (S.told store.old) (S.told store.new) result }
    {
        DbFenced::fence(
            alloc,
            stored,
            ManifestEpochs::Compactor,
            store,
            moment,
            tries,
        )
    }

    /// The machine of one try of `init_writer`. Where the raise is refused before its first call, no call is due in it.
    pub fn start_init_writer(
        alloc: Global,
        stored: StoredManifest,
    ) -> Result<InitManifestMachine, OutOfMemory>
        ensures open { IfOk result (λ machine. init_open machine.init ≡ true) }
        ensures init { IfOk result (λ machine. machine.init
            ≡ raise_machine manifest_rules manifest_encoded epoch_of with_epoch kinds.Writer stored) }
    {
        DbFenced::start_fence(alloc, stored, ManifestEpochs::Writer)
    }

    /// The machine of one try of `init_compactor`. Where the raise is refused before its first call, no call is due in it.
    pub fn start_init_compactor(
        alloc: Global,
        stored: StoredManifest,
    ) -> Result<InitManifestMachine, OutOfMemory>
        ensures open { IfOk result (λ machine. init_open machine.init ≡ true) }
        ensures init { IfOk result (λ machine. machine.init
            ≡ raise_machine manifest_rules manifest_encoded epoch_of with_epoch kinds.Compactor stored) }
    {
        DbFenced::start_fence(alloc, stored, ManifestEpochs::Compactor)
    }

    /// The number and the manifest held.
    pub fn manifest(&self) -> (u64, &Manifest)
        ensures number { result.0 ≡ self.now.holder.id }
        ensures value { result.1.now ≡ self.now.holder.object }
    {
        (self.number(), self.held())
    }

    // Commits a change at a moment.
    pub(crate) fn commit_change<S: ObjectStore>(
        &mut self,
        alloc: Global,
        store: &mut S,
        change: &ManifestChange,
        moment: Millis,
        tries: u32,
    ) -> Result<(), SlateDBError>
        requires { 0 < tries }
        ensures change { FencedChanged change.now moment tries (S.told store.old) (S.told store.new)
            self.old self.new result }
        ensures own { self.new ≡ record self.old { holder = self.new.holder } }
        ensures fault { FaultOf (S.told store.old) (S.told store.new) result }
        ensures fenced { FencedOnly (held_fence epoch_of self.new) result }
    {
        let f = |n: u64, manifest: &Manifest| make(alloc, change, moment, n, manifest);
        self.fenced
            .maybe_apply(alloc, store, f, &Right::Plain, moment, tries)
    }
}
