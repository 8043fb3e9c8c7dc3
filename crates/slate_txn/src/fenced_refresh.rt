//! Refreshing a fenced holder.
ghost use Rattle.std.specs.Prelude.{◌≡◌, ◌<◌, None, OnOk, true};
ghost use Rattle.slate_store.specs.Machines.{Steps};
ghost use Rattle.slate_txn_log.specs.Due.{FaultOf, FaultRose, NoFault, StillDue};
ghost use Rattle.slate_txn_log.specs.ReadPhase.{read_due};
ghost use Rattle.slate_txn_log.specs.declared.read_phase.ReadPhase.TheVariants.{Listing};
ghost use Rattle.slate_txn.specs.FencedRefreshing.{FencedRefreshed, fence_after, fence_after_step};
ghost use Rattle.slate_txn.specs.FencedRefreshing.{fenced_refresh_goes};
ghost use Rattle.slate_txn.specs.Fencing.{held_fence, FencedOnly, FencedStep, NoFence};
ghost use Rattle.slate_txn.specs.Refreshing.{refresh_asks};

use crate::fenced::Fenced;
use crate::refresh::RefreshMachine;
use slate_ids::{Epochs, Millis, ObjectCodec, SlateDBError};
use slate_store::{ObjectStore, Step};
use slate_txn_log::Rules;
use std::alloc::Global;
use std::marker::Model;

/// The machine of a refresh of a fenced holder. It doesn't keep its holder: each step is given it.
#[derive(Debug, Drop)]
pub struct FencedRefreshMachine<T> {
    refresh: RefreshMachine<T>,
}

impl<T> Model for FencedRefreshMachine<T> {
    ghost use Rattle.slate_txn_log.specs.declared.read_phase.ReadPhase.{ReadPhase};

    ghost Value = { ReadPhase T };

    ghost view = { λ a. a.refresh };
}

// After Ok a fence refuses, and else the answer stays.
fn fence_after(
    refusal: Option<SlateDBError>,
    reply: Result<(), SlateDBError>,
) -> Result<(), SlateDBError>
    ensures { result ≡ fence_after refusal reply }
{
    match (reply, refusal) {
        (Err(e), refusal) => {
            drop(refusal);
            Err(e)
        }
        (Ok(()), Some(e)) => Err(e),
        (Ok(()), None) => Ok(()),
    }
}

// The same of a step.
fn fence_after_step(refusal: Option<SlateDBError>, step: Step<()>) -> Step<()>
    ensures { result ≡ fence_after_step refusal step }
{
    match step {
        Step::Again => Step::Again,
        Step::Done(reply) => Step::Done(fence_after(refusal, reply)),
    }
}

impl<T: Drop, C: ObjectCodec<T> + Drop, R: Rules<T> + Drop, E: Epochs<T> + Drop> Fenced<
    T,
    C,
    R,
    E,
> {
    /// Reads the latest version, as `read_latest` does, and holds it. Where its epoch is above the own one it is held too,
    /// and the answer is `Fenced`. Refused with `LatestTransactionalObjectVersionMissing` where the log has no version.
    /// Where no version was read the holder is unchanged. The own epoch stays.
    pub fn refresh<S: ObjectStore>(
        &mut self,
        alloc: Global,
        store: &mut S,
        tries: u32,
    ) -> Result<(), SlateDBError>
        requires { 0 < tries }
        ensures refresh { FencedRefreshed C.decoded E.epoch tries (S.told store.old) (S.told store.new)
            self.old self.new result }
        ensures ok { OnOk result (held_fence E.epoch self.new ≡ None) }
        ensures epoch { self.new.epoch ≡ self.old.epoch }
        ensures fault { NoFault (C.decoded self.old.holder.sequenced.codec)
            → FaultOf (S.told store.old) (S.told store.new) result }
        ensures fenced { NoFence (C.decoded self.old.holder.sequenced.codec)
            → FencedOnly (held_fence E.epoch self.new) result }
    {
        let reply = self.stored.refresh(alloc, store, tries);
        fence_after(self.fence_held(), reply)
    }

    /// The machine of a refresh.
    pub fn start_refresh(&self) -> FencedRefreshMachine<T>
        ensures { result ≡ Listing }
    {
        FencedRefreshMachine {
            refresh: self.stored.start_refresh(),
        }
    }
}

impl<T: Drop> FencedRefreshMachine<T> {
    /// Whether a call is due. None is after an end, unless memory ran out.
    pub fn due(&self) -> bool
        ensures { result ≡ read_due self.now }
    {
        self.refresh.due()
    }

    /// Makes the one call that is due. A version that was read is held, also where the answer is `Fenced`. A version that
    /// is gone or at or below the boundary starts the read again. Running out of memory leaves the machine as it was, and any
    /// other end leaves none due.
    pub fn next<C: ObjectCodec<T> + Drop, R: Rules<T> + Drop, E: Epochs<T> + Drop, S: ObjectStore>(
        &mut self,
        alloc: Global,
        holder: &mut Fenced<T, C, R, E>,
        store: &mut S,
        moment: Millis,
    ) -> Step<()>
        requires due { read_due self.now ≡ true }
        ensures steps { Steps (S.told store.old) (S.told store.new)
            (refresh_asks (self.old, holder.old.holder)) moment
            (fenced_refresh_goes C.decoded E.epoch (self.old, holder.old))
            (self.old, holder.old) (self.new, holder.new) result }
        ensures due { StillDue result (read_due self.new) }
        ensures epoch { holder.new.epoch ≡ holder.old.epoch }
        ensures fault { NoFault (C.decoded holder.old.holder.sequenced.codec)
            → FaultRose (S.told store.old) (S.told store.new) result }
        ensures fenced { NoFence (C.decoded holder.old.holder.sequenced.codec)
            → FencedStep (held_fence E.epoch holder.new) result }
    {
        let step = self.refresh.next(alloc, &mut holder.stored, store, moment);
        fence_after_step(holder.fence_held(), step)
    }
}
