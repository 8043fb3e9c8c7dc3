//! Refreshing a holder.
ghost use Rattle.std.specs.Prelude.{◌≡◌, ◌<◌, OnErr, true};
ghost use Rattle.slate_store.specs.Machines.{Steps};
ghost use Rattle.slate_txn_log.specs.Due.{FaultOf, FaultRose, NoFault, StillDue};
ghost use Rattle.slate_txn_log.specs.ReadPhase.{read_due};
ghost use Rattle.slate_txn_log.specs.declared.read_phase.ReadPhase.TheVariants.{Listing};
ghost use Rattle.slate_txn.specs.Fencing.{NoFence, NotFenced, NotFencedStep};
ghost use Rattle.slate_txn.specs.Refreshing.{Refreshes, refreshed, held_after};
ghost use Rattle.slate_txn.specs.Refreshing.{refreshed_step, held_after_step, refresh_asks, refresh_goes};

use crate::stored::Stored;
use slate_ids::{Millis, ObjectCodec, SlateDBError};
use slate_store::{ObjectStore, Step};
use slate_txn_log::{ReadPhase, Rules};
use std::alloc::Global;
use std::marker::Model;

/// The machine of a refresh. It doesn't keep its holder: each step is given it.
#[derive(Debug, Drop)]
pub struct RefreshMachine<T> {
    read: ReadPhase<T>,
}

impl<T> Model for RefreshMachine<T> {
    ghost use Rattle.slate_txn_log.specs.declared.read_phase.ReadPhase.{ReadPhase};

    ghost Value = { ReadPhase T };

    ghost view = { λ a. a.read };
}

// The holder after its read, and the answer.
fn hold<T: Drop, C: Drop, R: Drop>(
    holder: &mut Stored<T, C, R>,
    reply: Result<Option<(u64, T)>, SlateDBError>,
) -> Result<(), SlateDBError>
    ensures answers { result ≡ refreshed reply }
    ensures held { holder.new ≡ held_after holder.old reply }
{
    match reply {
        Err(e) => Err(e),
        Ok(None) => Err(SlateDBError::LatestTransactionalObjectVersionMissing),
        Ok(Some((id, object))) => {
            holder.id = id;
            holder.object = object;
            Ok(())
        }
    }
}

// The holder after a step of its read, and the step.
fn hold_step<T: Drop, C: Drop, R: Drop>(
    holder: &mut Stored<T, C, R>,
    step: Step<Option<(u64, T)>>,
) -> Step<()>
    ensures step { result ≡ refreshed_step step }
    ensures held { holder.new ≡ held_after_step holder.old step }
{
    match step {
        Step::Again => Step::Again,
        Step::Done(reply) => Step::Done(hold(holder, reply)),
    }
}

impl<T: Drop, C: ObjectCodec<T> + Drop, R: Rules<T> + Drop> Stored<T, C, R> {
    /// Reads the latest version, as `read_latest` does, and holds it. Refused with
    /// `LatestTransactionalObjectVersionMissing` where the log has no version. After a refusal the holder is unchanged.
    pub fn refresh<S: ObjectStore>(
        &mut self,
        alloc: Global,
        store: &mut S,
        tries: u32,
    ) -> Result<(), SlateDBError>
        requires { 0 < tries }
        ensures refresh { Refreshes C.decoded tries (S.told store.old) (S.told store.new)
            self.old self.new result }
        ensures kept { OnErr result (self.new ≡ self.old) }
        ensures fault { NoFault (C.decoded self.old.sequenced.codec)
            → FaultOf (S.told store.old) (S.told store.new) result }
        ensures unfenced { NoFence (C.decoded self.old.sequenced.codec) → NotFenced result }
    {
        let reply = self.sequenced.read_latest(alloc, store, tries);
        hold(self, reply)
    }

    /// The machine of a refresh.
    pub fn start_refresh(&self) -> RefreshMachine<T>
        ensures { result ≡ Listing }
    {
        RefreshMachine {
            read: ReadPhase::Listing,
        }
    }
}

impl<T: Drop> RefreshMachine<T> {
    /// Whether a call is due. None is after an end, unless memory ran out.
    pub fn due(&self) -> bool
        ensures { result ≡ read_due self.now }
    {
        self.read.due()
    }

    /// Makes the one call that is due. A version that was read is held. A version that is gone or at or below the boundary
    /// starts the read again. Running out of memory leaves the machine as it was, and any other end leaves none due.
    pub fn next<C: ObjectCodec<T> + Drop, R: Drop, S: ObjectStore>(
        &mut self,
        alloc: Global,
        holder: &mut Stored<T, C, R>,
        store: &mut S,
        moment: Millis,
    ) -> Step<()>
        requires due { read_due self.now ≡ true }
        ensures steps { Steps (S.told store.old) (S.told store.new)
            (refresh_asks (self.old, holder.old)) moment
            (refresh_goes C.decoded (self.old, holder.old))
            (self.old, holder.old) (self.new, holder.new) result }
        ensures due { StillDue result (read_due self.new) }
        ensures fault { NoFault (C.decoded holder.old.sequenced.codec)
            → FaultRose (S.told store.old) (S.told store.new) result }
        ensures unfenced { NoFence (C.decoded holder.old.sequenced.codec) → NotFencedStep result }
    {
        let step = self.read.next(alloc, &holder.sequenced, store, moment);
        hold_step(holder, step)
    }
}
