//! The machines of the calls on a log of a database.
ghost use Rattle.std.specs.Prelude.{◌≡◌, true};
ghost use Rattle.slate_txn_delete.specs.CheckedDelete.{checked_asks, checked_due, checked_goes};
ghost use Rattle.slate_txn_log.specs.AdvancePhase.{advance_asks, advance_due, advance_goes};
ghost use Rattle.slate_txn_log.specs.DeletePhase.{delete_asks, delete_due, delete_goes};
ghost use Rattle.slate_txn_log.specs.Due.{FaultRose, StillDue};
ghost use Rattle.slate_txn_log.specs.ReadPhase.{read_asks, read_due, read_goes};
ghost use Rattle.slate_txn_log.specs.TryRead.{try_asks, try_due, try_goes};
ghost use Rattle.slate_txn_log.specs.Versions.{list_asks, list_due, list_goes};
ghost use Rattle.slate_txn_log.specs.declared.advance_phase.AdvancePhase.TheVariants as advances;
ghost use Rattle.slate_txn_log.specs.declared.delete_phase.DeletePhase.TheVariants as deletes;
ghost use Rattle.slate_txn_log.specs.declared.list_phase.ListPhase.TheVariants as lists;
ghost use Rattle.slate_txn_log.specs.declared.try_read_phase.TryReadPhase.TheVariants as tries;
ghost use Rattle.slate_txn_laws.specs.Replies.{goes_as, latest, latest_or_none, present_at, step_as};
ghost use Rattle.slate_store.specs.Machines.{Steps};

use crate::db_store::{DbStore, latest_of, latest_or_none_of, present_of};
use slate_ids::{Listed, Millis, NumberRange};
use slate_state_logs::DbLog;
use slate_store::{ObjectMetadata, ObjectStore, Step};
use slate_txn_delete::CheckedDeletePhase;
use slate_txn_log::{AdvancePhase, DeletePhase, ListPhase, ReadPhase, TryReadPhase};
use std::alloc::Global;
use std::marker::PhantomData;

// The step with the reply of its end told so.
fn latest_step<L: DbLog>(step: Step<Option<(u64, L::Value)>>) -> Step<L::Version>
    ensures { result ≡ step_as (latest L.version_of) step }
{
    match step {
        Step::Again => Step::Again,
        Step::Done(reply) => Step::Done(latest_of::<L>(reply)),
    }
}

// The step with the reply of its end told so.
fn latest_or_none_step<L: DbLog>(step: Step<Option<(u64, L::Value)>>) -> Step<Option<L::Version>>
    ensures { result ≡ step_as (latest_or_none L.version_of) step }
{
    match step {
        Step::Again => Step::Again,
        Step::Done(reply) => Step::Done(latest_or_none_of::<L>(reply)),
    }
}

// The step of a read of this phase, whose value has to be there.
fn present_step<L: DbLog>(phase: TryReadPhase, step: Step<Option<L::Value>>) -> Step<L::Value>
    ensures { result ≡ step_as (present_at L.missing_at phase) step }
{
    let n = match phase {
        TryReadPhase::Getting(n) => n,
        TryReadPhase::Over => 0,
    };
    match step {
        Step::Again => Step::Again,
        Step::Done(reply) => Step::Done(present_of::<L>(n, reply)),
    }
}

/// The latest version is read, in one try.
#[derive(Drop)]
pub struct DbLatestMachine<L: DbLog> {
    pub phase: ReadPhase<L::Value>,
}

impl<L: DbLog> DbLatestMachine<L> {
    /// Whether a call is due. None is after an end, unless memory ran out.
    pub fn due(&self) -> bool
        ensures { result ≡ read_due self.now.phase }
    {
        self.phase.due()
    }

    /// Makes the one call that is due. Running out of memory leaves the machine as it was, and any other end leaves none due.
    pub fn next<S: ObjectStore>(
        &mut self,
        alloc: Global,
        log: &DbStore<L>,
        store: &mut S,
        moment: Millis,
    ) -> Step<L::Version>
        requires due { read_due self.now.phase ≡ true }
        ensures steps { Steps (S.told store.old) (S.told store.new)
            (read_asks log.now.db log.now.log self.old.phase) moment
            (λ answer. goes_as (latest L.version_of)
            (read_goes log.now.log (L.Codec.decoded log.now.codec) self.old.phase answer))
            self.old.phase self.new.phase result }
        ensures due { StillDue result (read_due self.new.phase) }
        ensures fault { FaultRose (S.told store.old) (S.told store.new) result }
    {
        latest_step::<L>(self.phase.next(alloc, log.log(), store, moment))
    }
}

/// The latest version is read, where there is one, in one try.
#[derive(Drop)]
pub struct DbTryLatestMachine<L: DbLog> {
    pub phase: ReadPhase<L::Value>,
}

impl<L: DbLog> DbTryLatestMachine<L> {
    /// Whether a call is due. None is after an end, unless memory ran out.
    pub fn due(&self) -> bool
        ensures { result ≡ read_due self.now.phase }
    {
        self.phase.due()
    }

    /// Makes the one call that is due. Running out of memory leaves the machine as it was, and any other end leaves none due.
    pub fn next<S: ObjectStore>(
        &mut self,
        alloc: Global,
        log: &DbStore<L>,
        store: &mut S,
        moment: Millis,
    ) -> Step<Option<L::Version>>
        requires due { read_due self.now.phase ≡ true }
        ensures steps { Steps (S.told store.old) (S.told store.new)
            (read_asks log.now.db log.now.log self.old.phase) moment
            (λ answer. goes_as (latest_or_none L.version_of)
            (read_goes log.now.log (L.Codec.decoded log.now.codec) self.old.phase answer))
            self.old.phase self.new.phase result }
        ensures due { StillDue result (read_due self.new.phase) }
        ensures fault { FaultRose (S.told store.old) (S.told store.new) result }
    {
        latest_or_none_step::<L>(self.phase.next(alloc, log.log(), store, moment))
    }
}

/// A value is read, where it is there, in one try.
#[derive(Drop)]
pub struct DbTryReadMachine<L: DbLog> {
    pub phase: TryReadPhase,
    of: PhantomData<L>,
}

impl<L: DbLog> DbTryReadMachine<L> {
    /// Whether a call is due. None is after an end, unless memory ran out.
    pub fn due(&self) -> bool
        ensures { result ≡ try_due self.now.phase }
    {
        self.phase.due()
    }

    /// Makes the one call that is due. Running out of memory leaves the machine as it was, and any other end leaves none due.
    pub fn next<S: ObjectStore>(
        &mut self,
        alloc: Global,
        log: &DbStore<L>,
        store: &mut S,
        moment: Millis,
    ) -> Step<Option<L::Value>>
        requires due { try_due self.now.phase ≡ true }
        ensures steps { Steps (S.told store.old) (S.told store.new)
            (try_asks log.now.db log.now.log self.old.phase) moment
            (try_goes (L.Codec.decoded log.now.codec) self.old.phase)
            self.old.phase self.new.phase result }
        ensures due { StillDue result (try_due self.new.phase) }
        ensures fault { FaultRose (S.told store.old) (S.told store.new) result }
    {
        self.phase.next(alloc, log.log(), store, moment)
    }
}

/// A value is read, in one try.
#[derive(Drop)]
pub struct DbReadMachine<L: DbLog> {
    pub phase: TryReadPhase,
    of: PhantomData<L>,
}

impl<L: DbLog> DbReadMachine<L> {
    /// Whether a call is due. None is after an end, unless memory ran out.
    pub fn due(&self) -> bool
        ensures { result ≡ try_due self.now.phase }
    {
        self.phase.due()
    }

    /// Makes the one call that is due. Running out of memory leaves the machine as it was, and any other end leaves none due.
    pub fn next<S: ObjectStore>(
        &mut self,
        alloc: Global,
        log: &DbStore<L>,
        store: &mut S,
        moment: Millis,
    ) -> Step<L::Value>
        requires due { try_due self.now.phase ≡ true }
        ensures steps { Steps (S.told store.old) (S.told store.new)
            (try_asks log.now.db log.now.log self.old.phase) moment
            (λ answer. goes_as (present_at L.missing_at self.old.phase)
            (try_goes (L.Codec.decoded log.now.codec) self.old.phase answer))
            self.old.phase self.new.phase result }
        ensures due { StillDue result (try_due self.new.phase) }
        ensures fault { FaultRose (S.told store.old) (S.told store.new) result }
    {
        let phase = self.phase;
        present_step::<L>(phase, self.phase.next(alloc, log.log(), store, moment))
    }
}

/// The versions of a range are listed, in one try.
#[derive(Drop)]
pub struct DbListMachine<L: DbLog> {
    pub phase: ListPhase,
    of: PhantomData<L>,
}

impl<L: DbLog> DbListMachine<L> {
    /// Whether a call is due. None is after an end, unless memory ran out.
    pub fn due(&self) -> bool
        ensures { result ≡ list_due self.now.phase }
    {
        self.phase.due()
    }

    /// Makes the one call that is due. Running out of memory leaves the machine as it was, and any other end leaves none due.
    pub fn next<S: ObjectStore>(
        &mut self,
        alloc: Global,
        log: &DbStore<L>,
        store: &mut S,
        moment: Millis,
    ) -> Step<Listed<(u64, ObjectMetadata)>>
        requires due { list_due self.now.phase ≡ true }
        ensures steps { Steps (S.told store.old) (S.told store.new)
            (list_asks log.now.db log.now.log) moment
            (list_goes log.now.log self.old.phase)
            self.old.phase self.new.phase result }
        ensures due { StillDue result (list_due self.new.phase) }
        ensures fault { FaultRose (S.told store.old) (S.told store.new) result }
    {
        self.phase.next(alloc, log.log(), store, moment)
    }
}

/// The boundary is moved up, in one try.
#[derive(Drop)]
pub struct DbAdvanceMachine<L: DbLog> {
    pub phase: AdvancePhase,
    of: PhantomData<L>,
}

impl<L: DbLog> DbAdvanceMachine<L> {
    /// Whether a call is due. None is after an end, unless memory ran out.
    pub fn due(&self) -> bool
        ensures { result ≡ advance_due self.now.phase }
    {
        self.phase.due()
    }

    /// Makes the one call that is due. Running out of memory leaves the machine as it was, and any other end leaves none due.
    pub fn next<S: ObjectStore>(
        &mut self,
        alloc: Global,
        log: &DbStore<L>,
        store: &mut S,
        moment: Millis,
    ) -> Step<()>
        requires due { advance_due self.now.phase ≡ true }
        ensures steps { Steps (S.told store.old) (S.told store.new)
            (advance_asks log.now.db log.now.log self.old.phase) moment
            (advance_goes self.old.phase)
            self.old.phase self.new.phase result }
        ensures due { StillDue result (advance_due self.new.phase) }
        ensures fault { FaultRose (S.told store.old) (S.told store.new) result }
    {
        self.phase.next(alloc, log.log(), store, moment)
    }
}

/// A version is deleted as it is, in one try.
#[derive(Drop)]
pub struct DbDeleteUncheckedMachine<L: DbLog> {
    pub phase: DeletePhase,
    of: PhantomData<L>,
}

impl<L: DbLog> DbDeleteUncheckedMachine<L> {
    /// Whether a call is due. None is after an end, unless memory ran out.
    pub fn due(&self) -> bool
        ensures { result ≡ delete_due self.now.phase }
    {
        self.phase.due()
    }

    /// Makes the one call that is due. Running out of memory leaves the machine as it was, and any other end leaves none due.
    pub fn next<S: ObjectStore>(
        &mut self,
        alloc: Global,
        log: &DbStore<L>,
        store: &mut S,
        moment: Millis,
    ) -> Step<()>
        requires due { delete_due self.now.phase ≡ true }
        ensures steps { Steps (S.told store.old) (S.told store.new)
            (delete_asks log.now.db log.now.log self.old.phase) moment
            (delete_goes self.old.phase)
            self.old.phase self.new.phase result }
        ensures due { StillDue result (delete_due self.new.phase) }
        ensures fault { FaultRose (S.told store.old) (S.told store.new) result }
    {
        self.phase.next(alloc, log.log(), store, moment)
    }
}

/// A version is deleted where the latest version and the boundary allow it, in one try.
#[derive(Drop)]
pub struct DbDeleteMachine<L: DbLog> {
    pub phase: CheckedDeletePhase<L::Value>,
}

impl<L: DbLog> DbDeleteMachine<L> {
    /// Whether a call is due. None is after an end, unless memory ran out.
    pub fn due(&self) -> bool
        ensures { result ≡ checked_due self.now.phase }
    {
        self.phase.due()
    }

    /// Makes the one call that is due. Running out of memory leaves the machine as it was, and any other end leaves none due.
    pub fn next<S: ObjectStore>(
        &mut self,
        alloc: Global,
        log: &DbStore<L>,
        store: &mut S,
        moment: Millis,
    ) -> Step<()>
        requires due { checked_due self.now.phase ≡ true }
        ensures steps { Steps (S.told store.old) (S.told store.new)
            (checked_asks log.now.db log.now.log self.old.phase) moment
            (checked_goes log.now.log (L.Codec.decoded log.now.codec) (L.Names.named L.its_names)
            self.old.phase)
            self.old.phase self.new.phase result }
        ensures due { StillDue result (checked_due self.new.phase) }
        ensures fault { FaultRose (S.told store.old) (S.told store.new) result }
    {
        self.phase
            .next(alloc, log.log(), &L::names(), store, moment)
    }
}

impl<L: DbLog> DbStore<L> {
    /// The machine of `advance_boundary`, which makes one try.
    pub fn start_advance_boundary(&self, n: u64) -> DbAdvanceMachine<L>
        ensures { result.phase ≡ advances.Bounding n }
    {
        DbAdvanceMachine {
            phase: AdvancePhase::Bounding(n),
            of: PhantomData,
        }
    }

    // The machine of a read of a number, where it is there.
    pub(crate) fn reading(&self, n: u64) -> DbTryReadMachine<L>
        ensures { result.phase ≡ tries.Getting n }
    {
        DbTryReadMachine {
            phase: TryReadPhase::Getting(n),
            of: PhantomData,
        }
    }

    // The machine of a read of a number, which has to be there.
    pub(crate) fn needing(&self, n: u64) -> DbReadMachine<L>
        ensures { result.phase ≡ tries.Getting n }
    {
        DbReadMachine {
            phase: TryReadPhase::Getting(n),
            of: PhantomData,
        }
    }

    // The machine of a list of a range.
    pub(crate) fn listing(&self, range: NumberRange) -> DbListMachine<L>
        ensures { result.phase ≡ lists.Listing range }
    {
        DbListMachine {
            phase: ListPhase::Listing(range),
            of: PhantomData,
        }
    }

    // The machine of a delete of a number as it is.
    pub(crate) fn deleting(&self, n: u64) -> DbDeleteUncheckedMachine<L>
        ensures { result.phase ≡ deletes.Deleting n }
    {
        DbDeleteUncheckedMachine {
            phase: DeletePhase::Deleting(n),
            of: PhantomData,
        }
    }
}
