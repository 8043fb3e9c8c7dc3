//! The plain call that lists the versions of a log.
ghost use Rattle.std.specs.Prelude.{◌≡◌, ◌≤◌, pos, IfOk, OnOk, length};
ghost use Rattle.slate_ids.specs.Answers.{Gives};
ghost use Rattle.slate_txn_log.specs.Due.{FaultOf};
ghost use Rattle.slate_txn_log.specs.LogPaths.{number_of};
ghost use Rattle.slate_txn_log.specs.Once.{Once};
ghost use Rattle.slate_txn_log.specs.Versions.{place, put_in, kept_with, versions_in, versions_of, list_reply, list_asks, Ascending, Within};
ghost use Rattle.slate_txn_log.specs.declared.list_phase.ListPhase.TheVariants.{Listing};

use crate::list_phase::ListPhase;
use crate::log_kind::LogKind;
use crate::sequenced::Sequenced;
use slate_ids::{Listed, Millis, NumberRange, OutOfMemory, SlateDBError};
use slate_store::{ObjectMetadata, ObjectStore, StoreAnswer, StoreCall, perform};
use std::alloc::Global;

// The place of a number among ascending ones, after its equals. It is looked for from the end: a list tells numbers in their order.
fn place(kept: &[(u64, ObjectMetadata)], number: u64) -> usize
    requires { Ascending kept.now }
    ensures place { result ≡ place number kept.now }
    ensures within { result ≤ length kept.now }
{
    let mut at = kept.len();
    while at > 0 {
        if kept[at - 1].0 <= number {
            return at;
        }
        at -= 1;
    }
    at
}

fn put_in(
    kept: &mut Vec<(u64, ObjectMetadata)>,
    number: u64,
    metadata: ObjectMetadata,
) -> Result<(), OutOfMemory>
    requires { Ascending kept.old.items }
    ensures { OnOk result (kept.new.items ≡ put_in (number, metadata) kept.old.items) }
{
    let at = place(kept.as_slice(), number);
    kept.insert(at, (number, metadata))?;
    Ok(())
}

fn keep(
    alloc: Global,
    log: LogKind,
    range: &NumberRange,
    kept: &mut Vec<(u64, ObjectMetadata)>,
    metadata: &ObjectMetadata,
) -> Result<(), OutOfMemory>
    requires { Ascending kept.old.items }
    ensures { OnOk result (kept.new.items
        ≡ kept_with range.now kept.old.items metadata.now (number_of log metadata.now.location)) }
{
    match log.number_of(&metadata.location) {
        None => Ok(()),
        Some(n) => {
            if range.contains(n) {
                put_in(kept, n, metadata.copy(alloc)?)
            } else {
                Ok(())
            }
        }
    }
}

fn versions_in(
    alloc: Global,
    log: LogKind,
    range: &NumberRange,
    found: &[ObjectMetadata],
) -> Result<Listed<(u64, ObjectMetadata)>, OutOfMemory>
    ensures { IfOk result (λ versions. versions ≡ versions_in log range.now found.now) }
{
    let mut kept = Vec::new(alloc);
    for metadata in found {
        match keep(alloc, log, range, &mut kept, metadata) {
            Ok(()) => {}
            Err(e) => {
                drop(kept);
                return Err(e);
            }
        }
    }
    Ok(Listed::from_vec(kept))
}

fn list_reply(
    alloc: Global,
    log: LogKind,
    range: &NumberRange,
    answer: &StoreAnswer,
) -> Result<Listed<(u64, ObjectMetadata)>, SlateDBError>
    ensures { Gives result (list_reply log range.now answer.now) }
{
    match answer {
        StoreAnswer::Found(found) => Ok(versions_in(alloc, log, range, found.as_slice())?),
        _ => Err(SlateDBError::StoreFault),
    }
}

impl<T, C> Sequenced<T, C> {
    pub(crate) fn list_once<S: ObjectStore>(
        &self,
        alloc: Global,
        store: &mut S,
        range: NumberRange,
        moment: Millis,
    ) -> Result<Listed<(u64, ObjectMetadata)>, SlateDBError>
        ensures read { Once (S.told store.old) (S.told store.new)
            (list_asks self.now.db self.now.log) moment (list_reply self.now.log range) result }
        ensures fault { FaultOf (S.told store.old) (S.told store.new) result }
    {
        let call = StoreCall::List(self.log.folder(self.db));
        let performed = perform(alloc, store, &call, moment);
        drop(call);
        let answer = performed?;
        let reply = list_reply(alloc, self.log, &range, &answer);
        drop(answer);
        reply
    }

    /// The versions with numbers in the range, ascending by number, with what the store tells of each. Reads no boundary.
    pub fn list<S: ObjectStore>(
        &self,
        alloc: Global,
        store: &mut S,
        range: NumberRange,
    ) -> Result<Vec<(u64, ObjectMetadata)>, SlateDBError>
        ensures read { Once (S.told store.old) (S.told store.new)
            (list_asks self.now.db self.now.log) (pos 0)
            (list_reply self.now.log range) (versions_of result) }
        ensures ascending { IfOk result (λ versions. Ascending versions.items) }
        ensures within { IfOk result (λ versions. Within range versions.items) }
        ensures fault { FaultOf (S.told store.old) (S.told store.new) result }
    {
        match self.list_once(alloc, store, range, 0) {
            Ok(versions) => Ok(versions.into_vec()),
            Err(e) => Err(e),
        }
    }

    /// The machine that lists the versions with numbers in the range.
    pub fn start_list(&self, range: NumberRange) -> ListPhase
        ensures { result ≡ Listing range }
    {
        ListPhase::Listing(range)
    }
}
