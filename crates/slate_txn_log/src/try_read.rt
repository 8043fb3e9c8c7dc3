//! The plain call that reads one version by its number.
ghost use Rattle.std.specs.Prelude.{◌≡◌, pos};
ghost use Rattle.slate_ids.specs.Answers.{Gives};
ghost use Rattle.slate_store.specs.declared.store_call.StoreCall.TheVariants as calls;
ghost use Rattle.slate_txn_log.specs.Due.{FaultOf, NoFault};
ghost use Rattle.slate_txn_log.specs.LogPaths.{version_path};
ghost use Rattle.slate_txn_log.specs.Once.{Once};
ghost use Rattle.slate_txn_log.specs.TryRead.{try_reply};
ghost use Rattle.slate_txn_log.specs.declared.try_read_phase.TryReadPhase.TheVariants.{Getting};

use crate::sequenced::Sequenced;
use crate::try_read_phase::TryReadPhase;
use slate_ids::{Millis, ObjectCodec, SlateDBError};
use slate_store::{ObjectStore, StoreAnswer, StoreCall, perform};
use std::alloc::Global;

impl<T: Drop, C: ObjectCodec<T>> Sequenced<T, C> {
    // The value that was got.
    fn try_reply(&self, alloc: Global, answer: &StoreAnswer) -> Result<Option<T>, SlateDBError>
        ensures { Gives result (try_reply (C.decoded self.now.codec) answer.now) }
    {
        match answer {
            StoreAnswer::Got(None) => Ok(None),
            StoreAnswer::Got(Some(object)) => {
                Ok(Some(self.codec.decode(alloc, object.bytes.as_slice())?))
            }
            _ => Err(SlateDBError::StoreFault),
        }
    }

    pub(crate) fn try_once<S: ObjectStore>(
        &self,
        alloc: Global,
        store: &mut S,
        number: u64,
        moment: Millis,
    ) -> Result<Option<T>, SlateDBError>
        ensures read { Once (S.told store.old) (S.told store.new)
            (calls.Get (version_path self.now.log self.now.db number)) moment
            (try_reply (C.decoded self.now.codec)) result }
        ensures fault { NoFault (C.decoded self.now.codec)
            → FaultOf (S.told store.old) (S.told store.new) result }
    {
        let call = StoreCall::Get(self.log.version_path(self.db, number));
        let performed = perform(alloc, store, &call, moment);
        drop(call);
        let answer = performed?;
        let reply = self.try_reply(alloc, &answer);
        drop(answer);
        reply
    }

    /// The version of this number, or none where it isn't there. Reads no boundary.
    pub fn try_read<S: ObjectStore>(
        &self,
        alloc: Global,
        store: &mut S,
        number: u64,
    ) -> Result<Option<T>, SlateDBError>
        ensures read { Once (S.told store.old) (S.told store.new)
            (calls.Get (version_path self.now.log self.now.db number)) (pos 0)
            (try_reply (C.decoded self.now.codec)) result }
        ensures fault { NoFault (C.decoded self.now.codec)
            → FaultOf (S.told store.old) (S.told store.new) result }
    {
        self.try_once(alloc, store, number, 0)
    }

    /// The machine that reads the version of this number.
    pub fn start_try_read(&self, number: u64) -> TryReadPhase
        ensures { result ≡ Getting number }
    {
        TryReadPhase::Getting(number)
    }
}
