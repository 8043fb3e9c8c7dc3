//! The plain call that reads the latest version.
ghost use Rattle.std.specs.Prelude.{◌≡◌, ◌<◌};
ghost use Rattle.slate_ids.specs.Answers.{OrMemory};
ghost use Rattle.slate_txn_log.specs.Due.{FaultOf, NoFault};
ghost use Rattle.slate_txn_log.specs.ReadLatest.{Read, ReadBegan};
ghost use Rattle.slate_txn_log.specs.declared.read_phase.ReadPhase.TheVariants.{Listing};

use crate::read_phase::ReadPhase;
use crate::sequenced::Sequenced;
use slate_ids::{ObjectCodec, SlateDBError};
use slate_store::{ObjectStore, Step};
use std::alloc::Global;

impl<T: Drop, C: ObjectCodec<T>> Sequenced<T, C> {
    /// The machine that reads the latest version.
    pub fn start_read_latest(&self) -> ReadPhase<T>
        ensures { result ≡ Listing }
    {
        ReadPhase::Listing
    }

    /// The latest version above the boundary, or none where the log has no version. A read starts again where the version
    /// is gone when it is got, or is at or below the boundary: so often as there are tries, then `Contended`.
    pub fn read_latest<S: ObjectStore>(
        &self,
        alloc: Global,
        store: &mut S,
        tries: u32,
    ) -> Result<Option<(u64, T)>, SlateDBError>
        requires { 0 < tries }
        ensures read { OrMemory result
            (ReadBegan C.decoded self.now tries (S.told store.old) (S.told store.new))
            (Read C.decoded self.now tries (S.told store.old) (S.told store.new) result) }
        ensures fault { NoFault (C.decoded self.now.codec)
            → FaultOf (S.told store.old) (S.told store.new) result }
    {
        let mut read = ReadPhase::Listing;
        let mut left = tries;
        loop {
            match read.next(alloc, self, store, 0) {
                Step::Done(result) => {
                    drop(read);
                    return result;
                }
                Step::Again => {}
            }
            if read.is_listing() {
                if left == 1 {
                    drop(read);
                    return Err(SlateDBError::Contended);
                }
                left -= 1;
            }
        }
    }
}
