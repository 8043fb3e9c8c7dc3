//! The plain call that reads the latest versions of two logs.
ghost use Rattle.std.specs.Prelude.{◌<◌};
ghost use Rattle.slate_state_reader.specs.BothReads.{BothBegan, BothRan};
ghost use Rattle.slate_ids.specs.Answers.{OrMemory};
ghost use Rattle.slate_txn_log.specs.Due.{FaultOf, NoFault};

use crate::both_phase::{Both, BothPhase};
use slate_ids::{ObjectCodec, SlateDBError};
use slate_store::{ObjectStore, Step};
use slate_txn_log::{ReadPhase, Sequenced};
use std::alloc::Global;

/// The latest version of the first log and then that of the second, each above its log's boundary, or none where a log has no version.
/// The read of a log starts again where its version is gone when it is got, or is at or below the boundary: in both so often together as
/// there are tries, then `Contended`. What was read first is kept while the second is read again.
pub fn read_both<T: Drop, C: ObjectCodec<T>, V: Drop, D: ObjectCodec<V>, S: ObjectStore>(
    alloc: Global,
    first: &Sequenced<T, C>,
    second: &Sequenced<V, D>,
    store: &mut S,
    tries: u32,
) -> Result<Both<T, V>, SlateDBError>
    requires { 0 < tries }
    ensures read { OrMemory result
        (BothBegan C.decoded D.decoded first.now second.now tries (S.told store.old) (S.told store.new))
        (BothRan C.decoded D.decoded first.now second.now tries (S.told store.old) (S.told store.new) result) }
    ensures fault { NoFault (C.decoded first.now.codec) → NoFault (D.decoded second.now.codec)
        → FaultOf (S.told store.old) (S.told store.new) result }
{
    let mut reading = BothPhase::First(ReadPhase::Listing);
    let mut left = tries;
    loop {
        match reading.next(alloc, first, second, store, 0) {
            Step::Done(result) => {
                drop(reading);
                return result;
            }
            Step::Again => {}
        }
        if reading.is_start() {
            if left == 1 {
                drop(reading);
                return Err(SlateDBError::Contended);
            }
            left -= 1;
        }
    }
}
