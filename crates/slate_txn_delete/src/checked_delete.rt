//! The plain call that deletes a version which the latest one and the boundary allow to delete.
ghost use Rattle.std.specs.Prelude.{◌<◌};
ghost use Rattle.slate_ids.specs.Answers.{OrMemory};
ghost use Rattle.slate_txn_log.specs.Due.{FaultOf, NoFault};
ghost use Rattle.slate_txn_delete.specs.CheckedDelete.{CheckedBegan, CheckedRan};

use crate::checked_delete_phase::CheckedDeletePhase;
use crate::names::VersionNames;
use slate_ids::{ObjectCodec, SlateDBError};
use slate_store::{ObjectStore, Step};
use slate_txn_log::{ReadPhase, Sequenced};
use std::alloc::Global;

/// Deletes the version of this number: where no read starts again, by one list, two gets and a delete. `InvalidDeletion` of this number
/// where it is the latest version, where the latest names it, or where it is above the boundary that was read with the latest, of which an
/// absent one counts as 0; `LatestTransactionalObjectVersionMissing` where the log has no version. Then nothing is deleted. A read starts
/// again where the version is gone when it is got, or is at or below the boundary: so often as there are tries, then `Contended`.
pub fn delete_checked<T: Drop, C: ObjectCodec<T>, N: VersionNames<T>, S: ObjectStore>(
    alloc: Global,
    sequenced: &Sequenced<T, C>,
    names: &N,
    store: &mut S,
    n: u64,
    tries: u32,
) -> Result<(), SlateDBError>
    requires { 0 < tries }
    ensures delete { OrMemory result
        (CheckedBegan C.decoded (N.named names.now) sequenced.now n tries (S.told store.old) (S.told store.new))
        (CheckedRan C.decoded (N.named names.now) sequenced.now n tries (S.told store.old) (S.told store.new) result) }
    ensures fault { NoFault (C.decoded sequenced.now.codec)
        → FaultOf (S.told store.old) (S.told store.new) result }
{
    let mut deletion = CheckedDeletePhase::Reading(n, ReadPhase::Listing);
    let mut left = tries;
    loop {
        match deletion.next(alloc, sequenced, names, store, 0) {
            Step::Done(result) => {
                drop(deletion);
                return result;
            }
            Step::Again => {}
        }
        if deletion.is_start() {
            if left == 1 {
                drop(deletion);
                return Err(SlateDBError::Contended);
            }
            left -= 1;
        }
    }
}
