//! The fence of a holder that may not have opened the database.
ghost use Rattle.std.specs.Prelude.{◌≡◌};
ghost use Rattle.slate_txn_changes.specs.Changes.{holder_fence};

use slate_ids::{SlateDBError, StateCause};
use slate_txn_log::fence;

/// Why a version with the epoch `read` refuses a holder: `Fenced` where it is above the own one, `InvalidDBState` of `NotOpen` where the
/// holder hasn't opened the database, and else none.
pub fn holder_fence(own: Option<u64>, read: u64) -> Option<SlateDBError>
    ensures { result ≡ holder_fence own read }
{
    match own {
        None => Some(SlateDBError::InvalidDBState(StateCause::NotOpen)),
        Some(own) => fence(own, read),
    }
}
