//! The fence.
ghost use Rattle.std.specs.Prelude.{◌≡◌};
ghost use Rattle.slate_txn_log.specs.Fence.{fence};

use slate_ids::SlateDBError;

/// Why a version with the epoch `read` refuses a holder with the epoch `own`: `Fenced` where it is above the own one, and
/// else none.
pub fn fence(own: u64, read: u64) -> Option<SlateDBError>
    ensures { result ≡ fence own read }
{
    if own < read {
        Some(SlateDBError::Fenced { own, read })
    } else {
        None
    }
}
