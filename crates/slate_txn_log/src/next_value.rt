//! The value of the next epoch.
ghost use Rattle.std.specs.Prelude.{◌≡◌};
ghost use Rattle.slate_txn_log.specs.Change.{next_epoch};

use slate_ids::{Epochs, SlateDBError};

/// The value with its epoch plus one, to follow the version of this number. Refused with `Exhausted` at the last epoch.
/// Takes no memory.
pub fn next_epoch<T: Drop, E: Epochs<T>>(
    epochs: &E,
    id: u64,
    value: T,
) -> Result<Option<T>, SlateDBError>
    ensures { result ≡ next_epoch (E.epoch epochs.now) (E.with_epoch epochs.now) id value }
{
    let epoch = epochs.get(&value);
    if epoch == u64::MAX {
        return Err(SlateDBError::Exhausted(epoch));
    }
    let mut raised = value;
    epochs.set(&mut raised, epoch + 1);
    Ok(Some(raised))
}
