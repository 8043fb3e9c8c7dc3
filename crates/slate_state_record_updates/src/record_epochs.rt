//! The epoch that fences compactors, and the record of a log without one.
ghost use Rattle.std.specs.Prelude.{◌≡◌, refl};
ghost use Rattle.slate_ids.specs.Answers.{Gives};
ghost use Rattle.slate_state_record_updates.specs.RecordEpochs as epochs;
ghost use Rattle.slate_state_record_updates.specs.RecordEpochs.{with_record_epoch, raised_record};

use slate_ids::{Epochs, SlateDBError};
use slate_model::{Compactions, Plain};
use slate_txn_log::next_epoch;
use std::alloc::Global;

/// The compactor's epoch of a record.
#[derive(Clone, Copy, Debug)]
pub struct RecordEpochs;

impl Epochs<Compactions> for RecordEpochs {
    ghost epoch = { λ _ compactions. compactions.compactor_epoch };

    ghost with_epoch = { λ _ compactions n. with_record_epoch compactions n };

    fn get(&self, value: &Compactions) -> u64 {
        value.compactor_epoch
    }

    fn set(&self, value: &mut Compactions, number: u64) {
        value.compactor_epoch = number;
    }

    ghost epoch_set = { λ _ _ _. refl };
}

/// The record of a log without one, which has no version before it: epoch 0 and no compactions. Takes no memory.
pub fn first_record(alloc: Global) -> Compactions
    ensures { result ≡ epochs.first_record }
{
    Compactions::new(alloc, 0)
}

/// What an open makes of version `n`: the record with its epoch plus one. Refused with `Exhausted` where there is no such epoch.
pub fn raise_record(
    alloc: Global,
    n: u64,
    compactions: &Compactions,
) -> Result<Option<Compactions>, SlateDBError>
    ensures { Gives result (raised_record n compactions.now) }
{
    next_epoch(&RecordEpochs, n, Plain::clone(compactions, alloc)?)
}
