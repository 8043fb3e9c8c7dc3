//! Rules of a log.
ghost use Rattle.std.specs.Prelude.{ℕ, Option};
ghost use Rattle.slate_ids.specs.Answers.{Gives, refused};
ghost use Rattle.slate_ids.specs.declared.error.SlateDBError.{SlateDBError as Refusal};
ghost use Rattle.slate_txn_log.specs.declared.right.Right.{Right as AnyRight};

use crate::right::Right;
use slate_ids::SlateDBError;
use std::alloc::Global;

/// Which values may follow which.
pub trait Rules<T> {
    /// Why the new value may not follow the old one of this number, or none.
    ghost refusal: { Self → ℕ → T → T → AnyRight → Option Refusal };

    /// Refuses a new value that may not follow the old one of this number, under this right.
    fn check(
        &self,
        alloc: Global,
        old_id: u64,
        old: &T,
        new: &T,
        right: &Right,
    ) -> Result<(), SlateDBError>
        ensures { Gives result (refused (refusal self.now old_id old.now new.now right.now)) };
}
