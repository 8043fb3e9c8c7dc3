//! Changes that are put at once, and changes whose end is undone.
ghost use Rattle.std.specs.Prelude.{◌≡◌, ℕ, List, true, IfOk};
ghost use Rattle.slate_txn_changes.specs.Changes.{change_commit};
ghost use Rattle.slate_txn_changes.specs.LogWorks.{put_back, work_asks, work_due, work_rank};
ghost use Rattle.slate_state_calls.specs.Commits.{begun};
ghost use Rattle.slate_ids.specs.Answers.{Gives};
ghost use Rattle.slate_txn_log.specs.declared.log_kind.LogKind.{LogKind as Log};
ghost use Rattle.slate_store.specs.StoreCalls.{is_reading};

use slate_ids::{Millis, ObjectCodec, SlateDBError};
use slate_txn_changes::{Change, Changing, LogEnd, LogWork, commit_change};
use slate_txn_log::Rules;
use std::alloc::Global;

/// A change with the commit of what it makes of a version at a moment. One that makes nothing of it has no place here.
#[tactic(auto, using(slate_txn_changes::proofs::Ranks::putting_rank, slate_txn_changes::proofs::Ranks::putting_due))]
pub(crate) fn begun<V: Drop, H: Change<V> + Drop, C: ObjectCodec<V>, R: Rules<V>>(
    alloc: Global,
    change: H,
    codec: &C,
    rules: &R,
    now: Millis,
    n: u64,
    value: &V,
) -> Result<Changing<Option<H>, V>, SlateDBError>
    ensures begun { Gives result (begun change now (change_commit (H.made change) (H.right_of change) (H.fence_of change)
        (R.refusal rules.now) (C.encoded codec.now) now n value.now)) }
    ensures due { IfOk result (λ p. work_due p.work ≡ true) }
    ensures rank { IfOk result (λ p. work_rank p.work ≡ 2) }
{
    match commit_change(alloc, &change, codec, rules, now, n, value) {
        Ok(Some(commit)) => Ok(Changing {
            change: Some(change),
            work: LogWork::Committing(now, commit),
        }),
        Ok(None) => {
            drop(change);
            Err(SlateDBError::LatestTransactionalObjectVersionMissing)
        }
        Err(e) => {
            drop(change);
            Err(e)
        }
    }
}

/// Puts a change that has just ended so back to its last call, which reads. Takes no memory.
#[tactic(auto, using(crate::proofs::Backs::back_reads))]
pub(crate) fn put_back<V: Drop, H: Change<V>>(changing: &mut Changing<H, V>, end: LogEnd<V>)
    ensures back { changing.new ≡ record changing.old { work = put_back end changing.old.work } }
    ensures reads { (db : List ℕ) (log : Log) → is_reading (work_asks db log changing.new.work) ≡ true }
{
    changing.back(end)
}
