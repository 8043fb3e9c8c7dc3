//! A pass as a plain call.
ghost use Rattle.std.specs.Prelude.{◌≡◌, ◌<◌, option_copied};
ghost use Rattle.slate_gc.specs.Ended.{ended_with};
ghost use Rattle.slate_gc.specs.GcPass.{layout_ways};
ghost use Rattle.slate_gc.specs.PassTurns.{deleted_by, PassRan};
ghost use Rattle.slate_gc_picks.specs.Filter.{allowed};
ghost use Rattle.slate_gc_picks.specs.WalPicks.{wal_candidates};

use crate::pass_turns::PassTurns;
use slate_gc_passes::{PassCounts, PassSettings};
use slate_gc_picks::{GcFilter, WalGc};
use slate_ids::{DbPath, Millis, SlateDBError};
use slate_store::{ObjectStore, Step};
use std::alloc::Global;

/// How a pass ended: its counts or its refusal, and how many of its deletes didn't fault. Where memory ran out some of them may
/// have been made.
#[derive(Debug, Drop)]
pub(crate) struct PassEnd {
    pub result: Result<PassCounts, SlateDBError>,
    pub deleted: u64,
}

// A pass ended so.
fn ends(turns: PassTurns, reply: Result<PassCounts, SlateDBError>) -> PassEnd
    ensures reply { result.result ≡ reply }
    ensures deleted { result.deleted ≡ deleted_by reply turns.pass.phase }
{
    let deleted = match &reply {
        Ok(counts) => counts.deleted,
        Err(_) => turns.deleted(),
    };
    drop(turns);
    PassEnd {
        result: reply,
        deleted,
    }
}

/// Runs a pass to its end, all at this moment. After a conflict it begins again, and a read of the latest version or the advance of the
/// boundary starts again where it lost a race: so often together as there are tries, then it is refused with `Contended`. Want of
/// memory ends it with `OutOfMemory`.
pub(crate) fn run_pass<S: ObjectStore, F: GcFilter, W: WalGc>(
    alloc: Global,
    db: DbPath,
    settings: PassSettings,
    store: &mut S,
    filter: Option<&F>,
    wal: Option<&W>,
    moment: Millis,
    tries: u32,
) -> PassEnd
    requires { 0 < tries }
    ensures { PassRan (layout_ways (allowed F.returns (option_copied filter.entry))
        (wal_candidates W.picked (option_copied wal.entry))) db settings moment tries
        (S.told store.old) (S.told store.new) (ended_with settings.pass result.result result.deleted) }
{
    let mut turns = PassTurns::new(db, settings);
    let mut left = tries;
    'stages: loop {
        match turns.through_stage(alloc, store, filter, wal, moment) {
            Step::Done(result) => return ends(turns, result),
            Step::Again => {}
        }
        if turns.is_turned {
            if left == 1 {
                return ends(turns, Err(SlateDBError::Contended));
            }
            left -= 1;
        }
    }
}
