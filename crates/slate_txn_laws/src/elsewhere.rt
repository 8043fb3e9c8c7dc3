//! Calls elsewhere leave a log ready.
ghost use Rattle.std.specs.Prelude.{◌≡◌, ◌<◌, ◌^◌, ℕ, ℤ, List, true};
ghost use Rattle.slate_ids.specs.Ids.{is_db_path};
ghost use Rattle.slate_store.specs.StoreCalls.{Makes, Told};
ghost use Rattle.slate_store.specs.Machines.{Goes};
ghost use Rattle.slate_store.specs.CallRuns.{Run};
ghost use Rattle.slate_store.specs.declared.made.Made.{Made as CallMade};
ghost use Rattle.slate_store.specs.declared.store_answer.StoreAnswer.{StoreAnswer as Answer};
ghost use Rattle.slate_store.specs.declared.store_call.StoreCall.{StoreCall as Call};
ghost use Rattle.slate_txn_log.specs.LogPaths.{boundary_path, version_path};
ghost use Rattle.slate_txn_log.specs.declared.log_kind.LogKind.{LogKind};
ghost use Rattle.slate_txn_laws.specs.Elsewhere.{AllElsewhere, IsAside, IsElsewhere, StaysReady};

/// A store call that only reads, or writes or deletes at a path that is none of a log's, leaves the log ready, whatever its answer, a
/// fault too.
pub fn call_elsewhere()
    ensures { (db : List ℕ) (log : LogKind) → is_db_path db ≡ true
        → (old new : Told) (call : Call) (moment : ℤ) (answer : Answer) → Makes old new call moment answer
        → IsElsewhere db log call → StaysReady db log old new }
{}

/// So does a run of a machine that makes such calls alone.
pub fn run_elsewhere<P, R>()
    ensures { (db : List ℕ) (log : LogKind) → is_db_path db ≡ true
        → (asks : P → Call) (goes : P → Answer → Goes P R) (moment : ℤ) (old new : Told) (calls : List CallMade)
        (from out : Goes P R) → Run asks goes moment old new calls from out
        → AllElsewhere db log calls → StaysReady db log old new }
{}

/// The versions and the boundary of the other log of a database, or of a log of another database, are at such paths.
pub fn paths_aside()
    ensures version { (db : List ℕ) (log : LogKind) (other : List ℕ) (other_log : LogKind) (n : ℕ)
        → is_db_path other ≡ true → n < 2 ^ 64 → (db ≡ other → log ≡ other_log → ⊥)
        → IsAside db log (version_path other_log other n) }
    ensures boundary { (db : List ℕ) (log : LogKind) (other : List ℕ) (other_log : LogKind)
        → is_db_path other ≡ true → (db ≡ other → log ≡ other_log → ⊥)
        → IsAside db log (boundary_path other_log other) }
{}
