//! Objects stay at paths that there are.
ghost use Rattle.std.specs.Prelude.{◌≡◌, ◌<◌, ◌^◌, ℕ, ℤ, List, true};
ghost use Rattle.slate_ids.specs.FinePath.{IsFine};
ghost use Rattle.slate_ids.specs.Ids.{is_db_path};
ghost use Rattle.slate_store.specs.StoreCalls.{Makes, Told};
ghost use Rattle.slate_store.specs.Machines.{Goes};
ghost use Rattle.slate_store.specs.CallRuns.{Run};
ghost use Rattle.slate_store.specs.declared.made.Made.{Made as CallMade};
ghost use Rattle.slate_store.specs.declared.store_answer.StoreAnswer.{StoreAnswer as Answer};
ghost use Rattle.slate_store.specs.declared.store_call.StoreCall.{StoreCall as Call};
ghost use Rattle.slate_txn_log.specs.LogPaths.{boundary_path, version_path};
ghost use Rattle.slate_txn_log.specs.declared.log_kind.LogKind.{LogKind};
ghost use Rattle.slate_txn_laws.specs.FineObjects.{AllWriteFine, TellsFine, WritesFine};

/// Where each object stands at a path that there is, so it is after a call that writes at such a path, or that writes nothing, whatever its
/// answer, a fault too. In a store without objects it is so (`first_ready`); so it is in each store after any such calls.
pub fn call_fine()
    ensures { (old new : Told) (call : Call) (moment : ℤ) (answer : Answer) → Makes old new call moment answer → WritesFine call
        → TellsFine old → TellsFine new }
{}

/// So it is after a run of a machine that makes such calls alone.
pub fn run_fine<P, R>()
    ensures { (asks : P → Call) (goes : P → Answer → Goes P R) (moment : ℤ) (old new : Told) (calls : List CallMade)
        (from out : Goes P R) → Run asks goes moment old new calls from out → AllWriteFine calls → TellsFine old → TellsFine new }
{}

/// The paths of a log's versions and of its boundary are such paths.
pub fn paths_fine()
    ensures version { (db : List ℕ) (log : LogKind) (n : ℕ) → is_db_path db ≡ true → n < 2 ^ 64 → IsFine (version_path log db n) }
    ensures boundary { (db : List ℕ) (log : LogKind) → is_db_path db ≡ true → IsFine (boundary_path log db) }
{}
