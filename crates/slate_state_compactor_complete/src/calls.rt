//! A compactor's open, and its calls on its state.
ghost use Rattle.std.specs.Prelude.{◌≡◌, ◌<◌, ℕ, ℤ, List, Result, true};
ghost use Rattle.slate_ids.specs.Ids.{is_db_path};
ghost use Rattle.slate_ids.specs.declared.error.SlateDBError.{SlateDBError as Refusal};
ghost use Rattle.slate_state_calls.specs.declared.compactor.Compactor.{Compactor};
ghost use Rattle.slate_state_calls.specs.declared.state_start.StateStart.{StateStart as Start};
ghost use Rattle.slate_state_compactor_complete.specs.Calls.{CallEnds, OpenEnds};
ghost use Rattle.slate_state_writer.specs.PlainOpening.{Opens};
ghost use Rattle.slate_state_writer.specs.StateCalls.{StateCalled};
ghost use Rattle.slate_state_writer.specs.Writer.{Writer};
ghost use Rattle.slate_store.specs.Store.{Store};
ghost use Rattle.slate_store.specs.StoreCalls.{Told};
ghost use Rattle.slate_txn_changes_laws.specs.BothLogs.{AreReady};
ghost use Rattle.slate_txn_laws.specs.Serving.{Serves};

/// Over a store that serves it and in which both logs are ready, a compactor's open ends in its first try, with the compactor or for a cause
/// that the contents have which it leaves (`OpenRefused`): a log has no version that it needs, the codec refuses the latest one, the change
/// that is due is refused, or a boundary is not a number. It answers no fault, no taken number, and not that its tries are used up. Both
/// logs are left ready. Or memory ran out.
pub fn open_ends()
    ensures { (db : List ℕ) → is_db_path db ≡ true → (moment : ℤ) (tries : ℕ) → 0 < tries → (old new : Told) (s : Store)
        (result : Result Writer Refusal) → Opens db moment tries old new result → Serves old new s → AreReady db s
        → OpenEnds db moment new result }
{}

/// So does each call of a compactor on its state: a refresh, a schedule, and the writes of its trees, of its record, and of both. Its causes
/// are `CallRefused`, by its own changes; a refresh is besides refused by the epoch of the record read, or since what is held can't follow
/// the manifest read.
pub fn state_call_ends()
    ensures { (db : List ℕ) → is_db_path db ≡ true → (start : Start) (moment : ℤ) (tries : ℕ) → 0 < tries → (old new : Told) (s : Store)
        (from to : Compactor) (result : Result (Unit {0}) Refusal) → StateCalled db start moment tries old new from to result
        → Serves old new s → AreReady db s → CallEnds db moment start from.epoch new result }
{}
