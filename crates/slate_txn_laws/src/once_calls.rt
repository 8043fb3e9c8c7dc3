//! Plain calls of one store call: reads of a version by its number, and lists.
ghost use Rattle.std.specs.Prelude.{ℤ, Result};
ghost use Rattle.slate_ids.specs.declared.error.SlateDBError.{SlateDBError as Refusal};
ghost use Rattle.slate_store.specs.declared.store_answer.StoreAnswer.{StoreAnswer as Answer};
ghost use Rattle.slate_store.specs.declared.store_call.StoreCall.{StoreCall as Call};
ghost use Rattle.slate_txn_log.specs.Once.{Once};
ghost use Rattle.slate_txn_laws.specs.Ending.{OnceEnds, WhereServed};

/// Over a store that serves it, a plain call of one store call is answered by the answer to that call's whole effect, and leaves that
/// effect; or memory ran out.
pub fn once_ends<R>()
    ensures { (call : Call) (moment : ℤ) (reply : Answer → Result R Refusal)
        → WhereServed (λ old new. Once old new call moment reply) (OnceEnds call moment reply) }
{}
