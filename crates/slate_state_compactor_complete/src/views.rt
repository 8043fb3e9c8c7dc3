//! Reads of two logs, and of a compactor's view.
ghost use Rattle.std.specs.Prelude.{◌<◌, ℕ, Result};
ghost use Rattle.slate_ids.specs.Answers.{OrMemory};
ghost use Rattle.slate_ids.specs.declared.error.SlateDBError.{SlateDBError as Refusal};
ghost use Rattle.slate_state_compactor_complete.specs.Views.{BothEnds, BothReady, ViewEnds};
ghost use Rattle.slate_state_reader.specs.BothReads.{BothBegan, BothRan};
ghost use Rattle.slate_state_reader.specs.StateViews.{Logs, View, ViewRead};
ghost use Rattle.slate_state_reader.specs.declared.both_phase.Both.{Both};
ghost use Rattle.slate_store.specs.Store.{Store};
ghost use Rattle.slate_store.specs.StoreCalls.{Told};
ghost use Rattle.slate_txn_laws.specs.Codecs.{Decoding};
ghost use Rattle.slate_txn_laws.specs.Serving.{Serves};
ghost use Rattle.slate_txn_log.specs.declared.sequenced.Sequenced.{Sequenced};

/// Over a store that serves it, a read of the latest versions of two logs that are ready answers each as a read of that log alone does, in
/// its first try; or it is refused as the first is, or as the second is. The contents stay. Or memory ran out.
pub fn both_ends<T, C, V, D>()
    ensures { (one_decoded : Decoding C T) (other_decoded : Decoding D V) (first : Sequenced T C) (second : Sequenced V D) (tries : ℕ)
        → 0 < tries → (old new : Told) (s : Store) (result : Result (Both T V) Refusal)
        → OrMemory result (BothBegan one_decoded other_decoded first second tries old new)
        (BothRan one_decoded other_decoded first second tries old new result)
        → Serves old new s → BothReady first second s → BothEnds one_decoded other_decoded first second s new result }
{}

/// So a compactor's view is that of the latest record, where there is one, and of the latest manifest, or it is refused since there is none,
/// by a codec, or since a boundary is not a number.
pub fn view_ends()
    ensures { (logs : Logs) (tries : ℕ) → 0 < tries → (old new : Told) (s : Store) (result : Result View Refusal)
        → ViewRead logs tries old new result → Serves old new s → BothReady logs.records logs.manifests s → ViewEnds logs s new result }
{}
