//! The compactions of a record along a chain of records: which go, and which stop being Compacted.
ghost use Rattle.std.specs.Prelude.{◌≡◌, ℕ, Some, None};
ghost use Rattle.slate_model_records.specs.Records.{Record};
ghost use Rattle.slate_txn_log.specs.declared.log_kind.LogKind.TheVariants as logs;
ghost use Rattle.slate_cluster_protocol.specs.Chains.{Link, IsChain, link_at};
ghost use Rattle.slate_cluster_protocol.specs.Logs.{Author, Chain, records};
ghost use Rattle.slate_cluster_chain_laws.specs.ChainSteps.{EachStep};
ghost use Rattle.slate_cluster_chain_laws.specs.Locals.{ObeyOutputs};
ghost use Rattle.slate_cluster_chain_laws.specs.RecordSteps.{KeepsEntries};

/// From each record of a chain to the next each compaction stays, and one that is Compacted stays so with its outputs, unless the next one's author
/// put an open's reset, and it was over, or a compactor's local statuses, and it wasn't pending or was over among these; with an epoch that isn't
/// below that of the record.
pub fn entry_steps()
    ensures { (c : Chain logs.Compactions) → IsChain records c
        → EachStep (λ author old new. KeepsEntries author.puts old new) c }
{}

/// Along a chain of records the outputs of each compaction lie at or above it, where those of a record that nobody put do.
pub fn outputs_obeyed()
    ensures { (c : Chain logs.Compactions) → IsChain records c
        → ((l : Link Record Author) → link_at l.number c ≡ Some l → l.by ≡ None → ObeyOutputs l.value.entries)
        → (n : ℕ) (l : Link Record Author) → link_at n c ≡ Some l → ObeyOutputs l.value.entries }
{}
