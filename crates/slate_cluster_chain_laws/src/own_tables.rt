//! The tables of a database along a chain of its manifests: where they come from.
ghost use Rattle.slate_txn_log.specs.declared.log_kind.LogKind.TheVariants as logs;
ghost use Rattle.slate_cluster_protocol.specs.Chains.{IsChain};
ghost use Rattle.slate_cluster_protocol.specs.Logs.{Chain, manifests};
ghost use Rattle.slate_cluster_chain_laws.specs.ChainSteps.{EachStep};
ghost use Rattle.slate_cluster_chain_laws.specs.TableSteps.{OwnTablesCome};

/// From each manifest of a chain to the next each table of its trees that no entry of another database lists was such a table before, or is from
/// the old floor and the old watermark on, or was made by the compactor whose right the next one's author has.
pub fn table_steps()
    ensures { (c : Chain logs.Manifest) → IsChain manifests c
        → EachStep (λ author old new. OwnTablesCome (manifests.right author) old new) c }
{}
