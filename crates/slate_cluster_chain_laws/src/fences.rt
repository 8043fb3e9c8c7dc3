//! The epoch of the compactors along a chain of manifests: who raised it, and to what.
ghost use Rattle.std.specs.Prelude.{◌≡◌, ℕ};
ghost use Rattle.slate_txn_log.specs.declared.log_kind.LogKind.TheVariants as logs;
ghost use Rattle.slate_cluster_protocol.specs.Chains.{IsChain};
ghost use Rattle.slate_cluster_protocol.specs.Logs.{Chain, manifests};
ghost use Rattle.slate_cluster_chain_laws.specs.ChainSteps.{EachStep};
ghost use Rattle.slate_cluster_chain_laws.specs.Raises.{HasRaised, RaisesOrKeeps};

/// From each manifest of a chain to the next the epoch of the compactors is raised by one, where the next one's author put a raise, and stays
/// else.
pub fn epoch_steps()
    ensures { (c : Chain logs.Manifest) → IsChain manifests c
        → EachStep (λ author old new. RaisesOrKeeps author.puts old new) c }
{}

/// One epoch of the compactors is raised once along a chain: two raises to it are the same version, so by the same party.
pub fn raises_once()
    ensures { (c : Chain logs.Manifest) (n m epoch : ℕ) (one : HasRaised c n epoch) (other : HasRaised c m epoch)
        → IsChain manifests c → (one.number ≡ other.number) × (n ≡ m) }
{}
