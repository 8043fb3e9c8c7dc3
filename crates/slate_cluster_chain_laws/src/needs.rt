//! What is needed of a log.
ghost use Rattle.std.specs.Prelude.{◌≡◌, ℕ, ◌<◌, List, ◌∷◌, true};
ghost use Rattle.slate_state_updates.specs.Checkpoints.{is_named};
ghost use Rattle.slate_txn_log.specs.declared.log_kind.LogKind.{LogKind};
ghost use Rattle.slate_txn_log.specs.declared.log_kind.LogKind.TheVariants as logs;
ghost use Rattle.slate_cluster_protocol.specs.Chains.{Link};
ghost use Rattle.slate_cluster_protocol.specs.Logs.{Author, Held, log_of};
ghost use Rattle.slate_cluster_protocol.specs.Reach.{IsNeeded};

/// Of each log its greatest version is needed, and of the manifests each version that a checkpoint of the greatest names.
pub fn needed_versions()
    ensures greatest { (k : LogKind) (l : Link (Held k) Author) (c : List (Link (Held k) Author))
        → 0 < l.number → IsNeeded (log_of k) (l ∷ c) l.number }
    ensures named { (l : Link (Held logs.Manifest) Author) (c : List (Link (Held logs.Manifest) Author)) (n : ℕ)
        → is_named n l.value.core.checkpoints ≡ true → IsNeeded (log_of logs.Manifest) (l ∷ c) n }
{}
