//! A log begins ready.
ghost use Rattle.std.specs.Prelude.{ℕ, List};
ghost use Rattle.slate_txn_log.specs.declared.log_kind.LogKind.{LogKind};
ghost use Rattle.slate_txn_laws.specs.Ready.{nothing, IsReady};

/// In a store without objects each log of each database is ready.
pub fn first_ready()
    ensures { (db : List ℕ) (log : LogKind) (tag : ℕ) → IsReady db log (nothing tag) }
{}
