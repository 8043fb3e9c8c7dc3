//! Why databases begin no run.
ghost use Rattle.std.specs.Prelude.{◌≡◌};

use slate_ids::OutOfMemory;
use slate_script_events::ClusterCause;

/// Why a cluster was not made.
#[derive(Clone, Copy, Debug, PartialEq, Eq)]
pub enum NewError {
    /// The databases can't begin a run, and this is the first cause.
    BadCluster(ClusterCause),
    /// Memory ran out.
    OutOfMemory,
}

impl From<OutOfMemory> for NewError {
    ghost use Rattle.slate_cluster_opening.specs.declared.new_error.NewError.TheVariants.{OutOfMemory as NoMemory};

    ghost from_gives = { λ _ e. e ≡ NoMemory };

    fn from(_e: OutOfMemory) -> NewError {
        NewError::OutOfMemory
    }
}
