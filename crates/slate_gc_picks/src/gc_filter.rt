//! Filters of passes.
ghost use Rattle.std.specs.Prelude.{◌≡◌, IfOk};

use slate_ids::OutOfMemory;
use slate_store::ObjectMetadata;
use std::alloc::Global;

/// Which candidates of a pass may be deleted. It is handed in by the caller, boxed, and may lie: what it returns that is no candidate
/// is not deleted.
pub trait GcFilter: Drop {
    ghost use Rattle.std.specs.Prelude.{List};
    ghost use Rattle.slate_store.specs.declared.object.ObjectMetadata.{ObjectMetadata as Metadata};

    /// What it returns for candidates.
    ghost returns: { Self → List Metadata → List Metadata };

    /// The candidates that may go.
    fn filter(
        &self,
        alloc: Global,
        candidates: &[ObjectMetadata],
    ) -> Result<Vec<ObjectMetadata>, OutOfMemory>
        ensures { IfOk result (λ allowed. allowed.items ≡ returns self.now candidates.now) };
}

/// A boxed filter returns what the one in the box returns.
impl GcFilter for Box<dyn GcFilter> {
    ghost returns = { λ boxed. (GcFilter-box boxed).returns boxed.value };

    fn filter(
        &self,
        alloc: Global,
        candidates: &[ObjectMetadata],
    ) -> Result<Vec<ObjectMetadata>, OutOfMemory> {
        (**self).filter(alloc, candidates)
    }
}
