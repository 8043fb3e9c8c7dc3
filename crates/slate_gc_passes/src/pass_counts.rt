//! What a pass has done.
ghost use Rattle.std.specs.Prelude.{◌≡◌};
ghost use Rattle.slate_gc_passes.specs.PassCounts as pass;

/// What a pass has done so far. Each count stops at 2^64 - 1.
#[derive(Clone, Copy, Debug)]
pub struct PassCounts {
    /// The objects that were picked.
    pub picked: u64,
    /// Those of them that were deleted.
    pub deleted: u64,
    /// Those of them whose delete faulted. Such a delete had no effect or its whole effect.
    pub failed: u64,
    /// Where the pass deletes versions, how many of those listed are left. Else 0.
    pub versions: u64,
}

impl PassCounts {
    /// The counts before the first delete of this many picks, where so many versions were listed.
    pub fn of(picked: u64, versions: u64) -> PassCounts
        ensures { result ≡ pass.counts_of picked versions }
    {
        PassCounts {
            picked,
            deleted: 0,
            failed: 0,
            versions,
        }
    }

    /// The counts after one more delete that succeeded.
    pub fn one_deleted(self) -> PassCounts
        ensures { result ≡ pass.one_deleted self }
    {
        PassCounts {
            picked: self.picked,
            deleted: self.deleted.saturating_add(1),
            failed: self.failed,
            versions: self.versions.saturating_sub(1),
        }
    }

    /// The counts after one more delete that faulted.
    pub fn one_failed(self) -> PassCounts
        ensures { result ≡ pass.one_failed self }
    {
        PassCounts {
            picked: self.picked,
            deleted: self.deleted,
            failed: self.failed.saturating_add(1),
            versions: self.versions,
        }
    }
}
