//! What a pass read of the latest versions before its list.
ghost use Rattle.std.specs.Prelude.{◌≡◌};
ghost use Rattle.slate_gc_passes.specs.Candidates.{heads_at, no_heads};

use slate_model::Manifest;

/// What a pass read of the latest versions before its list.
#[derive(Clone, Copy, Debug)]
pub struct Heads {
    /// The least milliseconds of an id of the record's compactions; 0 without a record, and without compactions.
    pub least: u64,
    /// The number of the latest manifest.
    pub latest: u64,
    /// Its watermark: the milliseconds of the newest table of L0.
    pub watermark: u64,
}

impl Heads {
    // Before anything was read.
    pub(crate) fn none() -> Heads
        ensures { result ≡ no_heads }
    {
        Heads {
            least: 0,
            latest: 0,
            watermark: 0,
        }
    }

    // Of the least milliseconds that were read of the record, and of the latest manifest.
    pub(crate) fn at(least: u64, n: u64, manifest: &Manifest) -> Heads
        ensures { result ≡ heads_at least n manifest.now }
    {
        Heads {
            least,
            latest: n,
            watermark: manifest.core.watermark(),
        }
    }
}
