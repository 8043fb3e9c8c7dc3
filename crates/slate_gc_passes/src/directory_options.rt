//! What a pass over a folder goes by.
ghost use Rattle.std.specs.Prelude.{◌≡◌};
ghost use Rattle.slate_gc_passes.specs.Defaults.{default_options};

/// What a pass over a folder goes by.
#[derive(Clone, Copy, Debug)]
pub struct GarbageCollectorDirectoryOptions {
    /// An object goes only where it is older than this many milliseconds.
    pub min_age: u64,
    /// How many milliseconds are to lie between two passes. No call reads it: passes are asked for.
    pub interval: Option<u64>,
    /// Whether nothing is to be deleted. The boundary of a log is moved up all the same.
    pub dry_run: bool,
}

/// A least age of five minutes, no interval, no dry run. Takes no memory.
impl Default for GarbageCollectorDirectoryOptions {
    ghost is_default = { λ options. options ≡ default_options };

    fn default() -> GarbageCollectorDirectoryOptions {
        GarbageCollectorDirectoryOptions {
            min_age: 300_000,
            interval: None,
            dry_run: false,
        }
    }
}
