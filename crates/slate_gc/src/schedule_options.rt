//! When a pass is to run.
ghost use Rattle.std.specs.Prelude.{◌≡◌};
ghost use Rattle.slate_gc.specs.Options.{default_schedule};

/// When the pass that detaches clones is to run. No pass detaches clones yet.
#[derive(Clone, Copy, Debug)]
pub struct GarbageCollectorScheduleOptions {
    /// How many milliseconds are to lie between two passes, 600,000 where this is none. No call reads it: passes are asked for.
    pub interval: Option<u64>,
}

/// No interval. Takes no memory.
impl Default for GarbageCollectorScheduleOptions {
    ghost is_default = { λ options. options ≡ default_schedule };

    fn default() -> GarbageCollectorScheduleOptions {
        GarbageCollectorScheduleOptions { interval: None }
    }
}
