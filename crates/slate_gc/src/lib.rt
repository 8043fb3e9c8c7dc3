//! The passes of the garbage collector as plain calls, over the layout of manifests and records, and the collector that runs them.
#![tactic(auto)]

mod collector;
mod gc_pass;
mod laws;
mod options;
mod pass_run;
mod pass_turns;
mod report;
mod schedule_options;
mod setup;
mod stats;
mod taking;
mod tick;
mod ticks;

pub use collector::GarbageCollector;
pub use gc_pass::GcPass;
pub use laws::reported_passes_are_exact;
pub use options::GarbageCollectorOptions;
pub use report::{GcReport, RunEnd};
pub use schedule_options::GarbageCollectorScheduleOptions;
pub use setup::Setup;
pub use slate_gc_passes::{GarbageCollectorDirectoryOptions, PassCounts};
pub use slate_gc_picks::{
    GcFilter, PlainWalGc, WalFileRange, WalGc, WalGcMode, referenced_wal_ranges,
    retain_allowed_by_gc_filter,
};
pub use slate_ids::GcMessage;
pub use stats::{DELETED_COUNT, GC_COUNT, GcStats, VERSION_COUNT};
pub use tick::Tick;
pub use ticks::{ListTicks, Ticks};
