//! The passes of the garbage collector, as machines over any codecs: the removal of expired checkpoints, what a pass reads, its list, the
//! advance of a boundary, and its deletes.
#![tactic(auto)]

mod collecting;
mod directory_options;
mod gc_phase;
mod heads;
mod laws;
mod lists;
mod logs;
mod manifests;
mod pass_counts;
mod pass_phase;
mod pass_settings;
mod reads;
mod removal;
mod rows;

pub use directory_options::GarbageCollectorDirectoryOptions;
pub use gc_phase::GcPhase;
pub use heads::Heads;
pub use laws::passes_are_exact;
pub use logs::Logs;
pub use pass_counts::PassCounts;
pub use pass_phase::PassPhase;
pub use pass_settings::PassSettings;
