//! What each pass of the garbage collector picks of what it read.
#![tactic(auto)]

mod ages;
mod gc_filter;
mod keeping;
mod object_key;
mod objects;
mod picking;
mod records;
mod retaining;
mod tables;
mod versions;
mod wal_cover;
mod wal_gc;
mod wal_picking;
mod wal_ranges;

pub use ages::{aged, is_aged};
pub use gc_filter::GcFilter;
pub use objects::Objects;
pub use picking::picks;
pub use records::least_ms;
pub use retaining::retain_allowed_by_gc_filter;
pub use tables::unused_tables;
pub use versions::unneeded;
pub use wal_gc::{PlainWalGc, WalGc, WalGcMode};
pub use wal_picking::wal_candidates;
pub use wal_ranges::{WalFileRange, referenced_wal_ranges};
