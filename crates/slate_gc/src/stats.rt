//! The statistics of a collector.
ghost use Rattle.std.specs.Prelude.{◌≡◌};
ghost use Rattle.slate_gc.specs.Stats as stats;

use slate_gc_passes::PassCounts;
use slate_ids::{GcMessage, SlateDBError};

/// The name under which counts of deletes are published.
pub const DELETED_COUNT: &str = "slatedb.gc.deleted_count";

/// The name under which the count of runs is published.
pub const GC_COUNT: &str = "slatedb.gc.count";

/// The name under which counts of versions are published.
pub const VERSION_COUNT: &str = "slatedb.gc.version_count";

/// What a collector did since it was made. Each count stops at 2^64 - 1.
#[derive(Clone, Copy, Debug)]
pub struct GcStats {
    /// The versions of the manifest whose delete didn't fault.
    pub gc_manifest_count: u64,
    /// The files of the write-ahead log whose delete didn't fault.
    pub gc_wal_count: u64,
    /// The empty files of the write-ahead log whose delete didn't fault.
    pub gc_wal_fence_count: u64,
    /// The tables whose delete didn't fault.
    pub gc_compacted_count: u64,
    /// The records of compactions whose delete didn't fault.
    pub gc_compactions_count: u64,
    /// The checkpoints that were given up at parents. No pass does that yet.
    pub gc_detach_count: u64,
    /// The runs of all passes, which `run_gc_once` makes; `run` counts none.
    pub gc_count: u64,
    /// How many versions of the manifest its last pass left that ended without a refusal.
    pub gc_manifest_versions: u64,
    /// How many records of compactions their last pass left that ended without a refusal.
    pub gc_compactions_versions: u64,
}

impl GcStats {
    /// Nothing was done.
    pub(crate) fn new() -> GcStats
        ensures { result ≡ stats.no_stats }
    {
        GcStats {
            gc_manifest_count: 0,
            gc_wal_count: 0,
            gc_wal_fence_count: 0,
            gc_compacted_count: 0,
            gc_compactions_count: 0,
            gc_detach_count: 0,
            gc_count: 0,
            gc_manifest_versions: 0,
            gc_compactions_versions: 0,
        }
    }

    // Counts so many deletes of a pass.
    fn add_deletes(&mut self, pass: GcMessage, deleted: u64)
        ensures { self.new ≡ stats.with_deletes pass deleted self.old }
    {
        match pass {
            GcMessage::Manifest => {
                self.gc_manifest_count = self.gc_manifest_count.saturating_add(deleted);
            }
            GcMessage::Wal => {
                self.gc_wal_count = self.gc_wal_count.saturating_add(deleted);
            }
            GcMessage::WalFence => {
                self.gc_wal_fence_count = self.gc_wal_fence_count.saturating_add(deleted);
            }
            GcMessage::Compacted => {
                self.gc_compacted_count = self.gc_compacted_count.saturating_add(deleted);
            }
            GcMessage::Compactions => {
                self.gc_compactions_count = self.gc_compactions_count.saturating_add(deleted);
            }
            GcMessage::Detach => {}
        }
    }

    // Sets how many versions a pass left.
    fn set_versions(&mut self, pass: GcMessage, versions: u64)
        ensures { self.new ≡ stats.with_versions pass versions self.old }
    {
        match pass {
            GcMessage::Manifest => self.gc_manifest_versions = versions,
            GcMessage::Compactions => self.gc_compactions_versions = versions,
            _ => {}
        }
    }

    // Sets how many versions a pass left, where it ended without a refusal.
    fn add_result(&mut self, pass: GcMessage, reply: &Result<PassCounts, SlateDBError>)
        ensures { self.new ≡ stats.with_result pass reply.now self.old }
    {
        if let Ok(counts) = reply {
            self.set_versions(pass, counts.versions);
        }
    }

    /// Counts a pass that ended so, with so many deletes that didn't fault.
    pub(crate) fn add_pass(
        &mut self,
        pass: GcMessage,
        reply: &Result<PassCounts, SlateDBError>,
        deleted: u64,
    )
        ensures { self.new ≡ stats.with_result pass reply.now (stats.with_deletes pass deleted self.old) }
    {
        self.add_deletes(pass, deleted);
        self.add_result(pass, reply);
    }

    /// Counts a run of all passes.
    pub(crate) fn add_run(&mut self)
        ensures { self.new ≡ stats.one_run_more self.old }
    {
        self.gc_count = self.gc_count.saturating_add(1);
    }
}
