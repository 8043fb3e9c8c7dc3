//! What a collector goes by.
ghost use Rattle.std.specs.Prelude.{◌≡◌};
ghost use Rattle.slate_gc.specs.Options as options;
ghost use Rattle.slate_gc.specs.Options.{default_collector};

use crate::schedule_options::GarbageCollectorScheduleOptions;
use slate_gc_passes::{GarbageCollectorDirectoryOptions, PassSettings};
use slate_ids::GcMessage;

/// The passes over folders, in the order in which a collector runs them.
pub(crate) const PASSES: [GcMessage; 5] = [
    GcMessage::Manifest,
    GcMessage::Wal,
    GcMessage::WalFence,
    GcMessage::Compacted,
    GcMessage::Compactions,
];

/// What a collector goes by: which passes are configured, and how each goes. A pass whose options are none isn't configured.
#[derive(Clone, Copy, Debug)]
pub struct GarbageCollectorOptions {
    /// The pass over old versions of the manifest.
    pub manifest_options: Option<GarbageCollectorDirectoryOptions>,
    /// The pass over files of the write-ahead log.
    pub wal_options: Option<GarbageCollectorDirectoryOptions>,
    /// The pass over empty files of the write-ahead log, which fence writers.
    pub wal_fence_options: Option<GarbageCollectorDirectoryOptions>,
    /// The pass over tables.
    pub compacted_options: Option<GarbageCollectorDirectoryOptions>,
    /// The pass over old records of compactions.
    pub compactions_options: Option<GarbageCollectorDirectoryOptions>,
    /// The pass that detaches clones. No pass does yet, so that nothing reads this.
    pub detach_options: Option<GarbageCollectorScheduleOptions>,
    /// Whether the boundaries of the logs are kept: then a boundary is moved up before versions are deleted.
    pub boundary_files_enabled: bool,
}

/// Each pass by its defaults, with boundary files. Takes no memory.
impl Default for GarbageCollectorOptions {
    ghost is_default = { λ options. options ≡ default_collector };

    fn default() -> GarbageCollectorOptions {
        GarbageCollectorOptions {
            manifest_options: Some(GarbageCollectorDirectoryOptions::default()),
            wal_options: Some(GarbageCollectorDirectoryOptions::default()),
            wal_fence_options: Some(GarbageCollectorDirectoryOptions::default()),
            compacted_options: Some(GarbageCollectorDirectoryOptions::default()),
            compactions_options: Some(GarbageCollectorDirectoryOptions::default()),
            detach_options: Some(GarbageCollectorScheduleOptions::default()),
            boundary_files_enabled: true,
        }
    }
}

impl GarbageCollectorOptions {
    // What a pass over a folder goes by, where it is configured.
    fn directory(&self, pass: GcMessage) -> Option<GarbageCollectorDirectoryOptions>
        ensures { result ≡ options.directory_of self.now pass }
    {
        match pass {
            GcMessage::Manifest => self.manifest_options,
            GcMessage::Wal => self.wal_options,
            GcMessage::WalFence => self.wal_fence_options,
            GcMessage::Compacted => self.compacted_options,
            GcMessage::Compactions => self.compactions_options,
            GcMessage::Detach => None,
        }
    }

    // The settings of a pass, where it is configured.
    pub(crate) fn settings(&self, pass: GcMessage) -> Option<PassSettings>
        ensures { result ≡ options.settings_of self.now pass }
    {
        match self.directory(pass) {
            Some(options) => Some(PassSettings {
                pass,
                options,
                boundary_files_enabled: self.boundary_files_enabled,
            }),
            None => None,
        }
    }
}
