//! Which pass, and how.

use crate::directory_options::GarbageCollectorDirectoryOptions;
use slate_ids::GcMessage;

/// Which pass, and how.
#[derive(Clone, Copy, Debug)]
pub struct PassSettings {
    /// Which pass.
    pub pass: GcMessage,
    /// Its least age, and whether it is a dry run.
    pub options: GarbageCollectorDirectoryOptions,
    /// Whether it keeps the boundaries of the logs: where it does, it moves the boundary up before it deletes versions.
    pub boundary_files_enabled: bool,
}
