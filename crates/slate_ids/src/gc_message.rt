//! Passes of the garbage collector.

/// Which pass a collector runs.
#[derive(Clone, Copy, Debug, PartialEq, Eq)]
pub enum GcMessage {
    /// Old versions of the manifest are deleted.
    Manifest,
    /// Files of the write-ahead log are deleted that no needed version replays.
    Wal,
    /// Empty files of the write-ahead log, which fence writers, are deleted.
    WalFence,
    /// Tables are deleted that no needed version has.
    Compacted,
    /// Old records of compactions are deleted.
    Compactions,
    /// Checkpoints that clones hold at their parents are given up where no table of the parent is used.
    Detach,
}
