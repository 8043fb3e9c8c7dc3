//! Why databases can't be the beginning of a run.

/// Why databases can't be the beginning of a run: the first cause that applies, in this order.
#[derive(Clone, Copy, Debug, Drop, PartialEq, Eq)]
pub enum ClusterCause {
    /// Two of them have one path.
    Path,
    /// An id of a table, of a checkpoint or of a compaction comes twice, or in a tree a view's id comes twice or the ids of its runs
    /// don't fall strictly.
    Ids,
    /// A manifest, a record or a table's info has no bytes, or is not what is read back of them.
    Value,
    /// A segment's prefix begins with another's.
    Segments,
    /// The epoch of a record is above the compactor epoch of its manifest.
    Epoch,
    /// An output of a compaction is older than the compaction, or is not present in its database.
    Outputs,
    /// A checkpoint names another version than the first.
    Checkpoints,
    /// A table of a tree is not present at its place.
    Tables,
    /// The floor is below the watermark.
    Floor,
}
