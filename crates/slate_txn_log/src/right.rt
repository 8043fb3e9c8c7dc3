//! Rights of an update.

use slate_ids::{Listed, Ulid};

/// What an update may do.
#[derive(Debug, Drop)]
pub enum Right {
    /// No more than any party.
    Plain,
    /// Adds entries of external databases.
    Attach,
    /// Adds tables to sorted runs: those that it made.
    Compactor { outputs: Listed<Ulid> },
    /// Removes entries of a record, as its fenced holder.
    RecordHolder { pending: Listed<Ulid> },
}
