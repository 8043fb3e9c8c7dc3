//! Databases as a run begins.

use slate_ids::{DbPath, Listed, Millis, Ulid};
use slate_model::{Compactions, Manifest, SsTableInfo};

/// A database of the opening store: its path, its first manifest, its first record of compactions where it has one, the tables that
/// stand in the store with what is known of each, and the moment of its objects.
#[derive(Debug, Drop)]
pub struct DbSpec {
    pub path: DbPath,
    pub manifest: Manifest,
    pub compactions: Option<Compactions>,
    pub tables: Listed<(Ulid, SsTableInfo)>,
    pub modified: Millis,
}
