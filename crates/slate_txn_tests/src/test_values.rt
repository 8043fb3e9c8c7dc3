//! A database for tests.

use slate_ids::DbPath;
use std::process::Abort;

/// The path of a database.
pub(crate) fn db(rt: &impl Abort) -> DbPath {
    let path = DbPath::from_text("a").expect(rt, "memory");
    path.expect(rt, "the path of a database")
}
