//! The greatest committed numbers.

/// The greatest committed numbers of the two logs of a database, 0 where a log has none.
#[derive(Clone, Copy, Debug)]
pub struct Tally {
    pub manifest: u64,
    pub compactions: u64,
}
