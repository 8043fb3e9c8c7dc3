//! A versioned log.
ghost use Rattle.std.specs.Prelude.{◌≡◌};

use crate::log_kind::LogKind;
use slate_ids::DbPath;
use std::marker::PhantomData;

/// One log of a database, with the codec of its values.
#[derive(Drop)]
pub struct Sequenced<T, C> {
    pub db: DbPath,
    pub log: LogKind,
    pub codec: C,
    pub of: PhantomData<T>,
}

impl<T, C> Sequenced<T, C> {
    /// The log of this kind of a database.
    pub fn new(db: DbPath, log: LogKind, codec: C) -> Sequenced<T, C>
        ensures db { result.db ≡ db }
        ensures log { result.log ≡ log }
        ensures codec { result.codec ≡ codec }
    {
        Sequenced {
            db,
            log,
            codec,
            of: PhantomData,
        }
    }
}
