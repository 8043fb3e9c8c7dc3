//! The two logs of a database, as a pass reads and writes them.
ghost use Rattle.std.specs.Prelude.{◌≡◌};
ghost use Rattle.slate_txn_log.specs.declared.log_kind.LogKind.TheVariants as logs;

use slate_ids::{DbPath, ObjectCodec, OutOfMemory, SlateDBError};
use slate_model::{Compactions, Manifest};
use slate_txn_log::{LogKind, Sequenced};
use std::alloc::Global;

/// The two logs of a database, by their codecs.
#[derive(Drop)]
pub struct Logs<C, R> {
    pub db: DbPath,
    /// The codec of manifests.
    pub manifests: C,
    /// The codec of records.
    pub records: R,
}

impl<C, R> Logs<C, R> {
    // The log of manifests, with its codec lent.
    pub(crate) fn manifest_log(&self) -> Sequenced<Manifest, Lent<'_, C>>
        ensures log { result.log ≡ logs.Manifest }
        ensures codec { result.codec.codec.now ≡ self.now.manifests }
    {
        let codec = Lent {
            codec: &self.manifests,
        };
        Sequenced::new(self.db, LogKind::Manifest, codec)
    }

    // The log of records, with its codec lent.
    pub(crate) fn record_log(&self) -> Sequenced<Compactions, Lent<'_, R>>
        ensures log { result.log ≡ logs.Compactions }
        ensures codec { result.codec.codec.now ≡ self.now.records }
    {
        let codec = Lent {
            codec: &self.records,
        };
        Sequenced::new(self.db, LogKind::Compactions, codec)
    }
}

// A codec that another owns.
#[derive(Drop)]
pub(crate) struct Lent<'a, C> {
    pub codec: &'a C,
}

impl<'a, T, C: ObjectCodec<T>> ObjectCodec<T> for Lent<'a, C> {
    ghost encoded = { λ lent. C.encoded lent.codec.now };

    ghost decoded = { λ lent. C.decoded lent.codec.now };

    ghost normal = { λ lent. C.normal lent.codec.now };

    fn encode(&self, alloc: Global, value: &T) -> Result<Vec<u8>, SlateDBError> {
        self.codec.encode(alloc, value)
    }

    fn decode(&self, alloc: Global, bytes: &[u8]) -> Result<T, SlateDBError> {
        self.codec.decode(alloc, bytes)
    }

    fn copy(&self, alloc: Global, value: &T) -> Result<T, OutOfMemory> {
        self.codec.copy(alloc, value)
    }

    ghost round_trip = { λ lent value bytes. C.round_trip lent.codec.now value bytes };
}
