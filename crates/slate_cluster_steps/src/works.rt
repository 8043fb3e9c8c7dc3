//! The work under way: what it asks.
ghost use Rattle.std.specs.Prelude.{◌≡◌, IfOk};
ghost use Rattle.slate_ids.specs.declared.object_path.ObjectPath.TheVariants as paths;
ghost use Rattle.slate_txn_log.specs.declared.log_kind.LogKind.TheVariants as logs;
ghost use Rattle.slate_cluster_protocol.specs.Works.{asks as asks_at};
ghost use Rattle.slate_cluster_steps.specs.PutWorks.{is_upload as is_upload_work};
ghost use Rattle.slate_store.specs.declared.store_call.StoreCall.TheVariants as store;

use slate_cluster_protocol::Work;
use slate_ids::{ByteList, DbPath, ObjectPath, OutOfMemory, Ulid};
use slate_layout::{CompactionsCodec, ManifestCodec};
use slate_model::{Compactions, Manifest};
use slate_store::StoreCall;
use slate_txn_log::{LogKind, Sequenced};
use std::alloc::Global;

/// The log of manifests of a database.
pub(crate) fn manifests(db: DbPath) -> Sequenced<Manifest, ManifestCodec>
    ensures db { result.db ≡ db }
    ensures log { result.log ≡ logs.Manifest }
{
    Sequenced::new(db, LogKind::Manifest, ManifestCodec)
}

/// The log of records of a database.
pub(crate) fn records(db: DbPath) -> Sequenced<Compactions, CompactionsCodec>
    ensures db { result.db ≡ db }
    ensures log { result.log ≡ logs.Compactions }
{
    Sequenced::new(db, LogKind::Compactions, CompactionsCodec)
}

/// The put of a table.
pub(crate) fn put_call(
    alloc: Global,
    db: DbPath,
    table: Ulid,
    bytes: &ByteList,
) -> Result<StoreCall, OutOfMemory>
    ensures { IfOk result (λ call. call ≡ store.Put (paths.Table db table) bytes.now) }
{
    Ok(StoreCall::Put(ObjectPath::Table(db, table), bytes.copy(alloc)?))
}

/// The one store call that it asks.
pub(crate) fn asked(alloc: Global, work: &Work) -> Result<StoreCall, OutOfMemory>
    ensures { IfOk result (λ call. call ≡ asks_at work.now) }
{
    match work {
        Work::Manifests(db, changing) => changing.asks(alloc, &manifests(*db)),
        Work::Records(db, changing) => changing.asks(alloc, &records(*db)),
        Work::PutTable(db, upload, bytes) => put_call(alloc, *db, upload.table, bytes),
        Work::Pass(db, settings, _, phase) => phase.asks(alloc, *db, settings.pass),
        Work::Opening(db, phase) => phase.asks(alloc, *db),
        Work::Compacting(db, phase) => phase.asks(alloc, *db),
    }
}

/// Whether a table is put.
pub(crate) fn is_upload(work: &Work) -> bool
    ensures { result ≡ is_upload_work work.now }
{
    matches!(work, Work::PutTable(_, _, _))
}
