//! The version with which a change ended, as it is held.
ghost use Rattle.std.specs.Prelude.{◌≡◌, IfOk};
ghost use Rattle.slate_state_calls.specs.Commits.{manifest_in, record_in};

use slate_ids::OutOfMemory;
use slate_layout::{normal_form_compactions, normal_form_manifest};
use slate_model::{Compactions, Manifest, Plain};
use slate_txn_changes::LogEnd;
use std::alloc::Global;

/// The manifest with which a change ended: the one read, or what is read back of the one that was put; none where the log has none.
pub(crate) fn manifest_in(
    alloc: Global,
    end: &LogEnd<Manifest>,
) -> Result<Option<(u64, Manifest)>, OutOfMemory>
    ensures { IfOk result (λ version. version ≡ manifest_in end.now) }
{
    match end {
        LogEnd::Absent => Ok(None),
        LogEnd::Unchanged(n, manifest) => Ok(Some((*n, Plain::clone(manifest, alloc)?))),
        LogEnd::Committed(n, manifest) => Ok(Some((*n, normal_form_manifest(alloc, manifest)?))),
    }
}

/// The same of a record.
pub(crate) fn record_in(
    alloc: Global,
    end: &LogEnd<Compactions>,
) -> Result<Option<(u64, Compactions)>, OutOfMemory>
    ensures { IfOk result (λ version. version ≡ record_in end.now) }
{
    match end {
        LogEnd::Absent => Ok(None),
        LogEnd::Unchanged(n, compactions) => Ok(Some((*n, Plain::clone(compactions, alloc)?))),
        LogEnd::Committed(n, compactions) => {
            Ok(Some((*n, normal_form_compactions(alloc, compactions)?)))
        }
    }
}
