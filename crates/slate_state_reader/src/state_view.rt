//! The record and the manifest of a database, as they were read together.
ghost use Rattle.std.specs.Prelude.{◌≡◌, option_copied, IfOk};
ghost use Rattle.slate_state_reader.specs.StateViews as views;

use crate::both_phase::Both;
use slate_ids::{OutOfMemory, SlateDBError};
use slate_model::{Compactions, Manifest, Plain, VersionedCompactions, VersionedManifest};
use slate_state_writer::CompactorStateWriter;
use std::alloc::Global;
use std::marker::Model;

/// The latest version of a database's record of compactions, where there is one, and that of its manifest, which was read after it; or what
/// a compactor has of both.
#[derive(Debug, Drop)]
pub struct CompactorStateView {
    compactions: Option<VersionedCompactions>,
    manifest: VersionedManifest,
}

impl Model for CompactorStateView {
    ghost use Rattle.slate_state_reader.specs.StateViews.{View};

    ghost Value = { View };

    ghost view = { λ a. record { compactions = a.compactions; manifest = a.manifest } };
}

impl CompactorStateView {
    /// What a compactor has of its state: its local record, under the number of the record that it holds, and the manifest that it holds
    /// with its local trees, under that one's number.
    pub fn from_state(
        alloc: Global,
        writer: &CompactorStateWriter,
    ) -> Result<CompactorStateView, OutOfMemory>
        ensures { IfOk result (λ view. view ≡ views.of_state writer.now) }
    {
        let local = writer.local();
        let compactions = Plain::clone(&local.compactions, alloc)?;
        let (manifest_id, held) = writer.manifest();
        match local.trees.put_in(alloc, held) {
            Ok(manifest) => Ok(CompactorStateView {
                compactions: Some(VersionedCompactions::new(writer.compactions().0, compactions)),
                manifest: VersionedManifest::new(manifest_id, manifest),
            }),
            Err(e) => {
                drop(compactions);
                Err(e)
            }
        }
    }

    /// The version of the record, where there is one.
    pub fn compactions(&self) -> Option<&VersionedCompactions>
        ensures { option_copied result ≡ self.now.compactions }
    {
        self.compactions.as_ref()
    }

    /// The version of the manifest.
    pub fn manifest(&self) -> &VersionedManifest
        ensures { result.now ≡ self.now.manifest }
    {
        &self.manifest
    }
}

// The version of a record that was read.
fn record_version(read: Option<(u64, Compactions)>) -> Option<VersionedCompactions>
    ensures { result ≡ views.record_version read }
{
    match read {
        Some((id, compactions)) => Some(VersionedCompactions::new(id, compactions)),
        None => None,
    }
}

/// The view of what was read, which has to have a manifest.
pub(crate) fn viewed(
    reply: Result<Both<Compactions, Manifest>, SlateDBError>,
) -> Result<CompactorStateView, SlateDBError>
    ensures { result ≡ views.viewed reply }
{
    match reply {
        Ok(Both { one, other }) => match other {
            None => {
                drop(one);
                Err(SlateDBError::LatestTransactionalObjectVersionMissing)
            }
            Some((id, manifest)) => Ok(CompactorStateView {
                compactions: record_version(one),
                manifest: VersionedManifest::new(id, manifest),
            }),
        },
        Err(e) => Err(e),
    }
}
