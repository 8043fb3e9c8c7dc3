//! The log of manifests.
ghost use Rattle.std.specs.Prelude.{refl};
ghost use Rattle.slate_state_logs.specs.ManifestLog as definitions;
ghost use Rattle.slate_state_logs.specs.laws.ManifestsPlain.{manifest_missing, manifests_plain};
ghost use Rattle.slate_ids.specs.declared.error.SlateDBError.TheVariants.{ManifestMissing};
ghost use Rattle.slate_txn_log.specs.declared.log_kind.LogKind.TheVariants as logs;
ghost use Rattle.slate_state_updates.specs.Checkpoints.{is_named as named_by};

use crate::db_log::DbLog;
use slate_ids::SlateDBError;
use slate_layout::ManifestCodec;
use slate_model::{Manifest, VersionedManifest};
use slate_state_updates::{ManifestEpochs, ManifestRules, is_named};
use slate_txn_delete::VersionNames;
use slate_txn_log::LogKind;

/// A manifest names the versions of its checkpoints.
#[derive(Clone, Copy, Debug, Drop)]
pub struct ManifestNames;

impl VersionNames<Manifest> for ManifestNames {
    ghost named = { λ _ manifest number. named_by number manifest.core.checkpoints };

    fn names(&self, value: &Manifest, number: u64) -> bool {
        is_named(number, value.core.checkpoints.as_slice())
    }
}

/// The log of a database's manifests.
#[derive(Clone, Copy, Debug)]
pub struct Manifests;

impl DbLog for Manifests {
    type Value = Manifest;

    type Version = VersionedManifest;

    type Codec = ManifestCodec;

    type Rules = ManifestRules;

    type Epochs = ManifestEpochs;

    type Names = ManifestNames;

    ghost its_kind = { logs.Manifest };

    ghost its_names = { record {} };

    ghost version_of = { definitions.version_of };

    ghost missing_at = { ManifestMissing };

    fn kind() -> LogKind {
        LogKind::Manifest
    }

    fn codec() -> ManifestCodec {
        ManifestCodec
    }

    fn rules() -> ManifestRules {
        ManifestRules
    }

    fn names() -> ManifestNames {
        ManifestNames
    }

    fn version(id: u64, value: Manifest) -> VersionedManifest {
        VersionedManifest::new(id, value)
    }

    fn missing(number: u64) -> SlateDBError {
        SlateDBError::ManifestMissing(number)
    }

    ghost plain = { manifests_plain };

    ghost missing_plain = { manifest_missing };

    ghost missing_inside = { λ _. refl };
}
