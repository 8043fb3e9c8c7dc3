//! The epochs that fence writers and compactors.
ghost use Rattle.slate_ids.specs.Answers.{Gives};
ghost use Rattle.slate_state_updates.specs.Writers.{epoch_of, epoch_set as set_law, raised, with_epoch};

use slate_ids::{Epochs, SlateDBError};
use slate_model::{Manifest, Plain};
use slate_txn_log::next_epoch;
use std::alloc::Global;

/// One of a manifest's epochs: each fences the holders of its own kind alone.
#[derive(Clone, Copy, Debug, Drop)]
pub enum ManifestEpochs {
    /// That of writers.
    Writer,
    /// That of compactors.
    Compactor,
}

impl Epochs<Manifest> for ManifestEpochs {
    ghost epoch = { λ kind manifest. epoch_of kind manifest };

    ghost with_epoch = { λ kind manifest n. with_epoch kind manifest n };

    fn get(&self, value: &Manifest) -> u64 {
        match self {
            ManifestEpochs::Writer => value.writer_epoch,
            ManifestEpochs::Compactor => value.compactor_epoch,
        }
    }

    fn set(&self, value: &mut Manifest, number: u64) {
        match self {
            ManifestEpochs::Writer => value.writer_epoch = number,
            ManifestEpochs::Compactor => value.compactor_epoch = number,
        }
    }

    ghost epoch_set = { λ kind manifest n. set_law kind manifest n };
}

/// What an open makes of version `n`: the manifest with its epoch of that kind plus one. Refused where there is no such epoch.
pub fn raise_epoch(
    alloc: Global,
    kind: ManifestEpochs,
    n: u64,
    manifest: &Manifest,
) -> Result<Option<Manifest>, SlateDBError>
    ensures { Gives result (raised kind n manifest.now) }
{
    next_epoch(&kind, n, Plain::clone(manifest, alloc)?)
}
