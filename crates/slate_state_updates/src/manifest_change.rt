//! Changes of a manifest: what a commit puts.
ghost use Rattle.std.specs.Prelude.{◌≡◌, ℕ, ℤ, ◌≢◌, None, Ok, Some};
ghost use Rattle.slate_txn_changes.specs.Changes.{holder_fence};
ghost use Rattle.slate_ids.specs.Answers.{Gives};
ghost use Rattle.slate_model.specs.declared.manifest.Manifest.{Manifest as AnyManifest};
ghost use Rattle.slate_state_updates.specs.ManifestChanges as changes;
ghost use Rattle.slate_state_updates.specs.declared.manifest_change.ManifestChange.{ManifestChange as AnyChange};
ghost use Rattle.slate_state_updates.specs.declared.manifest_change.ManifestChange.TheVariants.{RaiseWriter as Raise, RaiseCompactor as RaiseOther};

use crate::checkpoints::{
    delete_checkpoint, expire_checkpoints, refresh_checkpoint, replace_checkpoint, write_checkpoint,
};
use crate::epochs::{ManifestEpochs, raise_epoch};
use crate::flush_batch::{FlushBatch, flush_tables};
use slate_ids::{CheckpointId, Listed, Millis, OutOfMemory, SlateDBError, Ulid};
use slate_model::{CheckpointOptions, Manifest};
use slate_state_merges::LocalTrees;
use slate_txn_changes::{Change, holder_fence};
use slate_txn_log::Right;
use std::alloc::Global;

/// The lifetime of the checkpoint that is written before a compactor's trees, in milliseconds.
const CHECKPOINT_LIFETIME: u64 = 900_000;

/// What a commit puts, of the version that was read. Each sets the floor to the greater of the old one and the new manifest's
/// watermark, save a raise, which leaves it. A flush is refused by a writer epoch above its writer's, and a compactor's checkpoint and
/// trees by a compactor epoch above theirs: with `Fenced`; and with `InvalidDBState` of `NotOpen` where the writer or the compactor hasn't
/// opened the database.
#[derive(Debug, Drop)]
pub enum ManifestChange {
    /// The writer epoch plus one. Refused with `Exhausted` at the last epoch.
    RaiseWriter,
    /// The compactor epoch plus one. Refused with `Exhausted` at the last epoch.
    RaiseCompactor,
    /// The tables of the batch that no tree has yet, each in front of the L0 of its prefix, and the batch's numbers, by the writer of this
    /// epoch. A batch that lowers the last file whose rows are all in tables, a table from before the floor or the watermark, and a prefix
    /// that nests with another are refused by the rules on new versions alone.
    Flush {
        writer: Option<u64>,
        batch: FlushBatch,
    },
    /// One checkpoint more, the last. Nothing, where the id is there.
    WriteCheckpoint {
        id: CheckpointId,
        options: CheckpointOptions,
    },
    /// The same, without the checkpoint `old`.
    ReplaceCheckpoint {
        old: CheckpointId,
        id: CheckpointId,
        options: CheckpointOptions,
    },
    /// Another moment of expiry of a checkpoint: the lifetime in milliseconds from the moment of the change, or never. Refused with
    /// `CheckpointMissing` where it isn't there.
    RefreshCheckpoint {
        id: CheckpointId,
        lifetime: Option<u64>,
    },
    /// Without a checkpoint. Nothing, where it isn't there.
    DeleteCheckpoint {
        id: CheckpointId,
    },
    /// Without the checkpoints whose expiry isn't above the moment of the change. Nothing, where there is none.
    DropExpired,
    /// One checkpoint more, which keeps for a quarter of an hour what a compactor's trees drop. Nothing, where the id is there. Refused
    /// with `InvalidDBState` where the database isn't ready for use.
    KeepTrees {
        compactor: Option<u64>,
        checkpoint: CheckpointId,
    },
    /// A compactor's trees, merged with those of the version read, which may bring these outputs of compactions. Refused with
    /// `SegmentWithoutWriter` where a segment of the compactor holds tables and the version read has none of its prefix.
    MergeTrees {
        compactor: Option<u64>,
        trees: LocalTrees,
        outputs: Listed<Ulid>,
    },
}

// What was made, with its floor raised from the old one.
fn floored(
    old: u64,
    made: Result<Option<Manifest>, SlateDBError>,
) -> Result<Option<Manifest>, SlateDBError>
    ensures { result ≡ changes.floored old made }
{
    match made {
        Ok(Some(manifest)) => Ok(Some(with_floor(old, manifest))),
        Ok(None) => Ok(None),
        Err(e) => Err(e),
    }
}

// The manifest with its floor raised from the old one.
fn with_floor(old: u64, manifest: Manifest) -> Manifest
    ensures { result ≡ changes.with_floor old manifest }
{
    let mut floored = manifest;
    floored.core.floor = old.max(floored.core.watermark());
    floored
}

// The checkpoint that comes before a compactor's trees.
fn keep_trees(
    alloc: Global,
    checkpoint: CheckpointId,
    now: Millis,
    n: u64,
    manifest: &Manifest,
) -> Result<Option<Manifest>, SlateDBError>
    ensures { Gives result (changes.trees_kept checkpoint now n manifest.now) }
{
    let options = CheckpointOptions {
        lifetime: Some(CHECKPOINT_LIFETIME),
        source: None,
        name: None,
    };
    let made = write_checkpoint(alloc, checkpoint, &options, now, n, manifest);
    drop(options);
    floored(manifest.core.floor, made)
}

impl Change<Manifest> for ManifestChange {
    ghost made = { λ change now n manifest. changes.made change now n manifest };

    ghost right_of = { λ change. changes.right_of change };

    ghost fence_of = { λ change manifest. changes.fence_of change manifest };

    fn right(&self, alloc: Global) -> Result<Right, OutOfMemory> {
        match self {
            ManifestChange::MergeTrees { outputs, .. } => Ok(Right::Compactor {
                outputs: outputs.copy(alloc)?,
            }),
            _ => Ok(Right::Plain),
        }
    }

    fn refusal_at(&self, value: &Manifest) -> Option<SlateDBError> {
        match self {
            ManifestChange::Flush { writer, .. } => holder_fence(*writer, value.writer_epoch),
            ManifestChange::KeepTrees { compactor, .. } => {
                holder_fence(*compactor, value.compactor_epoch)
            }
            ManifestChange::MergeTrees { compactor, .. } => {
                holder_fence(*compactor, value.compactor_epoch)
            }
            _ => None,
        }
    }

    fn make(
        &self,
        alloc: Global,
        now: Millis,
        n: u64,
        value: &Manifest,
    ) -> Result<Option<Manifest>, SlateDBError> {
        let floor = value.core.floor;
        match self {
            ManifestChange::RaiseWriter => raise_epoch(alloc, ManifestEpochs::Writer, n, value),
            ManifestChange::RaiseCompactor => {
                raise_epoch(alloc, ManifestEpochs::Compactor, n, value)
            }
            ManifestChange::Flush { batch, .. } => {
                floored(floor, Ok(Some(flush_tables(alloc, batch, value)?)))
            }
            ManifestChange::WriteCheckpoint { id, options } => {
                floored(floor, write_checkpoint(alloc, *id, options, now, n, value))
            }
            ManifestChange::ReplaceCheckpoint { old, id, options } => floored(
                floor,
                replace_checkpoint(alloc, old, *id, options, now, n, value),
            ),
            ManifestChange::RefreshCheckpoint { id, lifetime } => {
                floored(floor, refresh_checkpoint(alloc, *id, *lifetime, now, value))
            }
            ManifestChange::DeleteCheckpoint { id } => {
                floored(floor, delete_checkpoint(alloc, id, value))
            }
            ManifestChange::DropExpired => floored(floor, expire_checkpoints(alloc, now, value)),
            ManifestChange::KeepTrees { checkpoint, .. } => {
                keep_trees(alloc, *checkpoint, now, n, value)
            }
            ManifestChange::MergeTrees { trees, .. } => {
                Ok(Some(trees.merged_manifest(alloc, value)?))
            }
        }
    }
}

/// No change but a raise lets the floor stay below the watermark of what it makes, and none lets it fall.
pub fn floors_rise()
    ensures { (change : AnyChange) (now : ℤ) (n : ℕ) (old new : AnyManifest)
        → change ≢ Raise → change ≢ RaiseOther → changes.made change now n old ≡ Ok (Some new)
        → changes.HasRisenFloor old new }
{}
