//! A writer's core merged with a manifest that was read.
ghost use Rattle.std.specs.Prelude.{◌≡◌, IfOk, IfErr, true};
ghost use Rattle.slate_ids.specs.Answers.{is_memory};
ghost use Rattle.slate_model.specs.Segments.{IsAscending};
ghost use Rattle.slate_state_merges.specs.Merging.{merged};
ghost use Rattle.slate_state_merges.specs.ManifestMerging as merging;

use crate::segment_merges::merge_segments_from_compactor;
use crate::tree_merge::merge_writer_and_compactor;
use slate_ids::{Listed, OutOfMemory, SlateDBError, Text, clone_both};
use slate_model::{Checkpoint, Manifest, ManifestCore, Plain, Segment, SequenceTracker};
use std::alloc::Global;

// Equal names of a core.
fn names_of(alloc: Global, core: &ManifestCore) -> Result<(Option<Text>, Option<Text>), OutOfMemory>
    ensures { IfOk result (λ names. names ≡ (core.now.segment_extractor_name, core.now.wal_object_store_uri)) }
{
    clone_both(
        alloc,
        &core.segment_extractor_name,
        &core.wal_object_store_uri,
    )
}

// Equal names of a writer's core, its tracker, and the checkpoints of another.
fn rest_of(
    alloc: Global,
    local: &ManifestCore,
    remote: &ManifestCore,
) -> Result<
    (
        (Option<Text>, Option<Text>),
        (SequenceTracker, Listed<Checkpoint>),
    ),
    OutOfMemory,
>
    ensures { IfOk result (λ rest. rest
        ≡ (
          (local.now.segment_extractor_name, local.now.wal_object_store_uri),
          (local.now.sequence_tracker, remote.now.checkpoints),
        )) }
{
    let names = names_of(alloc, local)?;
    match clone_both(alloc, &local.sequence_tracker, &remote.checkpoints) {
        Ok(lists) => Ok((names, lists)),
        Err(e) => {
            drop(names);
            Err(e)
        }
    }
}

// The merged root tree, and the rest.
fn merge_rest(
    alloc: Global,
    local: &ManifestCore,
    remote: &ManifestCore,
    segments: Vec<Segment>,
) -> Result<ManifestCore, OutOfMemory>
    requires ascending { IsAscending segments.items }
    ensures { IfOk result (λ core. core
        ≡ record local.now {
          tree = merged local.now.tree remote.now.tree;
          segments = segments.items;
          checkpoints = remote.now.checkpoints;
        }) }
{
    match merge_writer_and_compactor(alloc, &local.tree, &remote.tree) {
        Ok(tree) => match rest_of(alloc, local, remote) {
            Ok((names, lists)) => Ok(local.with_parts(tree, segments, names, lists)),
            Err(e) => {
                drop(tree);
                drop(segments);
                Err(e)
            }
        },
        Err(e) => {
            drop(segments);
            Err(e)
        }
    }
}

// A writer's core with its trees merged from another, and with that one's checkpoints.
fn merge_core(
    alloc: Global,
    local: &ManifestCore,
    remote: &ManifestCore,
) -> Result<ManifestCore, SlateDBError>
    ensures ok { IfOk result (λ core. core ≡ merging.merged_core local.now remote.now) }
    ensures memory { IfErr result (λ e. is_memory e ≡ true) }
{
    let segments = merge_segments_from_compactor(alloc, local.segments(), remote.segments())?;
    Ok(merge_rest(alloc, local, remote, segments)?)
}

/// A writer's core (`local`) merged with the manifest that was read (`remote`): trees and segments as a writer merges a compactor's;
/// checkpoints, entries of other databases and epochs are those that were read; all else is local. The entries then list only the tables
/// that some view uses. It is never refused but for want of memory.
pub fn merge_remote_manifest(
    alloc: Global,
    local: &ManifestCore,
    remote: &Manifest,
) -> Result<Manifest, SlateDBError>
    ensures ok { IfOk result (λ manifest. manifest ≡ merging.merged_manifest local.now remote.now) }
    ensures memory { IfErr result (λ e. is_memory e ≡ true) }
{
    let external_dbs = Plain::clone(&remote.external_dbs, alloc)?;
    match merge_core(alloc, local, &remote.core) {
        Ok(core) => {
            let mut merged = Manifest {
                external_dbs,
                core,
                writer_epoch: remote.writer_epoch,
                compactor_epoch: remote.compactor_epoch,
            };
            merged.prune_external_sst_ids();
            Ok(merged)
        }
        Err(e) => {
            drop(external_dbs);
            Err(e)
        }
    }
}
