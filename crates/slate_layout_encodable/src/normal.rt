//! What is read back of a manifest.
ghost use Rattle.std.specs.Prelude.{◌≡◌, ◌++◌, ◌∷◌, [], IfOk, OnOk, map};
ghost use Rattle.std.specs.Option.{option_map};
ghost use Rattle.slate_model.specs.Segments.{IsAscending};
ghost use Rattle.slate_layout_encodable.specs.Normal as normal;
ghost use Rattle.slate_layout_encodable.specs.Normal.{normal_manifest};

use slate_ids::{Listed, Millis, OutOfMemory, Text, clone_both};
use slate_model::{
    Checkpoint, LsmTreeState, Manifest, ManifestCore, Plain, Segment, SequenceTracker,
};
use std::alloc::Global;

// A moment, cut down to its whole second; one before the first second stays.
fn whole_second(moment: Millis) -> Millis
    ensures { result ≡ normal.whole_second moment }
{
    if moment < 0 {
        moment
    } else {
        moment / 1000 * 1000
    }
}

fn whole_expiry(expiry: Option<Millis>) -> Option<Millis>
    ensures { result ≡ option_map normal.whole_second expiry }
{
    match expiry {
        Some(moment) => Some(whole_second(moment)),
        None => None,
    }
}

fn normal_checkpoint(alloc: Global, checkpoint: &Checkpoint) -> Result<Checkpoint, OutOfMemory>
    ensures { IfOk result (λ made. made ≡ normal.normal_checkpoint checkpoint.now) }
{
    Ok(Checkpoint {
        id: checkpoint.id,
        manifest_id: checkpoint.manifest_id,
        expire_time: whole_expiry(checkpoint.expire_time),
        create_time: whole_second(checkpoint.create_time),
        name: Plain::clone(&checkpoint.name, alloc)?,
    })
}

// Adds the normal form of a checkpoint at the end.
fn add_checkpoint(
    alloc: Global,
    made: &mut Listed<Checkpoint>,
    checkpoint: &Checkpoint,
) -> Result<(), OutOfMemory>
    ensures { OnOk result (made.new ≡ made.old ++ normal.normal_checkpoint checkpoint.now ∷ []) }
{
    let checkpoint = normal_checkpoint(alloc, checkpoint)?;
    made.push(checkpoint)
}

fn normal_checkpoints(
    alloc: Global,
    checkpoints: &[Checkpoint],
) -> Result<Listed<Checkpoint>, OutOfMemory>
    ensures { IfOk result (λ made. made ≡ map normal.normal_checkpoint checkpoints.now) }
{
    let mut made = Listed::new(alloc);
    for checkpoint in checkpoints {
        match add_checkpoint(alloc, &mut made, checkpoint) {
            Ok(()) => {}
            Err(e) => {
                drop(made);
                return Err(e);
            }
        }
    }
    Ok(made)
}

fn normal_tree(alloc: Global, tree: &LsmTreeState) -> Result<LsmTreeState, OutOfMemory>
    ensures { IfOk result (λ made. made ≡ normal.normal_tree tree.now) }
{
    let (l0, compacted) = clone_both(alloc, &tree.l0, &tree.compacted)?;
    Ok(LsmTreeState {
        last_compacted_l0_sst_view_id: tree.last_compacted_l0_sst_view_id,
        last_compacted_l0_sst_id: None,
        l0,
        compacted,
    })
}

fn normal_segment(alloc: Global, segment: &Segment) -> Result<Segment, OutOfMemory>
    ensures { IfOk result (λ made. made ≡ normal.normal_segment segment.now) }
{
    let tree = normal_tree(alloc, segment.tree())?;
    match Plain::clone(segment.prefix(), alloc) {
        Ok(prefix) => Ok(Segment::new(prefix, tree)),
        Err(e) => {
            drop(tree);
            Err(e)
        }
    }
}

// Adds the normal form of a segment at the end.
fn add_segment(alloc: Global, made: &mut Vec<Segment>, segment: &Segment) -> Result<(), OutOfMemory>
    ensures { OnOk result (made.new.items ≡ made.old.items ++ normal.normal_segment segment.now ∷ []) }
{
    made.push(normal_segment(alloc, segment)?)?;
    Ok(())
}

fn normal_segments(alloc: Global, segments: &[Segment]) -> Result<Vec<Segment>, OutOfMemory>
    ensures { IfOk result (λ made. made.items ≡ map normal.normal_segment segments.now) }
{
    let mut made = Vec::new(alloc);
    for segment in segments {
        match add_segment(alloc, &mut made, segment) {
            Ok(()) => {}
            Err(e) => {
                drop(made);
                return Err(e);
            }
        }
    }
    Ok(made)
}

// The same of segments that ascend, which they do as before.
fn ascending_segments(alloc: Global, segments: &[Segment]) -> Result<Vec<Segment>, OutOfMemory>
    requires ascending { IsAscending segments.now }
    ensures made { IfOk result (λ made. made.items ≡ map normal.normal_segment segments.now) }
    ensures ascending { IfOk result (λ made. IsAscending made.items) }
{
    let made = normal_segments(alloc, segments)?;
    Ok(made)
}

// The root tree and the segments.
fn normal_trees(
    alloc: Global,
    core: &ManifestCore,
) -> Result<(LsmTreeState, Vec<Segment>), OutOfMemory>
    ensures tree { IfOk result (λ made. made.0 ≡ normal.normal_tree core.now.tree) }
    ensures segments { IfOk result (λ made. made.1.items ≡ map normal.normal_segment core.now.segments) }
    ensures ascending { IfOk result (λ made. IsAscending made.1.items) }
{
    let tree = normal_tree(alloc, &core.tree)?;
    match ascending_segments(alloc, core.segments()) {
        Ok(segments) => Ok((tree, segments)),
        Err(e) => {
            drop(tree);
            Err(e)
        }
    }
}

// The tracker and the checkpoints.
fn normal_lists(
    alloc: Global,
    core: &ManifestCore,
) -> Result<(SequenceTracker, Listed<Checkpoint>), OutOfMemory>
    ensures { IfOk result (λ made.
        made ≡ (core.now.sequence_tracker, map normal.normal_checkpoint core.now.checkpoints)) }
{
    let tracker = core.sequence_tracker.clone(alloc)?;
    match normal_checkpoints(alloc, core.checkpoints.as_slice()) {
        Ok(checkpoints) => Ok((tracker, checkpoints)),
        Err(e) => {
            drop(tracker);
            Err(e)
        }
    }
}

// The extractor's name, and the lists.
fn normal_rest(
    alloc: Global,
    core: &ManifestCore,
) -> Result<(Option<Text>, (SequenceTracker, Listed<Checkpoint>)), OutOfMemory>
    ensures { IfOk result (λ made. made
        ≡ (core.now.segment_extractor_name, (core.now.sequence_tracker, map normal.normal_checkpoint core.now.checkpoints))) }
{
    let name = Plain::clone(&core.segment_extractor_name, alloc)?;
    match normal_lists(alloc, core) {
        Ok(lists) => Ok((name, lists)),
        Err(e) => {
            drop(name);
            Err(e)
        }
    }
}

fn normal_core(alloc: Global, core: &ManifestCore) -> Result<ManifestCore, OutOfMemory>
    ensures { IfOk result (λ made. made ≡ normal.normal_core core.now) }
{
    let (tree, segments) = normal_trees(alloc, core)?;
    match normal_rest(alloc, core) {
        Ok((name, lists)) => Ok(core.with_parts(tree, segments, (name, None), lists)),
        Err(e) => {
            drop(tree);
            drop(segments);
            Err(e)
        }
    }
}

/// A manifest's normal form, which is what is read back of it: moments of checkpoints are cut down to whole seconds, and neither the
/// markers of tables nor the store of the write-ahead log are kept.
pub fn normal_form_manifest(alloc: Global, manifest: &Manifest) -> Result<Manifest, OutOfMemory>
    ensures { IfOk result (λ made. made ≡ normal_manifest manifest.now) }
{
    let external_dbs = manifest.external_dbs.clone(alloc)?;
    match normal_core(alloc, &manifest.core) {
        Ok(core) => Ok(Manifest {
            external_dbs,
            core,
            writer_epoch: manifest.writer_epoch,
            compactor_epoch: manifest.compactor_epoch,
        }),
        Err(e) => {
            drop(external_dbs);
            Err(e)
        }
    }
}
