//! Copies of a manifest with other checkpoints: what is thrown away isn't copied.
ghost use Rattle.std.specs.Prelude.{◌≡◌, IfOk};
ghost use Rattle.slate_model.specs.Segments.{IsAscending};
ghost use Rattle.slate_state_updates.specs.Checkpoints as made;

use slate_ids::{Listed, OutOfMemory, Text, clone_both, copies};
use slate_model::{
    Checkpoint, LsmTreeState, Manifest, ManifestCore, Plain, Segment, SequenceTracker,
};
use std::alloc::Global;

// The names of a core: of the extractor, and of the store of the write-ahead log.
type Names = (Option<Text>, Option<Text>);

// Equal trees of a core: of the keys in no segment, and of the segments.
fn trees_of(alloc: Global, core: &ManifestCore) -> Result<(LsmTreeState, Vec<Segment>), OutOfMemory>
    ensures tree { IfOk result (λ trees. trees.0 ≡ core.now.tree) }
    ensures segments { IfOk result (λ trees. trees.1.items ≡ core.now.segments) }
    ensures ascending { IfOk result (λ trees. IsAscending trees.1.items) }
{
    let tree = Plain::clone(&core.tree, alloc)?;
    match copies(alloc, core.segments().iter()) {
        Ok(segments) => Ok((tree, segments)),
        Err(e) => {
            drop(tree);
            Err(e)
        }
    }
}

// Equal names of a core, and an equal tracker.
fn names_of(alloc: Global, core: &ManifestCore) -> Result<(Names, SequenceTracker), OutOfMemory>
    ensures { IfOk result (λ rest. rest
        ≡ ((core.now.segment_extractor_name, core.now.wal_object_store_uri), core.now.sequence_tracker)) }
{
    let names = clone_both(
        alloc,
        &core.segment_extractor_name,
        &core.wal_object_store_uri,
    )?;
    match Plain::clone(&core.sequence_tracker, alloc) {
        Ok(tracker) => Ok((names, tracker)),
        Err(e) => {
            drop(names);
            Err(e)
        }
    }
}

// An equal core, with these checkpoints.
fn core_with(
    alloc: Global,
    checkpoints: Listed<Checkpoint>,
    core: &ManifestCore,
) -> Result<ManifestCore, OutOfMemory>
    ensures { IfOk result (λ all. all ≡ record core.now { checkpoints = checkpoints }) }
{
    match trees_of(alloc, core) {
        Ok((tree, segments)) => match names_of(alloc, core) {
            Ok((names, tracker)) => {
                Ok(core.with_parts(tree, segments, names, (tracker, checkpoints)))
            }
            Err(e) => {
                drop(tree);
                drop(segments);
                drop(checkpoints);
                Err(e)
            }
        },
        Err(e) => {
            drop(checkpoints);
            Err(e)
        }
    }
}

// An equal manifest, with these checkpoints.
pub(crate) fn with_checkpoints(
    alloc: Global,
    checkpoints: Listed<Checkpoint>,
    manifest: &Manifest,
) -> Result<Manifest, OutOfMemory>
    ensures { IfOk result (λ m. m ≡ made.with_checkpoints checkpoints manifest.now) }
{
    let core = core_with(alloc, checkpoints, &manifest.core)?;
    match Plain::clone(&manifest.external_dbs, alloc) {
        Ok(external_dbs) => Ok(Manifest {
            external_dbs,
            core,
            writer_epoch: manifest.writer_epoch,
            compactor_epoch: manifest.compactor_epoch,
        }),
        Err(e) => {
            drop(core);
            Err(e)
        }
    }
}
