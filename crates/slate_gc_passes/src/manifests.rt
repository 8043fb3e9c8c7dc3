//! What the pass over the manifests reads after its list: what follows the answer to each call.
ghost use Rattle.std.specs.Prelude.{◌≡◌, ◌<◌, option_copied, Ok};
ghost use Rattle.slate_txn_log.specs.Boundary as boundaries;
ghost use Rattle.slate_txn_log.specs.Due.{StillDue, WhereOut};
ghost use Rattle.slate_gc_passes.specs.Pass as pass;
ghost use Rattle.slate_gc_passes.specs.Stages.{stages_within};
ghost use Rattle.slate_gc_passes.specs.declared.pass_phase.PassPhase.TheVariants as phases;
ghost use Rattle.slate_gc_picks.specs.Filter.{allowed};
ghost use Rattle.slate_store.specs.Machines.{GoesOn, IsAgain};

use crate::collecting::{Onward, chosen, refused};
use crate::pass_phase::PassPhase;
use crate::pass_settings::PassSettings;
use slate_gc_picks::{GcFilter, unneeded};
use slate_ids::{FormatName, Listed, ObjectCodec, SlateDBError};
use slate_model::Manifest;
use slate_store::{ObjectMetadata, Step, StoreAnswer, StoredObject};
use slate_txn_log::{LogKind, boundary_in};
use std::alloc::Global;

// The candidates by the greatest manifest.
fn after_manifest(
    alloc: Global,
    n: u64,
    listed: u64,
    found: Listed<ObjectMetadata>,
    manifest: &Manifest,
) -> Onward
    ensures goes { GoesOn (pass.decoded_goes n listed found (Ok manifest.now))
        (phases.Getting n listed found) result.0 result.1 }
    ensures due { StillDue result.1 (pass.pass_due result.0) }
    ensures stages { IsAgain result.1 → stages_within result.0 < 4 }
    ensures memory { WhereOut result.1 (result.0 ≡ phases.Getting n listed found) }
{
    let checkpoints = manifest.core.checkpoints.as_slice();
    match unneeded(alloc, LogKind::Manifest, n, checkpoints, found.as_slice()) {
        Ok(candidates) => {
            drop(found);
            (PassPhase::Bounding(n, listed, candidates), Step::Again)
        }
        Err(_) => (
            PassPhase::Getting(n, listed, found),
            Step::Done(Err(SlateDBError::OutOfMemory)),
        ),
    }
}

// The bytes of the greatest manifest are read.
fn after_bytes<C: ObjectCodec<Manifest>>(
    alloc: Global,
    codec: &C,
    n: u64,
    listed: u64,
    found: Listed<ObjectMetadata>,
    bytes: &[u8],
) -> Onward
    ensures goes { GoesOn (pass.decoded_goes n listed found (C.decoded codec.now bytes.now))
        (phases.Getting n listed found) result.0 result.1 }
    ensures due { StillDue result.1 (pass.pass_due result.0) }
    ensures stages { IsAgain result.1 → stages_within result.0 < 4 }
    ensures memory { WhereOut result.1 (result.0 ≡ phases.Getting n listed found) }
{
    match codec.decode(alloc, bytes) {
        Ok(manifest) => {
            let onward = after_manifest(alloc, n, listed, found, &manifest);
            drop(manifest);
            onward
        }
        Err(e) => {
            if e.is_memory() {
                (PassPhase::Getting(n, listed, found), Step::Done(Err(e)))
            } else {
                drop(found);
                refused(e)
            }
        }
    }
}

/// After the get of the greatest manifest. Running out of memory leaves the phase as it was.
pub(crate) fn after_get<C: ObjectCodec<Manifest>>(
    alloc: Global,
    codec: &C,
    n: u64,
    listed: u64,
    found: Listed<ObjectMetadata>,
    answer: &StoreAnswer,
) -> Onward
    ensures goes { GoesOn (pass.get_goes (C.decoded codec.now) n listed found answer.now)
        (phases.Getting n listed found) result.0 result.1 }
    ensures due { StillDue result.1 (pass.pass_due result.0) }
    ensures stages { IsAgain result.1 → stages_within result.0 < 4 }
    ensures memory { WhereOut result.1 (result.0 ≡ phases.Getting n listed found) }
{
    match answer {
        StoreAnswer::Got(None) => {
            drop(found);
            refused(SlateDBError::ManifestMissing(n))
        }
        StoreAnswer::Got(Some(object)) => {
            after_bytes(alloc, codec, n, listed, found, object.bytes.as_slice())
        }
        _ => {
            drop(found);
            refused(SlateDBError::StoreFault)
        }
    }
}

// The candidates stand: the boundary is below the greatest manifest.
fn after_bounded<F: GcFilter>(
    alloc: Global,
    filter: Option<&F>,
    settings: &PassSettings,
    n: u64,
    listed: u64,
    candidates: Listed<ObjectMetadata>,
) -> Onward
    ensures goes { GoesOn (pass.chosen_goes (allowed F.returns (option_copied filter.entry)) settings.now listed candidates)
        (phases.Bounding n listed candidates) result.0 result.1 }
    ensures due { StillDue result.1 (pass.pass_due result.0) }
    ensures stages { IsAgain result.1 → stages_within result.0 < 3 }
    ensures memory { WhereOut result.1 (result.0 ≡ phases.Bounding n listed candidates) }
{
    match chosen(alloc, filter, settings, listed, candidates.as_slice()) {
        Ok(onward) => {
            drop(candidates);
            onward
        }
        Err(_) => (
            PassPhase::Bounding(n, listed, candidates),
            Step::Done(Err(SlateDBError::OutOfMemory)),
        ),
    }
}

// After the boundary: a greatest manifest at or below it counts as gone.
fn after_boundary<F: GcFilter>(
    alloc: Global,
    filter: Option<&F>,
    settings: &PassSettings,
    n: u64,
    listed: u64,
    candidates: Listed<ObjectMetadata>,
    object: &Option<StoredObject>,
) -> Onward
    ensures goes { GoesOn (pass.bounded_goes (allowed F.returns (option_copied filter.entry)) settings.now n listed candidates
        (boundaries.boundary_got object.now)) (phases.Bounding n listed candidates) result.0 result.1 }
    ensures due { StillDue result.1 (pass.pass_due result.0) }
    ensures stages { IsAgain result.1 → stages_within result.0 < 3 }
    ensures memory { WhereOut result.1 (result.0 ≡ phases.Bounding n listed candidates) }
{
    match boundary_in(object) {
        None => {
            drop(candidates);
            refused(SlateDBError::Corrupt(FormatName::Boundary))
        }
        Some(boundary) => {
            if n <= boundary {
                drop(candidates);
                refused(SlateDBError::ManifestMissing(n))
            } else {
                after_bounded(alloc, filter, settings, n, listed, candidates)
            }
        }
    }
}

/// After the get of the boundary. Running out of memory leaves the phase as it was.
pub(crate) fn after_bound<F: GcFilter>(
    alloc: Global,
    filter: Option<&F>,
    settings: &PassSettings,
    n: u64,
    listed: u64,
    candidates: Listed<ObjectMetadata>,
    answer: &StoreAnswer,
) -> Onward
    ensures goes { GoesOn (pass.bound_goes (allowed F.returns (option_copied filter.entry)) settings.now n listed candidates answer.now)
        (phases.Bounding n listed candidates) result.0 result.1 }
    ensures due { StillDue result.1 (pass.pass_due result.0) }
    ensures stages { IsAgain result.1 → stages_within result.0 < 3 }
    ensures memory { WhereOut result.1 (result.0 ≡ phases.Bounding n listed candidates) }
{
    match answer {
        StoreAnswer::Got(object) => {
            after_boundary(alloc, filter, settings, n, listed, candidates, object)
        }
        _ => {
            drop(candidates);
            refused(SlateDBError::StoreFault)
        }
    }
}
