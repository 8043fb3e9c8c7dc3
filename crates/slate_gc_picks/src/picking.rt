//! Which candidates a pass deletes.
ghost use Rattle.std.specs.Prelude.{◌≡◌, IfOk, option_copied};
ghost use Rattle.slate_gc_picks.specs.Filter as filters;

use crate::gc_filter::GcFilter;
use crate::objects::Objects;
use crate::retaining::asked;
use slate_ids::{Listed, OutOfMemory};
use slate_store::{ObjectMetadata, copy_listing};
use std::alloc::Global;

// The candidates that the filter allows.
fn allowed<F: GcFilter>(
    alloc: Global,
    filter: Option<&F>,
    candidates: &[ObjectMetadata],
) -> Result<Listed<ObjectMetadata>, OutOfMemory>
    ensures { IfOk result (λ objects. objects
        ≡ filters.allowed F.returns (option_copied filter.entry) candidates.now) }
{
    match filter {
        None => copy_listing(alloc, candidates),
        Some(filter) => asked(alloc, filter, candidates),
    }
}

// The objects in a queue.
fn queued(alloc: Global, objects: Vec<ObjectMetadata>) -> Result<Objects, OutOfMemory>
    ensures { IfOk result (λ queue. queue ≡ objects.items) }
{
    let mut queue = Objects::new(alloc);
    for object in objects {
        queue.push(object)?;
    }
    Ok(queue)
}

/// The picks of a pass: the candidates that the filter allows, in their order, and none in a dry run.
pub fn picks<F: GcFilter>(
    alloc: Global,
    filter: Option<&F>,
    dry_run: bool,
    candidates: &[ObjectMetadata],
) -> Result<Objects, OutOfMemory>
    ensures { IfOk result (λ picked. picked
        ≡ filters.picks (filters.allowed F.returns (option_copied filter.entry)) dry_run candidates.now) }
{
    if dry_run {
        return Ok(Objects::new(alloc));
    }
    queued(alloc, allowed(alloc, filter, candidates)?.into_vec())
}
