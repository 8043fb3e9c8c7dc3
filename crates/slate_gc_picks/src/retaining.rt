//! The candidates that a filter allows.
ghost use Rattle.std.specs.Prelude.{◌≡◌, IfOk, option_copied};
ghost use Rattle.slate_gc_picks.specs.Filter as filters;
ghost use Rattle.slate_gc_picks.specs.ListedKeys.{IsObjectSet};

use crate::gc_filter::GcFilter;
use crate::keeping::push_if;
use crate::object_key::ObjectKey;
use slate_ids::{Listed, OutOfMemory};
use slate_store::ObjectMetadata;
use std::alloc::Global;
use std::collections::BTreeSet;

// These objects as a set.
fn set_of(alloc: Global, objects: &[ObjectMetadata]) -> Result<BTreeSet<ObjectKey>, OutOfMemory>
    ensures { IfOk result (λ set. IsObjectSet set objects.now) }
{
    let mut set = BTreeSet::new(alloc);
    for object in objects {
        set.insert(ObjectKey::of(alloc, object)?)?;
    }
    Ok(set)
}

// The candidates that were returned, in their order.
fn retained(
    alloc: Global,
    returned: &[ObjectMetadata],
    candidates: &[ObjectMetadata],
) -> Result<Listed<ObjectMetadata>, OutOfMemory>
    ensures { IfOk result (λ objects. objects ≡ filters.retained returned.now candidates.now) }
{
    let set = set_of(alloc, returned)?;
    let mut objects = Listed::new(alloc);
    for object in candidates {
        let key = ObjectKey::of(alloc, object)?;
        let keeps = set.contains(&key);
        drop(key);
        push_if(alloc, keeps, &mut objects, object)?;
    }
    drop(set);
    Ok(objects)
}

/// The candidates that a filter returns, in their order.
pub(crate) fn asked<F: GcFilter>(
    alloc: Global,
    filter: &F,
    candidates: &[ObjectMetadata],
) -> Result<Listed<ObjectMetadata>, OutOfMemory>
    ensures { IfOk result (λ objects. objects
        ≡ filters.retained (F.returns filter.now candidates.now) candidates.now) }
{
    let returned = filter.filter(alloc, candidates)?;
    let kept = retained(alloc, returned.as_slice(), candidates);
    drop(returned);
    kept
}

/// The candidates that the filter returned, in their order; all of them without a filter. What the filter returned that is no candidate
/// counts for nothing, and an object is a candidate only where all that a list tells of it is the same. Takes `n log n` steps.
pub fn retain_allowed_by_gc_filter<F: GcFilter>(
    alloc: Global,
    filter: Option<&F>,
    candidates: Vec<ObjectMetadata>,
) -> Result<Vec<ObjectMetadata>, OutOfMemory>
    ensures { IfOk result (λ objects. objects.items
        ≡ filters.allowed F.returns (option_copied filter.entry) candidates.items) }
{
    match filter {
        None => Ok(candidates),
        Some(filter) => {
            let kept = asked(alloc, filter, candidates.as_slice());
            drop(candidates);
            Ok(kept?.into_vec())
        }
    }
}
