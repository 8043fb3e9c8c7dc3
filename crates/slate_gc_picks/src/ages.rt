//! The ages of objects.
ghost use Rattle.std.specs.Prelude.{◌≡◌, IfOk};
ghost use Rattle.slate_gc_picks.specs.Ages as ages;

use crate::keeping::push_if;
use slate_ids::{Listed, Millis, OutOfMemory};
use slate_store::ObjectMetadata;
use std::alloc::Global;

/// Whether what was modified at a moment is now older than `min_age` milliseconds. The age saturates at 64 bits.
pub fn is_aged(min_age: u64, now: Millis, modified: Millis) -> bool
    ensures { result ≡ ages.is_aged min_age now modified }
{
    let age = now.saturating_sub(modified);
    (min_age as i128) < age as i128
}

/// The objects that are older than `min_age` milliseconds, in their order.
pub fn aged(
    alloc: Global,
    min_age: u64,
    now: Millis,
    found: &[ObjectMetadata],
) -> Result<Listed<ObjectMetadata>, OutOfMemory>
    ensures { IfOk result (λ listed. listed ≡ ages.aged min_age now found.now) }
{
    let mut listed = Listed::new(alloc);
    for object in found {
        let keeps = is_aged(min_age, now, object.last_modified);
        if let Err(e) = push_if(alloc, keeps, &mut listed, object) {
            drop(listed);
            return Err(e);
        }
    }
    Ok(listed)
}
