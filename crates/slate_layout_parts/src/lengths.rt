//! Lengths that have 32 bits.
ghost use Rattle.std.specs.Prelude.{◌≡◌};
ghost use Rattle.slate_ids.specs.Keys.{pointed};
ghost use Rattle.slate_layout_parts.specs.Lengths as lengths;

use bytes::Bytes;
use std::ops::Bound;

/// Whether a length has 32 bits.
pub fn few(length: usize) -> bool
    ensures { result ≡ lengths.few length }
{
    length < 1 << 32
}

/// Whether the length of a bound's key has 32 bits; of no bound there is none.
pub fn short_bound(bound: Bound<&Bytes>) -> bool
    ensures { result ≡ lengths.short_bound (pointed bound.entry) }
{
    match bound {
        Bound::Unbounded => true,
        Bound::Included(key) => few(key.len()),
        Bound::Excluded(key) => few(key.len()),
    }
}
