//! The bounds of ranges of keys.
ghost use Rattle.std.specs.Prelude.{◌≡◌, ◌==◌, ◌≤◌, ◌<◌, ◌-◌, IfOk, option_map, length, drop, get_or, true, false};
ghost use Rattle.std.specs.List.{list_all};
ghost use Rattle.std.specs.Range.Bound.{bound_map};
ghost use Rattle.slate_ids.specs.Keys as keys;
ghost use Rattle.slate_ids.specs.Keys.{pointed};

use crate::out_of_memory::OutOfMemory;
use bytes::Bytes;
use std::alloc::Global;
use std::ops::Bound;

/// Whether a key stands before another.
fn is_before(a: &[u8], b: &[u8]) -> bool
    ensures { result ≡ keys.key_lt a.now b.now }
{
    a.cmp(b).is_lt()
}

/// Whether a key stands before another, or is it.
fn is_at_most(a: &[u8], b: &[u8]) -> bool
    ensures { result ≡ keys.key_le a.now b.now }
{
    a.cmp(b).is_le()
}

/// Whether a key is at or past a start.
#[tactic(auto, unfolding(crate::specs::Keys::is_past))]
pub(crate) fn is_past(start: Bound<&Bytes>, key: &[u8]) -> bool
    ensures { result ≡ keys.is_past (pointed start.entry) key.now }
{
    match start {
        Bound::Included(k) => is_at_most(k, key),
        Bound::Excluded(k) => is_before(k, key),
        Bound::Unbounded => true,
    }
}

/// Whether a key is at or before an end.
#[tactic(auto, unfolding(crate::specs::Keys::is_up_to))]
pub(crate) fn is_up_to(end: Bound<&Bytes>, key: &[u8]) -> bool
    ensures { result ≡ keys.is_up_to (pointed end.entry) key.now }
{
    match end {
        Bound::Included(k) => is_at_most(key, k),
        Bound::Excluded(k) => is_before(key, k),
        Bound::Unbounded => true,
    }
}

/// Whether a start and an end are those of a proper range.
#[tactic(auto, unfolding(crate::specs::Keys::is_ordered))]
pub(crate) fn is_ordered(start: Bound<&Bytes>, end: Bound<&Bytes>) -> bool
    ensures { result ≡ keys.is_ordered (pointed start.entry) (pointed end.entry) }
{
    match (start, end) {
        (Bound::Included(s), Bound::Included(e)) => is_at_most(s, e),
        (Bound::Included(s), Bound::Excluded(e)) => is_before(s, e),
        (Bound::Excluded(s), Bound::Included(e)) => is_before(s, e),
        (Bound::Excluded(s), Bound::Excluded(e)) => is_before(s, e),
        (Bound::Unbounded, _) | (_, Bound::Unbounded) => true,
    }
}

// Whether a start stands before another.
#[tactic(auto, unfolding(crate::specs::Keys::starts_before))]
fn starts_before(a: Bound<&Bytes>, b: Bound<&Bytes>) -> bool
    ensures { result ≡ keys.starts_before (pointed a.entry) (pointed b.entry) }
{
    match (a, b) {
        (_, Bound::Unbounded) => false,
        (Bound::Unbounded, _) => true,
        (Bound::Included(a), Bound::Included(b)) => is_before(a, b),
        (Bound::Included(a), Bound::Excluded(b)) => is_at_most(a, b),
        (Bound::Excluded(a), Bound::Included(b)) => is_before(a, b),
        (Bound::Excluded(a), Bound::Excluded(b)) => is_before(a, b),
    }
}

// Whether an end stands before another.
#[tactic(auto, unfolding(crate::specs::Keys::ends_before))]
fn ends_before(a: Bound<&Bytes>, b: Bound<&Bytes>) -> bool
    ensures { result ≡ keys.ends_before (pointed a.entry) (pointed b.entry) }
{
    match (a, b) {
        (Bound::Unbounded, _) => false,
        (_, Bound::Unbounded) => true,
        (Bound::Included(a), Bound::Included(b)) => is_before(a, b),
        (Bound::Included(a), Bound::Excluded(b)) => is_before(a, b),
        (Bound::Excluded(a), Bound::Included(b)) => is_at_most(a, b),
        (Bound::Excluded(a), Bound::Excluded(b)) => is_before(a, b),
    }
}

/// The later of two starts.
pub(crate) fn later<'a>(a: Bound<&'a Bytes>, b: Bound<&'a Bytes>) -> Bound<&'a Bytes>
    ensures { pointed result ≡ keys.later (pointed a.entry) (pointed b.entry) }
{
    if starts_before(a, b) { b } else { a }
}

/// The earlier of two ends.
pub(crate) fn earlier<'a>(a: Bound<&'a Bytes>, b: Bound<&'a Bytes>) -> Bound<&'a Bytes>
    ensures { pointed result ≡ keys.earlier (pointed a.entry) (pointed b.entry) }
{
    if ends_before(b, a) { b } else { a }
}

/// Another owner of a bound's key.
pub(crate) fn owned(bound: Bound<&Bytes>) -> Result<Bound<Bytes>, OutOfMemory>
    ensures { IfOk result (λ b. b ≡ pointed bound.entry) }
{
    Ok(match bound {
        Bound::Included(k) => Bound::Included(k.clone()?),
        Bound::Excluded(k) => Bound::Excluded(k.clone()?),
        Bound::Unbounded => Bound::Unbounded,
    })
}

/// A copy of a bound.
pub(crate) fn copied(alloc: Global, bound: Bound<&[u8]>) -> Result<Bound<Bytes>, OutOfMemory>
    ensures { IfOk result (λ b. b ≡ bound_map (λ s. s.now) bound.entry) }
{
    Ok(match bound {
        Bound::Included(k) => Bound::Included(Bytes::copy_from_slice(alloc, k)?),
        Bound::Excluded(k) => Bound::Excluded(Bytes::copy_from_slice(alloc, k)?),
        Bound::Unbounded => Bound::Unbounded,
    })
}

// How many bytes a prefix has up to the last that isn't 255.
fn used_len(prefix: &[u8]) -> usize
    ensures within { result ≤ length prefix.now }
    ensures rest { list_all (λ b. b == 255) (drop result prefix.now) ≡ true }
    ensures last { 0 < result → (get_or prefix.now (result - 1) 0 == 255) ≡ false }
{
    let mut used = prefix.len();
    while used > 0 {
        if prefix[used - 1] != 255 {
            return used;
        }
        used -= 1;
    }
    0
}

/// The least key above all that begin with `prefix`, and None where all its bytes are 255.
pub(crate) fn successor(alloc: Global, prefix: &[u8]) -> Result<Option<Vec<u8>>, OutOfMemory>
    ensures { IfOk result (λ s. option_map (λ v. v.items) s ≡ keys.successor prefix.now) }
{
    let used = used_len(prefix);
    if used == 0 {
        return Ok(None);
    }
    let mut bytes = Vec::from_slice(alloc, &prefix[..used - 1])?;
    match bytes.push(prefix[used - 1] + 1) {
        Ok(()) => Ok(Some(bytes)),
        Err(e) => {
            drop(bytes);
            Err(OutOfMemory::from(e))
        }
    }
}

/// The end before a key, and none without it.
pub(crate) fn end_before(key: Option<Vec<u8>>) -> Result<Bound<Bytes>, OutOfMemory>
    ensures { IfOk result (λ b. b ≡ keys.end_before (option_map (λ v. v.items) key)) }
{
    match key {
        Some(bytes) => Ok(Bound::Excluded(Bytes::from_vec(bytes)?)),
        None => Ok(Bound::Unbounded),
    }
}
