//! How many views of L0 show one key.
ghost use Rattle.std.specs.Prelude.{◌≡◌, ◌⊎◌, ◌++◌, ◌<◌, ◌≤◌, ℕ, List, length, count_by, true, IfOk, OnOk};
ghost use Rattle.std.specs.List.Sorted.{IsSorted, IsPermutation};
ghost use Rattle.std.specs.Ordering.{nat_cmp};
ghost use Rattle.std.specs.Cmp.Lexicographic.{slice_cmp};
ghost use Rattle.slate_ids.specs.Keys.{pointed, key_lt, key_le};
ghost use Rattle.slate_model_tables.specs.SortedRuns.{all_show};
ghost use Rattle.slate_model_tables.specs.Overlap as overlap;
ghost use Rattle.slate_model_tables.specs.Overlap.{IsGreatestOverlap, IsMostOpen, included_in, excluded_in, start_keys, end_keys, limit_keys};

use crate::ss_table_view::SsTableView;
use bytes::Bytes;
use slate_ids::{BytesRange, KeySpan, OutOfMemory};
use std::alloc::Global;
use std::collections::VecDeque;
use std::ops::Bound;

// The keys that views start at, those that they end at, and those that they end before.
#[derive(Drop)]
struct Edges {
    starts: Vec<Bytes>,
    ends: Vec<Bytes>,
    limits: Vec<Bytes>,
}

// Adds the key of an included bound.
fn push_included(keys: &mut Vec<Bytes>, bound: Bound<&Bytes>) -> Result<(), OutOfMemory>
    ensures { OnOk result (keys.new.items ≡ keys.old.items ++ included_in (pointed bound.entry)) }
{
    if let Bound::Included(key) = bound {
        keys.push(key.clone()?)?;
    }
    Ok(())
}

// Adds the key of an excluded bound.
fn push_excluded(keys: &mut Vec<Bytes>, bound: Bound<&Bytes>) -> Result<(), OutOfMemory>
    ensures { OnOk result (keys.new.items ≡ keys.old.items ++ excluded_in (pointed bound.entry)) }
{
    if let Bound::Excluded(key) = bound {
        keys.push(key.clone()?)?;
    }
    Ok(())
}

// Adds the edges of a range.
fn add_edges(edges: &mut Edges, span: &KeySpan<'_>) -> Result<(), OutOfMemory>
    ensures starts { OnOk result (edges.new.starts.items ≡ edges.old.starts.items ++ included_in span.now.start) }
    ensures ends { OnOk result (edges.new.ends.items ≡ edges.old.ends.items ++ included_in span.now.end) }
    ensures limits { OnOk result (edges.new.limits.items ≡ edges.old.limits.items ++ excluded_in span.now.end) }
{
    push_included(&mut edges.starts, span.start_bound())?;
    push_included(&mut edges.ends, span.end_bound())?;
    push_excluded(&mut edges.limits, span.end_bound())
}

fn edges_of(alloc: Global, views: &VecDeque<SsTableView>) -> Result<Edges, OutOfMemory>
    ensures starts { IfOk result (λ edges. edges.starts.items ≡ start_keys views.now.items) }
    ensures ends { IfOk result (λ edges. edges.ends.items ≡ end_keys views.now.items) }
    ensures limits { IfOk result (λ edges. edges.limits.items ≡ limit_keys views.now.items) }
{
    let none = BytesRange::new_empty();
    let mut edges = Edges {
        starts: Vec::new(alloc),
        ends: Vec::new(alloc),
        limits: Vec::new(alloc),
    };
    for i in 0..views.len() {
        match add_edges(&mut edges, &views[i].effective_span(&none)) {
            Ok(()) => {}
            Err(e) => {
                drop(edges);
                drop(none);
                return Err(e);
            }
        }
    }
    drop(none);
    Ok(edges)
}

// How many keys stand before another.
fn count_before(keys: &[Bytes], key: &Bytes) -> usize
    requires { IsSorted (slice_cmp nat_cmp) keys.now }
    ensures value { result ≡ count_by (λ k. key_lt k key.now) keys.now }
    ensures within { result ≤ length keys.now }
{
    keys.partition_point(|k| k.cmp(key).is_lt())
}

// How many keys stand before another, or are it.
fn count_up_to(keys: &[Bytes], key: &Bytes) -> usize
    requires { IsSorted (slice_cmp nat_cmp) keys.now }
    ensures value { result ≡ count_by (λ k. key_le k key.now) keys.now }
    ensures within { result ≤ length keys.now }
{
    keys.partition_point(|k| k.cmp(key).is_le())
}

// How many views are open at the start of a place: of those that have started up to it, less those that have ended before.
fn open_at(starts: &[Bytes], ends: &[Bytes], limits: &[Bytes], place: usize) -> usize
    requires place { place < length starts.now }
    requires ends { IsSorted (slice_cmp nat_cmp) ends.now }
    requires limits { IsSorted (slice_cmp nat_cmp) limits.now }
    ensures { (d : List ℕ) → result ≡ overlap.open_at starts.now ends.now limits.now place d }
{
    let start = &starts[place];
    let closed = count_before(ends, start).saturating_add(count_up_to(limits, start));
    (place + 1).saturating_sub(closed)
}

fn larger(a: usize, b: usize) -> usize
    ensures first { a ≤ result }
    ensures second { b ≤ result }
    ensures one { (result ≡ a) ⊎ (result ≡ b) }
{
    if a < b { b } else { a }
}

// The most views that are open at a start, and 0 without starts.
fn most_open(starts: &[Bytes], ends: &[Bytes], limits: &[Bytes]) -> usize
    requires ends { IsSorted (slice_cmp nat_cmp) ends.now }
    requires limits { IsSorted (slice_cmp nat_cmp) limits.now }
    ensures { IsMostOpen starts.now ends.now limits.now result }
{
    let mut most = 0;
    for i in 0..starts.len() {
        let count = open_at(starts, ends, limits, i);
        most = larger(most, count);
    }
    most
}

// Sorts the keys of each list.
fn sort(edges: &mut Edges) -> Result<(), OutOfMemory>
    ensures starts { OnOk result (IsSorted (slice_cmp nat_cmp) edges.new.starts.items) }
    ensures ends { OnOk result (IsSorted (slice_cmp nat_cmp) edges.new.ends.items) }
    ensures limits { OnOk result (IsSorted (slice_cmp nat_cmp) edges.new.limits.items) }
    ensures start_order { OnOk result (IsPermutation edges.old.starts.items edges.new.starts.items) }
    ensures end_order { OnOk result (IsPermutation edges.old.ends.items edges.new.ends.items) }
    ensures limit_order { OnOk result (IsPermutation edges.old.limits.items edges.new.limits.items) }
{
    edges.starts.sort()?;
    edges.ends.sort()?;
    edges.limits.sort()?;
    Ok(())
}

/// The greatest number of views whose effective ranges have one key, and 0 for no views. Each view shows a key, as `all_show_keys`
/// tells. The starts and the
/// ends are sorted, and one pass over the starts counts how many views are open there.
pub fn max_l0_overlap(alloc: Global, l0: &VecDeque<SsTableView>) -> Result<usize, OutOfMemory>
    requires { all_show l0.now.items ≡ true }
    ensures { IfOk result (λ n. IsGreatestOverlap l0.now.items n) }
{
    let mut edges = edges_of(alloc, l0)?;
    match sort(&mut edges) {
        Ok(()) => {}
        Err(e) => {
            drop(edges);
            return Err(e);
        }
    }
    let most = most_open(
        edges.starts.as_slice(),
        edges.ends.as_slice(),
        edges.limits.as_slice(),
    );
    drop(edges);
    Ok(most)
}
