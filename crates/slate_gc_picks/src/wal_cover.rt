//! The numbers of some ranges of files, as one list to search in.
ghost use Rattle.std.specs.Prelude.{◌≡◌, ◌<◌, ◌^◌, ◌||◌, ℕ, List, IfOk, OnOk};
ghost use Rattle.std.specs.List.{list_any};
ghost use Rattle.std.specs.List.Sorted.{IsNonDecreasingBy};
ghost use Rattle.slate_ids.specs.Ranges.{is_above, is_below, is_within};
ghost use Rattle.slate_ids.specs.declared.number_range.NumberRange.{NumberRange as AnyRange};
ghost use Rattle.slate_gc_picks.specs.WalCovers.{Covers, HasNumbers, is_from, is_spanned, is_to};
ghost use Rattle.slate_gc_picks.specs.WalCovers as covers;

use crate::wal_ranges::WalFileRange;
use slate_ids::OutOfMemory;
use std::alloc::Global;
use std::ops::Bound;

/// The numbers from a first to a last one.
#[derive(Clone, Copy)]
pub struct WalSpan {
    pub first: u64,
    pub last: u64,
}

// The least number that is at or past a start, where there is one.
fn least_from(start: Bound<u64>) -> Option<u64>
    ensures { (n : ℕ) → n < 2 ^ 64 → is_from result n ≡ is_above start n }
{
    match start {
        Bound::Included(first) => Some(first),
        Bound::Excluded(before) => before.checked_add(1),
        Bound::Unbounded => Some(0),
    }
}

// The greatest number that is at or before an end, where there is one.
fn greatest_to(end: Bound<u64>) -> Option<u64>
    ensures { (n : ℕ) → n < 2 ^ 64 → is_to result n ≡ is_below end n }
{
    match end {
        Bound::Included(last) => Some(last),
        Bound::Excluded(past) => past.checked_sub(1),
        Bound::Unbounded => Some(u64::MAX),
    }
}

// Adds the numbers of a range.
fn add_range(spans: &mut Vec<WalSpan>, range: &WalFileRange) -> Result<(), OutOfMemory>
    ensures { OnOk result ((n : ℕ) → n < 2 ^ 64
        → list_any (is_spanned n) spans.new.items ≡ (list_any (is_spanned n) spans.old.items || is_within range.now n)) }
{
    let Some(first) = least_from(range.start) else {
        return Ok(());
    };
    let Some(last) = greatest_to(range.end) else {
        return Ok(());
    };
    spans.push(WalSpan { first, last })?;
    Ok(())
}

// The numbers of the ranges, range by range.
fn spans_of(alloc: Global, ranges: &[WalFileRange]) -> Result<Vec<WalSpan>, OutOfMemory>
    ensures { IfOk result (λ spans. HasNumbers spans.items ranges.now) }
{
    let mut spans = Vec::new(alloc);
    for range in ranges {
        add_range(&mut spans, range)?;
    }
    Ok(spans)
}

// The same spans, ascending by their first numbers.
fn sort(spans: &mut Vec<WalSpan>)
    ensures same { (n : ℕ) → list_any (is_spanned n) spans.new.items ≡ list_any (is_spanned n) spans.old.items }
    ensures sorted { IsNonDecreasingBy (λ (s : covers.Span). s.first) spans.new.items }
{
    spans.sort_unstable_by_key(|span| span.first);
}

// Spans of which each goes at least as far as all before it.
fn raised(alloc: Global, spans: &[WalSpan]) -> Result<Vec<WalSpan>, OutOfMemory>
    ensures { IfOk result (λ tops. tops.items ≡ covers.raised 0 spans.now) }
{
    let mut tops = Vec::new(alloc);
    let mut last = 0;
    for span in spans {
        last = span.last.max(last);
        tops.push(WalSpan {
            first: span.first,
            last,
        })?;
    }
    Ok(tops)
}

/// The numbers of the ranges as spans of which neither the first nor the last numbers fall. Takes `n log n` steps.
pub(crate) fn cover_of(alloc: Global, ranges: &[WalFileRange]) -> Result<Vec<WalSpan>, OutOfMemory>
    ensures { IfOk result (λ cover. Covers cover.items ranges.now) }
{
    let mut spans = spans_of(alloc, ranges)?;
    sort(&mut spans);
    let cover = raised(alloc, spans.as_slice());
    drop(spans);
    cover
}

/// Whether a number is in one of the ranges. Takes `log n` steps.
pub(crate) fn has_number(cover: &[WalSpan], number: u64) -> bool
    ensures { (ranges : List AnyRange) → Covers cover.now ranges → result ≡ list_any (λ r. is_within r number) ranges }
{
    let count = cover.partition_point(|span| span.first <= number);
    if count == 0 {
        return false;
    }
    number <= cover[count - 1].last
}
