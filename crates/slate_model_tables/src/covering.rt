//! The part of a run's views that covers a range of keys, by search.
ghost use Rattle.std.specs.Prelude.{◌≡◌, ◌<◌, ◌≤◌, ℕ, length, true, false, slice_range};
ghost use Rattle.slate_ids.specs.Keys.{pointed, is_ordered};
ghost use Rattle.slate_ids.specs.KeyRange.{no_keys};
ghost use Rattle.slate_model_tables.specs.Views.{effective_range};
ghost use Rattle.slate_model_tables.specs.SortedRuns as runs;
ghost use Rattle.slate_model_tables.specs.SortedRuns.{ascend, all_show, covering, IsPartFor};
ghost use Rattle.slate_model_tables.specs.Slots.{slot_at, Ends};

use crate::ss_table_view::SsTableView;
use bytes::Bytes;
use slate_ids::{BytesRange, KeySpan, ranges_are_sets};
use std::ops::{Bound, Range};

// Where a range ends that goes up to the start of the next.
fn end_at<'a>(range: &KeySpan<'a>, start: Bound<&'a Bytes>) -> Bound<&'a Bytes>
    ensures { pointed result ≡ runs.end_at range.now (pointed start.entry) }
{
    match start {
        Bound::Included(key) => {
            if range.contains(key) {
                Bound::Included(key)
            } else {
                Bound::Excluded(key)
            }
        }
        Bound::Excluded(key) => Bound::Excluded(key),
        Bound::Unbounded => Bound::Unbounded,
    }
}

// The end of the slot of the view at a place.
fn slot_end<'a>(views: &'a [SsTableView], place: usize, none: &'a BytesRange) -> Bound<&'a Bytes>
    requires place { place < length views.now }
    requires none { none.now ≡ no_keys }
    ensures { pointed result ≡ (slot_at views.now place).end }
{
    let own = views[place].effective_span(none);
    match views[place + 1..].first() {
        Some(next) => end_at(&own, next.effective_span(none).start_bound()),
        None => Bound::Unbounded,
    }
}

// Whether the range starts in the slot of the view at a place or before it.
fn reaches(views: &[SsTableView], place: usize, range: &KeySpan<'_>, none: &BytesRange) -> bool
    requires place { place < length views.now }
    requires none { none.now ≡ no_keys }
    ensures { result ≡ is_ordered range.now.start (slot_at views.now place).end }
{
    KeySpan::new(range.start_bound(), slot_end(views, place, none)).is_proper()
}

// Whether a view starts in the range or before it.
fn starts_in(view: &SsTableView, range: &KeySpan<'_>, none: &BytesRange) -> bool
    requires none { none.now ≡ no_keys }
    ensures { result ≡ is_ordered (effective_range view.now).start range.now.end }
{
    KeySpan::new(view.effective_span(none).start_bound(), range.end_bound()).is_proper()
}

// The first place whose slot the range starts in or before.
fn first_reached(views: &[SsTableView], range: &KeySpan<'_>, none: &BytesRange) -> usize
    requires shown { all_show views.now ≡ true }
    requires ascending { ascend views.now ≡ true }
    requires none { none.now ≡ no_keys }
    ensures within { result ≤ length views.now }
    ensures passed { (i : ℕ) → i < result → is_ordered range.now.start (slot_at views.now i).end ≡ false }
    ensures reached { (i : ℕ) → result ≤ i → i < length views.now
        → is_ordered range.now.start (slot_at views.now i).end ≡ true }
{
    let mut low = 0;
    let mut high = views.len();
    while low < high {
        let middle = low + (high - low) / 2;
        if reaches(views, middle, range, none) {
            high = middle;
        } else {
            low = middle + 1;
        }
    }
    low
}

// From which place on the range starts in slots or before them, and up to which one views start in the range or before it.
fn ends(views: &[SsTableView], range: &KeySpan<'_>) -> (usize, usize)
    requires shown { all_show views.now ≡ true }
    requires ascending { ascend views.now ≡ true }
    ensures { Ends views.now range.now result.0 result.1 }
{
    let none = BytesRange::new_empty();
    let to = views.partition_point(|view| starts_in(view, range, &none));
    let from = first_reached(views, range, &none);
    drop(none);
    (from, to)
}

/// The places of the views whose slot meets the range: from the first that the range starts in or before, to the last that starts in
/// the range or before it.
pub(crate) fn covering_part(views: &[SsTableView], range: &KeySpan<'_>) -> Range<usize>
    requires shown { all_show views.now ≡ true }
    requires ascending { ascend views.now ≡ true }
    ensures within { (result.start ≤ result.end) × (result.end ≤ length views.now) }
    ensures covering { covering range.now views.now ≡ slice_range views.now result.start result.end }
    ensures part { IsPartFor views.now range.now (covering range.now views.now) }
{
    ranges_are_sets();
    if !range.is_proper() {
        return 0..0;
    }
    let (from, to) = ends(views, range);
    if from < to { from..to } else { 0..0 }
}
