//! Whether the views of a run are in order.
ghost use Rattle.std.specs.Prelude.{◌≡◌, ◌<◌, ◌+◌, length, get_or, drop};
ghost use Rattle.slate_ids.specs.Keys.{pointed};
ghost use Rattle.slate_model_tables.specs.SortedRuns as runs;
ghost use Rattle.slate_model_tables.specs.Views.{View};

use crate::ss_table_view::SsTableView;
use bytes::Bytes;
use slate_ids::BytesRange;
use std::collections::VecDeque;
use std::ops::Bound;

/// Whether each view shows a key.
pub(crate) fn all_show(views: &[SsTableView]) -> bool
    ensures { result ≡ runs.all_show views.now }
{
    views.iter().all(|view| view.shows_key())
}

/// Whether each view of L0 shows a key.
pub fn all_show_keys(l0: &VecDeque<SsTableView>) -> bool
    ensures { result ≡ runs.all_show l0.now.items }
{
    for i in 0..l0.len() {
        if !l0[i].shows_key() {
            return false;
        }
    }
    true
}

/// Whether each view is of a compacted table.
pub(crate) fn all_compacted(views: &[SsTableView]) -> bool
    ensures { result ≡ runs.all_compacted views.now }
{
    views.iter().all(|view| view.sst.id.is_compacted())
}

// Whether an end is at or before the key that a start has.
fn ends_by(end: Bound<&Bytes>, start: Bound<&Bytes>) -> bool
    ensures { result ≡ runs.ends_by (pointed end.entry) (pointed start.entry) }
{
    match (end, start) {
        (Bound::Included(e) | Bound::Excluded(e), Bound::Included(s)) => e
            .as_slice()
            .cmp(s.as_slice())
            .is_le(),
        _ => false,
    }
}

// Whether the effective range of the view at a place ends at or before the first key of the next one's.
fn ends_before_next(views: &[SsTableView], place: usize) -> bool
    requires { place < length views.now }
    ensures { (d : View)
        → result ≡ runs.ends_before_next (get_or views.now place d) (drop (place + 1) views.now) }
{
    let none = BytesRange::new_empty();
    let own = views[place].effective_span(&none);
    let ends = match views[place + 1..].first() {
        Some(next) => ends_by(own.end_bound(), next.effective_span(&none).start_bound()),
        None => true,
    };
    drop(none);
    ends
}

/// Whether views ascend, and overlap at most at a boundary key.
pub(crate) fn ascend(views: &[SsTableView]) -> bool
    ensures { result ≡ runs.ascend views.now }
{
    for i in 0..views.len() {
        if !ends_before_next(views, i) {
            return false;
        }
    }
    true
}
