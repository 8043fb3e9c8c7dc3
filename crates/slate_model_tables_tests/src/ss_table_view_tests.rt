//! Views of tables.

use crate::test_values::{Side, is_copied, range, view};
use slate_ids::BytesRange;
use slate_model_tables::SsTableView;
use std::alloc::Global;
use std::ops::Bound::{self, Included, Unbounded};
use std::process::Abort;

/// The view that shows this range of another one, where it meets the table's.
fn shown(
    rt: &impl Abort,
    alloc: Global,
    whole: &SsTableView,
    visible: BytesRange,
) -> Option<SsTableView> {
    match visible.start_bound() {
        Bound::Excluded(_) => {
            drop(visible);
            None
        }
        Bound::Included(_) | Bound::Unbounded => whole
            .try_with_visible_range(alloc, visible)
            .expect(rt, "memory"),
    }
}

/// Whether a view is there, and shows this range.
fn has_visible(view: &Option<SsTableView>, range: &BytesRange) -> bool {
    match view {
        Some(view) => match view.visible_range() {
            Some(visible) => visible.is(range),
            None => false,
        },
        None => false,
    }
}

/// Whether a view can show the range from a side to another.
fn shows_from(rt: &impl Abort, alloc: Global, whole: &SsTableView, start: Side, end: Side) -> bool {
    let wanted = range(rt, start, end);
    let shown = shown(rt, alloc, whole, range(rt, start, end));
    let is_so = has_visible(&shown, &wanted);
    drop(shown);
    drop(wanted);
    is_so
}

fn shows_what_it_has(rt: &impl Abort, alloc: Global, whole: &SsTableView) {
    assert!(rt; shows_from(rt, alloc, whole, Included("b"), Included("c")));
    assert!(rt; !shows_from(rt, alloc, whole, Included("zz"), Unbounded));
}

#[test]
fn a_visible_range_meets_the_keys(rt: HostRuntime) {
    let whole = view(1, "a", "z");
    shows_what_it_has(&rt, rt.alloc(), &whole);
    drop(whole);
}

/// What a reader of a range reads.
fn read(rt: &impl Abort, whole: &SsTableView, range: BytesRange) -> Option<BytesRange> {
    whole.calculate_view_range(range).expect(rt, "memory")
}

/// Whether a range is there, and is another one.
fn is(found: &Option<BytesRange>, wanted: &BytesRange) -> bool {
    match found {
        Some(found) => found.is(wanted),
        None => false,
    }
}

/// Whether a reader from b to zz reads from b to z.
fn reads_to_z(rt: &impl Abort, whole: &SsTableView) -> bool {
    let found = read(rt, whole, range(rt, Included("b"), Included("zz")));
    let wanted = range(rt, Included("b"), Included("z"));
    let is_so = is(&found, &wanted);
    drop(wanted);
    drop(found);
    is_so
}

#[test]
fn a_reader_reads_what_the_table_has(rt: HostRuntime) {
    let whole = view(1, "a", "z");
    let is_so = reads_to_z(&rt, &whole);
    drop(whole);
    assert!(rt; is_so);
}

/// Whether the view from b to c of a table from a to z has an equal copy.
fn is_view_copied(rt: &impl Abort, alloc: Global) -> bool {
    let visible = range(rt, Included("b"), Included("c"));
    let whole = view(1, "a", "z");
    let shown = shown(rt, alloc, &whole, visible);
    drop(whole);
    is_copied(rt, alloc, shown)
}

#[test]
fn a_copy_of_a_view_is_equal(rt: HostRuntime) {
    assert!(rt; is_view_copied(&rt, rt.alloc()));
}
