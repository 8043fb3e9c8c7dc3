//! Tables, views and ranges for tests, and whether copies are equal.

use bytes::Bytes;
use slate_ids::{BytesRange, KeySpan, Ulid};
use slate_model_tables::{Plain, SsTableHandle, SsTableId, SsTableInfo, SsTableView};
use std::alloc::Global;
use std::ops::Bound;
use std::process::Abort;

/// The start or the end of a range of keys.
pub(crate) type Side = Bound<&'static str>;

/// The id of a small number.
pub(crate) fn id(number: u8) -> Ulid {
    Ulid::from_parts(u64::from(number), 0)
}

fn info(first: &'static str, last: &'static str) -> SsTableInfo {
    let mut info = SsTableInfo::default();
    info.first_entry = Some(Bytes::from(first));
    info.last_entry = Some(Bytes::from(last));
    info
}

/// A table whose keys go from a first entry to a last one.
pub(crate) fn table(number: u8, first: &'static str, last: &'static str) -> SsTableHandle {
    SsTableHandle {
        id: SsTableId::Compacted(id(number)),
        format_version: 2,
        info: info(first, last),
    }
}

/// The own view of such a table.
pub(crate) fn view(number: u8, first: &'static str, last: &'static str) -> SsTableView {
    SsTableView::identity(SsTableHandle {
        id: SsTableId::Compacted(id(number)),
        format_version: 2,
        info: info(first, last),
    })
}

fn owned(side: Side) -> Bound<Bytes> {
    match side {
        Bound::Included(key) => Bound::Included(Bytes::from(key)),
        Bound::Excluded(key) => Bound::Excluded(Bytes::from(key)),
        Bound::Unbounded => Bound::Unbounded,
    }
}

/// A range between these sides, which make a proper one.
pub(crate) fn range(rt: &impl Abort, start: Side, end: Side) -> BytesRange {
    let start = owned(start);
    let end = owned(end);
    assert!(rt;
        KeySpan::new(start.as_ref(), end.as_ref()).is_proper(),
        "no proper range"
    );
    BytesRange::new(start, end)
}

/// Whether the copy of a value is equal to it.
pub(crate) fn is_copied<T: Plain + Drop>(rt: &impl Abort, alloc: Global, value: T) -> bool {
    let copied = value.clone(alloc).expect(rt, "memory");
    let is_so = value.is(&copied);
    drop(copied);
    drop(value);
    is_so
}
