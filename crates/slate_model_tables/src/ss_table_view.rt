//! A view of a table: all of its keys, or a range of them.
ghost use Rattle.std.specs.Prelude.{◌≡◌, ℕ, List, true, false, IfOk, Some, None, is_some, option_copied};
ghost use Rattle.std.specs.Option.{ForSome};
ghost use Rattle.slate_ids.specs.KeyRange.{has_key, ranges_meet, no_keys, intersection};
ghost use Rattle.slate_model_tables.specs.Tables.{physical_range, table_size};
ghost use Rattle.slate_model_tables.specs.Views as views;
ghost use Rattle.slate_model_tables.specs.Views.{FitsId, MayShow, HasKey, starts_with_key, effective_range, view_range, projected};

use crate::ss_table_handle::SsTableHandle;
use crate::ss_table_id::SsTableId;
use bytes::Bytes;
use slate_ids::{BytesRange, KeySpan, OutOfMemory, Plain, Ulid, ranges_are_sets};
use std::alloc::Global;
use std::marker::Model;
use std::ops::Bound;

/// A view of a table. Its physical range goes from the table's first entry to its last one, both included; without a last entry it
/// is unbounded above, and without a first entry it has no keys. Its effective range is the physical range met with the visible one,
/// or the physical range where there is no visible one.
#[derive(Debug, Drop)]
pub struct SsTableView {
    /// Which view.
    pub id: Ulid,
    /// The table.
    pub sst: SsTableHandle,
    visible: Option<BytesRange>,
}

impl Model for SsTableView {
    ghost use Rattle.slate_model_tables.specs.Views.{View, MayShow};

    ghost Value = { View };

    ghost view = { λ a. record { id = a.id; sst = a.sst; visible = a.visible } };

    ghost invariant = { λ a. MayShow a.sst a.visible };

    ghost inverse = { λ d. record { id = d.id; sst = d.sst; visible = d.visible } };
}

// The id of a table's own view.
fn own_id(id: SsTableId) -> Ulid
    requires { FitsId id }
    ensures { result ≡ views.own_id id }
{
    match id {
        SsTableId::Wal(number) => Ulid::from_parts(number, 0),
        SsTableId::Compacted(id) => id,
    }
}

// Whether a range has the key that it starts at.
fn has_first_key(range: &KeySpan<'_>) -> bool
    ensures { result ≡ views.has_first_key range.now.start range.now.end }
{
    match range.start_bound() {
        Bound::Included(key) => range.contains(key),
        Bound::Excluded(_) | Bound::Unbounded => false,
    }
}

// What two ranges have in common, where that is proper.
fn common_range(a: &KeySpan<'_>, b: &KeySpan<'_>) -> Result<Option<BytesRange>, OutOfMemory>
    ensures { IfOk result (λ r. r ≡ intersection a.now b.now) }
{
    let common = a.common(b);
    if common.is_proper() {
        Ok(Some(common.to_range()?))
    } else {
        Ok(None)
    }
}

impl SsTableView {
    /// A view of all of a table.
    pub fn new(id: Ulid, sst: SsTableHandle) -> SsTableView
        ensures { result ≡ record { id = id; sst = sst; visible = None } }
    {
        SsTableView {
            id,
            sst,
            visible: None,
        }
    }

    /// The table's own view of all of it. Its id is the table's; of a file of the write-ahead log, its number as milliseconds.
    pub fn identity(sst: SsTableHandle) -> SsTableView
        requires number_fits { FitsId sst.id }
        ensures { result ≡ record { id = views.own_id sst.id; sst = sst; visible = None } }
    {
        SsTableView::new(own_id(sst.id), sst)
    }

    /// A view of a table that has a first entry: of all of it, or of a range that starts at a key or is open there, and that meets the
    /// physical range.
    pub fn new_projected(id: Ulid, sst: SsTableHandle, visible: Option<BytesRange>) -> SsTableView
        requires entries { is_some sst.info.first_entry ≡ true }
        requires start { ForSome visible (λ r. starts_with_key r.start ≡ true) }
        requires meets { ForSome visible (λ r. ranges_meet (physical_range sst) r ≡ true) }
        ensures { result ≡ record { id = id; sst = sst; visible = visible } }
    {
        SsTableView { id, sst, visible }
    }

    // The keys of the table.
    fn physical_span<'a>(&'a self, none: &'a BytesRange) -> KeySpan<'a>
        requires { none.now ≡ no_keys }
        ensures { result ≡ physical_range self.now.sst }
    {
        match (&self.sst.info.first_entry, &self.sst.info.last_entry) {
            (None, _) => none.as_span(),
            (Some(first), None) => KeySpan::new(Bound::Included(first), Bound::Unbounded),
            (Some(first), Some(last)) => {
                KeySpan::new(Bound::Included(first), Bound::Included(last))
            }
        }
    }

    /// The view's effective range. `none` stands for the keys of a table without a first entry.
    pub fn effective_span<'a>(&'a self, none: &'a BytesRange) -> KeySpan<'a>
        requires { none.now ≡ no_keys }
        ensures { result ≡ effective_range self.now }
    {
        let physical = self.physical_span(none);
        match &self.visible {
            Some(visible) => physical.common(&visible.as_span()),
            None => physical,
        }
    }

    /// Whether the view shows a key: it shows the one that it starts at. It does exactly where its effective range has a key.
    pub fn shows_key(&self) -> bool
        ensures shows { result ≡ views.shows_key self.now }
        ensures some { views.shows_key self.now ≡ true → HasKey (effective_range self.now) }
        ensures none { views.shows_key self.now ≡ false
            → (key : List ℕ) → has_key (effective_range self.now) key ≡ false }
    {
        ranges_are_sets();
        let _shown = self.visible_range();
        let none = BytesRange::new_empty();
        let shows = has_first_key(&self.effective_span(&none));
        drop(none);
        shows
    }

    /// The view with this visible range, which starts at a key or is open there; None where it misses the physical range.
    pub fn try_with_visible_range(
        &self,
        alloc: Global,
        visible: BytesRange,
    ) -> Result<Option<SsTableView>, OutOfMemory>
        requires start { starts_with_key visible.start ≡ true }
        ensures { IfOk result (λ v. v ≡ projected self.now visible) }
    {
        let none = BytesRange::new_empty();
        let meets = self.physical_span(&none).meets(&visible.as_span());
        drop(none);
        if !meets {
            drop(visible);
            return Ok(None);
        }
        match self.sst.clone(alloc) {
            Ok(sst) => Ok(Some(SsTableView {
                id: self.id,
                sst,
                visible: Some(visible),
            })),
            Err(e) => {
                drop(visible);
                Err(e)
            }
        }
    }

    /// The keys that are visible, where not all of the table's are.
    pub fn visible_range(&self) -> Option<&BytesRange>
        ensures range { option_copied result ≡ self.now.visible }
        ensures shown { MayShow self.now.sst self.now.visible }
    {
        self.visible.as_ref()
    }

    /// What a reader of this range reads: the range met with the visible range, or else, where the table's last entry is known, with
    /// the effective range, or else the range as it is. None where they don't meet.
    pub fn calculate_view_range(&self, range: BytesRange) -> Result<Option<BytesRange>, OutOfMemory>
        ensures { IfOk result (λ r. r ≡ view_range self.now range self.now.visible) }
    {
        if let Some(visible) = &self.visible {
            let common = range.intersect(visible);
            drop(range);
            return common;
        }
        if self.sst.info.last_entry.is_none() {
            return Ok(Some(range));
        }
        let none = BytesRange::new_empty();
        let common = common_range(&range.as_span(), &self.effective_span(&none));
        drop(none);
        drop(range);
        common
    }

    /// About how many bytes the table has, saturating.
    pub fn estimate_size(&self) -> u64
        ensures { result ≡ table_size self.now.sst }
    {
        self.sst.estimate_size()
    }

    /// An equal value. It shares the keys.
    pub fn clone(&self, alloc: Global) -> Result<SsTableView, OutOfMemory>
        ensures { IfOk result (λ copied. copied ≡ self.now) }
    {
        let sst = self.sst.clone(alloc)?;
        match Plain::clone(&self.visible, alloc) {
            Ok(visible) => Ok(SsTableView {
                id: self.id,
                sst,
                visible,
            }),
            Err(e) => {
                drop(sst);
                Err(e)
            }
        }
    }
}

impl Plain for SsTableView {
    fn clone(&self, alloc: Global) -> Result<SsTableView, OutOfMemory> {
        SsTableView::clone(self, alloc)
    }

    fn is(&self, other: &SsTableView) -> bool {
        self.id == other.id && self.sst.is(&other.sst) && self.visible.is(&other.visible)
    }
}
