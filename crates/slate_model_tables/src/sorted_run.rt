//! A sorted run.
ghost use Rattle.std.specs.Prelude.{◌≡◌, true, map, IfOk};
ghost use Rattle.slate_model_tables.specs.SortedRuns.{run_size, spans_meet, only_key, in_order, covering, IsPartFor};

use crate::covering::covering_part;
use crate::order::{all_compacted, all_show, ascend};
use crate::ss_table_view::SsTableView;
use bytes::Bytes;
use slate_ids::{BytesRange, KeySpan, Listed, OutOfMemory, Plain};
use std::alloc::Global;
use std::collections::VecDeque;
use std::marker::Model;
use std::ops::Bound;

/// Views in the order of their keys.
#[derive(Debug, Drop)]
pub struct SortedRun {
    /// Which run. Runs with a greater number are newer.
    pub id: u32,
    views: Listed<SsTableView>,
}

impl Model for SortedRun {
    ghost use Rattle.slate_model_tables.specs.SortedRuns.{Run};

    ghost Value = { Run };

    ghost view = { λ a. record { id = a.id; views = a.views } };

    ghost inverse = { λ d. record { id = d.id; views = d.views } };
}

impl SortedRun {
    /// The run of these views. Takes no memory.
    pub fn new(id: u32, views: Vec<SsTableView>) -> SortedRun
        ensures { result ≡ record { id = id; views = views.items } }
    {
        SortedRun {
            id,
            views: Listed::from_vec(views),
        }
    }

    /// The views, in order.
    pub fn sst_views(&self) -> &[SsTableView]
        ensures { result.now ≡ self.now.views }
    {
        self.views.as_slice()
    }

    /// About how many bytes the views' tables have together, saturating.
    pub fn estimate_size(&self) -> u64
        ensures { result ≡ run_size self.now.views }
    {
        let mut size = 0u64;
        for view in self.views.as_slice() {
            size = size.saturating_add(view.estimate_size());
        }
        size
    }

    /// Whether the keys from the start of the first view's effective range to the end of the last view's meet the range; a run without
    /// views has none. Takes no memory.
    pub fn overlaps_range(&self, range: &BytesRange) -> Result<bool, OutOfMemory>
        ensures { result ≡ Ok (spans_meet self.now.views range.now) }
    {
        let none = BytesRange::new_empty();
        let views = self.sst_views();
        let (Some(first), Some(last)) = (views.first(), views.last()) else {
            drop(none);
            return Ok(false);
        };
        let span = KeySpan::new(
            first.effective_span(&none).start_bound(),
            last.effective_span(&none).end_bound(),
        );
        let overlaps = span.meets(&range.as_span());
        drop(none);
        Ok(overlaps)
    }

    /// Whether each view shows a key and is of a compacted table, and the views ascend, and overlap at most at a boundary key.
    pub fn is_in_order(&self) -> bool
        ensures { result ≡ in_order self.now.views }
    {
        let views = self.sst_views();
        all_show(views) && all_compacted(views) && ascend(views)
    }

    /// The views whose slot meets the range, in order: they stand together, and each view whose effective range meets the range is among
    /// them. A slot goes from the start of the view's effective range to the start of the next view's, included where the view has that
    /// key; the last view's is unbounded above. The run is in order, as `is_in_order` tells.
    pub fn tables_covering_range(
        &self,
        alloc: Global,
        range: &BytesRange,
    ) -> Result<VecDeque<&SsTableView>, OutOfMemory>
        requires { in_order self.now.views ≡ true }
        ensures covering { IfOk result
            (λ found. map (λ v. v.now) found.items ≡ covering range.now self.now.views) }
        ensures part { IfOk result
            (λ _. IsPartFor self.now.views range.now (covering range.now self.now.views)) }
    {
        let views = self.sst_views();
        let mut found = VecDeque::new(alloc);
        for view in &views[covering_part(views, &range.as_span())] {
            match found.push_back(view) {
                Ok(()) => {}
                Err(e) => {
                    drop(found);
                    return Err(OutOfMemory::from(e));
                }
            }
        }
        Ok(found)
    }

    /// The views whose slot has the key, as `tables_covering_range` of the range of that key alone.
    pub fn tables_covering_point_key(
        &self,
        alloc: Global,
        key: &[u8],
    ) -> Result<&[SsTableView], OutOfMemory>
        requires { in_order self.now.views ≡ true }
        ensures covering { IfOk result (λ part. part.now ≡ covering (only_key key.now) self.now.views) }
        ensures part { IfOk result (λ _. IsPartFor self.now.views (only_key key.now)
            (covering (only_key key.now) self.now.views)) }
    {
        let key = Bytes::copy_from_slice(alloc, key)?;
        let range = KeySpan::new(Bound::Included(&key), Bound::Included(&key));
        let views = self.sst_views();
        let part = covering_part(views, &range);
        drop(key);
        Ok(&views[part])
    }

    /// An equal value. It shares the keys.
    pub fn clone(&self, alloc: Global) -> Result<SortedRun, OutOfMemory>
        ensures { IfOk result (λ copied. copied ≡ self.now) }
    {
        Ok(SortedRun {
            id: self.id,
            views: self.views.clone(alloc)?,
        })
    }
}

impl Plain for SortedRun {
    fn clone(&self, alloc: Global) -> Result<SortedRun, OutOfMemory> {
        SortedRun::clone(self, alloc)
    }

    fn is(&self, other: &SortedRun) -> bool {
        self.id == other.id && self.views.is(&other.views)
    }
}
