//! How many views of L0 show one key.

use crate::test_values::view;
use slate_model_tables::{SsTableView, all_show_keys, max_l0_overlap};
use std::alloc::Global;
use std::collections::VecDeque;
use std::process::Abort;

type Ends = (&'static str, &'static str);

fn views_of(rt: &impl Abort, alloc: Global, ends: &[Ends]) -> VecDeque<SsTableView> {
    let mut views = VecDeque::new(alloc);
    for (first, last) in ends {
        views.push_back(view(1, first, last)).expect(rt, "memory");
    }
    views
}

/// The greatest number of views from and to these keys that show one key.
fn overlap(rt: &impl Abort, alloc: Global, ends: &[Ends]) -> usize {
    let views = views_of(rt, alloc, ends);
    assert!(rt; all_show_keys(&views));
    let overlap = max_l0_overlap(alloc, &views);
    drop(views);
    overlap.expect(rt, "memory")
}

#[test]
fn views_overlap_at_keys(rt: HostRuntime) {
    let alloc = rt.alloc();
    assert!(rt; overlap(&rt, alloc, &[]) == 0);
    assert!(rt; overlap(&rt, alloc, &[("a", "c"), ("b", "d"), ("c", "e")]) == 3);
    assert!(rt; overlap(&rt, alloc, &[("a", "z"), ("c", "d"), ("e", "f")]) == 2);
}
