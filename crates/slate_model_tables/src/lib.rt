//! Tables, their views, sorted runs, and copies and equality of values.
#![tactic(auto)]

mod covering;
mod l0_overlap;
mod order;
mod queue;
mod sorted_run;
mod ss_table_handle;
mod ss_table_id;
mod ss_table_info;
mod ss_table_view;
mod table_tags;

pub use l0_overlap::max_l0_overlap;
pub use order::all_show_keys;
pub use queue::Queue;
pub use slate_ids::{Plain, are_same, copies};
pub use sorted_run::SortedRun;
pub use ss_table_handle::SsTableHandle;
pub use ss_table_id::SsTableId;
pub use ss_table_info::SsTableInfo;
pub use ss_table_view::SsTableView;
pub use table_tags::{CompressionTag, FilterFormat, SstType};
