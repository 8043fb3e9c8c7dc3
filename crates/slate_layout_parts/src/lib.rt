//! Parts of a layout: values that bytes begin with. Numbers, texts, ids, ranges of keys, tables, their views and runs, and what
//! a compaction is to do and has done.
#![tactic(auto)]

mod compaction_parts;
mod form;
mod groups;
mod info_codec;
mod infos;
mod laws;
mod lengths;
mod numbers;
mod part;
mod ranges;
mod reader;
mod sources;
mod tables;
mod tags;
mod texts;
mod views;

pub use form::{Form, Itself, ListOf, write_list};
pub use groups::{has_room, write_items};
pub use info_codec::{decode_info, encode_info, is_short};
pub use infos::are_entries;
pub use laws::lists_are_whole;
pub use lengths::{few, short_bound};
pub use numbers::write_count;
pub use part::Part;
pub use reader::Reader;
pub use sources::{Scope, run_count, sources_of, view_count};
pub use tables::{Tables, is_compacted, parts_of, table_id};
pub use views::may_show;
