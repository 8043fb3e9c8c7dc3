//! Scripts and trails as values: databases as a run begins, its events and calls, what becomes of each event, replies, and causes.
#![tactic(auto)]

mod boxed;
mod call;
mod cluster_cause;
mod db_spec;
mod entry;
mod event;
mod filter_word;
mod flush_table;
mod party_kind;
mod reply;
mod script;

pub use boxed::Boxed;
pub use call::Call;
pub use cluster_cause::ClusterCause;
pub use db_spec::DbSpec;
pub use entry::Entry;
pub use event::Event;
pub use filter_word::FilterWord;
pub use flush_table::FlushTable;
pub use party_kind::PartyKind;
pub use reply::Reply;
pub use script::{Script, ScriptError, ScriptPlace};
