//! The object store: the trait, what its calls mean, how they are made and told, and a store in memory. And where bytes
//! come from and go to: sources and sinks that count their faults.
#![tactic(auto)]

mod list_dir;
mod listing;
mod made;
mod mark;
mod marks;
mod memory_store;
mod object;
mod performing;
mod reading;
mod sink;
mod source;
mod std_ends;
mod step;
mod store;
mod store_answer;
mod store_call;
mod writing;

pub use list_dir::ListDir;
pub use made::Made;
pub use mark::Mark;
pub use memory_store::MemoryStore;
pub use object::{ObjectMetadata, StoredObject, copy_listing};
pub use performing::perform;
pub use reading::{ReadError, read_all};
pub use sink::{MemorySink, Sink, WriteFault};
pub use source::{MemorySource, ReadFault, Source};
pub use std_ends::{StdSink, StdSource};
pub use step::Step;
pub use store::{ObjectStore, StoreError};
pub use store_answer::StoreAnswer;
pub use store_call::StoreCall;
pub use writing::write_all;
