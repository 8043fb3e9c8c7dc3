//! How a run begins: the state that databases open with, or the first cause that refuses them; and what is noted of their ids
//! and committed numbers from then on.
#![tactic(auto)]

mod carried;
mod causes;
mod ids;
mod laws;
mod new_error;
mod objects;
mod opening;
mod opening_ids;
mod pools;
mod tallies;

pub use carried::{Carried, Noted, are_stale, carry, uncarry};
pub use laws::nothing_comes_twice;
pub use new_error::NewError;
pub use opening::{Opening, opened};
pub use tallies::{Tallies, count, tally};
