//! What a plain call answers over a store that serves it well; replies that are told as others, and refusals of a value for what it is.
//! Laws of the definitions of the log and the holders, with no code of the product: each is what a function without work ensures.
#![tactic(auto)]

mod advances;
mod applies;
mod beginnings;
mod commits;
mod creations;
mod deletes;
mod elsewhere;
mod fences;
mod fine_objects;
mod holder_reads;
mod moves;
mod once_calls;
mod plain_logs;
mod reads;
mod replies;
mod updates;

pub use advances::advance_ends;
pub use applies::apply_ends;
pub use beginnings::first_ready;
pub use commits::commit_ends;
pub use creations::create_ends;
pub use deletes::delete_ends;
pub use elsewhere::{call_elsewhere, paths_aside, run_elsewhere};
pub use fences::fence_ends;
pub use fine_objects::{call_fine, paths_fine, run_fine};
pub use holder_reads::{load_ends, refresh_ends};
pub use moves::{fenced_moves_end, moves_end};
pub use once_calls::once_ends;
pub use plain_logs::plain_logs_are_inside;
pub use reads::read_ends;
pub use replies::{plain_holders_pass_on, versions_are_told_faithfully};
pub use updates::update_ends;
