//! The pure definitions of a run: what the parties of a cluster do at each event. `specs/` has the definitions; here are
//! the types of a cluster's state that they speak of.
#![tactic(auto)]

mod call_ids;
mod carrier;
mod laws;
mod party;
mod tally;
mod uploads;
mod work;

pub use call_ids::CallIds;
pub use carrier::Carrier;
pub use laws::bad_events;
pub use party::{Facts, Party, State, Task};
pub use tally::Tally;
pub use uploads::{Upload, Uploads};
pub use work::Work;
