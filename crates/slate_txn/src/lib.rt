//! Holders of a versioned log's versions, over any codec, rules and store.
#![tactic(auto)]

mod apply;
mod create;
mod fenced;
mod fenced_apply;
mod fenced_refresh;
mod fenced_update;
mod init;
mod load;
mod maybe_apply;
mod raise;
mod refresh;
mod stored;
mod update;

pub use apply::ApplyPhase;
pub use create::CreateMachine;
pub use fenced::Fenced;
pub use fenced_refresh::FencedRefreshMachine;
pub use fenced_update::FencedUpdateMachine;
pub use init::InitMachine;
pub use load::{LoadMachine, TryLoadMachine};
pub use raise::{prepare_epoch, prepare_raise};
pub use refresh::RefreshMachine;
pub use slate_ids::Epochs;
pub use slate_txn_log::{LogKind, Right, Rules, Sequenced};
pub use stored::{DirtyObject, Stored};
pub use update::UpdateMachine;
