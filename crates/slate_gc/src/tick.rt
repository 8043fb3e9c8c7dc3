//! Ticks: when which pass is to run.

use slate_ids::{GcMessage, Millis};

/// What a source of ticks answers.
#[derive(Clone, Copy, Debug, PartialEq, Eq)]
pub enum Tick {
    /// This pass is to run at this moment.
    At(GcMessage, Millis),
    /// No pass is to run any more.
    Stop,
}
