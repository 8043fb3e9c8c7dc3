//! How the outside treats a store call.

/// What becomes of a store call.
#[derive(Clone, Copy, Debug, PartialEq, Eq)]
pub enum Mark {
    /// It has its effect and its answer.
    Good,
    /// It has no effect, and faults.
    Fail,
    /// It has its effect, and its answer is lost: it faults.
    Lost,
}
