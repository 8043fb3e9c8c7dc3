//! What a machine answers at a step.

use slate_ids::SlateDBError;

/// Whether the call is done.
#[derive(Debug, Drop)]
pub enum Step<R> {
    Again,
    Done(Result<R, SlateDBError>),
}
