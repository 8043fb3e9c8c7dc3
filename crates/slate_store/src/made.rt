//! Store calls that were made.

use crate::store_answer::StoreAnswer;
use crate::store_call::StoreCall;

/// A call that was made, with its answer.
#[derive(Debug, Drop)]
pub struct Made {
    pub call: StoreCall,
    pub answer: StoreAnswer,
}
