//! Tests of the writer and of the reader of a compactor's state, on public calls alone. A table has rows of a call and its answer, which
//! one interpreter goes through in order.
#![tactic(auto)]

#[cfg(test)]
mod call_tests;
#[cfg(test)]
mod calls;
#[cfg(test)]
mod others;
#[cfg(test)]
mod race_tests;
#[cfg(test)]
mod racing_store;
#[cfg(test)]
mod step_tests;
#[cfg(test)]
mod test_lives;
#[cfg(test)]
mod view_tests;
