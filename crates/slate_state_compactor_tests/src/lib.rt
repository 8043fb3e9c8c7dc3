//! Tests of what a compactor holds, on public calls alone.
#![tactic(auto)]

#[cfg(test)]
mod end_tests;
#[cfg(test)]
mod merge_tests;
#[cfg(test)]
mod test_states;
