//! Tests of merges, on public calls alone.
#![tactic(auto)]

#[cfg(test)]
mod manifest_tests;
#[cfg(test)]
mod segment_tests;
#[cfg(test)]
mod test_trees;
#[cfg(test)]
mod tree_tests;
