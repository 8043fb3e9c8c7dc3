//! Tests of what calls make of a manifest, of the rules on new versions and of flushes, on public calls alone.
#![tactic(auto)]

#[cfg(test)]
mod change_tests;
#[cfg(test)]
mod checkpoint_tests;
#[cfg(test)]
mod cutoff_tests;
#[cfg(test)]
mod entry_tests;
#[cfg(test)]
mod flush_tests;
#[cfg(test)]
mod number_tests;
#[cfg(test)]
mod rules_tests;
#[cfg(test)]
mod run_tests;
#[cfg(test)]
mod test_values;
