//! Tests of the rules on records of compactions and of their changes, on public calls alone.
#![tactic(auto)]

#[cfg(test)]
mod change_tests;
#[cfg(test)]
mod commit_tests;
#[cfg(test)]
mod rule_tests;
#[cfg(test)]
mod test_changes;
#[cfg(test)]
mod test_records;
