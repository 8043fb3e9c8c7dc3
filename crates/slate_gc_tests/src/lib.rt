//! Tests of the collector, of its passes and of what they pick, on public calls alone.
#![tactic(auto)]

#[cfg(test)]
mod filter_tests;
#[cfg(test)]
mod once_tests;
#[cfg(test)]
mod pass_tests;
#[cfg(test)]
mod plain_call_tests;
#[cfg(test)]
mod run_tests;
#[cfg(test)]
mod test_collectors;
#[cfg(test)]
mod test_filters;
#[cfg(test)]
mod test_stores;
#[cfg(test)]
mod wal_tests;
