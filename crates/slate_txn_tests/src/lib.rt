//! Tests of ids, paths, ranges, refusals and stores, of logs, of changes of their latest versions and of their holders, on public calls
//! alone. A case has rows of a call and its answer, which one interpreter goes through in order.
#![tactic(auto)]

#[cfg(test)]
mod bytes_range_tests;
#[cfg(test)]
mod call_tests;
#[cfg(test)]
mod calls;
#[cfg(test)]
mod change_tests;
#[cfg(test)]
mod copy_tests;
#[cfg(test)]
mod db_path_tests;
#[cfg(test)]
mod error_tests;
#[cfg(test)]
mod memory_store_tests;
#[cfg(test)]
mod object_path_tests;
#[cfg(test)]
mod performing_tests;
#[cfg(test)]
mod phase_tests;
#[cfg(test)]
mod reading_tests;
#[cfg(test)]
mod rival_store;
#[cfg(test)]
mod steps;
#[cfg(test)]
mod test_logs;
#[cfg(test)]
mod test_values;
#[cfg(test)]
mod ulid_tests;
#[cfg(test)]
mod writing_tests;
