//! Tests of tables, their views, runs, and records of compactions, on public calls alone.
#![tactic(auto)]

#[cfg(test)]
mod compaction_tests;
#[cfg(test)]
mod compactions_tests;
#[cfg(test)]
mod l0_overlap_tests;
#[cfg(test)]
mod plain_tests;
#[cfg(test)]
mod queue_tests;
#[cfg(test)]
mod sorted_run_tests;
#[cfg(test)]
mod ss_table_tests;
#[cfg(test)]
mod ss_table_view_tests;
#[cfg(test)]
mod test_values;
