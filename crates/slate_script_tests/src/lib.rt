//! Tests of scripts and reports, on public calls alone.
#![tactic(auto)]

#[cfg(test)]
mod database_tests;
#[cfg(test)]
mod event_tests;
#[cfg(test)]
mod filter_tests;
#[cfg(test)]
mod line_tests;
#[cfg(test)]
mod record_tests;
#[cfg(test)]
mod test_scripts;
